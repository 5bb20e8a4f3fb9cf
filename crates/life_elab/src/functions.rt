// The core of a function.
ghost use Rattle.std.specs.Prelude.{◌≡◌, ◌<◌, ◌^◌, IfOk, OnOk, Some, length};
ghost use Rattle.life_core.specs.Function.{function_of, promise_of};
ghost use Rattle.life_typed.specs.TypedStatement.{block_view};
ghost use Rattle.life_types.specs.Types as types;
ghost use Rattle.life_writer.specs.Around.{type_of};
ghost use Rattle.life_writer.specs.Temporaries.{nameless_of};
ghost use Rattle.life_elab.specs.Functions as shared;
ghost use Rattle.life_elab.specs.ProgramForms as spec;
ghost use Rattle.life_typed.specs.Programs.{function_view, promise_view};
ghost use Rattle.life_writer.specs.Views.{around_of, state_of};

use crate::ends::block_ends;
use crate::statements::{leave, write_block_items};
use life_core::{CoreFn, Local, LocalKind, Promise, Stmt};
use life_typed::{ParameterPromise, ResultPromise, TypedBlock, TypedFunction, TypedLocal};
use life_types::{Class, NoMemory, Ty, TypeTable};
use life_writer::{Around, Writer, class, nameless_of, number, variable_local};
use std::alloc::Global;

// A parameter: a variable that lives from the start, with what its attributes say.
fn parameter_local(a: &Around, promise: &ParameterPromise, variable: &TypedLocal) -> Local
    ensures { result ≡ shared.parameter_local (around_of a.now) promise.now variable.now }
{
    let local = variable_local(a, variable);
    Local {
        nonnull: promise.nonnull,
        keeps: promise.keeps,
        ..local
    }
}

fn add_parameters(writer: &mut Writer, a: &Around) -> Result<(), NoMemory>
    ensures { OnOk result (state_of writer.new ≡ shared.with_parameters (around_of a.now) (around_of a.now).function.parameters (around_of a.now).function.locals (state_of writer.old)) }
{
    'parameters: for (number, promise) in a.function.parameters.iter().enumerate() {
        match a.function.locals.get(number) {
            Some(variable) => {
                writer.add_variable(parameter_local(a, promise, variable))?;
            }
            None => return Ok(()),
        }
    }
    Ok(())
}

// A value or a pointer is given back in a register, and an owner or a struct as an object.
fn result_kind(class: Class) -> LocalKind
    ensures { result ≡ spec.result_kind class }
{
    match class {
        Class::Value => LocalKind::Register,
        Class::Pointer => LocalKind::Register,
        Class::Owner => LocalKind::Object,
        Class::Aggregate => LocalKind::Object,
    }
}

// The local of a result of a type.
fn result_local(a: &Around, ty: Ty) -> Local
    ensures { result ≡ nameless_of (spec.result_kind (types.class (Some ty))) (around_of a.now).function.place (around_of a.now).function.result }
{
    nameless_of(result_kind(class(ty)), a.function.place, a.function.result)
}

// The result is a local where it isn't void, which stands where the function's name does.
#[tactic(auto, unfolding(life_writer::specs::Views::state_of))]
fn add_result(writer: &mut Writer, a: &Around) -> Result<(), NoMemory>
    ensures { OnOk result (state_of writer.new ≡ spec.with_result (around_of a.now) (type_of (around_of a.now) (around_of a.now).function.result) (state_of writer.old)) }
{
    match a.type_of(a.function.result) {
        Ty::Void => Ok(()),
        ty => {
            writer.add_local(result_local(a, ty))?;
            Ok(())
        }
    }
}

// The body. Control that runs past its last statement ends the variables and the parameters, and
// returns ([stmt.return]/2).
fn write_body(writer: &mut Writer, a: &Around, body: &TypedBlock) -> Result<(), NoMemory>
    ensures { OnOk result (state_of writer.new ≡ spec.body (around_of a.now) (block_view body.now) (state_of writer.old)) }
{
    write_block_items(writer, a, &body.items)?;
    if block_ends(body) {
        return Ok(());
    }
    leave(writer, 0, body.closing, Stmt::Return(body.closing))
}

// What is promised of the pointers in the result.
fn promise(promise: &ResultPromise) -> Result<Promise, NoMemory>
    ensures { IfOk result (λ p. promise_of p ≡ shared.promise_of (promise_view promise.now)) }
{
    match promise {
        ResultPromise::Default => Ok(Promise::Default),
        ResultPromise::Listed {
            parameters,
            fixed,
            null,
        } => Ok(Promise::Listed {
            inputs: parameters.clone()?,
            fixed: *fixed,
            null: *null,
        }),
    }
}

// The function of what has been written, and the table. Its locals have numbers of 32 bits.
#[tactic(auto, unfolding(life_writer::specs::Views::state_of))]
fn function_from(function: &TypedFunction, writer: Writer) -> Result<(CoreFn, TypeTable), NoMemory>
    ensures function { IfOk result (λ r. function_of r.0 ≡ shared.function_from (function_view function.now) (state_of writer)) }
    ensures numbered { IfOk result (λ r. length (function_of r.0).locals < 2 ^ 32) }
    ensures types { IfOk result (λ r. r.1 ≡ (state_of writer).types) }
{
    let Writer {
        types,
        locals,
        code,
        ..
    } = writer;
    number(locals.len())?;
    let function = CoreFn {
        name: function.name,
        place: function.place,
        parameters: number(function.parameters.len())?,
        result: function.result,
        promise: promise(&function.promise)?,
        locals,
        body: Stmt::List(code),
    };
    Ok((function, types))
}

/// The core of a function, where the table has these types before, and the table behind it. Its locals
/// have numbers of 32 bits.
///
/// # Errors
///
/// For want of memory, which more locals count as.
pub(crate) fn function(
    alloc: Global,
    a: &Around,
    types: TypeTable,
) -> Result<(CoreFn, TypeTable), NoMemory>
    ensures function { IfOk result (λ r. function_of r.0 ≡ shared.function_from (around_of a.now).function (spec.written (around_of a.now) types)) }
    ensures numbered { IfOk result (λ r. length (function_of r.0).locals < 2 ^ 32) }
    ensures types { IfOk result (λ r. r.1 ≡ (spec.written (around_of a.now) types).types) }
{
    let mut writer = Writer::new(alloc, types);
    add_parameters(&mut writer, a)?;
    add_result(&mut writer, a)?;
    write_body(&mut writer, a, &a.function.body)?;
    function_from(a.function, writer)
}
