// Declarations of variables (ISO/IEC 14882:2017 [dcl.init], [stmt.dcl]).
ghost use Rattle.std.specs.Prelude.{◌≡◌, OnOk, Some, slice_get};
ghost use Rattle.life_typed.specs.TypedStatement.{declaration_view, initial_view, optional_view};
ghost use Rattle.life_writer.specs.Around.{type_of};
ghost use Rattle.life_writer.specs.Answers.{Answers};
ghost use Rattle.life_elab.specs.DeclarationForms as spec;
ghost use Rattle.life_elab.specs.Declarations as declarations;
ghost use Rattle.life_writer.specs.Views.{around_of, destination_of, state_of};

use life_core::Source;
use life_typed::{TypedDeclaration, TypedInitial, TypedLocal};
use life_types::{NoMemory, Place, Ty};
use life_writer::{Around, Destination, Keeping, Last, Pointing, Writer, variable_local};

/// Where a variable comes to life: it isn't visible in what it is given.
pub(crate) fn home(a: &Around, variable: &TypedLocal) -> Destination
    ensures { destination_of result ≡ declarations.variable (around_of a.now) variable.now }
{
    Destination::Variable(variable_local(a, variable), variable.place)
}

// A view or a span without an initialiser is empty.
fn empty(writer: &mut Writer, a: &Around, variable: &TypedLocal) -> Result<u32, NoMemory>
    ensures { Answers (λ x. x) result (spec.empty (declarations.variable (around_of a.now) variable.now) (state_of writer.old)) (state_of writer.new) }
{
    let last = Last::Point(variable.place, Pointing::At(Source::Empty));
    writer.built(last, home(a, variable))
}

// .. and anything else comes to life by itself.
fn default(writer: &mut Writer, a: &Around, variable: &TypedLocal) -> Result<u32, NoMemory>
    ensures { Answers (λ x. x) result (spec.default_to (type_of (around_of a.now) variable.now.ty) (declarations.variable (around_of a.now) variable.now) (state_of writer.old)) (state_of writer.new) }
{
    match a.type_of(variable.ty) {
        Ty::View => empty(writer, a, variable),
        Ty::Span { .. } => empty(writer, a, variable),
        _ => writer.live(home(a, variable)),
    }
}

// A variable that is given an expression or a list.
fn given_value(
    writer: &mut Writer,
    a: &Around,
    variable: &TypedLocal,
    value: &TypedInitial,
    behind: Place,
) -> Result<(), NoMemory>
    ensures { OnOk result (state_of writer.new ≡ spec.given_initial (around_of a.now) variable.now (Some (initial_view value.now)) behind (state_of writer.old)) }
{
    let ty = a.type_of(variable.ty);
    let goal = home(a, variable);
    match value {
        TypedInitial::Expr(expression) => {
            writer.initialised(a, Keeping::Scope, ty, expression, behind, goal)?;
            Ok(())
        }
        TypedInitial::List(list) => {
            writer.list_initialised(
                a,
                ty,
                list.opening,
                &list.elements,
                &list.delimiters,
                behind,
                goal,
            )?;
            Ok(())
        }
    }
}

// .. or nothing.
fn given_initial(
    writer: &mut Writer,
    a: &Around,
    variable: &TypedLocal,
    value: &Option<TypedInitial>,
    behind: Place,
) -> Result<(), NoMemory>
    ensures { OnOk result (state_of writer.new ≡ spec.given_initial (around_of a.now) variable.now (optional_view initial_view value.now) behind (state_of writer.old)) }
{
    match value {
        None => {
            default(writer, a, variable)?;
            Ok(())
        }
        Some(value) => given_value(writer, a, variable, value, behind),
    }
}

// .. which the function may not have.
fn declared_as(
    writer: &mut Writer,
    a: &Around,
    declaration: &TypedDeclaration,
    behind: Place,
) -> Result<(), NoMemory>
    ensures { OnOk result (state_of writer.new ≡ spec.declared_as (around_of a.now) (slice_get (around_of a.now).function.locals (declaration_view declaration.now).local) (declaration_view declaration.now).value behind (state_of writer.old)) }
{
    match a.function.locals.get(declaration.local as usize) {
        Some(variable) => given_initial(writer, a, variable, &declaration.value, behind),
        None => Ok(()),
    }
}

/// A declaration, which is a full expression up to the token behind it.
pub(crate) fn declared(
    writer: &mut Writer,
    a: &Around,
    declaration: &TypedDeclaration,
    behind: Place,
) -> Result<(), NoMemory>
    ensures { OnOk result (state_of writer.new ≡ spec.declared (around_of a.now) (declaration_view declaration.now) behind (state_of writer.old)) }
{
    let pending = writer.pending_count();
    declared_as(writer, a, declaration, behind)?;
    writer.end_pending(pending, behind)
}
