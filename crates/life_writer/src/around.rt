// What stays the same while a function is written: the program and the function.
ghost use Rattle.std.specs.Prelude.{◌≡◌, IfOk, length, map};
ghost use Rattle.life_typed.specs.declared.typed_program.TypedLocal.{TypedLocal};
ghost use Rattle.life_writer.specs.Around as spec;
ghost use Rattle.life_writer.specs.Views.{around_of};

use crate::numbers::number;
use life_typed::{ExprType, Typed, TypedFunction, TypedLocal};
use life_types::{NoMemory, Ty, TyId};

/// The program, and the function that is written.
#[derive(Clone, Copy)]
pub struct Around<'a> {
    pub program: &'a Typed,
    pub function: &'a TypedFunction,
}

impl<'a> Around<'a> {
    /// The type with this number; one that the table doesn't have counts as void.
    pub fn type_of(&self, id: TyId) -> Ty
        ensures { result ≡ spec.type_of (around_of self.now) id }
    {
        match self.program.types.get(id) {
            Some(ty) => ty,
            None => Ty::Void,
        }
    }

    /// The text that `endl` writes, which stands behind those of the file.
    pub fn end_line(&self) -> Result<u32, NoMemory>
        ensures { IfOk result (λ n. n ≡ spec.end_line (around_of self.now)) }
    {
        number(self.program.texts.len())
    }

    /// The text of a literal with this number; one that the file doesn't have counts as the end of a line.
    pub fn text_of(&self, text: u32) -> Result<u32, NoMemory>
        ensures { IfOk result (λ n. n ≡ spec.text_in (around_of self.now).program text) }
    {
        if (text as usize) < self.program.texts.len() {
            return Ok(text);
        }
        self.end_line()
    }

    /// The parameters of a function, by its number.
    pub fn parameters(&self, function: u32) -> &'a [TypedLocal]
        ensures { map (λ (l : TypedLocal). l.ty) result.now ≡ spec.parameter_types (around_of self.now) function }
    {
        match self.program.functions.get(function as usize) {
            Some(function) => parameters_of(function),
            None => &[],
        }
    }

    /// The number of the local that holds the function's result, where it has one.
    pub fn result_local(&self) -> Result<u32, NoMemory>
        ensures { IfOk result (λ x. x ≡ spec.result_local (around_of self.now)) }
    {
        number(self.function.parameters.len())
    }
}

// A function's parameters, which are its first locals.
fn parameters_of(function: &TypedFunction) -> &[TypedLocal]
    ensures { map (λ (l : TypedLocal). l.ty) result.now ≡ spec.types_of (length function.now.parameters.items) function.now.locals.items }
{
    match function.locals.get(..function.parameters.len()) {
        Some(parameters) => parameters,
        None => &function.locals,
    }
}

/// The type of an expression that has one of its own.
pub fn own_type(ty: ExprType) -> Ty
    ensures { result ≡ spec.own_type ty }
{
    match ty {
        ExprType::Of(ty) => ty,
        ExprType::NullPointer => Ty::Void,
        ExprType::TextLiteral => Ty::Void,
    }
}
