// The arguments of calls (ISO/IEC 14882:2017 [expr.call]).
ghost use Rattle.std.specs.Prelude.{◌≡◌, Some, map, slice_get};
ghost use Rattle.life_core.specs.Operands.{argument_of};
ghost use Rattle.life_typed.specs.Delimiters.{delimiters_view};
ghost use Rattle.life_typed.specs.declared.typed_program.TypedLocal.{TypedLocal};
ghost use Rattle.life_writer.specs.Answers.{Answers};
ghost use Rattle.life_writer.specs.Giving as spec;
ghost use Rattle.life_writer.specs.PartUses.{expressions_uses, part_uses};
ghost use Rattle.life_writer.specs.Views.{around_of, state_of};

use crate::around::Around;
use crate::building::{Destination, Keeping};
use crate::parts::Part;
use crate::types::class;
use crate::writer::Writer;
use life_core::{Argument, Location};
use life_typed::{Delimiters, TypedExpr, TypedLocal};
use life_types::{Class, NoMemory, Place, Ty, TyId};
use std::vec::Vec;

// The type of the parameter with this number, if there is one.
fn type_of_parameter(parameters: &[TypedLocal], number: usize) -> Option<TyId>
    ensures { result ≡ slice_get (map (λ (l : TypedLocal). l.ty) parameters.now) number }
{
    match parameters.get(number) {
        Some(parameter) => Some(parameter.ty),
        None => None,
    }
}

impl Writer {
    /// The arguments of a call, from left to right, as the types of its parameters, each with the token
    /// behind it.
    #[cycle(uses)]
    pub(crate) fn arguments(
        &mut self,
        a: &Around,
        arguments: &[TypedExpr],
        delimiters: &Delimiters,
        parameters: &[TypedLocal],
    ) -> Result<Vec<Argument>, NoMemory>
        ensures { Answers (λ xs. map argument_of xs.items) result (spec.arguments (around_of a.now) (expressions_uses (around_of a.now) arguments.now) (delimiters_view delimiters.now) (map (λ (l : TypedLocal). l.ty) parameters.now) (state_of self.old)) (state_of self.new) }
    {
        let mut given = Vec::new(self.alloc);
        'arguments: for (number, argument) in arguments.iter().enumerate() {
            match type_of_parameter(parameters, number) {
                Some(ty) => {
                    let behind = delimiters.behind(number);
                    let one = self.argument(a, Part::of(argument), a.type_of(ty), behind)?;
                    given.push(one)?;
                }
                None => return Ok(given),
            }
        }
        Ok(given)
    }

    // .. by the class of its parameter.
    #[cycle(uses)]
    fn argument(
        &mut self,
        a: &Around,
        part: Part<'_>,
        ty: Ty,
        behind: Place,
    ) -> Result<Argument, NoMemory>
        ensures { Answers argument_of result (spec.argument (around_of a.now) (part_uses (around_of a.now) (Some part.entry)) ty behind (state_of self.old)) (state_of self.new) }
    {
        match class(ty) {
            Class::Value => {
                let register = self.part_value(a, Some(part), behind, ty, None)?;
                Ok(Argument::Value(register))
            }
            Class::Pointer => self.pointer_argument(a, part, ty, behind),
            Class::Owner => {
                let given = self.given_over(a, part, ty, behind)?;
                Ok(Argument::Given(given))
            }
            Class::Aggregate => {
                let given = self.given_over(a, part, ty, behind)?;
                Ok(Argument::Given(given))
            }
        }
    }

    /// An operand of a type that is given over: a value in a register, or a temporary.
    #[cycle(uses)]
    pub(crate) fn given_over(
        &mut self,
        a: &Around,
        part: Part<'_>,
        ty: Ty,
        behind: Place,
    ) -> Result<u32, NoMemory>
        ensures { Answers (λ x. x) result (spec.given_over (part_uses (around_of a.now) (Some part.entry)) ty behind (state_of self.old)) (state_of self.new) }
    {
        let goal = Destination::Consumed(part.place, ty);
        match class(ty) {
            Class::Value => self.part_value(a, Some(part), behind, ty, None),
            Class::Pointer => self.given_in(a, part, ty, behind, goal),
            Class::Owner => self.given_in(a, part, ty, behind, goal),
            Class::Aggregate => self.given_in(a, part, ty, behind, goal),
        }
    }

    // What a reference is bound to is aimed at by a register, and any other pointer is its location.
    #[cycle(uses)]
    fn pointer_argument(
        &mut self,
        a: &Around,
        part: Part<'_>,
        ty: Ty,
        behind: Place,
    ) -> Result<Argument, NoMemory>
        ensures { Answers argument_of result (spec.pointer_argument (around_of a.now) (part_uses (around_of a.now) (Some part.entry)) ty behind (state_of self.old)) (state_of self.new) }
    {
        match ty {
            Ty::Reference { target, .. } => {
                let last = self.bound(a, Keeping::Full, part, target, behind)?;
                let goal = Destination::Register(part.place, None, ty);
                let register = self.built(last, goal)?;
                Ok(Argument::Pointer(Location::whole(self.alloc, register)))
            }
            _ => {
                let location = self.part_pointer(a, Some(part), ty)?;
                Ok(Argument::Pointer(location))
            }
        }
    }
}
