// What is initialised with an expression (ISO/IEC 14882:2017 [dcl.init]): all but the last is written,
// and then it is built where it goes.
ghost use Rattle.std.specs.Prelude.{◌≡◌, None, Some};
ghost use Rattle.life_typed.specs.Conversions.{is_place_of};
ghost use Rattle.life_writer.specs.Answers.{Answers};
ghost use Rattle.life_writer.specs.Giving as spec;
ghost use Rattle.life_writer.specs.Initialising.{initialised_by};
ghost use Rattle.life_writer.specs.PartUses.{expression_uses, part_uses};
ghost use Rattle.life_writer.specs.Using.{value};
ghost use Rattle.life_writer.specs.Views.{around_of, destination_of, keeps_of, last_of, state_of};

use crate::acts::Act;
use crate::around::Around;
use crate::building::{Destination, Keeping, Last};
use crate::calls::call_for;
use crate::parts::Part;
use crate::pointers::Pointing;
use crate::types::class;
use crate::writer::Writer;
use life_core::{Operand, Source};
use life_typed::{Category, TypedExpr};
use life_types::{Class, NoMemory, Place, Ty, TyId};

// Whether something is a place of this type.
fn is_place_of(category: Category, target: TyId) -> bool
    ensures { result ≡ is_place_of category target }
{
    match category {
        Category::Value => false,
        Category::Place { ty, .. } => ty == target,
    }
}

impl Writer {
    // A value: a call whose result needs no conversion gives it where it goes.
    #[cycle(uses)]
    fn value_given(
        &mut self,
        a: &Around,
        part: Part<'_>,
        ty: Ty,
        behind: Place,
    ) -> Result<Last, NoMemory>
        ensures { Answers last_of result (spec.value_by (spec.call_to (part_uses (around_of a.now) (Some part.entry)) ty) part.entry.place (value (part_uses (around_of a.now) (Some part.entry)) behind ty None) (state_of self.old)) (state_of self.new) }
    {
        match call_for(part, ty) {
            Some(called) => {
                let arguments = self.arguments(
                    a,
                    called.arguments,
                    called.delimiters,
                    a.parameters(called.function),
                )?;
                Ok(Last::Call(part.place, called.function, arguments))
            }
            None => {
                let register = self.part_value(a, Some(part), behind, ty, None)?;
                Ok(Last::Saved(register))
            }
        }
    }

    // An owner or a struct: a copy of what stands at a place, and else what is built.
    #[cycle(uses)]
    fn object_given(
        &mut self,
        a: &Around,
        part: Part<'_>,
        destination: Destination,
    ) -> Result<u32, NoMemory>
        ensures { Answers (λ x. x) result (spec.object_given (part_uses (around_of a.now) (Some part.entry)) (destination_of destination) (state_of self.old)) (state_of self.new) }
    {
        match part.category {
            Category::Value => self.part_object(a, Some(part), destination),
            Category::Place { .. } => {
                let from = self.part_at(a, Some(part))?;
                self.built(Last::Lived(Act::Copied(from)), destination)
            }
        }
    }

    /// What is given by an expression, by the class of what is initialised, is built where it goes.
    #[cycle(uses)]
    pub(crate) fn given_in(
        &mut self,
        a: &Around,
        part: Part<'_>,
        ty: Ty,
        behind: Place,
        destination: Destination,
    ) -> Result<u32, NoMemory>
        ensures { Answers (λ x. x) result (spec.given_in (part_uses (around_of a.now) (Some part.entry)) ty behind (destination_of destination) (state_of self.old)) (state_of self.new) }
    {
        match class(ty) {
            Class::Value => {
                let last = self.value_given(a, part, ty, behind)?;
                self.built(last, destination)
            }
            Class::Pointer => {
                let pointing = self.part_pointing(a, Some(part))?;
                self.built(Last::Point(part.place, pointing), destination)
            }
            Class::Owner => self.object_given(a, part, destination),
            Class::Aggregate => self.object_given(a, part, destination),
        }
    }

    /// A reference refers to a place of its type, and else to a temporary ([dcl.init.ref]).
    #[cycle(uses)]
    pub(crate) fn bound(
        &mut self,
        a: &Around,
        keeping: Keeping,
        part: Part<'_>,
        target: TyId,
        behind: Place,
    ) -> Result<Last, NoMemory>
        ensures { Answers last_of result (spec.bound (around_of a.now) (keeps_of keeping) (part_uses (around_of a.now) (Some part.entry)) target behind (state_of self.old)) (state_of self.new) }
    {
        if is_place_of(part.category, target) {
            let place = self.part_at(a, Some(part))?;
            return Ok(Last::Point(part.place, Pointing::At(Source::Place(place))));
        }
        let ty = a.type_of(target);
        let goal = keeping.goal(part.place, ty);
        let local = self.given_in(a, part, ty, behind, goal)?;
        let place = Operand::name(self.alloc, local);
        Ok(Last::Point(part.place, Pointing::At(Source::Place(place))))
    }

    // A variable of a type.
    fn begun(
        &mut self,
        a: &Around,
        keeping: Keeping,
        ty: Ty,
        part: Part<'_>,
        behind: Place,
        destination: Destination,
    ) -> Result<u32, NoMemory>
        ensures { Answers (λ x. x) result (initialised_by (around_of a.now) (keeps_of keeping) (part_uses (around_of a.now) (Some part.entry)) ty behind (destination_of destination) (state_of self.old)) (state_of self.new) }
    {
        match ty {
            Ty::Reference { target, .. } => {
                let last = self.bound(a, keeping, part, target, behind)?;
                self.built(last, destination)
            }
            _ => self.given_in(a, part, ty, behind, destination),
        }
    }

    /// What has a type is given an expression, with the token behind it.
    pub fn initialised(
        &mut self,
        a: &Around,
        keeping: Keeping,
        ty: Ty,
        expression: &TypedExpr,
        behind: Place,
        destination: Destination,
    ) -> Result<u32, NoMemory>
        ensures { Answers (λ x. x) result (initialised_by (around_of a.now) (keeps_of keeping) (expression_uses (around_of a.now) expression.now) ty behind (destination_of destination) (state_of self.old)) (state_of self.new) }
    {
        self.begun(a, keeping, ty, Part::of(expression), behind, destination)
    }
}
