// What lists in braces build: vectors and structs (ISO/IEC 14882:2017 [dcl.init.list],
// [dcl.init.aggr]).
ghost use Rattle.std.specs.Prelude.{◌≡◌, OnOk, slice_get};
ghost use Rattle.life_core.specs.Operands.{object_named};
ghost use Rattle.life_typed.specs.Delimiters.{delimiters_view};
ghost use Rattle.life_types.specs.Trees.{members_at};
ghost use Rattle.life_writer.specs.Answers.{Answers};
ghost use Rattle.life_writer.specs.Around.{type_of};
ghost use Rattle.life_writer.specs.Giving.{bound, given_in};
ghost use Rattle.life_writer.specs.Initialising.{initialised};
ghost use Rattle.life_writer.specs.Lists as spec;
ghost use Rattle.life_writer.specs.PartUses.{expressions_uses};
ghost use Rattle.life_writer.specs.Parts.{has_none};
ghost use Rattle.life_writer.specs.Temporaries.{scoped};
ghost use Rattle.life_writer.specs.Views.{around_of, destination_of, last_of, state_of};

use crate::around::Around;
use crate::assigning::Target;
use crate::building::{Destination, Last};
use crate::numbers::number;
use crate::parts::Part;
use crate::pointers::Pointing;
use crate::types::class;
use crate::writer::Writer;
use life_core::{Change, Instr, Operand, Operation, Source};
use life_typed::{Delimiters, TypedExpr};
use life_types::{Class, NoMemory, Place, Ty, TyId, TypeTable};

// A struct's members, or none where the table doesn't have it.
fn members_at(types: &TypeTable, number: u32) -> &[TyId]
    ensures { result.now ≡ members_at types.now number }
{
    if (number as usize) < types.struct_count() {
        types.members(number)
    } else {
        &[]
    }
}

// The type of the member with this number, if there is one.
fn type_of_member(members: &[TyId], number: usize) -> Option<TyId>
    ensures { result ≡ slice_get members.now number }
{
    match members.get(number) {
        Some(member) => Some(*member),
        None => None,
    }
}

fn has_none(elements: &[TypedExpr]) -> bool
    ensures { result ≡ has_none elements.now }
{
    match elements {
        [] => true,
        [_, ..] => false,
    }
}

impl Writer {
    /// A list of a type is built where it goes. An empty one leaves raw pointers null.
    #[cycle(uses)]
    pub(crate) fn list(
        &mut self,
        a: &Around,
        ty: Ty,
        opening: Place,
        elements: &[TypedExpr],
        delimiters: &Delimiters,
        destination: Destination,
    ) -> Result<u32, NoMemory>
        ensures { Answers (λ x. x) result (spec.list_object (around_of a.now) ty opening (expressions_uses (around_of a.now) elements.now) (delimiters_view delimiters.now) (destination_of destination) (state_of self.old)) (state_of self.new) }
    {
        if has_none(elements) {
            return self.live_zero(destination);
        }
        let local = self.live(destination)?;
        self.filled_in(a, ty, opening, elements, delimiters, local)?;
        Ok(local)
    }

    // What is done to an object of a type that has come to life.
    #[cycle(uses)]
    fn filled_in(
        &mut self,
        a: &Around,
        ty: Ty,
        opening: Place,
        elements: &[TypedExpr],
        delimiters: &Delimiters,
        local: u32,
    ) -> Result<(), NoMemory>
        ensures { OnOk result (state_of self.new ≡ spec.filled_in (around_of a.now) ty opening (expressions_uses (around_of a.now) elements.now) (delimiters_view delimiters.now) opening (object_named local) (state_of self.old)) }
    {
        match ty {
            Ty::Vector(element) => {
                self.reserved_for(opening, elements.len(), local)?;
                self.pushed(a, a.type_of(element), local, elements, delimiters)
            }
            Ty::Struct(number) => {
                let members = members_at(&a.program.types, number);
                self.assigned_members(a, members, local, elements, delimiters)
            }
            _ => Err(NoMemory),
        }
    }

    // Room for all elements.
    fn reserved_for(&mut self, opening: Place, count: usize, local: u32) -> Result<(), NoMemory>
        ensures { OnOk result (state_of self.new ≡ spec.reserved opening count (object_named local) (state_of self.old)) }
    {
        let count = Operation::Number(i64::from(number(count)?));
        let register = self.eval(None, Ty::Size, opening, count)?;
        let place = Operand::name(self.alloc, local);
        self.emit(
            opening,
            Instr::Change {
                place,
                change: Change::Reserve(register),
            },
        )
    }

    // Each at the end, one after the other.
    #[cycle(uses)]
    fn pushed(
        &mut self,
        a: &Around,
        ty: Ty,
        local: u32,
        elements: &[TypedExpr],
        delimiters: &Delimiters,
    ) -> Result<(), NoMemory>
        ensures { OnOk result (state_of self.new ≡ spec.pushed ty (object_named local) (expressions_uses (around_of a.now) elements.now) (delimiters_view delimiters.now) (state_of self.old)) }
    {
        'elements: for (number, element) in elements.iter().enumerate() {
            let part = Part::of(element);
            let behind = delimiters.behind(number);
            let given = self.given_over(a, part, ty, behind)?;
            let place = Operand::name(self.alloc, local);
            self.emit(
                part.place,
                Instr::Change {
                    place,
                    change: Change::PushBack(given),
                },
            )?;
        }
        Ok(())
    }

    // The members, each assigned where its element stands.
    #[cycle(uses)]
    fn assigned_members(
        &mut self,
        a: &Around,
        members: &[TyId],
        local: u32,
        elements: &[TypedExpr],
        delimiters: &Delimiters,
    ) -> Result<(), NoMemory>
        ensures { OnOk result (state_of self.new ≡ spec.assigned_members (around_of a.now) 0 members.now (object_named local) (expressions_uses (around_of a.now) elements.now) (delimiters_view delimiters.now) (state_of self.old)) }
    {
        'members: for (index, element) in elements.iter().enumerate() {
            match type_of_member(members, index) {
                Some(id) => {
                    let part = Part::of(element);
                    let behind = delimiters.behind(index);
                    let ty = a.type_of(id);
                    let member = number(index)?;
                    let target = Target::Member { local, member };
                    self.part_assigned(a, part, ty, target, part.place, behind)?;
                }
                None => return Ok(()),
            }
        }
        Ok(())
    }

    // A list of an owner's or a struct's type is built where it goes.
    fn list_given(
        &mut self,
        a: &Around,
        ty: Ty,
        opening: Place,
        elements: &[TypedExpr],
        delimiters: &Delimiters,
        behind: Place,
        destination: Destination,
    ) -> Result<u32, NoMemory>
        ensures { Answers (λ x. x) result (given_in (spec.listed (around_of a.now) ty opening (expressions_uses (around_of a.now) elements.now) (delimiters_view delimiters.now)) ty behind (destination_of destination) (state_of self.old)) (state_of self.new) }
    {
        match class(ty) {
            Class::Owner => self.list(a, ty, opening, elements, delimiters, destination),
            Class::Aggregate => self.list(a, ty, opening, elements, delimiters, destination),
            Class::Value => Err(NoMemory),
            Class::Pointer => Err(NoMemory),
        }
    }

    // What a reference is bound to is a temporary.
    fn list_bound(
        &mut self,
        a: &Around,
        target: TyId,
        opening: Place,
        elements: &[TypedExpr],
        delimiters: &Delimiters,
        behind: Place,
    ) -> Result<Last, NoMemory>
        ensures { Answers last_of result (bound (around_of a.now) scoped (spec.listed (around_of a.now) (type_of (around_of a.now) target) opening (expressions_uses (around_of a.now) elements.now) (delimiters_view delimiters.now)) target behind (state_of self.old)) (state_of self.new) }
    {
        let ty = a.type_of(target);
        let goal = Destination::Scoped(opening, ty);
        let local = self.list_given(a, ty, opening, elements, delimiters, behind, goal)?;
        let place = Operand::name(self.alloc, local);
        Ok(Last::Point(opening, Pointing::At(Source::Place(place))))
    }

    /// A variable of a type is given a list, with the token behind it.
    pub fn list_initialised(
        &mut self,
        a: &Around,
        ty: Ty,
        opening: Place,
        elements: &[TypedExpr],
        delimiters: &Delimiters,
        behind: Place,
        destination: Destination,
    ) -> Result<u32, NoMemory>
        ensures { Answers (λ x. x) result (initialised (around_of a.now) (spec.listed (around_of a.now) (spec.built_type (around_of a.now) ty) opening (expressions_uses (around_of a.now) elements.now) (delimiters_view delimiters.now)) ty behind (destination_of destination) (state_of self.old)) (state_of self.new) }
    {
        match ty {
            Ty::Reference { target, .. } => {
                let last = self.list_bound(a, target, opening, elements, delimiters, behind)?;
                self.built(last, destination)
            }
            _ => self.list_given(a, ty, opening, elements, delimiters, behind, destination),
        }
    }
}
