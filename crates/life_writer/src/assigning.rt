// What is assigned, the right side before the left (ISO/IEC 14882:2017 [expr.ass]).
ghost use Rattle.std.specs.Prelude.{◌≡◌, IfOk, OnOk, Some};
ghost use Rattle.life_core.specs.Operands.{location_of, object_named, operand_of};
ghost use Rattle.life_typed.specs.Delimiters.{delimiters_view};
ghost use Rattle.life_writer.specs.Answers.{Answers, AnswersIf};
ghost use Rattle.life_writer.specs.Assigning as spec;
ghost use Rattle.life_writer.specs.Lists.{built_type, listed};
ghost use Rattle.life_writer.specs.OwnerForms.{replacing_string};
ghost use Rattle.life_writer.specs.PartUses.{expression_uses, expressions_uses, node_uses, part_uses};
ghost use Rattle.life_writer.specs.Targets.{place_target, target_of};
ghost use Rattle.life_writer.specs.Uses.{own};
ghost use Rattle.life_writer.specs.Using.{temporary_of, with_member};
ghost use Rattle.life_writer.specs.Views.{act_of, around_of, state_of};
ghost use Rattle.life_writer.specs.Writing.{gives};

use crate::acts::{Act, location_in};
use crate::around::{Around, own_type};
use crate::building::Destination;
use crate::parts::{Node, Part, Shape};
use crate::types::class;
use crate::writer::Writer;
use life_core::{Instr, Location, Operand};
use life_typed::{Category, Delimiters, TypedExpr};
use life_types::{Class, NoMemory, Place, Ty, is_text};

/// What is assigned to.
#[derive(Clone, Copy)]
pub(crate) enum Target<'a> {
    /// A place, or where a pointer lies.
    Part(Part<'a>),
    /// A member of a local, which needs nothing before it.
    Member { local: u32, member: u32 },
}

impl Writer {
    // A member of a local.
    fn member_of(&self, local: u32, member: u32) -> Result<Operand, NoMemory>
        ensures { IfOk result (λ o. operand_of o ≡ with_member member (object_named local)) }
    {
        let mut members = Vec::new(self.alloc);
        members.push(member)?;
        Ok(Operand::Name(Location { local, members }))
    }

    // The place of a target.
    #[cycle(uses)]
    fn target_operand(&mut self, a: &Around, target: Target<'_>) -> Result<Operand, NoMemory>
        ensures { Answers operand_of result ((target_of (around_of a.now) target.entry).operand (state_of self.old)) (state_of self.new) }
    {
        match target {
            Target::Part(part) => self.part_operand(a, Some(part)),
            Target::Member { local, member } => {
                let place = self.member_of(local, member)?;
                Ok(place)
            }
        }
    }

    // Where the pointer lies that a target is.
    #[cycle(uses)]
    fn target_location(&mut self, a: &Around, target: Target<'_>) -> Result<Location, NoMemory>
        ensures { Answers location_of result ((target_of (around_of a.now) target.entry).location (state_of self.old)) (state_of self.new) }
    {
        match target {
            Target::Part(part) => self.part_pointer(a, Some(part), own_type(part.ty)),
            Target::Member { local, member } => {
                let place = self.member_of(local, member)?;
                Ok(location_in(place))
            }
        }
    }

    /// A part is assigned to a target of a type, with the token behind it.
    #[cycle(uses)]
    pub(crate) fn part_assigned(
        &mut self,
        a: &Around,
        part: Part<'_>,
        ty: Ty,
        target: Target<'_>,
        equals: Place,
        behind: Place,
    ) -> Result<(), NoMemory>
        ensures { OnOk result (state_of self.new ≡ spec.assigned (part_uses (around_of a.now) (Some part.entry)) ty (target_of (around_of a.now) target.entry) equals behind (state_of self.old)) }
    {
        match class(ty) {
            Class::Value => {
                let from = self.part_value(a, Some(part), behind, ty, None)?;
                let to = self.target_operand(a, target)?;
                self.emit(equals, Instr::Save { to, from })
            }
            Class::Pointer => {
                let pointing = self.part_pointing(a, Some(part))?;
                let pointer = self.target_location(a, target)?;
                self.point(part.place, pointer, pointing)
            }
            Class::Owner => {
                let act = self.owner_act(a, part, ty)?;
                self.acted(a, act, target, equals)
            }
            Class::Aggregate => {
                let act = self.struct_act(a, part, ty)?;
                self.acted(a, act, target, equals)
            }
        }
    }

    // Something is done to a target.
    #[cycle(uses)]
    fn acted(
        &mut self,
        a: &Around,
        act: Act,
        target: Target<'_>,
        equals: Place,
    ) -> Result<(), NoMemory>
        ensures { OnOk result (state_of self.new ≡ spec.acted (gives (act_of act) (state_of self.old)) (target_of (around_of a.now) target.entry) equals) }
    {
        let to = self.target_operand(a, target)?;
        self.act(act, equals, to)
    }

    // An owner at a place is copied; what is moved, made or null needs no temporary; any other value and
    // a literal do.
    #[cycle(uses)]
    fn owner_act(&mut self, a: &Around, part: Part<'_>, ty: Ty) -> Result<Act, NoMemory>
        ensures { Answers act_of result (spec.owner_by part.entry.category (part_uses (around_of a.now) (Some part.entry)) ty (state_of self.old)) (state_of self.new) }
    {
        match part.category {
            Category::Value => self.value_act(a, part, ty),
            Category::Place { .. } => {
                let from = self.part_at(a, Some(part))?;
                Ok(Act::Copied(from))
            }
        }
    }

    #[cycle(uses)]
    fn value_act(&mut self, a: &Around, part: Part<'_>, ty: Ty) -> Result<Act, NoMemory>
        ensures { Answers act_of result (spec.replaced_by (part_uses (around_of a.now) (Some part.entry)).replacing (temporary_of (part_uses (around_of a.now) (Some part.entry)) ty) (state_of self.old)) (state_of self.new) }
    {
        if let Some(act) = self.replacing(a, &part.opened())? {
            return Ok(act);
        }
        let goal = Destination::Temporary(part.place, ty);
        let local = self.part_object(a, Some(part), goal)?;
        Ok(Act::Moved(local))
    }

    // A struct is copied, by way of a temporary where it is a value.
    #[cycle(uses)]
    fn struct_act(&mut self, a: &Around, part: Part<'_>, ty: Ty) -> Result<Act, NoMemory>
        ensures { Answers act_of result (spec.struct_by part.entry.category (part_uses (around_of a.now) (Some part.entry)) ty (state_of self.old)) (state_of self.new) }
    {
        match part.category {
            Category::Value => {
                let goal = Destination::Temporary(part.place, ty);
                let local = self.part_object(a, Some(part), goal)?;
                Ok(Act::Copied(Operand::name(self.alloc, local)))
            }
            Category::Place { .. } => {
                let from = self.part_at(a, Some(part))?;
                Ok(Act::Copied(from))
            }
        }
    }

    // What is done to an owner that a value is assigned to, where it needs no temporary for that.
    #[cycle(uses)]
    fn replacing(&mut self, a: &Around, node: &Node<'_>) -> Result<Option<Act>, NoMemory>
        ensures { AnswersIf act_of result (node_uses (around_of a.now) node.now).replacing (state_of self.old) (state_of self.new) }
    {
        match node.shape {
            Shape::Null => Ok(Some(Act::Null)),
            Shape::Move(number) => Ok(Some(Act::MovedFrom(node.place, number))),
            Shape::MakeUnique {
                element,
                argument,
                closing,
            } => {
                let made = self.owned(a, element, argument, closing)?;
                Ok(Some(Act::Made(node.place, made)))
            }
            Shape::Paren { inner, .. } => self.part_replacing(a, inner),
            Shape::TextOf { inner, .. } => self.string_replacing(a, inner),
            Shape::Binary { .. } => Ok(None),
            Shape::Method { .. } => Ok(None),
            _ => Ok(None),
        }
    }

    #[cycle(uses)]
    fn part_replacing(
        &mut self,
        a: &Around,
        part: Option<Part<'_>>,
    ) -> Result<Option<Act>, NoMemory>
        ensures { AnswersIf act_of result (part_uses (around_of a.now) part.entry).replacing (state_of self.old) (state_of self.new) }
    {
        match part {
            Some(part) => self.replacing(a, &part.opened()),
            None => Ok(None),
        }
    }

    // `std::string(e)` is what e is, where that is a string that is a value.
    #[cycle(uses)]
    fn string_replacing(
        &mut self,
        a: &Around,
        inner: Option<Part<'_>>,
    ) -> Result<Option<Act>, NoMemory>
        ensures { AnswersIf act_of result (replacing_string (part_uses (around_of a.now) inner.entry)) (state_of self.old) (state_of self.new) }
    {
        let Some(part) = inner else {
            return Err(NoMemory);
        };
        if !is_text(own_type(part.ty)) {
            return Ok(None);
        }
        match part.category {
            Category::Value => self.part_replacing(a, inner),
            Category::Place { .. } => Ok(None),
        }
    }

    /// An expression is assigned to another one, with the token behind it.
    pub fn assigned(
        &mut self,
        a: &Around,
        expression: &TypedExpr,
        target: &TypedExpr,
        equals: Place,
        behind: Place,
    ) -> Result<(), NoMemory>
        ensures { OnOk result (state_of self.new ≡ spec.assigned (expression_uses (around_of a.now) expression.now) (own (expression_uses (around_of a.now) target.now)) (place_target (expression_uses (around_of a.now) target.now)) equals behind (state_of self.old)) }
    {
        let target = Part::of(target);
        let ty = own_type(target.ty);
        let goal = Target::Part(target);
        self.part_assigned(a, Part::of(expression), ty, goal, equals, behind)
    }

    /// .. and a list, which builds a temporary.
    pub fn list_assigned(
        &mut self,
        a: &Around,
        opening: Place,
        elements: &[TypedExpr],
        delimiters: &Delimiters,
        target: &TypedExpr,
        equals: Place,
        behind: Place,
    ) -> Result<(), NoMemory>
        ensures { OnOk result (state_of self.new ≡ spec.assigned (listed (around_of a.now) (built_type (around_of a.now) (own (expression_uses (around_of a.now) target.now))) opening (expressions_uses (around_of a.now) elements.now) (delimiters_view delimiters.now)) (own (expression_uses (around_of a.now) target.now)) (place_target (expression_uses (around_of a.now) target.now)) equals behind (state_of self.old)) }
    {
        let target = Part::of(target);
        let ty = own_type(target.ty);
        let goal = Destination::Temporary(opening, ty);
        match class(ty) {
            Class::Owner => {
                let local = self.list(a, ty, opening, elements, delimiters, goal)?;
                self.acted(a, Act::Moved(local), Target::Part(target), equals)
            }
            Class::Aggregate => {
                let local = self.list(a, ty, opening, elements, delimiters, goal)?;
                let from = Operand::name(self.alloc, local);
                self.acted(a, Act::Copied(from), Target::Part(target), equals)
            }
            Class::Value => Err(NoMemory),
            Class::Pointer => Err(NoMemory),
        }
    }
}
