// Calls of member functions (ISO/IEC 14882:2017 [vector], [basic.string], [string.view], [unique.ptr]).
ghost use Rattle.std.specs.Prelude.{◌≡◌, OnOk};
ghost use Rattle.life_core.specs.Operands.{operand_of};
ghost use Rattle.life_core.specs.Step.{change_of};
ghost use Rattle.life_typed.specs.Delimiters.{delimiters_view};
ghost use Rattle.life_typed.specs.Members.{element_type};
ghost use Rattle.life_writer.specs.Answers.{Answers};
ghost use Rattle.life_writer.specs.MethodForms as spec;
ghost use Rattle.life_writer.specs.PartUses.{expressions_uses, part_uses};
ghost use Rattle.life_writer.specs.Parts.{first_form, part_form, second_form};
ghost use Rattle.life_writer.specs.Uses.{own};
ghost use Rattle.life_writer.specs.Views.{around_of, pointing_of, state_of};

use crate::acts::location_in;
use crate::around::{Around, own_type};
use crate::parts::{Node, Part};
use crate::pointers::Pointing;
use crate::writer::Writer;
use life_core::{Change, Instr, Made, Operand, RangeEnd, Source, Which};
use life_typed::{Delimiters, Method, TypedExpr};
use life_types::{NoMemory, Place, Ty};

// The type of the elements of a vector or a string.
fn element_type(a: &Around, base: Ty) -> Ty
    ensures { result ≡ element_type (around_of a.now).program.types base }
{
    match base {
        Ty::Vector(element) => a.type_of(element),
        Ty::Text => Ty::Char,
        _ => Ty::Void,
    }
}

/// The first of these.
pub(crate) fn first(arguments: &[TypedExpr]) -> Option<Part<'_>>
    ensures { part_form result ≡ first_form arguments.now }
{
    match arguments {
        [first, ..] => Some(Part::of(first)),
        [] => None,
    }
}

/// .. and the second.
pub(crate) fn second(arguments: &[TypedExpr]) -> Option<Part<'_>>
    ensures { part_form result ≡ second_form arguments.now }
{
    match arguments {
        [_, others @ ..] => first(others),
        [] => None,
    }
}

impl Writer {
    /// Without the element at an iterator ([vector.modifiers]).
    #[cycle(uses)]
    pub(crate) fn erased(
        &mut self,
        a: &Around,
        base: Option<Part<'_>>,
        arguments: &[TypedExpr],
    ) -> Result<Pointing, NoMemory>
        ensures { Answers pointing_of result (spec.erased (part_uses (around_of a.now) base.entry) (expressions_uses (around_of a.now) arguments.now) (state_of self.old)) (state_of self.new) }
    {
        let Some(at) = first(arguments) else {
            return Err(NoMemory);
        };
        let owner = self.part_operand(a, base)?;
        let at = self.part_pointer(a, Some(at), own_type(at.ty))?;
        Ok(Pointing::Erased(owner, at))
    }

    /// The raw pointer to what a `std::unique_ptr` owns ([unique.ptr.single.observers]).
    #[cycle(uses)]
    pub(crate) fn got(&mut self, a: &Around, base: Option<Part<'_>>) -> Result<Pointing, NoMemory>
        ensures { Answers pointing_of result (spec.got (part_uses (around_of a.now) base.entry) (state_of self.old)) (state_of self.new) }
    {
        let owner = self.part_operand(a, base)?;
        Ok(Pointing::At(Source::Get(location_in(owner))))
    }

    /// The value that a member function answers, by the member.
    #[cycle(uses)]
    pub(crate) fn method_made(
        &mut self,
        a: &Around,
        node: &Node<'_>,
        method: Method,
        base: Option<Part<'_>>,
        arguments: &[TypedExpr],
        delimiters: &Delimiters,
        behind: Place,
        into: Option<u32>,
    ) -> Result<u32, NoMemory>
        ensures { Answers (λ x. x) result ((spec.method_uses (around_of a.now) (part_uses (around_of a.now) base.entry) method (expressions_uses (around_of a.now) arguments.now) (delimiters_view delimiters.now) node.now.place node.now.ty node.now.category).made behind into (state_of self.old)) (state_of self.new) }
    {
        match method {
            Method::Size => self.sized(a, base, node.place, into),
            Method::Empty => self.emptied(a, base, node.place, into),
            _ => Err(NoMemory),
        }
    }

    /// The place that it answers.
    #[cycle(uses)]
    pub(crate) fn method_at(
        &mut self,
        a: &Around,
        node: &Node<'_>,
        method: Method,
        base: Option<Part<'_>>,
        arguments: &[TypedExpr],
        delimiters: &Delimiters,
    ) -> Result<Operand, NoMemory>
        ensures { Answers operand_of result ((spec.method_uses (around_of a.now) (part_uses (around_of a.now) base.entry) method (expressions_uses (around_of a.now) arguments.now) (delimiters_view delimiters.now) node.now.place node.now.ty node.now.category).at (state_of self.old)) (state_of self.new) }
    {
        match method {
            Method::Front => self.end_of(a, node, base, Which::First),
            Method::Back => self.end_of(a, node, base, Which::Last),
            _ => Err(NoMemory),
        }
    }

    /// What it gives a pointer.
    #[cycle(uses)]
    pub(crate) fn method_pointing(
        &mut self,
        a: &Around,
        node: &Node<'_>,
        method: Method,
        base: Option<Part<'_>>,
        arguments: &[TypedExpr],
        delimiters: &Delimiters,
    ) -> Result<Pointing, NoMemory>
        ensures { Answers pointing_of result ((spec.method_uses (around_of a.now) (part_uses (around_of a.now) base.entry) method (expressions_uses (around_of a.now) arguments.now) (delimiters_view delimiters.now) node.now.place node.now.ty node.now.category).pointing (state_of self.old)) (state_of self.new) }
    {
        match method {
            Method::Begin => self.cursor(a, base, RangeEnd::Begin),
            Method::End => self.cursor(a, base, RangeEnd::End),
            Method::Erase => self.erased(a, base, arguments),
            Method::Get => self.got(a, base),
            Method::Subspan => self.cut(a, base, arguments, delimiters),
            Method::Substr => self.cut(a, base, arguments, delimiters),
            _ => Err(NoMemory),
        }
    }

    /// What it does alone.
    pub(crate) fn method_alone(
        &mut self,
        a: &Around,
        node: &Node<'_>,
        method: Method,
        base: Option<Part<'_>>,
        arguments: &[TypedExpr],
        delimiters: &Delimiters,
    ) -> Result<(), NoMemory>
        ensures { OnOk result (state_of self.new ≡ (spec.method_uses (around_of a.now) (part_uses (around_of a.now) base.entry) method (expressions_uses (around_of a.now) arguments.now) (delimiters_view delimiters.now) node.now.place node.now.ty node.now.category).alone (state_of self.old)) }
    {
        match method {
            Method::PushBack => self.pushed_back(a, node.place, base, arguments, delimiters),
            Method::PopBack => self.changed(a, node.place, base, Change::PopBack),
            Method::Clear => self.changed(a, node.place, base, Change::Clear),
            Method::Reserve => self.reserved(a, node.place, base, arguments, delimiters),
            Method::Reset => self.reset(a, node.place, base),
            _ => Err(NoMemory),
        }
    }

    fn changed(
        &mut self,
        a: &Around,
        at: Place,
        base: Option<Part<'_>>,
        change: Change,
    ) -> Result<(), NoMemory>
        ensures { OnOk result (state_of self.new ≡ spec.changed (part_uses (around_of a.now) base.entry) at (change_of change) (state_of self.old)) }
    {
        let place = self.part_operand(a, base)?;
        self.emit(at, Instr::Change { place, change })
    }

    // One more element, at the end.
    fn pushed_back(
        &mut self,
        a: &Around,
        at: Place,
        base: Option<Part<'_>>,
        arguments: &[TypedExpr],
        delimiters: &Delimiters,
    ) -> Result<(), NoMemory>
        ensures { OnOk result (state_of self.new ≡ spec.pushed_back (part_uses (around_of a.now) base.entry) (element_type (around_of a.now).program.types (own (part_uses (around_of a.now) base.entry))) (expressions_uses (around_of a.now) arguments.now) (delimiters_view delimiters.now) at (state_of self.old)) }
    {
        let Some(found) = base else {
            return Err(NoMemory);
        };
        let Some(element) = first(arguments) else {
            return Err(NoMemory);
        };
        let ty = element_type(a, own_type(found.ty));
        let place = self.part_operand(a, base)?;
        let given = self.given_over(a, element, ty, delimiters.behind(0))?;
        let change = Change::PushBack(given);
        self.emit(at, Instr::Change { place, change })
    }

    // Room for so many.
    fn reserved(
        &mut self,
        a: &Around,
        at: Place,
        base: Option<Part<'_>>,
        arguments: &[TypedExpr],
        delimiters: &Delimiters,
    ) -> Result<(), NoMemory>
        ensures { OnOk result (state_of self.new ≡ spec.reserved (part_uses (around_of a.now) base.entry) (expressions_uses (around_of a.now) arguments.now) (delimiters_view delimiters.now) at (state_of self.old)) }
    {
        let Some(count) = first(arguments) else {
            return Err(NoMemory);
        };
        let place = self.part_operand(a, base)?;
        let count = self.part_value(a, Some(count), delimiters.behind(0), Ty::Size, None)?;
        let change = Change::Reserve(count);
        self.emit(at, Instr::Change { place, change })
    }

    // A `std::unique_ptr` that owns nothing any more.
    fn reset(&mut self, a: &Around, at: Place, base: Option<Part<'_>>) -> Result<(), NoMemory>
        ensures { OnOk result (state_of self.new ≡ spec.reset (part_uses (around_of a.now) base.entry) at (state_of self.old)) }
    {
        let owner = self.part_operand(a, base)?;
        self.emit(
            at,
            Instr::Make {
                owner: location_in(owner),
                made: Made::Null,
            },
        )
    }
}
