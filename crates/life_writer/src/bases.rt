// What has elements, and its elements (ISO/IEC 14882:2017 [sequence.reqmts]).
ghost use Rattle.std.specs.Prelude.{◌≡◌, Some};
ghost use Rattle.life_core.specs.Operands.{base_of, operand_of};
ghost use Rattle.life_writer.specs.Answers.{Answers};
ghost use Rattle.life_writer.specs.Bases as spec;
ghost use Rattle.life_writer.specs.ExpressionForms.{index_uses};
ghost use Rattle.life_writer.specs.MethodForms as methods;
ghost use Rattle.life_writer.specs.PartUses.{part_uses};
ghost use Rattle.life_writer.specs.Views.{around_of, pointing_of, state_of};

use crate::around::{Around, own_type};
use crate::building::{Destination, Last};
use crate::parts::{Node, Part};
use crate::pointers::Pointing;
use crate::writer::Writer;
use life_core::{Base, Instr, Operand, Operation, RangeEnd, Which};
use life_typed::Category;
use life_types::{NoMemory, Place, Ty};

/// The reference to what stands at a place.
pub(crate) fn reference_to(category: Category) -> Ty
    ensures { result ≡ spec.reference_to category }
{
    match category {
        Category::Value => Ty::Void,
        Category::Place { ty, constant } => Ty::Reference {
            target: ty,
            constant,
        },
    }
}

impl Writer {
    /// What has elements: a span and a view are pointers, and anything else owns them.
    #[cycle(uses)]
    pub(crate) fn part_base(&mut self, a: &Around, part: Option<Part<'_>>) -> Result<Base, NoMemory>
        ensures { Answers base_of result (spec.base (part_uses (around_of a.now) part.entry) (state_of self.old)) (state_of self.new) }
    {
        let Some(found) = part else {
            return Err(NoMemory);
        };
        let own = own_type(found.ty);
        match own {
            Ty::View => {
                let pointer = self.part_pointer(a, part, own)?;
                Ok(Base::Pointer(pointer))
            }
            Ty::Span { .. } => {
                let pointer = self.part_pointer(a, part, own)?;
                Ok(Base::Pointer(pointer))
            }
            _ => {
                let owner = self.part_operand(a, part)?;
                Ok(Base::Owner(owner))
            }
        }
    }

    /// An element is reached through a register.
    pub(crate) fn element(
        &mut self,
        node: &Node<'_>,
        base: Base,
        which: Which,
    ) -> Result<Operand, NoMemory>
        ensures { Answers operand_of result (spec.element node.now.place node.now.category (base_of base) which (state_of self.old)) (state_of self.new) }
    {
        let last = Last::Point(node.place, Pointing::Element(base, which));
        let reference = reference_to(node.category);
        let register = self.built(last, Destination::Register(node.place, None, reference))?;
        Ok(Operand::through(self.alloc, register))
    }

    /// The element with an index: the base, and then the index.
    #[cycle(uses)]
    pub(crate) fn indexed(
        &mut self,
        a: &Around,
        node: &Node<'_>,
        base: Option<Part<'_>>,
        index: Part<'_>,
        closing: Place,
    ) -> Result<Operand, NoMemory>
        ensures { Answers operand_of result ((index_uses (part_uses (around_of a.now) base.entry) (part_uses (around_of a.now) (Some index.entry)) closing node.now.place node.now.ty node.now.category).at (state_of self.old)) (state_of self.new) }
    {
        let base = self.part_base(a, base)?;
        let register = self.part_value(a, Some(index), closing, Ty::Size, None)?;
        self.element(node, base, Which::Index(register))
    }

    /// The element at an end.
    #[cycle(uses)]
    pub(crate) fn end_of(
        &mut self,
        a: &Around,
        node: &Node<'_>,
        base: Option<Part<'_>>,
        which: Which,
    ) -> Result<Operand, NoMemory>
        ensures { Answers operand_of result ((methods.end_uses (part_uses (around_of a.now) base.entry) which node.now.place node.now.ty node.now.category).at (state_of self.old)) (state_of self.new) }
    {
        let base = self.part_base(a, base)?;
        self.element(node, base, which)
    }

    /// An iterator of an end of a range.
    #[cycle(uses)]
    pub(crate) fn cursor(
        &mut self,
        a: &Around,
        base: Option<Part<'_>>,
        end: RangeEnd,
    ) -> Result<Pointing, NoMemory>
        ensures { Answers pointing_of result (methods.cursor (part_uses (around_of a.now) base.entry) end (state_of self.old)) (state_of self.new) }
    {
        let base = self.part_base(a, base)?;
        Ok(Pointing::Cursor(base, end))
    }

    /// How many elements there are.
    #[cycle(uses)]
    pub(crate) fn sized(
        &mut self,
        a: &Around,
        base: Option<Part<'_>>,
        place: Place,
        into: Option<u32>,
    ) -> Result<u32, NoMemory>
        ensures { Answers (λ x. x) result (methods.sized (part_uses (around_of a.now) base.entry) place into (state_of self.old)) (state_of self.new) }
    {
        let base = self.part_base(a, base)?;
        let into = self.target(place, into, Ty::Size)?;
        self.emit(place, Instr::Size { into, base })?;
        Ok(into)
    }

    /// Whether there are none.
    #[cycle(uses)]
    pub(crate) fn emptied(
        &mut self,
        a: &Around,
        base: Option<Part<'_>>,
        place: Place,
        into: Option<u32>,
    ) -> Result<u32, NoMemory>
        ensures { Answers (λ x. x) result (methods.emptied (part_uses (around_of a.now) base.entry) place into (state_of self.old)) (state_of self.new) }
    {
        let count = self.sized(a, base, place, None)?;
        self.eval(into, Ty::Bool, place, Operation::IsZero(count))
    }
}
