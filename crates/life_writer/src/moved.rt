// Pointers that are moved from others, or see a part of what others see (ISO/IEC 14882:2017
// [random.access.iterators], [string.view.ops]).
ghost use Rattle.std.specs.Prelude.{◌≡◌, Some};
ghost use Rattle.life_core.specs.Operands.{location_of};
ghost use Rattle.life_typed.specs.Delimiters.{delimiters_view};
ghost use Rattle.life_writer.specs.Answers.{Answers};
ghost use Rattle.life_writer.specs.Chains as chains;
ghost use Rattle.life_writer.specs.ExpressionForms.{binary_uses, uses_if};
ghost use Rattle.life_writer.specs.MethodForms as methods;
ghost use Rattle.life_writer.specs.PartUses.{expressions_uses, part_uses};
ghost use Rattle.life_writer.specs.Parts.{node_form, node_view, part_form};
ghost use Rattle.life_writer.specs.Uses.{own};
ghost use Rattle.life_writer.specs.Using as spec;
ghost use Rattle.life_writer.specs.Views.{around_of, pointing_of, state_of};
ghost use Rattle.life_typed.specs.TypedForm.{whole};

use crate::around::{Around, own_type};
use crate::chains::{Chain, chain_begins, has_first, is_link};
use crate::methods::{first, second};
use crate::parts::{Node, Part, Shape, last_of, opened};
use crate::pointers::Pointing;
use crate::rows::{Row, row_between};
use crate::writer::Writer;
use life_core::Location;
use life_typed::{Delimiters, TypedExpr};
use life_types::{NoMemory, Place, Ty, is_pointer};

// What is no pointer itself is seen by one of the type that is wanted.
fn register_type(wanted: Ty, own: Ty) -> Ty
    ensures { result ≡ spec.register_type wanted own }
{
    if is_pointer(own) { own } else { wanted }
}

impl Writer {
    /// The location of the pointer that a part is, or that sees it where a pointer of this type is
    /// wanted. A chain of pointers that are moved is written from its innermost operand on.
    #[cycle(uses)]
    pub(crate) fn part_pointer(
        &mut self,
        a: &Around,
        part: Option<Part<'_>>,
        wanted: Ty,
    ) -> Result<Location, NoMemory>
        ensures { Answers location_of result (spec.pointer (part_uses (around_of a.now) part.entry) wanted (state_of self.old)) (state_of self.new) }
    {
        let Some(found) = part else {
            return Err(NoMemory);
        };
        let node = found.opened();
        if !is_link(Chain::Moved, &node) {
            return self.lone_pointer(a, part, wanted);
        }
        let within = found.within;
        let from = chain_begins(Chain::Moved, within);
        let mut pointer = self.own_pointer(a, last_of(&within[..from]))?;
        'links: for number in from..within.len() {
            let next = opened(last_of(&within[..number + 1]));
            pointer = self.moved_to(a, next, pointer)?;
        }
        self.moved_to(a, Some(node), pointer)
    }

    // .. that isn't moved from another one.
    #[cycle(uses)]
    fn lone_pointer(
        &mut self,
        a: &Around,
        part: Option<Part<'_>>,
        wanted: Ty,
    ) -> Result<Location, NoMemory>
        ensures { Answers location_of result (spec.pointer (part_uses (around_of a.now) part.entry) wanted (state_of self.old)) (state_of self.new) }
    {
        let Some(found) = part else {
            return Err(NoMemory);
        };
        let pointing = self.part_pointing(a, part)?;
        let ty = register_type(wanted, own_type(found.ty));
        self.located(found.place, ty, pointing)
    }

    // .. of its own type.
    #[cycle(uses)]
    fn own_pointer(&mut self, a: &Around, part: Option<Part<'_>>) -> Result<Location, NoMemory>
        ensures { Answers location_of result (spec.pointer (part_uses (around_of a.now) part.entry) (own (part_uses (around_of a.now) part.entry)) (state_of self.old)) (state_of self.new) }
    {
        let Some(found) = part else {
            return Err(NoMemory);
        };
        self.part_pointer(a, part, own_type(found.ty))
    }

    // A pointer that is moved from another one, whose location is known.
    #[cycle(uses)]
    fn moved_to(
        &mut self,
        a: &Around,
        node: Option<Node<'_>>,
        from: Location,
    ) -> Result<Location, NoMemory>
        ensures { Answers location_of result (chains.moved_to (around_of a.now) (node_form node.entry) (location_of from) (state_of self.old)) (state_of self.new) }
    {
        let Some(node) = node else {
            return Err(NoMemory);
        };
        let pointing = self.moved_on(a, &node, from)?;
        self.located(node.place, own_type(node.ty), pointing)
    }

    // What it points to.
    #[cycle(uses)]
    fn moved_on(
        &mut self,
        a: &Around,
        node: &Node<'_>,
        from: Location,
    ) -> Result<Pointing, NoMemory>
        ensures { Answers pointing_of result (chains.moved_on (around_of a.now) (whole (node_view node.now)) (location_of from) (state_of self.old)) (state_of self.new) }
    {
        match node.shape {
            Shape::Binary {
                operator,
                left,
                right,
            } => {
                let row = row_between(operator, left, right);
                self.advanced_by(a, row, from, right, node.place)
            }
            Shape::Method {
                arguments,
                delimiters,
                ..
            } => self.cut_by(a, from, arguments, delimiters),
            _ => Err(NoMemory),
        }
    }

    /// An iterator is moved by so many elements, by the row.
    #[cycle(uses)]
    pub(crate) fn advanced(
        &mut self,
        a: &Around,
        node: &Node<'_>,
        row: Row,
        left: Option<Part<'_>>,
        right: Part<'_>,
    ) -> Result<Pointing, NoMemory>
        ensures { Answers pointing_of result ((binary_uses row (part_uses (around_of a.now) left.entry) (part_uses (around_of a.now) (Some right.entry)) node.now.place node.now.ty node.now.category).pointing (state_of self.old)) (state_of self.new) }
    {
        match row {
            Row::Advanced(_) => {
                let from = self.own_pointer(a, left)?;
                self.advanced_by(a, row, from, right, node.place)
            }
            _ => Err(NoMemory),
        }
    }

    // .. from a location on.
    #[cycle(uses)]
    fn advanced_by(
        &mut self,
        a: &Around,
        row: Row,
        from: Location,
        right: Part<'_>,
        place: Place,
    ) -> Result<Pointing, NoMemory>
        ensures { Answers pointing_of result (chains.advanced_by row (location_of from) (part_uses (around_of a.now) (Some right.entry)) place (state_of self.old)) (state_of self.new) }
    {
        match row {
            Row::Advanced(direction) => {
                let ty = own_type(right.ty);
                let count = self.part_value(a, Some(right), place, ty, None)?;
                Ok(Pointing::Advanced(from, count, direction))
            }
            _ => Err(NoMemory),
        }
    }

    /// A part of a span or a view.
    #[cycle(uses)]
    pub(crate) fn cut(
        &mut self,
        a: &Around,
        base: Option<Part<'_>>,
        arguments: &[TypedExpr],
        delimiters: &Delimiters,
    ) -> Result<Pointing, NoMemory>
        ensures { Answers pointing_of result (methods.cut (part_uses (around_of a.now) base.entry) (expressions_uses (around_of a.now) arguments.now) (delimiters_view delimiters.now) (state_of self.old)) (state_of self.new) }
    {
        if !has_first(arguments) {
            return Err(NoMemory);
        }
        let from = self.own_pointer(a, base)?;
        self.cut_by(a, from, arguments, delimiters)
    }

    // .. with a location.
    #[cycle(uses)]
    fn cut_by(
        &mut self,
        a: &Around,
        from: Location,
        arguments: &[TypedExpr],
        delimiters: &Delimiters,
    ) -> Result<Pointing, NoMemory>
        ensures { Answers pointing_of result (chains.cut_by (location_of from) (expressions_uses (around_of a.now) arguments.now) (delimiters_view delimiters.now) (state_of self.old)) (state_of self.new) }
    {
        let Some(index) = first(arguments) else {
            return Err(NoMemory);
        };
        let index = self.part_value(a, Some(index), delimiters.behind(0), Ty::Size, None)?;
        let count = self.size_if(a, second(arguments), delimiters.behind(1))?;
        Ok(Pointing::Cut(from, index, count))
    }

    // A count, if it is said.
    #[cycle(uses)]
    fn size_if(
        &mut self,
        a: &Around,
        count: Option<Part<'_>>,
        behind: Place,
    ) -> Result<Option<u32>, NoMemory>
        ensures { Answers (λ x. x) result (methods.size_if (uses_if (around_of a.now) (part_form count.entry)) behind (state_of self.old)) (state_of self.new) }
    {
        match count {
            Some(part) => {
                let register = self.part_value(a, Some(part), behind, Ty::Size, None)?;
                Ok(Some(register))
            }
            None => Ok(None),
        }
    }
}
