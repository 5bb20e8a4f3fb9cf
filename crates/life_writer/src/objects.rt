// Owners and structs that are values: what builds them (ISO/IEC 14882:2017 [basic.string],
// [unique.ptr], [dcl.init.list]).
ghost use Rattle.std.specs.Prelude.{Some};
ghost use Rattle.life_writer.specs.Answers.{Answers};
ghost use Rattle.life_writer.specs.Chains.{text_on};
ghost use Rattle.life_writer.specs.Characters as characters;
ghost use Rattle.life_writer.specs.Around.{type_of};
ghost use Rattle.life_writer.specs.ExpressionForms.{binary_uses, uses_if};
ghost use Rattle.life_writer.specs.OwnerForms as spec;
ghost use Rattle.life_writer.specs.PartUses.{node_uses, part_uses};
ghost use Rattle.life_writer.specs.Parts.{node_form, part_form};
ghost use Rattle.life_writer.specs.Using as using;
ghost use Rattle.life_writer.specs.Views.{around_of, destination_of, last_of, seen_of, state_of};

use crate::acts::Act;
use crate::around::{Around, own_type};
use crate::building::{Destination, Last};
use crate::chains::{Chain, chain_begins, is_link};
use crate::characters::SeenCharacters;
use crate::parts::{Node, Part, Shape, last_of, opened};
use crate::pointers::Pointing;
use crate::rows::{Row, row_between};
use crate::writer::Writer;
use life_core::{Made, Operand, Source};
use life_typed::Category;
use life_types::{NoMemory, Place, Ty, TyId};

impl Writer {
    /// A part is built where it goes.
    #[cycle(uses)]
    pub(crate) fn part_object(
        &mut self,
        a: &Around,
        part: Option<Part<'_>>,
        destination: Destination,
    ) -> Result<u32, NoMemory>
        ensures { Answers (λ x. x) result (using.object_in (part_uses (around_of a.now) part.entry) (destination_of destination) (state_of self.old)) (state_of self.new) }
    {
        match part {
            Some(part) => self.object(a, &part.opened(), destination),
            None => Err(NoMemory),
        }
    }

    /// .. once it is opened.
    #[cycle(uses)]
    pub(crate) fn object(
        &mut self,
        a: &Around,
        node: &Node<'_>,
        destination: Destination,
    ) -> Result<u32, NoMemory>
        ensures { Answers (λ x. x) result (using.object_in (node_uses (around_of a.now) node.now) (destination_of destination) (state_of self.old)) (state_of self.new) }
    {
        match node.shape {
            Shape::Construct {
                elements,
                delimiters,
                ..
            } => {
                let ty = own_type(node.ty);
                self.list(a, ty, node.place, elements, delimiters, destination)
            }
            Shape::Paren { inner, .. } => self.part_object(a, inner, destination),
            Shape::TextOf { inner, .. } => self.string(a, node, inner, destination),
            _ => {
                let last = self.object_last(a, node)?;
                self.built(last, destination)
            }
        }
    }

    // What is left to do once all that stands before it is written.
    #[cycle(uses)]
    fn object_last(&mut self, a: &Around, node: &Node<'_>) -> Result<Last, NoMemory>
        ensures { Answers last_of result ((node_uses (around_of a.now) node.now).object (state_of self.old)) (state_of self.new) }
    {
        let place = node.place;
        match node.shape {
            Shape::Text(text) => {
                let text = a.text_of(text)?;
                let view = self.located(place, Ty::View, Pointing::At(Source::Text(text)))?;
                Ok(Last::Lived(Act::Set(view)))
            }
            Shape::Null => Ok(Last::Lived(Act::Null)),
            Shape::Call {
                function,
                arguments,
                delimiters,
            } => {
                let arguments = self.arguments(a, arguments, delimiters, a.parameters(function))?;
                Ok(Last::Call(place, function, arguments))
            }
            Shape::Move(number) => Ok(Last::Lived(Act::MovedFrom(place, number))),
            Shape::MakeUnique {
                element,
                argument,
                closing,
            } => {
                let made = self.owned(a, element, argument, closing)?;
                Ok(Last::Lived(Act::Made(place, made)))
            }
            Shape::Binary {
                operator,
                left,
                right,
            } => {
                let row = row_between(operator, left, right);
                self.concatenated(a, node, row, left, right)
            }
            _ => Err(NoMemory),
        }
    }

    // `std::string(e)`: a copy of a string, a string that is a value itself, or one that takes what a
    // view sees ([string.cons]).
    #[cycle(uses)]
    fn string(
        &mut self,
        a: &Around,
        node: &Node<'_>,
        inner: Option<Part<'_>>,
        destination: Destination,
    ) -> Result<u32, NoMemory>
        ensures { Answers (λ x. x) result (using.object_in (spec.string_uses (part_uses (around_of a.now) inner.entry) node.now.place node.now.ty node.now.category) (destination_of destination) (state_of self.old)) (state_of self.new) }
    {
        let Some(part) = inner else {
            return Err(NoMemory);
        };
        let own = own_type(part.ty);
        match own {
            Ty::Text => self.string_of_string(a, node, part, destination),
            _ => {
                let view = self.part_pointer(a, inner, Ty::View)?;
                self.built(Last::Lived(Act::SetAt(node.place, view)), destination)
            }
        }
    }

    #[cycle(uses)]
    fn string_of_string(
        &mut self,
        a: &Around,
        node: &Node<'_>,
        part: Part<'_>,
        destination: Destination,
    ) -> Result<u32, NoMemory>
        ensures { Answers (λ x. x) result (using.object_in (spec.string_of_string part.entry.category (part_uses (around_of a.now) (Some part.entry)) node.now.place node.now.ty node.now.category) (destination_of destination) (state_of self.old)) (state_of self.new) }
    {
        match part.category {
            Category::Value => self.part_object(a, Some(part), destination),
            Category::Place { .. } => {
                let from = self.part_at(a, Some(part))?;
                self.built(Last::Lived(Act::CopiedAt(node.place, from)), destination)
            }
        }
    }

    /// What a `std::unique_ptr` is made to own ([unique.ptr.create]).
    #[cycle(uses)]
    pub(crate) fn owned(
        &mut self,
        a: &Around,
        element: TyId,
        argument: Option<Part<'_>>,
        closing: Place,
    ) -> Result<Made, NoMemory>
        ensures { Answers (λ m. m) result (spec.owned_operand (type_of (around_of a.now) element) (uses_if (around_of a.now) (part_form argument.entry)) closing (state_of self.old)) (state_of self.new) }
    {
        match argument {
            Some(part) => {
                let given = self.given_over(a, part, a.type_of(element), closing)?;
                Ok(Made::Of(given))
            }
            None => Ok(Made::Zero),
        }
    }

    // Two texts that become one, by the row.
    #[cycle(uses)]
    fn concatenated(
        &mut self,
        a: &Around,
        node: &Node<'_>,
        row: Row,
        left: Option<Part<'_>>,
        right: Part<'_>,
    ) -> Result<Last, NoMemory>
        ensures { Answers last_of result ((binary_uses row (part_uses (around_of a.now) left.entry) (part_uses (around_of a.now) (Some right.entry)) node.now.place node.now.ty node.now.category).object (state_of self.old)) (state_of self.new) }
    {
        match row {
            Row::Concatenated => {
                let left = self.seen(a, left)?;
                let right = self.seen(a, Some(right))?;
                Ok(Last::Lived(Act::Joined(node.place, left, right)))
            }
            _ => Err(NoMemory),
        }
    }

    // A string that two texts become, the left one of which is found already.
    #[cycle(uses)]
    fn text_on(
        &mut self,
        a: &Around,
        node: Option<Node<'_>>,
        left: SeenCharacters,
    ) -> Result<SeenCharacters, NoMemory>
        ensures { Answers seen_of result (text_on (around_of a.now) (node_form node.entry) (seen_of left) (state_of self.old)) (state_of self.new) }
    {
        let Some(node) = node else {
            return Err(NoMemory);
        };
        match node.shape {
            Shape::Binary { right, .. } => {
                let right = self.seen(a, Some(right))?;
                let last = Last::Lived(Act::Joined(node.place, left, right));
                let goal = Destination::Temporary(node.place, own_type(node.ty));
                let local = self.built(last, goal)?;
                let string = Operand::name(self.alloc, local);
                Ok(SeenCharacters::InString(node.place, string))
            }
            _ => Err(NoMemory),
        }
    }

    /// Where a part's characters are found. A chain of `+` is written from its innermost operand on.
    #[cycle(uses)]
    pub(crate) fn seen(
        &mut self,
        a: &Around,
        part: Option<Part<'_>>,
    ) -> Result<SeenCharacters, NoMemory>
        ensures { Answers seen_of result (characters.seen (part_uses (around_of a.now) part.entry) (state_of self.old)) (state_of self.new) }
    {
        let Some(found) = part else {
            return Err(NoMemory);
        };
        let node = found.opened();
        if !is_link(Chain::Concatenated, &node) {
            return self.lone_seen(a, part);
        }
        let within = found.within;
        let from = chain_begins(Chain::Concatenated, within);
        let mut text = self.seen(a, last_of(&within[..from]))?;
        'operators: for number in from..within.len() {
            let next = opened(last_of(&within[..number + 1]));
            text = self.text_on(a, next, text)?;
        }
        self.text_on(a, Some(node), text)
    }

    // .. which no `+` makes of two others.
    #[cycle(uses)]
    fn lone_seen(&mut self, a: &Around, part: Option<Part<'_>>) -> Result<SeenCharacters, NoMemory>
        ensures { Answers seen_of result (characters.seen (part_uses (around_of a.now) part.entry) (state_of self.old)) (state_of self.new) }
    {
        let Some(found) = part else {
            return Err(NoMemory);
        };
        let own = own_type(found.ty);
        match own {
            Ty::Text => {
                let string = self.part_operand(a, part)?;
                Ok(SeenCharacters::InString(found.place, string))
            }
            Ty::Char => {
                let register = self.part_value(a, part, found.place, Ty::Char, None)?;
                Ok(SeenCharacters::InRegister(register))
            }
            _ => {
                let view = self.part_pointer(a, part, Ty::View)?;
                Ok(SeenCharacters::InView(view))
            }
        }
    }
}
