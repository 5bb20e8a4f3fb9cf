// Places within places: members, elements and what is owned (ISO/IEC 14882:2017 [expr.ref], [expr.sub]).
ghost use Rattle.std.specs.Prelude.{◌≡◌, IfOk};
ghost use Rattle.life_core.specs.Operands.{operand_of};
ghost use Rattle.life_writer.specs.Answers.{Answers};
ghost use Rattle.life_writer.specs.Chains as chains;
ghost use Rattle.life_writer.specs.PartUses.{part_uses};
ghost use Rattle.life_writer.specs.Parts.{node_form};
ghost use Rattle.life_writer.specs.Using as spec;
ghost use Rattle.life_writer.specs.Views.{around_of, state_of};

use crate::around::Around;
use crate::chains::{Chain, chain_begins, is_link};
use crate::parts::{Node, Part, Shape, last_of, opened};
use crate::writer::Writer;
use life_core::{Base, Location, Operand, Which};
use life_typed::Method;
use life_types::{NoMemory, Ty};

/// A member of a place.
pub(crate) fn with_member(place: Operand, member: u32) -> Result<Operand, NoMemory>
    ensures { IfOk result (λ o. operand_of o ≡ spec.with_member member (operand_of place)) }
{
    match place {
        Operand::Name(Location { local, mut members }) => {
            members.push(member)?;
            Ok(Operand::Name(Location { local, members }))
        }
        Operand::Through {
            pointer,
            mut members,
        } => {
            members.push(member)?;
            Ok(Operand::Through { pointer, members })
        }
    }
}

impl Writer {
    /// The place that a part is. A chain of places within places is written from its innermost one on.
    #[cycle(uses)]
    pub(crate) fn part_at(
        &mut self,
        a: &Around,
        part: Option<Part<'_>>,
    ) -> Result<Operand, NoMemory>
        ensures { Answers operand_of result ((part_uses (around_of a.now) part.entry).at (state_of self.old)) (state_of self.new) }
    {
        let Some(found) = part else {
            return Err(NoMemory);
        };
        let node = found.opened();
        if !is_link(Chain::Placed, &node) {
            return self.at(a, &node);
        }
        let within = found.within;
        let from = chain_begins(Chain::Placed, within);
        let mut place = self.part_at(a, last_of(&within[..from]))?;
        'links: for number in from..within.len() {
            let next = opened(last_of(&within[..number + 1]));
            place = self.placed_on(a, next, place)?;
        }
        self.placed_on(a, Some(node), place)
    }

    // A place within another one, which is known.
    #[cycle(uses)]
    fn placed_on(
        &mut self,
        a: &Around,
        node: Option<Node<'_>>,
        place: Operand,
    ) -> Result<Operand, NoMemory>
        ensures { Answers operand_of result (chains.placed_on (around_of a.now) (node_form node.entry) (operand_of place) (state_of self.old)) (state_of self.new) }
    {
        let Some(node) = node else {
            return Err(NoMemory);
        };
        match node.shape {
            Shape::Member { member, .. } => {
                let reached = with_member(place, member)?;
                Ok(reached)
            }
            Shape::Index { index, closing, .. } => {
                let register = self.part_value(a, Some(index), closing, Ty::Size, None)?;
                self.element(&node, Base::Owner(place), Which::Index(register))
            }
            Shape::Dereference(_) => self.element(&node, Base::Owner(place), Which::Target),
            Shape::Method { method, .. } => self.end_on(&node, method, place),
            _ => Err(NoMemory),
        }
    }

    // The element at an end.
    fn end_on(
        &mut self,
        node: &Node<'_>,
        method: Method,
        place: Operand,
    ) -> Result<Operand, NoMemory>
        ensures { Answers operand_of result (chains.end_on method node.now.place node.now.category (operand_of place) (state_of self.old)) (state_of self.new) }
    {
        match method {
            Method::Front => self.element(node, Base::Owner(place), Which::First),
            Method::Back => self.element(node, Base::Owner(place), Which::Last),
            _ => Err(NoMemory),
        }
    }
}
