// Expressions as conditions, and what is decided by tests (ISO/IEC 14882:2017 [stmt.select],
// [conv.bool], [expr.log.and], [expr.log.or], [expr.unary.op]).
ghost use Rattle.std.specs.Prelude.{◌≡◌, None, Some};
ghost use Rattle.life_core.specs.Operands.{location_of};
ghost use Rattle.life_core.specs.Tree.{condition_tree};
ghost use Rattle.life_typed.specs.Operators as operators;
ghost use Rattle.life_writer.specs.Answers.{Answers, AnswersIf};
ghost use Rattle.life_writer.specs.Behind.{ending};
ghost use Rattle.life_writer.specs.Chains.{joined_on, joined_with};
ghost use Rattle.life_writer.specs.Conditions as conditions;
ghost use Rattle.life_writer.specs.ExpressionForms.{binary_uses, uses};
ghost use Rattle.life_writer.specs.PartUses.{node_uses, part_uses};
ghost use Rattle.life_writer.specs.Parts.{node_form};
ghost use Rattle.life_writer.specs.Using as spec;
ghost use Rattle.life_writer.specs.Views.{around_of, state_of};

use crate::around::{Around, own_type};
use crate::behind::Behind;
use crate::chains::{Chain, chain_begins, is_link, token_behind};
use crate::conditions::{join, negation};
use crate::parts::{Node, Part, Shape, last_of, opened};
use crate::rows::{Row, Side, row_between};
use crate::writer::Writer;
use life_core::{Condition, Location, Test};
use life_types::{NoMemory, Place, Ty, is_raw, is_unique};

// What is tested for null: a raw pointer or a `std::unique_ptr`.
fn is_nullable(ty: Ty) -> bool
    ensures { result ≡ operators.is_nullable ty }
{
    is_raw(ty) || is_unique(ty)
}

// What is tested of a unique_ptr that is a value is the pointer to what it owns.
fn tested_type(ty: Ty) -> Ty
    ensures { result ≡ spec.tested_type ty }
{
    match ty {
        Ty::Unique(target) => Ty::Raw {
            target,
            constant: false,
        },
        _ => ty,
    }
}

// What stands on a side.
fn on<'a>(side: Side, left: Option<Part<'a>>, right: Part<'a>) -> Option<Part<'a>>
    ensures { result ≡ conditions.on side left.entry (Some right.entry) }
{
    match side {
        Side::Left => left,
        Side::Right => Some(right),
    }
}

impl Writer {
    /// A part as a condition. A chain of `&&` and `||` is written from its innermost operand on.
    #[cycle(uses)]
    pub(crate) fn part_condition(
        &mut self,
        a: &Around,
        part: Option<Part<'_>>,
        behind: Behind,
    ) -> Result<Condition, NoMemory>
        ensures { Answers condition_tree result (spec.condition (part_uses (around_of a.now) part.entry) behind (state_of self.old)) (state_of self.new) }
    {
        let Some(part) = part else {
            return Err(NoMemory);
        };
        let node = part.opened();
        if !is_link(Chain::Joined, &node) {
            return self.lone_condition(a, &node, behind);
        }
        let within = part.within;
        let from = chain_begins(Chain::Joined, within);
        let first = Behind::ending(token_behind(within, from, part.place));
        let mut condition = self.part_condition(a, last_of(&within[..from]), first)?;
        'operators: for number in from..within.len() {
            let next = opened(last_of(&within[..number + 1]));
            let token = token_behind(within, number + 1, part.place);
            condition = self.joined(a, next, token, condition)?;
        }
        self.joined(a, Some(node), behind.token, condition)
    }

    // A condition that `&&` and `||` don't join.
    #[cycle(uses)]
    fn lone_condition(
        &mut self,
        a: &Around,
        node: &Node<'_>,
        behind: Behind,
    ) -> Result<Condition, NoMemory>
        ensures { Answers condition_tree result (spec.condition (node_uses (around_of a.now) node.now) behind (state_of self.old)) (state_of self.new) }
    {
        match self.decision(a, node, behind)? {
            Some(decision) => Ok(decision),
            None if is_nullable(own_type(node.ty)) => {
                self.not_null(a, node.place, behind.ends, Some(*node))
            }
            None => self.non_zero(a, node, behind),
        }
    }

    // A condition with the one to its right.
    #[cycle(uses)]
    fn joined(
        &mut self,
        a: &Around,
        node: Option<Node<'_>>,
        behind: Place,
        condition: Condition,
    ) -> Result<Condition, NoMemory>
        ensures { Answers condition_tree result (joined_on (around_of a.now) (node_form node.entry) behind (condition_tree condition) (state_of self.old)) (state_of self.new) }
    {
        let Some(node) = node else {
            return Err(NoMemory);
        };
        match node.shape {
            Shape::Binary {
                operator,
                left,
                right,
            } => self.joined_with(
                a,
                row_between(operator, left, right),
                condition,
                right,
                behind,
            ),
            _ => Err(NoMemory),
        }
    }

    // .. by its row.
    #[cycle(uses)]
    fn joined_with(
        &mut self,
        a: &Around,
        row: Row,
        condition: Condition,
        right: Part<'_>,
        behind: Place,
    ) -> Result<Condition, NoMemory>
        ensures { Answers condition_tree result (joined_with row (condition_tree condition) (spec.condition (part_uses (around_of a.now) (Some right.entry)) (ending behind)) (state_of self.old)) (state_of self.new) }
    {
        match row {
            Row::Joined(by) => {
                let right = self.part_condition(a, Some(right), Behind::ending(behind))?;
                join(self.alloc, by, condition, right)
            }
            _ => Err(NoMemory),
        }
    }

    // Whether a pointer or a unique_ptr isn't null.
    #[cycle(uses)]
    fn not_null(
        &mut self,
        a: &Around,
        place: Place,
        ends: Option<Place>,
        node: Option<Node<'_>>,
    ) -> Result<Condition, NoMemory>
        ensures { Answers condition_tree result (conditions.not_null place ends (spec.nullable (uses (around_of a.now) (node_form node.entry))) (state_of self.old)) (state_of self.new) }
    {
        let Some(node) = node else {
            return Err(NoMemory);
        };
        let before = self.begin_test();
        let location = self.nullable(a, &node)?;
        self.behind_code(before, place, ends, Test::NotNull(location))
    }

    // The location that is tested for null.
    #[cycle(uses)]
    fn nullable(&mut self, a: &Around, node: &Node<'_>) -> Result<Location, NoMemory>
        ensures { Answers location_of result (spec.nullable (node_uses (around_of a.now) node.now) (state_of self.old)) (state_of self.new) }
    {
        let pointing = self.node_pointing(a, node)?;
        self.located(node.place, tested_type(own_type(node.ty)), pointing)
    }

    // Whether a value that isn't decided by tests isn't 0.
    #[cycle(uses)]
    fn non_zero(
        &mut self,
        a: &Around,
        node: &Node<'_>,
        behind: Behind,
    ) -> Result<Condition, NoMemory>
        ensures { Answers condition_tree result (conditions.non_zero node.now.place behind.ends (spec.read_or_made (node_uses (around_of a.now) node.now) behind.token None) (state_of self.old)) (state_of self.new) }
    {
        let before = self.begin_test();
        let register = self.read_or_made(a, node, behind.token, None)?;
        self.behind_code(before, node.place, behind.ends, Test::NonZero(register))
    }

    /// What is decided by tests: `!`, `&&`, `||` and comparisons with nullptr.
    #[cycle(uses)]
    pub(crate) fn decision(
        &mut self,
        a: &Around,
        node: &Node<'_>,
        behind: Behind,
    ) -> Result<Option<Condition>, NoMemory>
        ensures { AnswersIf condition_tree result ((node_uses (around_of a.now) node.now).decision behind) (state_of self.old) (state_of self.new) }
    {
        match node.shape {
            Shape::Paren { inner, closing } => {
                self.part_decision(a, inner, behind.closed_by(closing))
            }
            Shape::Not(operand) => {
                let condition = self.part_condition(a, operand, behind)?;
                Ok(Some(negation(self.alloc, condition)?))
            }
            Shape::Binary {
                operator,
                left,
                right,
            } => {
                let row = row_between(operator, left, right);
                self.decided(a, node, row, left, right, behind)
            }
            Shape::Method { .. } => Ok(None),
            Shape::TextOf { .. } => Ok(None),
            _ => Ok(None),
        }
    }

    #[cycle(uses)]
    fn part_decision(
        &mut self,
        a: &Around,
        part: Option<Part<'_>>,
        behind: Behind,
    ) -> Result<Option<Condition>, NoMemory>
        ensures { AnswersIf condition_tree result ((part_uses (around_of a.now) part.entry).decision behind) (state_of self.old) (state_of self.new) }
    {
        match part {
            Some(part) => self.decision(a, &part.opened(), behind),
            None => Ok(None),
        }
    }

    // .. of two operands, by the row.
    #[cycle(uses)]
    fn decided(
        &mut self,
        a: &Around,
        node: &Node<'_>,
        row: Row,
        left: Option<Part<'_>>,
        right: Part<'_>,
        behind: Behind,
    ) -> Result<Option<Condition>, NoMemory>
        ensures { AnswersIf condition_tree result ((binary_uses row (part_uses (around_of a.now) left.entry) (part_uses (around_of a.now) (Some right.entry)) node.now.place node.now.ty node.now.category).decision behind) (state_of self.old) (state_of self.new) }
    {
        let place = node.place;
        match row {
            Row::Joined(by) => {
                let left = self.part_condition(a, left, Behind::ending(place))?;
                let right = self.part_condition(a, Some(right), Behind::ending(behind.token))?;
                Ok(Some(join(self.alloc, by, left, right)?))
            }
            Row::IsNull(side) => {
                let part = opened(on(side, left, right));
                let condition = self.not_null(a, place, behind.ends, part)?;
                Ok(Some(negation(self.alloc, condition)?))
            }
            Row::NotNull(side) => {
                let part = opened(on(side, left, right));
                let condition = self.not_null(a, place, behind.ends, part)?;
                Ok(Some(condition))
            }
            _ => Ok(None),
        }
    }
}
