// The values of expressions, part by part in the order of evaluation (ISO/IEC 14882:2017
// [intro.execution], [expr]).
ghost use Rattle.std.specs.Prelude.{◌≡◌, Some};
ghost use Rattle.life_writer.specs.Answers.{Answers};
ghost use Rattle.life_writer.specs.Chains.{converted_in, operated_on, operated_with};
ghost use Rattle.life_writer.specs.Around.{own_type};
ghost use Rattle.life_writer.specs.ExpressionForms.{binary_uses, compared_with};
ghost use Rattle.life_writer.specs.PartUses.{node_uses, part_uses};
ghost use Rattle.life_writer.specs.Parts.{node_form};
ghost use Rattle.life_writer.specs.Using as spec;
ghost use Rattle.life_writer.specs.Values as values;
ghost use Rattle.life_writer.specs.Views.{around_of, state_of};

use crate::around::{Around, own_type};
use crate::behind::Behind;
use crate::building::{Destination, Last};
use crate::chains::{Chain, chain_begins, is_link};
use crate::parts::{Node, Part, Shape, last_of, opened};
use crate::rows::{Row, row_between};
use crate::writer::Writer;
use life_core::{Instr, Operation, Port};
use life_typed::Category;
use life_types::{NoMemory, Place, Ty};

// The number of `true` and of `false`.
fn truth(value: bool) -> i64
    ensures { result ≡ values.truth value }
{
    if value { 1 } else { 0 }
}

impl Writer {
    /// The value of a part as one of a type, in the register that is wanted or one of its own, with the
    /// token behind it.
    #[cycle(uses)]
    pub(crate) fn part_value(
        &mut self,
        a: &Around,
        part: Option<Part<'_>>,
        behind: Place,
        to: Ty,
        into: Option<u32>,
    ) -> Result<u32, NoMemory>
        ensures { Answers (λ x. x) result (spec.value (part_uses (around_of a.now) part.entry) behind to into (state_of self.old)) (state_of self.new) }
    {
        let Some(found) = part else {
            return Err(NoMemory);
        };
        if own_type(found.ty) == to {
            return self.own_value(a, part, behind, into);
        }
        let register = self.own_value(a, part, behind, None)?;
        self.eval(into, to, found.place, Operation::Convert(register))
    }

    // .. of its own type. A chain of operators is written from its innermost operand on.
    #[cycle(uses)]
    fn own_value(
        &mut self,
        a: &Around,
        part: Option<Part<'_>>,
        behind: Place,
        into: Option<u32>,
    ) -> Result<u32, NoMemory>
        ensures { Answers (λ x. x) result (spec.own_value (part_uses (around_of a.now) part.entry) behind into (state_of self.old)) (state_of self.new) }
    {
        let Some(part) = part else {
            return Err(NoMemory);
        };
        let node = part.opened();
        if !is_link(Chain::Computed, &node) {
            return self.lone_value(a, &node, behind, into);
        }
        let within = part.within;
        let from = chain_begins(Chain::Computed, within);
        let mut register = self.own_value(a, last_of(&within[..from]), behind, None)?;
        'operators: for number in from..within.len() {
            let next = opened(last_of(&within[..number + 1]));
            register = self.operated(a, next, behind, register, None)?;
        }
        self.operated(a, Some(node), behind, register, into)
    }

    // .. which no operator computes from two others.
    #[cycle(uses)]
    fn lone_value(
        &mut self,
        a: &Around,
        node: &Node<'_>,
        behind: Place,
        into: Option<u32>,
    ) -> Result<u32, NoMemory>
        ensures { Answers (λ x. x) result (spec.own_value (node_uses (around_of a.now) node.now) behind into (state_of self.old)) (state_of self.new) }
    {
        if let Some(condition) = self.decision(a, node, Behind::lasting(behind))? {
            let ty = own_type(node.ty);
            return self.by_branch(into, ty, node.place, condition);
        }
        self.read_or_made(a, node, behind, into)
    }

    // An operator whose left operand's value is in a register.
    #[cycle(uses)]
    fn operated(
        &mut self,
        a: &Around,
        node: Option<Node<'_>>,
        behind: Place,
        register: u32,
        into: Option<u32>,
    ) -> Result<u32, NoMemory>
        ensures { Answers (λ x. x) result (operated_on (around_of a.now) (node_form node.entry) behind register into (state_of self.old)) (state_of self.new) }
    {
        let Some(node) = node else {
            return Err(NoMemory);
        };
        match node.shape {
            Shape::Binary {
                operator,
                left,
                right,
            } => {
                let row = row_between(operator, left, right);
                let ty = own_type(node.ty);
                self.operated_with(a, row, left, register, into, ty, node.place, right, behind)
            }
            _ => Err(NoMemory),
        }
    }

    // .. by its row.
    #[cycle(uses)]
    fn operated_with(
        &mut self,
        a: &Around,
        row: Row,
        left: Option<Part<'_>>,
        register: u32,
        into: Option<u32>,
        ty: Ty,
        place: Place,
        right: Part<'_>,
        behind: Place,
    ) -> Result<u32, NoMemory>
        ensures { Answers (λ x. x) result (operated_with row (part_uses (around_of a.now) left.entry) register into ty place (λ common s. spec.value (part_uses (around_of a.now) (Some right.entry)) behind common None s) (state_of self.old)) (state_of self.new) }
    {
        match row {
            Row::Computed { operator, common } => {
                let left = self.converted_in(a, left, common, register)?;
                let right = self.part_value(a, Some(right), behind, common, None)?;
                let operation = Operation::Binary {
                    operator,
                    left,
                    right,
                };
                self.eval(into, ty, place, operation)
            }
            _ => Err(NoMemory),
        }
    }

    // An operand's value in a register as one of a type.
    fn converted_in(
        &mut self,
        a: &Around,
        operand: Option<Part<'_>>,
        to: Ty,
        register: u32,
    ) -> Result<u32, NoMemory>
        ensures { Answers (λ x. x) result (converted_in (part_uses (around_of a.now) operand.entry) to register (state_of self.old)) (state_of self.new) }
    {
        match operand {
            Some(part) => self.converted(own_type(part.ty), to, part.place, register),
            None => Err(NoMemory),
        }
    }

    /// A place is read where it stands, and any other value is made.
    #[cycle(uses)]
    pub(crate) fn read_or_made(
        &mut self,
        a: &Around,
        node: &Node<'_>,
        behind: Place,
        into: Option<u32>,
    ) -> Result<u32, NoMemory>
        ensures { Answers (λ x. x) result (spec.read_or_made (node_uses (around_of a.now) node.now) behind into (state_of self.old)) (state_of self.new) }
    {
        match node.category {
            Category::Value => self.made(a, node, behind, into),
            Category::Place { .. } => {
                let from = self.at(a, node)?;
                self.load(into, own_type(node.ty), node.place, from)
            }
        }
    }

    // A value that is neither read from a place nor decided by tests.
    #[cycle(uses)]
    fn made(
        &mut self,
        a: &Around,
        node: &Node<'_>,
        behind: Place,
        into: Option<u32>,
    ) -> Result<u32, NoMemory>
        ensures { Answers (λ x. x) result ((node_uses (around_of a.now) node.now).made behind into (state_of self.old)) (state_of self.new) }
    {
        let place = node.place;
        let ty = own_type(node.ty);
        match node.shape {
            Shape::Number(number) => self.eval(
                into,
                ty,
                place,
                Operation::Number(number.cast_signed()),
            ),
            Shape::Char(code) => { self.eval(into, ty, place, Operation::Number(i64::from(code))) }
            Shape::Bool(value) => { self.eval(into, ty, place, Operation::Number(truth(value))) }
            Shape::Call {
                function,
                arguments,
                delimiters,
            } => {
                let arguments = self.arguments(a, arguments, delimiters, a.parameters(function))?;
                let last = Last::Call(place, function, arguments);
                self.built(last, Destination::Register(place, into, ty))
            }
            Shape::Paren { inner, closing } => self.part_value(a, inner, closing, ty, into),
            Shape::Input => {
                let into = self.target(place, into, ty)?;
                self.emit(place, Instr::Port(Port::Take(into)))?;
                Ok(into)
            }
            Shape::Negate(operand) => {
                let register = self.part_value(a, operand, behind, ty, None)?;
                self.eval(into, ty, place, Operation::Negate(register))
            }
            Shape::Binary {
                operator,
                left,
                right,
            } => {
                let row = row_between(operator, left, right);
                self.operated_by(a, node, row, left, right, behind, into)
            }
            Shape::Method {
                base,
                method,
                arguments,
                delimiters,
            } => self.method_made(a, node, method, base, arguments, delimiters, behind, into),
            _ => Err(NoMemory),
        }
    }

    // Both operands, and then the operator, by its row.
    #[cycle(uses)]
    fn operated_by(
        &mut self,
        a: &Around,
        node: &Node<'_>,
        row: Row,
        left: Option<Part<'_>>,
        right: Part<'_>,
        behind: Place,
        into: Option<u32>,
    ) -> Result<u32, NoMemory>
        ensures { Answers (λ x. x) result ((binary_uses row (part_uses (around_of a.now) left.entry) (part_uses (around_of a.now) (Some right.entry)) node.now.place node.now.ty node.now.category).made behind into (state_of self.old)) (state_of self.new) }
    {
        match row {
            Row::Computed { operator, common } => {
                let left = self.part_value(a, left, behind, common, None)?;
                let right = self.part_value(a, Some(right), behind, common, None)?;
                let operation = Operation::Binary {
                    operator,
                    left,
                    right,
                };
                self.eval(into, own_type(node.ty), node.place, operation)
            }
            Row::Compared { equal } => self.compared(a, node, left, right, equal, into),
            _ => Err(NoMemory),
        }
    }

    // Two iterators, or two texts: both are found first, and then seen, the left one first
    // ([string.operator==], [random.access.iterators]).
    #[cycle(uses)]
    fn compared(
        &mut self,
        a: &Around,
        node: &Node<'_>,
        left: Option<Part<'_>>,
        right: Part<'_>,
        equal: bool,
        into: Option<u32>,
    ) -> Result<u32, NoMemory>
        ensures { Answers (λ x. x) result (compared_with equal (part_uses (around_of a.now) left.entry) (part_uses (around_of a.now) (Some right.entry)) node.now.place (own_type node.now.ty) into (state_of self.old)) (state_of self.new) }
    {
        let left = self.seen(a, left)?;
        let right = self.seen(a, Some(right))?;
        let left = self.viewed(left)?;
        let right = self.viewed(right)?;
        let into = self.target(node.place, into, own_type(node.ty))?;
        self.emit(
            node.place,
            Instr::Same {
                into,
                left,
                right,
                equal,
            },
        )?;
        Ok(into)
    }
}
