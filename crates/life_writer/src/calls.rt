// Calls.
ghost use Rattle.std.specs.Prelude.{◌≡◌, OnOk, option_map};
ghost use Rattle.life_writer.specs.Calls as spec;
ghost use Rattle.life_writer.specs.PartUses.{node_uses, part_uses};
ghost use Rattle.life_writer.specs.Parts.{node_form, part_form, part_view};
ghost use Rattle.life_writer.specs.Views.{around_of, called_of, state_of};

use crate::around::{Around, own_type};
use crate::parts::{Node, Part, Shape, opened};
use crate::writer::Writer;
use life_core::{FnId, Instr};
use life_typed::{Category, Delimiters, TypedExpr};
use life_types::{NoMemory, Ty};

/// A call: the number of the function, the arguments, and the tokens behind them.
#[derive(Clone, Copy)]
pub struct Called<'a> {
    pub function: u32,
    pub arguments: &'a [TypedExpr],
    pub delimiters: &'a Delimiters,
}

/// The call that an expression is, also in parentheses, where its result needs no conversion to a type.
pub(crate) fn call_for(part: Part<'_>, ty: Ty) -> Option<Called<'_>>
    ensures { option_map called_of result ≡ spec.call_for (part_view part.entry) ty }
{
    match part.category {
        Category::Value if own_type(part.ty) == ty => part_call(Some(part)),
        _ => None,
    }
}

#[cycle(call_of)]
fn part_call(part: Option<Part<'_>>) -> Option<Called<'_>>
    ensures { option_map called_of result ≡ spec.expression_call (part_form part.entry) }
{
    node_call(opened(part))
}

#[cycle(call_of)]
fn node_call(node: Option<Node<'_>>) -> Option<Called<'_>>
    ensures { option_map called_of result ≡ spec.expression_call (node_form node.entry) }
{
    let node = node?;
    match node.shape {
        Shape::Call {
            function,
            arguments,
            delimiters,
        } => Some(Called {
            function,
            arguments,
            delimiters,
        }),
        Shape::Paren { inner, .. } => part_call(inner),
        _ => None,
    }
}

impl Writer {
    /// What is done by a part that has no result.
    #[cycle(alone)]
    pub(crate) fn part_alone(&mut self, a: &Around, part: Option<Part<'_>>) -> Result<(), NoMemory>
        ensures { OnOk result (state_of self.new ≡ (part_uses (around_of a.now) part.entry).alone (state_of self.old)) }
    {
        match part {
            Some(part) => self.node_alone(a, &part.opened()),
            None => Err(NoMemory),
        }
    }

    #[cycle(alone)]
    fn node_alone(&mut self, a: &Around, node: &Node<'_>) -> Result<(), NoMemory>
        ensures { OnOk result (state_of self.new ≡ (node_uses (around_of a.now) node.now).alone (state_of self.old)) }
    {
        match node.shape {
            Shape::Call {
                function,
                arguments,
                delimiters,
            } => {
                let arguments = self.arguments(a, arguments, delimiters, a.parameters(function))?;
                self.emit(
                    node.place,
                    Instr::Call {
                        target: None,
                        function: FnId(function),
                        arguments,
                    },
                )
            }
            Shape::Paren { inner, .. } => self.part_alone(a, inner),
            Shape::Method {
                base,
                method,
                arguments,
                delimiters,
            } => self.method_alone(a, node, method, base, arguments, delimiters),
            _ => Err(NoMemory),
        }
    }
}
