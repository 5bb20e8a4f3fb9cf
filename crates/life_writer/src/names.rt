// The variable that an expression names.
ghost use Rattle.std.specs.Prelude.{◌≡◌};
ghost use Rattle.life_writer.specs.PartUses.{expression_uses, node_uses, part_uses};
ghost use Rattle.life_writer.specs.Views.{around_of};

use crate::around::Around;
use crate::parts::{Node, Part, Shape};
use life_typed::TypedExpr;

#[cycle(named)]
fn part_named(a: &Around, part: Option<Part<'_>>) -> Option<u32>
    ensures { result ≡ (part_uses (around_of a.now) part.entry).named }
{
    match part {
        Some(part) => node_named(a, &part.opened()),
        None => None,
    }
}

#[cycle(named)]
fn node_named(a: &Around, node: &Node<'_>) -> Option<u32>
    ensures { result ≡ (node_uses (around_of a.now) node.now).named }
{
    match node.shape {
        Shape::Local(number) => Some(number),
        Shape::Paren { inner, .. } => part_named(a, inner),
        Shape::TextOf { .. } => None,
        Shape::Binary { .. } => None,
        Shape::Method { .. } => None,
        _ => None,
    }
}

/// The variable that an expression names, also in parentheses.
pub fn named(a: &Around, expression: &TypedExpr) -> Option<u32>
    ensures { result ≡ (expression_uses (around_of a.now) expression.now).named }
{
    part_named(a, Some(Part::of(expression)))
}
