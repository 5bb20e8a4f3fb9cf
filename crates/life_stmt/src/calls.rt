// Whether an operand is a call: its last part that has a token is arguments.
ghost use Rattle.std.specs.Prelude.{◌≡◌, fold, map};
ghost use Rattle.life_stmt.specs.Simples as spec;
ghost use Rattle.life_tree.specs.Grammar as grammar;
ghost use Rattle.life_tree.specs.Views.{list_tree, postfix_part_tree, postfix_tree, primary_tree};

use life_tree::{Postfix, PostfixPart, Primary};

/// Whether what stands first ends in arguments.
fn is_call_primary(primary: &Primary) -> bool
    ensures { result ≡ grammar.ends_in_arguments (primary_tree primary.now) }
{
    match primary {
        Primary::Call { .. } => true,
        Primary::MakeUnique { .. } => true,
        Primary::Number { .. } => false,
        Primary::Char { .. } => false,
        Primary::Text { .. } => false,
        Primary::True(_) => false,
        Primary::False(_) => false,
        Primary::Null(_) => false,
        Primary::Name(_) => false,
        Primary::Construct { .. } => false,
        Primary::Paren { .. } => false,
        Primary::Move { .. } => false,
        Primary::TextOf { .. } => false,
        Primary::Input { .. } => false,
    }
}

/// Whether what stands behind an operand ends in arguments.
fn is_call_part(part: &PostfixPart, before: bool) -> bool
    ensures { result ≡ spec.call_after before part.now }
{
    match part {
        PostfixPart::Member { arguments, .. } => arguments.is_some(),
        PostfixPart::Arrow { arguments, .. } => arguments.is_some(),
        PostfixPart::Index { .. } => false,
    }
}

/// Whether an operand ends in arguments, where what stands first does or not.
fn ends_in_call(first: bool, parts: &[PostfixPart]) -> bool
    ensures { result ≡ fold spec.call_after first parts.now }
{
    let mut found = first;
    for part in parts {
        found = is_call_part(part, found);
    }
    found
}

/// The same, by the parts as one tree.
fn is_call(first: bool, parts: &[PostfixPart]) -> bool
    ensures { result ≡ spec.call_behind first (list_tree (map postfix_part_tree parts.now)) }
{
    ends_in_call(first, parts)
}

/// Whether an operand ends in arguments.
pub fn ends_in_arguments(operand: &Postfix) -> bool
    ensures { result ≡ grammar.ends_in_arguments (postfix_tree operand.now) }
{
    let first = is_call_primary(&operand.primary);
    is_call(first, &operand.parts)
}
