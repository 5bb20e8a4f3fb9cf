// Where statements end in the text, and which of them control can't run past by what their text says.
ghost use Rattle.std.specs.Prelude.{◌≡◌, map};
ghost use Rattle.life_typed.specs.Ends as spec;
ghost use Rattle.life_typed.specs.TypedStatement.{block_view, block_item_view, branch_view, stmt_forms, stmt_view};
ghost use Rattle.life_elab.specs.LastTokens as tokens;
ghost use Rattle.life_elab.specs.Last.{last_view};

use life_typed::{TypedBlock, TypedBlockItem, TypedBranch, TypedStmt};
use life_types::Place;

/// Whether control can't run past a block's end: its last statement ends.
#[cycle(ends)]
pub(crate) fn block_ends(block: &TypedBlock) -> bool
    ensures { result ≡ spec.ends (block_view block.now) }
{
    let mut ends = false;
    'items: for item in &block.items {
        ends = item_ends(item);
    }
    ends
}

#[cycle(ends)]
fn item_ends(item: &TypedBlockItem) -> bool
    ensures { result ≡ spec.ends (block_item_view item.now) }
{
    match item {
        TypedBlockItem::Declare { .. } => false,
        TypedBlockItem::Stmt(statement) => statement_ends(statement),
    }
}

#[cycle(ends)]
fn statement_ends(statement: &TypedStmt) -> bool
    ensures { result ≡ spec.ends (stmt_view statement.now) }
{
    match statement {
        TypedStmt::Block(block) => block_ends(block),
        TypedStmt::Return { .. } => true,
        TypedStmt::If { branches, last } => all_end(branches) && last_ends(last),
        _ => false,
    }
}

#[cycle(ends)]
fn all_end(branches: &[TypedBranch]) -> bool
    ensures { result ≡ spec.all_end (stmt_forms (map branch_view branches.now)) }
{
    'branches: for branch in branches {
        if !statement_ends(&branch.body) {
            return false;
        }
    }
    true
}

// Without `else` control may run past.
#[cycle(ends)]
fn last_ends(last: &Option<Box<TypedStmt>>) -> bool
    ensures { result ≡ spec.ends (last_view last.now) }
{
    match last {
        Some(last) => statement_ends(last),
        None => false,
    }
}

/// The last token of a statement.
#[cycle(last_token)]
pub(crate) fn last_token(statement: &TypedStmt, before: Place) -> Place
    ensures { result ≡ tokens.last_token (stmt_view statement.now) before }
{
    match statement {
        TypedStmt::Block(block) => block.closing,
        TypedStmt::Empty(place) => *place,
        TypedStmt::Simple { semicolon, .. } => *semicolon,
        TypedStmt::If { branches, last } => last_of_last(last, last_of_branches(branches, before)),
        TypedStmt::While { closing, body, .. } => last_token(body, *closing),
        TypedStmt::For { closing, body, .. } => last_token(body, *closing),
        TypedStmt::RangeFor { closing, body, .. } => last_token(body, *closing),
        TypedStmt::Break { semicolon, .. } => *semicolon,
        TypedStmt::Continue { semicolon, .. } => *semicolon,
        TypedStmt::Return { semicolon, .. } => *semicolon,
        TypedStmt::Print { semicolon, .. } => *semicolon,
        TypedStmt::Assert { semicolon, .. } => *semicolon,
    }
}

// .. of what stands behind the last `else`, if anything does.
#[cycle(last_token)]
fn last_of_last(last: &Option<Box<TypedStmt>>, before: Place) -> Place
    ensures { result ≡ tokens.last_token (last_view last.now) before }
{
    match last {
        Some(last) => last_token(last, before),
        None => before,
    }
}

#[cycle(last_token)]
fn last_of_branches(branches: &[TypedBranch], before: Place) -> Place
    ensures { result ≡ tokens.last_token (stmt_forms (map branch_view branches.now)) before }
{
    let mut token = before;
    'branches: for branch in branches {
        token = last_token(&branch.body, branch.closing);
    }
    token
}
