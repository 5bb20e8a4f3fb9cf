// Whether control can't run past a statement's end by what its text says.
ghost use Rattle.std.specs.Prelude.{◌≡◌, map, option_map};
ghost use Rattle.life_tree.specs.declared.stmt.If.{out-If};
ghost use Rattle.life_type_stmt.specs.Ends as spec;

use life_tree::{Block, BlockItem, Branch, Else, If, PlainStmt, Stmt};

#[cycle(ends)]
fn item_ends(item: &BlockItem) -> bool
    ensures { result ≡ spec.item_ends item.now }
{
    match item {
        BlockItem::Declare { .. } => false,
        BlockItem::Stmt(stmt) => stmt_ends(stmt),
    }
}

#[cycle(ends)]
fn stmt_ends(stmt: &Stmt) -> bool
    ensures { result ≡ spec.stmt_ends stmt.now }
{
    match stmt {
        Stmt::If(stmt) => if_ends(stmt),
        Stmt::Plain(stmt) => plain_ends(stmt),
    }
}

#[cycle(ends)]
fn plain_ends(stmt: &PlainStmt) -> bool
    ensures { result ≡ spec.plain_ends stmt.now }
{
    match stmt {
        PlainStmt::Block(block) => block_ends(block),
        PlainStmt::Return { .. } => true,
        PlainStmt::Empty(_) => false,
        PlainStmt::Simple { .. } => false,
        PlainStmt::While { .. } => false,
        PlainStmt::For(_) => false,
        PlainStmt::RangeFor(_) => false,
        PlainStmt::Break { .. } => false,
        PlainStmt::Continue { .. } => false,
        PlainStmt::Print { .. } => false,
        PlainStmt::Assert { .. } => false,
    }
}

#[cycle(ends)]
fn branch_ends(branch: &Branch) -> bool
    ensures { result ≡ spec.branch_ends branch.now }
{
    stmt_ends(&branch.body)
}

/// The branches behind the first.
#[cycle(ends)]
fn all_end(stmt: &If) -> bool
    ensures { result ≡ spec.all_end (map spec.else_if_ends (out-If stmt.now).more.items) }
{
    'more: for next in &stmt.more {
        if !branch_ends(&next.branch) {
            return false;
        }
    }
    true
}

/// Without `else` control may run past.
#[cycle(ends)]
fn else_ends(last: &Option<Else>) -> bool
    ensures { result ≡ spec.else_ends (option_map spec.else_part_ends last.now) }
{
    match last {
        Some(last) => plain_ends(&last.body),
        None => false,
    }
}

#[cycle(ends)]
fn if_ends(stmt: &If) -> bool
    ensures { result ≡ spec.if_ends stmt.now }
{
    branch_ends(&stmt.first) && (all_end(stmt) && else_ends(&stmt.last))
}

/// Whether a block ends: its last statement does.
#[cycle(ends)]
pub(crate) fn block_ends(block: &Block) -> bool
    ensures { result ≡ spec.block_ends block.now }
{
    let mut ends = false;
    'items: for item in &block.items {
        ends = item_ends(item);
    }
    ends
}
