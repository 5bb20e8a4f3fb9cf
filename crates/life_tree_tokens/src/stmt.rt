// The tokens of statements.
ghost use Rattle.std.specs.Prelude.{◌≡◌, ◌++◌, ◌∷◌, [], OnOk, map};
ghost use Rattle.life_tree.specs.Branches.{branch_keys, start_tree};
ghost use Rattle.life_tree.specs.Tree.{keys_of};
ghost use Rattle.life_tree.specs.Views.{block_item_tree, block_tree, boxed, branch_view, declared_type_tree, expr_tree, for_tree, if_tree, list_tree, name_tree, optional_tree, plain_stmt_tree, print_part_tree, range_for_tree, simple_tree, stmt_tree};
ghost use Rattle.life_tree.specs.declared.fixed.TheConstants.{COLON, LEFT_PAREN, RIGHT_PAREN, SEMICOLON};
ghost use Rattle.life_tree.specs.declared.key.TokenKey.TheVariants.{Fixed};

use crate::expr::{write_additive, write_expr};
use crate::simple::{write_declaration, write_declared_type, write_simple};
use crate::token::{write_fixed, write_name, write_qualified};
use life_tree::{
    Block, BlockItem, Branch, DeclaredType, Expr, For, ForStart, Identifier, If, PlainStmt,
    PrintItem, PrintPart, RangeFor, Simple, Stmt, TokenKey, fixed,
};
use life_types::NoMemory;

#[cycle(stmts)]
fn write_stmt(stmt: &Stmt, keys: &mut Vec<TokenKey>) -> Result<(), NoMemory>
    ensures { OnOk result (keys.new.items ≡ keys.old.items ++ keys_of (stmt_tree stmt.now)) }
{
    match stmt {
        Stmt::If(stmt) => write_if(stmt, keys),
        Stmt::Plain(stmt) => write_plain(stmt, keys),
    }
}

#[cycle(stmts)]
fn write_plain(stmt: &PlainStmt, keys: &mut Vec<TokenKey>) -> Result<(), NoMemory>
    ensures { OnOk result (keys.new.items ≡ keys.old.items ++ keys_of (plain_stmt_tree stmt.now)) }
{
    match stmt {
        PlainStmt::Block(block) => write_block(block, keys),
        PlainStmt::Empty(_) => write_fixed(fixed::SEMICOLON, keys),
        PlainStmt::Simple { simple, .. } => {
            write_simple(simple, keys)?;
            write_fixed(fixed::SEMICOLON, keys)
        }
        PlainStmt::While {
            condition,
            body,
            ..
        } => {
            write_fixed(fixed::WHILE, keys)?;
            write_fixed(fixed::LEFT_PAREN, keys)?;
            write_expr(condition, keys)?;
            write_fixed(fixed::RIGHT_PAREN, keys)?;
            write_stmt(body, keys)
        }
        PlainStmt::For(stmt) => write_for(stmt, keys),
        PlainStmt::RangeFor(stmt) => write_range_for(stmt, keys),
        PlainStmt::Break { .. } => {
            write_fixed(fixed::BREAK, keys)?;
            write_fixed(fixed::SEMICOLON, keys)
        }
        PlainStmt::Continue { .. } => {
            write_fixed(fixed::CONTINUE, keys)?;
            write_fixed(fixed::SEMICOLON, keys)
        }
        PlainStmt::Return { value, .. } => {
            write_fixed(fixed::RETURN, keys)?;
            write_optional_expr(value, keys)?;
            write_fixed(fixed::SEMICOLON, keys)
        }
        PlainStmt::Print { parts, .. } => {
            write_qualified(fixed::STD, fixed::COUT, keys)?;
            write_print_parts(parts, keys)?;
            write_fixed(fixed::SEMICOLON, keys)
        }
        PlainStmt::Assert { condition, .. } => {
            write_fixed(fixed::ASSERT, keys)?;
            write_fixed(fixed::LEFT_PAREN, keys)?;
            write_expr(condition, keys)?;
            write_fixed(fixed::RIGHT_PAREN, keys)?;
            write_fixed(fixed::SEMICOLON, keys)
        }
    }
}

fn write_optional_expr(expr: &Option<Box<Expr>>, keys: &mut Vec<TokenKey>) -> Result<(), NoMemory>
    ensures { OnOk result (keys.new.items ≡ keys.old.items ++ keys_of (optional_tree (boxed expr_tree) expr.now)) }
{
    match expr {
        Some(expr) => write_expr(expr, keys),
        None => Ok(()),
    }
}

fn write_print_parts(parts: &Vec<PrintPart>, keys: &mut Vec<TokenKey>) -> Result<(), NoMemory>
    ensures { OnOk result (keys.new.items ≡ keys.old.items ++ keys_of (list_tree (map print_part_tree parts.now.items))) }
{
    'parts: for part in parts {
        write_print_part(part, keys)?;
    }
    Ok(())
}

fn write_print_part(part: &PrintPart, keys: &mut Vec<TokenKey>) -> Result<(), NoMemory>
    ensures { OnOk result (keys.new.items ≡ keys.old.items ++ keys_of (print_part_tree part.now)) }
{
    write_fixed(fixed::SHIFT_LEFT, keys)?;
    match &part.item {
        PrintItem::Value(value) => write_additive(value, keys),
        PrintItem::EndLine(_) => write_qualified(fixed::STD, fixed::ENDL, keys),
    }
}

/// Adds the tokens of a block.
#[cycle(stmts)]
pub(crate) fn write_block(block: &Block, keys: &mut Vec<TokenKey>) -> Result<(), NoMemory>
    ensures { OnOk result (keys.new.items ≡ keys.old.items ++ keys_of (block_tree block.now)) }
{
    write_fixed(fixed::LEFT_BRACE, keys)?;
    'items: for item in &block.items {
        write_block_item(item, keys)?;
    }
    write_fixed(fixed::RIGHT_BRACE, keys)
}

#[cycle(stmts)]
fn write_block_item(item: &BlockItem, keys: &mut Vec<TokenKey>) -> Result<(), NoMemory>
    ensures { OnOk result (keys.new.items ≡ keys.old.items ++ keys_of (block_item_tree item.now)) }
{
    match item {
        BlockItem::Declare { declaration, .. } => {
            write_declaration(declaration, keys)?;
            write_fixed(fixed::SEMICOLON, keys)
        }
        BlockItem::Stmt(stmt) => write_stmt(stmt, keys),
    }
}

#[cycle(stmts)]
fn write_if(stmt: &If, keys: &mut Vec<TokenKey>) -> Result<(), NoMemory>
    ensures { OnOk result (keys.new.items ≡ keys.old.items ++ keys_of (if_tree stmt.now)) }
{
    write_branch(&stmt.first, keys)?;
    'branches: for next in &stmt.more {
        write_fixed(fixed::ELSE, keys)?;
        write_branch(&next.branch, keys)?;
    }
    match &stmt.last {
        Some(last) => {
            write_fixed(fixed::ELSE, keys)?;
            write_plain(&last.body, keys)
        }
        None => Ok(()),
    }
}

#[cycle(stmts)]
fn write_branch(branch: &Branch, keys: &mut Vec<TokenKey>) -> Result<(), NoMemory>
    ensures { OnOk result (keys.new.items ≡ keys.old.items ++ branch_keys (branch_view branch.now)) }
{
    write_fixed(fixed::IF, keys)?;
    write_fixed(fixed::LEFT_PAREN, keys)?;
    write_expr(&branch.condition, keys)?;
    write_fixed(fixed::RIGHT_PAREN, keys)?;
    write_stmt(&branch.body, keys)
}

fn write_for_start(start: &Option<ForStart>, keys: &mut Vec<TokenKey>) -> Result<(), NoMemory>
    ensures { OnOk result (keys.new.items ≡ keys.old.items ++ keys_of (start_tree start.now)) }
{
    match start {
        Some(ForStart::Declaration(declaration)) => write_declaration(declaration, keys),
        Some(ForStart::Simple(simple)) => write_simple(simple, keys),
        None => Ok(()),
    }
}

fn write_for_step(step: &Option<Box<Simple>>, keys: &mut Vec<TokenKey>) -> Result<(), NoMemory>
    ensures { OnOk result (keys.new.items ≡ keys.old.items ++ keys_of (optional_tree (boxed simple_tree) step.now)) }
{
    match step {
        Some(simple) => write_simple(simple, keys),
        None => Ok(()),
    }
}

/// Adds the tokens of the head of a `for`, with its parentheses.
fn write_for_head(
    start: &Option<ForStart>,
    condition: &Option<Box<Expr>>,
    step: &Option<Box<Simple>>,
    keys: &mut Vec<TokenKey>,
) -> Result<(), NoMemory>
    ensures { OnOk result
        (keys.new.items
        ≡ keys.old.items ++ Fixed LEFT_PAREN ∷ ((keys_of (start_tree start.now) ++ Fixed SEMICOLON ∷ (keys_of (optional_tree (boxed expr_tree) condition.now)
        ++ Fixed SEMICOLON ∷ keys_of (optional_tree (boxed simple_tree) step.now))) ++ Fixed RIGHT_PAREN ∷ [])) }
{
    write_fixed(fixed::LEFT_PAREN, keys)?;
    write_for_start(start, keys)?;
    write_fixed(fixed::SEMICOLON, keys)?;
    write_optional_expr(condition, keys)?;
    write_fixed(fixed::SEMICOLON, keys)?;
    write_for_step(step, keys)?;
    write_fixed(fixed::RIGHT_PAREN, keys)
}

#[cycle(stmts)]
fn write_for(stmt: &For, keys: &mut Vec<TokenKey>) -> Result<(), NoMemory>
    ensures { OnOk result (keys.new.items ≡ keys.old.items ++ keys_of (for_tree stmt.now)) }
{
    write_fixed(fixed::FOR, keys)?;
    write_for_head(&stmt.start, &stmt.condition, &stmt.step, keys)?;
    write_stmt(&stmt.body, keys)
}

/// Adds the tokens of the head of a `for` over a range, with its parentheses.
fn write_range_head(
    ty: &DeclaredType,
    name: Identifier,
    range: &Expr,
    keys: &mut Vec<TokenKey>,
) -> Result<(), NoMemory>
    ensures { OnOk result
        (keys.new.items
        ≡ keys.old.items ++ Fixed LEFT_PAREN ∷ [] ++ keys_of (declared_type_tree ty.now) ++ keys_of (name_tree name) ++ Fixed COLON ∷ []
        ++ keys_of (expr_tree range.now) ++ Fixed RIGHT_PAREN ∷ []) }
{
    write_fixed(fixed::LEFT_PAREN, keys)?;
    write_declared_type(ty, keys)?;
    write_name(name, keys)?;
    write_fixed(fixed::COLON, keys)?;
    write_expr(range, keys)?;
    write_fixed(fixed::RIGHT_PAREN, keys)
}

#[cycle(stmts)]
fn write_range_for(stmt: &RangeFor, keys: &mut Vec<TokenKey>) -> Result<(), NoMemory>
    ensures { OnOk result (keys.new.items ≡ keys.old.items ++ keys_of (range_for_tree stmt.now)) }
{
    write_fixed(fixed::FOR, keys)?;
    write_range_head(&stmt.ty, stmt.name, &stmt.range, keys)?;
    write_stmt(&stmt.body, keys)
}
