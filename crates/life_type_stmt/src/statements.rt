// Statements, in the order of their text (ISO/IEC 14882:2017 [stmt.stmt]).
ghost use Rattle.std.specs.Prelude.{◌≡◌, map, option_map};
ghost use Rattle.life_typed.specs.TypedStatement.{block_item_view, block_view, branch_view, for_start_view, optional_view, stmt_view};
ghost use Rattle.life_names.specs.Checked.{Gives};
ghost use Rattle.life_names.specs.Environment.{forgotten};
ghost use Rattle.life_type_stmt.specs.StatementViews.{branches_part, optional_stmt_view};
ghost use Rattle.life_type_stmt.specs.Statements as spec;

use crate::around::Around;
use crate::conditions::{condition, optional_condition};
use crate::declarations::declaration;
use crate::ranges::range_head;
use crate::sentences::{assertion, loop_break, loop_continue, print, return_stmt, sentence};
use crate::simples::{optional_simple, simple_statement};
use life_names::{Environment, IllFault};
use life_tree::{
    Block, BlockItem, Branch, Else, ElseIf, Expr, For, ForStart, If, PlainStmt, RangeFor, Stmt,
};
use life_typed::{TypedBlock, TypedBlockItem, TypedBranch, TypedForHead, TypedForStart, TypedStmt};
use life_types::{Place, TypeTable};
use std::alloc::Global;

/// A statement.
#[cycle(statements)]
#[tactic(auto, unfolding(crate::specs::Statements::stmt_part, crate::specs::Statements::if_part, crate::specs::Statements::plain_part))]
fn stmt(
    alloc: Global,
    environment: &mut Environment<'_>,
    types: &mut TypeTable,
    around: Around,
    stmt: &Stmt,
) -> Result<TypedStmt, IllFault>
    ensures { Gives (λ s. (stmt_view s, environment.new)) types.new result (spec.stmt_part stmt.now around environment.old types.old) }
{
    match stmt {
        Stmt::If(stmt) => if_stmt(alloc, environment, types, around, stmt),
        Stmt::Plain(stmt) => plain(alloc, environment, types, around, stmt),
    }
}

/// A block as a statement.
#[cycle(statements)]
fn block_stmt(
    alloc: Global,
    environment: &mut Environment<'_>,
    types: &mut TypeTable,
    around: Around,
    inner: &Block,
) -> Result<TypedStmt, IllFault>
    ensures { Gives (λ s. (stmt_view s, environment.new)) types.new result (spec.block_of inner.now around environment.old types.old) }
{
    let inner = block(alloc, environment, types, around, inner)?;
    Ok(TypedStmt::Block(inner))
}

/// A loop by `while`.
#[cycle(statements)]
fn while_stmt(
    alloc: Global,
    environment: &mut Environment<'_>,
    types: &mut TypeTable,
    around: Around,
    body: &Stmt,
    keyword: Place,
    decides: &Expr,
    closing: Place,
) -> Result<TypedStmt, IllFault>
    ensures { Gives (λ s. (stmt_view s, environment.new)) types.new result (spec.while_part keyword decides.now closing (spec.stmt_part body.now) around environment.old types.old) }
{
    let condition = condition(alloc, environment, types, decides)?;
    let body = body_of_loop(alloc, environment, types, around, body)?;
    Ok(TypedStmt::While {
        keyword,
        condition,
        closing,
        body,
    })
}

/// A statement other than an `if`. Each kind is a function of its own: their parts are large.
#[cycle(statements)]
#[tactic(auto, unfolding(crate::specs::Statements::plain_part, crate::specs::Statements::stmt_part, crate::specs::Statements::block_of, crate::specs::Statements::for_part, crate::specs::Statements::range_for_part))]
fn plain(
    alloc: Global,
    environment: &mut Environment<'_>,
    types: &mut TypeTable,
    around: Around,
    stmt: &PlainStmt,
) -> Result<TypedStmt, IllFault>
    ensures { Gives (λ s. (stmt_view s, environment.new)) types.new result (spec.plain_part stmt.now around environment.old types.old) }
{
    match stmt {
        PlainStmt::Block(inner) => block_stmt(alloc, environment, types, around, inner),
        PlainStmt::Empty(place) => Ok(TypedStmt::Empty(*place)),
        PlainStmt::Simple { simple, semicolon } => {
            sentence(alloc, environment, types, simple, *semicolon)
        }
        PlainStmt::While {
            keyword,
            condition,
            closing,
            body,
            ..
        } => while_stmt(
            alloc,
            environment,
            types,
            around,
            body,
            *keyword,
            condition,
            *closing,
        ),
        PlainStmt::For(stmt) => for_stmt(alloc, environment, types, around, stmt),
        PlainStmt::RangeFor(stmt) => range_for(alloc, environment, types, around, stmt),
        PlainStmt::Break { keyword, semicolon } => {
            loop_break(around.in_loop, *keyword, *semicolon)
        }
        PlainStmt::Continue { keyword, semicolon } => {
            loop_continue(around.in_loop, *keyword, *semicolon)
        }
        PlainStmt::Return {
            keyword,
            value,
            semicolon,
        } => return_stmt(
            alloc,
            environment,
            types,
            around.result,
            *keyword,
            value,
            *semicolon,
        ),
        PlainStmt::Print {
            parts,
            semicolon,
            ..
        } => print(alloc, environment, types, parts, *semicolon),
        PlainStmt::Assert {
            keyword,
            condition,
            closing,
            semicolon,
            ..
        } => assertion(
            alloc,
            environment,
            types,
            *keyword,
            condition,
            *closing,
            *semicolon,
        ),
    }
}

/// What a loop repeats.
#[cycle(statements)]
fn body_of_loop(
    alloc: Global,
    environment: &mut Environment<'_>,
    types: &mut TypeTable,
    around: Around,
    body: &Stmt,
) -> Result<Box<TypedStmt>, IllFault>
    ensures { Gives (λ s. (stmt_view s.value, environment.new)) types.new result (spec.stmt_part body.now (spec.in_loop around) environment.old types.old) }
{
    let around = Around {
        result: around.result,
        in_loop: true,
    };
    let body = stmt(alloc, environment, types, around, body)?;
    Ok(Box::new(alloc, body)?)
}

/// What stands in a block.
#[cycle(statements)]
#[tactic(auto, unfolding(crate::specs::Statements::item_part, crate::specs::Statements::stmt_part))]
fn block_item(
    alloc: Global,
    environment: &mut Environment<'_>,
    types: &mut TypeTable,
    around: Around,
    item: &BlockItem,
) -> Result<TypedBlockItem, IllFault>
    ensures { Gives (λ i. (block_item_view i, environment.new)) types.new result ((spec.item_part item.now).part around environment.old types.old) }
{
    match item {
        BlockItem::Declare {
            declaration: declared,
            semicolon,
        } => {
            let declaration = declaration(alloc, environment, types, declared)?;
            Ok(TypedBlockItem::Declare {
                declaration,
                semicolon: *semicolon,
            })
        }
        BlockItem::Stmt(inner) => {
            let inner = stmt(alloc, environment, types, around, inner)?;
            Ok(TypedBlockItem::Stmt(inner))
        }
    }
}

/// The names that these declare mean nothing from here on.
#[tactic(auto, unfolding(crate::specs::Statements::item_part))]
fn forget_declared(environment: &mut Environment<'_>, items: &[BlockItem])
    ensures { environment.new ≡ forgotten (spec.names_of (map spec.item_part items.now)) environment.old }
{
    'items: for item in items {
        match item {
            BlockItem::Declare { declaration, .. } => environment.forget(&[declaration.name.id]),
            BlockItem::Stmt(_) => {}
        }
    }
}

/// What stands in a block, part by part.
#[cycle(statements)]
fn block_items(
    alloc: Global,
    environment: &mut Environment<'_>,
    types: &mut TypeTable,
    around: Around,
    items: &[BlockItem],
) -> Result<Vec<TypedBlockItem>, IllFault>
    ensures { Gives (λ is. (map block_item_view is.items, environment.new)) types.new result (spec.in_turn (spec.parts_of (map spec.item_part items.now)) around environment.old types.old) }
{
    let mut found = Vec::with_capacity(alloc, items.len())?;
    'items: for item in items {
        let next = block_item(alloc, environment, types, around, item)?;
        found.push(next)?;
    }
    Ok(found)
}

/// A block: what it declares is visible up to its end.
#[cycle(statements)]
#[tactic(auto, using(crate::proofs::StatementMeanings::block_made))]
pub(crate) fn block(
    alloc: Global,
    environment: &mut Environment<'_>,
    types: &mut TypeTable,
    around: Around,
    block: &Block,
) -> Result<TypedBlock, IllFault>
    ensures { Gives (λ b. (block_view b, environment.new)) types.new result (spec.block_of block.now around environment.old types.old) }
{
    let items = block_items(alloc, environment, types, around, &block.items)?;
    forget_declared(environment, &block.items);
    Ok(TypedBlock {
        items,
        closing: block.closing,
    })
}

/// A branch.
#[cycle(statements)]
#[tactic(auto, using(crate::proofs::StatementMeanings::branch_made))]
fn branch(
    alloc: Global,
    environment: &mut Environment<'_>,
    types: &mut TypeTable,
    around: Around,
    branch: &Branch,
) -> Result<TypedBranch, IllFault>
    ensures { Gives (λ b. (branch_view b, environment.new)) types.new result (spec.branch_part branch.now around environment.old types.old) }
{
    let condition = condition(alloc, environment, types, &branch.condition)?;
    let body = stmt(alloc, environment, types, around, &branch.body)?;
    let body = Box::new(alloc, body)?;
    Ok(TypedBranch {
        keyword: branch.keyword,
        condition,
        closing: branch.closing,
        body,
    })
}

/// The branches behind these.
#[cycle(statements)]
#[tactic(auto, using(crate::proofs::StatementMeanings::else_if_made))]
fn more_branches(
    alloc: Global,
    environment: &mut Environment<'_>,
    types: &mut TypeTable,
    around: Around,
    more: &[ElseIf],
) -> Result<Vec<TypedBranch>, IllFault>
    ensures { Gives (λ bs. (map branch_view bs.items, environment.new)) types.new result (spec.in_turn (map spec.else_if_part more.now) around environment.old types.old) }
{
    let mut found = Vec::with_capacity(alloc, more.len())?;
    'more: for next in more {
        let next = branch(alloc, environment, types, around, &next.branch)?;
        found.push(next)?;
    }
    Ok(found)
}

/// All branches with a condition.
#[cycle(statements)]
fn branches(
    alloc: Global,
    environment: &mut Environment<'_>,
    types: &mut TypeTable,
    around: Around,
    stmt: &If,
) -> Result<Vec<TypedBranch>, IllFault>
    ensures { Gives (λ bs. (map branch_view bs.items, environment.new)) types.new result (branches_part stmt.now around environment.old types.old) }
{
    let first = branch(alloc, environment, types, around, &stmt.first)?;
    let mut found = more_branches(alloc, environment, types, around, &stmt.more)?;
    found.insert(0, first)?;
    Ok(found)
}

/// What stands behind the last `else`.
#[cycle(statements)]
#[tactic(auto, using(crate::proofs::StatementMeanings::else_made))]
fn last_branch(
    alloc: Global,
    environment: &mut Environment<'_>,
    types: &mut TypeTable,
    around: Around,
    last: &Option<Else>,
) -> Result<Option<Box<TypedStmt>>, IllFault>
    ensures { Gives (λ s. (optional_stmt_view s, environment.new)) types.new result (spec.optional_part (option_map spec.else_part last.now) around environment.old types.old) }
{
    match last {
        Some(last) => {
            let body = plain(alloc, environment, types, around, &last.body)?;
            Ok(Some(Box::new(alloc, body)?))
        }
        None => Ok(None),
    }
}

/// An `if` with all its branches.
#[cycle(statements)]
#[tactic(auto, using(crate::proofs::StatementMeanings::if_made))]
fn if_stmt(
    alloc: Global,
    environment: &mut Environment<'_>,
    types: &mut TypeTable,
    around: Around,
    stmt: &If,
) -> Result<TypedStmt, IllFault>
    ensures { Gives (λ s. (stmt_view s, environment.new)) types.new result (spec.if_part stmt.now around environment.old types.old) }
{
    let branches = branches(alloc, environment, types, around, stmt)?;
    let last = last_branch(alloc, environment, types, around, &stmt.last)?;
    Ok(TypedStmt::If { branches, last })
}

/// What a `for` begins with.
fn for_start(
    alloc: Global,
    environment: &mut Environment<'_>,
    types: &mut TypeTable,
    start: &Option<ForStart>,
) -> Result<Option<TypedForStart>, IllFault>
    ensures { Gives (λ s. (optional_view for_start_view s, environment.new)) types.new result (spec.for_start_part start.now environment.old types.old) }
{
    match start {
        None => Ok(None),
        Some(ForStart::Declaration(declared)) => {
            let declared = declaration(alloc, environment, types, declared)?;
            Ok(Some(TypedForStart::Declaration(declared)))
        }
        Some(ForStart::Simple(simple)) => {
            let simple = simple_statement(alloc, environment, types, simple)?;
            Ok(Some(TypedForStart::Simple(simple)))
        }
    }
}

/// The name that a `for` declares means nothing from here on.
fn forget_start(environment: &mut Environment<'_>, start: &Option<ForStart>)
    ensures { environment.new ≡ forgotten (spec.start_names start.now) environment.old }
{
    match start {
        None => {}
        Some(ForStart::Declaration(declaration)) => environment.forget(&[declaration.name.id]),
        Some(ForStart::Simple(_)) => {}
    }
}

/// A loop by `for`: what it declares is visible up to its end.
#[cycle(statements)]
#[tactic(auto, using(crate::proofs::StatementMeanings::for_made))]
fn for_stmt(
    alloc: Global,
    environment: &mut Environment<'_>,
    types: &mut TypeTable,
    around: Around,
    stmt: &For,
) -> Result<TypedStmt, IllFault>
    ensures { Gives (λ s. (stmt_view s, environment.new)) types.new result (spec.for_part stmt.now around environment.old types.old) }
{
    let start = for_start(alloc, environment, types, &stmt.start)?;
    let condition = optional_condition(alloc, environment, types, &stmt.condition)?;
    let step = optional_simple(alloc, environment, types, &stmt.step)?;
    let head = TypedForHead {
        start,
        first_semicolon: stmt.first_semicolon,
        condition,
        second_semicolon: stmt.second_semicolon,
        step,
    };
    let head = Box::new(alloc, head)?;
    let body = body_of_loop(alloc, environment, types, around, &stmt.body)?;
    forget_start(environment, &stmt.start);
    Ok(TypedStmt::For {
        keyword: stmt.keyword,
        head,
        closing: stmt.closing,
        body,
    })
}

/// A loop over a range: its variable is visible up to its end.
#[cycle(statements)]
#[tactic(auto, using(crate::proofs::StatementMeanings::range_for_made))]
fn range_for(
    alloc: Global,
    environment: &mut Environment<'_>,
    types: &mut TypeTable,
    around: Around,
    stmt: &RangeFor,
) -> Result<TypedStmt, IllFault>
    ensures { Gives (λ s. (stmt_view s, environment.new)) types.new result (spec.range_for_part stmt.now around environment.old types.old) }
{
    let name = stmt.name;
    let start = range_head(
        alloc,
        environment,
        types,
        &stmt.ty,
        name,
        stmt.colon,
        &stmt.range,
    )?;
    let body = body_of_loop(alloc, environment, types, around, &stmt.body)?;
    environment.forget(&[name.id]);
    Ok(TypedStmt::RangeFor {
        keyword: stmt.keyword,
        local: start.local,
        name,
        colon: stmt.colon,
        range: start.range,
        closing: stmt.closing,
        body,
    })
}
