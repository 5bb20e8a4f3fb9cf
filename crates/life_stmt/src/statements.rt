// The parser of statements: each function mirrors the reader of its name.
ghost use Rattle.std.specs.Prelude.{◌≡◌, ◌<◌, IfOk, map, option_map};
ghost use Rattle.life_stmt.specs.Elses as elses_spec;
ghost use Rattle.life_stmt.specs.Fronts.{mapped};
ghost use Rattle.life_expr.specs.Gives.{Gives};
ghost use Rattle.life_expr.specs.Readers as readers;
ghost use Rattle.life_stmt.specs.Statements as spec;
ghost use Rattle.life_tree.specs.Rules as rules;
ghost use Rattle.life_tree.specs.Tree.{construct, node, ◌⨾◌};
ghost use Rattle.life_tree.specs.Views.{block_item_tree, block_tree, branch_view, else_if_view, else_tree, for_clauses_form, for_head_tree, for_tree, if_tree, list_tree, plain_stmt_tree, stmt_tree};
ghost use Rattle.life_tree.specs.declared.fixed.TheConstants as numbers;

use crate::declarations::declaration;
use crate::fronts::{starts_block_item, starts_declaration, starts_else_if};
use crate::heads::{Clauses, ForHead, ForRest, Guard, condition, condition_below, for_head_below};
use crate::sentences::flat;
use life_expr::{Read, mark, opener, starts};
use life_tree::{
    Block, BlockItem, Branch, Else, ElseIf, For, ForStart, If, PlainStmt, RangeFor, Stmt,
    TreeToken, fixed,
};
use life_types::Place;
use std::alloc::{AllocError, Global};

/// What follows the first branch of an `if`.
#[derive(Drop)]
pub struct ElseParts {
    /// The branches behind `else if`.
    pub more: Vec<ElseIf>,
    /// What stands behind the last `else`.
    pub last: Option<Else>,
}

/// A loop by `for`, with its body.
fn for_of(
    keyword: Place,
    opening: Place,
    start: Option<ForStart>,
    rest: ForRest,
    closing: Place,
    body: Box<Stmt>,
) -> For
    ensures { for_tree result ≡ construct numbers.FOR keyword (for_head_tree opening (for_clauses_form start (spec.for_rest_view rest)) closing ⨾ stmt_tree body.value) }
{
    let ForRest {
        first_semicolon,
        condition,
        second_semicolon,
        step,
    } = rest;
    For {
        keyword,
        opening,
        start,
        first_semicolon,
        condition,
        second_semicolon,
        step,
        closing,
        body,
    }
}

/// A loop by `for` or over a range, with its body.
fn loop_of(
    alloc: Global,
    keyword: Place,
    head: ForHead,
    body: Box<Stmt>,
) -> Result<PlainStmt, AllocError>
    ensures { IfOk result (λ found. plain_stmt_tree found ≡ node rules.plain (construct numbers.FOR keyword (spec.for_head_view head ⨾ stmt_tree body.value))) }
{
    let ForHead {
        opening,
        clauses,
        closing,
    } = head;
    match clauses {
        Clauses::Range {
            ty,
            name,
            colon,
            range,
        } => {
            let found = RangeFor {
                keyword,
                opening,
                ty,
                name,
                colon,
                range,
                closing,
                body,
            };
            Ok(PlainStmt::RangeFor(Box::new(alloc, found)?))
        }
        Clauses::Turns { start, rest } => {
            let found = for_of(keyword, opening, start, rest, closing, body);
            Ok(PlainStmt::For(Box::new(alloc, found)?))
        }
    }
}

/// A branch.
fn branch_of(keyword: Place, guard: Guard, body: Box<Stmt>) -> Branch
    ensures { branch_view result ≡ elses_spec.branch_from keyword (spec.condition_view guard) (stmt_tree body.value) }
{
    let Guard {
        opening,
        value,
        closing,
    } = guard;
    Branch {
        keyword,
        opening,
        condition: value,
        closing,
        body,
    }
}

/// An `if`.
fn if_of(first: Branch, elses: ElseParts) -> If
    ensures { if_tree result ≡ node rules.branches (construct numbers.IF (branch_view first).keyword ((branch_view first).condition ⨾ (branch_view first).body ⨾ elses_spec.elses_view elses)) }
{
    let ElseParts { more, last } = elses;
    If { first, more, last }
}

/// A statement.
#[cycle(stmt)]
#[tactic(auto, unfolding(life_expr::specs::Readers::statement_with))]
fn statement<'a>(alloc: Global, left: usize, tokens: &'a [TreeToken]) -> Read<'a, Stmt>
    ensures { Gives (λ x. (stmt_tree x.0, x.1.now)) result (readers.statement_with left (readers.below left) tokens.now) }
{
    if starts(tokens, fixed::IF) {
        let (found, rest) = branches(alloc, left, tokens)?;
        return Ok((Stmt::If(found), rest));
    }
    let (found, rest) = plain(alloc, left, tokens)?;
    Ok((Stmt::Plain(found), rest))
}

/// A statement inside a construct, where `left` more may be open outside.
#[cycle(stmt)]
fn statement_below<'a>(alloc: Global, left: usize, tokens: &'a [TreeToken]) -> Read<'a, Stmt>
    requires { 0 < left }
    ensures { Gives (λ x. (stmt_tree x.0, x.1.now)) result (readers.below left rules.statement tokens.now) }
{
    statement(alloc, left - 1, tokens)
}

/// A statement other than an `if`.
#[cycle(stmt)]
#[tactic(auto, unfolding(life_expr::specs::Readers::plain_with))]
fn plain<'a>(alloc: Global, left: usize, tokens: &'a [TreeToken]) -> Read<'a, PlainStmt>
    ensures { Gives (λ x. (plain_stmt_tree x.0, x.1.now)) result (readers.plain_with left (readers.below left) tokens.now) }
{
    if starts(tokens, fixed::LEFT_BRACE) {
        let (found, rest) = block(alloc, left, tokens)?;
        return Ok((PlainStmt::Block(found), rest));
    }
    if starts(tokens, fixed::SEMICOLON) {
        let (place, rest) = mark(tokens, fixed::SEMICOLON)?;
        return Ok((PlainStmt::Empty(place), rest));
    }
    if starts(tokens, fixed::WHILE) {
        return while_loop(alloc, left, tokens);
    }
    if starts(tokens, fixed::FOR) {
        return for_loop(alloc, left, tokens);
    }
    flat(alloc, left, tokens)
}

/// A loop by `while`.
#[cycle(stmt)]
fn while_loop<'a>(alloc: Global, left: usize, tokens: &'a [TreeToken]) -> Read<'a, PlainStmt>
    ensures { Gives (λ x. (plain_stmt_tree x.0, x.1.now)) result (mapped (node rules.plain) (spec.while_with left (readers.below left) tokens.now)) }
{
    let (keyword, rest) = opener(left, tokens, fixed::WHILE)?;
    let (guard, rest) = condition_below(alloc, left, rest)?;
    let (body, rest) = statement_below(alloc, left, rest)?;
    let body = Box::new(alloc, body)?;
    let Guard {
        opening,
        value,
        closing,
    } = guard;
    Ok((
        PlainStmt::While {
            keyword,
            opening,
            condition: value,
            closing,
            body,
        },
        rest,
    ))
}

/// A loop by `for`.
#[cycle(stmt)]
fn for_loop<'a>(alloc: Global, left: usize, tokens: &'a [TreeToken]) -> Read<'a, PlainStmt>
    ensures { Gives (λ x. (plain_stmt_tree x.0, x.1.now)) result (mapped (node rules.plain) (spec.for_with left (readers.below left) tokens.now)) }
{
    let (keyword, rest) = opener(left, tokens, fixed::FOR)?;
    let (head, rest) = for_head_below(alloc, left, rest)?;
    let (body, rest) = statement_below(alloc, left, rest)?;
    let body = Box::new(alloc, body)?;
    let found = loop_of(alloc, keyword, head, body)?;
    Ok((found, rest))
}

/// An `if` with all its branches.
#[cycle(stmt)]
#[tactic(auto, unfolding(life_expr::specs::Readers::branches_with))]
fn branches<'a>(alloc: Global, left: usize, tokens: &'a [TreeToken]) -> Read<'a, Box<If>>
    ensures { Gives (λ x. (if_tree x.0.value, x.1.now)) result (readers.branches_with left (readers.below left) tokens.now) }
{
    let (keyword, rest) = opener(left, tokens, fixed::IF)?;
    let (guard, rest) = condition_below(alloc, left, rest)?;
    let (body, rest) = statement_below(alloc, left, rest)?;
    let body = Box::new(alloc, body)?;
    let first = branch_of(keyword, guard, body);
    let (more, rest) = elses_below(alloc, left, rest)?;
    let found = Box::new(alloc, if_of(first, more))?;
    Ok((found, rest))
}

/// A branch behind an `else`.
#[cycle(stmt)]
fn else_if<'a>(alloc: Global, left: usize, tokens: &'a [TreeToken]) -> Read<'a, ElseIf>
    ensures { Gives (λ x. (elses_spec.else_if_front (else_if_view x.0), x.1.now)) result (elses_spec.else_if_with left (readers.below left) tokens.now) }
{
    let (keyword, rest) = mark(tokens, fixed::ELSE)?;
    let (word, rest) = mark(rest, fixed::IF)?;
    let (guard, rest) = condition(alloc, left, rest)?;
    let (body, rest) = statement(alloc, left, rest)?;
    let body = Box::new(alloc, body)?;
    let branch = branch_of(word, guard, body);
    Ok((ElseIf { keyword, branch }, rest))
}

/// The branches behind `else if`, as many as there are.
#[cycle(stmt)]
fn else_ifs<'a>(alloc: Global, left: usize, tokens: &'a [TreeToken]) -> Read<'a, Vec<ElseIf>>
    ensures { elses_spec.BranchesGiven (λ x. (map else_if_view x.0.items, x.1.now)) result (readers.else_part_with left (readers.below left)) tokens.now }
{
    let mut rest = tokens;
    let mut list = Vec::new(alloc);
    'list: while starts_else_if(rest) {
        let (next, after) = else_if(alloc, left, rest)?;
        list.push(next)?;
        rest = after;
    }
    Ok((list, rest))
}

/// The last `else`, where it stands.
#[cycle(stmt)]
fn last_else<'a>(alloc: Global, left: usize, tokens: &'a [TreeToken]) -> Read<'a, Option<Else>>
    ensures { Gives (λ x. (elses_spec.last_form (option_map else_tree x.0), x.1.now)) result (elses_spec.last_else_with left (readers.below left) tokens.now) }
{
    if starts(tokens, fixed::ELSE) {
        let (keyword, rest) = mark(tokens, fixed::ELSE)?;
        let (body, rest) = plain(alloc, left, rest)?;
        let body = Box::new(alloc, body)?;
        return Ok((Some(Else { keyword, body }), rest));
    }
    Ok((None, tokens))
}

/// What follows the first branch of an `if`.
#[cycle(stmt)]
fn elses<'a>(alloc: Global, left: usize, tokens: &'a [TreeToken]) -> Read<'a, ElseParts>
    ensures { Gives (λ x. (elses_spec.elses_view x.0, x.1.now)) result (readers.else_part_with left (readers.below left) tokens.now) }
{
    let (more, rest) = else_ifs(alloc, left, tokens)?;
    let (last, rest) = last_else(alloc, left, rest)?;
    Ok((ElseParts { more, last }, rest))
}

/// The same inside a construct, where `left` more may be open outside.
#[cycle(stmt)]
fn elses_below<'a>(alloc: Global, left: usize, tokens: &'a [TreeToken]) -> Read<'a, ElseParts>
    requires { 0 < left }
    ensures { Gives (λ x. (elses_spec.elses_view x.0, x.1.now)) result (readers.below left rules.else_part tokens.now) }
{
    elses(alloc, left - 1, tokens)
}

/// A declaration or a statement in a block.
#[cycle(stmt)]
#[tactic(auto, unfolding(life_expr::specs::Readers::block_item_with))]
fn block_item<'a>(alloc: Global, left: usize, tokens: &'a [TreeToken]) -> Read<'a, BlockItem>
    ensures { Gives (λ x. (block_item_tree x.0, x.1.now)) result (readers.block_item_with left (readers.below left) tokens.now) }
{
    if starts_declaration(tokens) {
        let (declaration, rest) = declaration(alloc, left, tokens)?;
        let (semicolon, rest) = mark(rest, fixed::SEMICOLON)?;
        return Ok((
            BlockItem::Declare {
                declaration,
                semicolon,
            },
            rest,
        ));
    }
    let (found, rest) = statement(alloc, left, tokens)?;
    Ok((BlockItem::Stmt(found), rest))
}

/// The same inside a construct, where `left` more may be open outside.
#[cycle(stmt)]
fn block_item_below<'a>(alloc: Global, left: usize, tokens: &'a [TreeToken]) -> Read<'a, BlockItem>
    requires { 0 < left }
    ensures { Gives (λ x. (block_item_tree x.0, x.1.now)) result (readers.below left rules.block_item tokens.now) }
{
    block_item(alloc, left - 1, tokens)
}

/// Declarations and statements, as many as there are.
#[cycle(stmt)]
fn block_items<'a>(alloc: Global, left: usize, tokens: &'a [TreeToken]) -> Read<'a, Vec<BlockItem>>
    requires { 0 < left }
    ensures { Gives (λ x. (list_tree (map block_item_tree x.0.items), x.1.now)) result (spec.items_with (readers.below left) tokens.now) }
{
    let mut rest = tokens;
    let mut list = Vec::new(alloc);
    'list: while starts_block_item(rest) {
        let (next, after) = block_item_below(alloc, left, rest)?;
        list.push(next)?;
        rest = after;
    }
    Ok((list, rest))
}

/// A block, part by part.
#[cycle(stmt)]
fn block_by_parts<'a>(alloc: Global, left: usize, tokens: &'a [TreeToken]) -> Read<'a, Block>
    ensures { Gives (λ x. (block_tree x.0, x.1.now)) result (spec.block_by_parts left (readers.below left) tokens.now) }
{
    let (opening, rest) = opener(left, tokens, fixed::LEFT_BRACE)?;
    let (items, rest) = block_items(alloc, left, rest)?;
    let (closing, rest) = mark(rest, fixed::RIGHT_BRACE)?;
    Ok((
        Block {
            opening,
            items,
            closing,
        },
        rest,
    ))
}

/// A block.
#[cycle(stmt)]
pub fn block<'a>(alloc: Global, left: usize, tokens: &'a [TreeToken]) -> Read<'a, Block>
    ensures { Gives (λ x. (block_tree x.0, x.1.now)) result (readers.block_with left (readers.below left) tokens.now) }
{
    block_by_parts(alloc, left, tokens)
}
