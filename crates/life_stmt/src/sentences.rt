// The parser of statements without statements in them: each function mirrors the reader of its name.
ghost use Rattle.std.specs.Prelude.{◌<◌, length, map};
ghost use Rattle.life_stmt.specs.Fronts as fronts;
ghost use Rattle.life_stmt.specs.Fronts.{mapped};
ghost use Rattle.life_expr.specs.Gives.{Gives};
ghost use Rattle.life_expr.specs.Heads as heads;
ghost use Rattle.life_expr.specs.Read.{as_many};
ghost use Rattle.life_expr.specs.Readers as readers;
ghost use Rattle.life_stmt.specs.Statements as spec;
ghost use Rattle.life_tree.specs.Rules as rules;
ghost use Rattle.life_tree.specs.Tree.{node};
ghost use Rattle.life_tree.specs.Views.{list_tree, plain_stmt_tree, print_item_tree, print_part_tree};

use crate::fronts::starts_std;
use crate::heads::{Guard, condition};
use crate::simples::simple;
use life_expr::{Read, additive, boxed_expr, mark, starts, starts_expr};
use life_tree::{PlainStmt, PrintItem, PrintPart, Qualified, TreeToken, fixed};
use std::alloc::Global;

/// An item that is printed.
#[tactic(auto, unfolding(life_expr::specs::Readers::item_with))]
fn print_item<'a>(alloc: Global, left: usize, tokens: &'a [TreeToken]) -> Read<'a, PrintItem>
    ensures { Gives (λ x. (print_item_tree x.0, x.1.now)) result (readers.item_with left (readers.below left) tokens.now) }
{
    if starts_std(tokens, fixed::ENDL) {
        let (namespace, rest) = mark(tokens, fixed::STD)?;
        let (scope, rest) = mark(rest, fixed::SCOPE)?;
        let (word, rest) = mark(rest, fixed::ENDL)?;
        let name = Qualified {
            namespace,
            scope,
            word,
        };
        return Ok((PrintItem::EndLine(name), rest));
    }
    let (value, rest) = additive(alloc, left, tokens)?;
    Ok((PrintItem::Value(value), rest))
}

/// An item with the `<<` before it.
#[tactic(auto, unfolding(life_expr::specs::Readers::print_part_with))]
fn print_part<'a>(alloc: Global, left: usize, tokens: &'a [TreeToken]) -> Read<'a, PrintPart>
    ensures { Gives (λ x. (print_part_tree x.0, x.1.now)) result (readers.print_part_with left (readers.below left) tokens.now) }
{
    let (place, rest) = mark(tokens, fixed::SHIFT_LEFT)?;
    let (item, rest) = print_item(alloc, left, rest)?;
    Ok((PrintPart { place, item }, rest))
}

/// Items behind these.
fn more_prints<'a>(
    alloc: Global,
    left: usize,
    before: Vec<PrintPart>,
    tokens: &'a [TreeToken],
) -> Read<'a, Vec<PrintPart>>
    requires some { 0 < length before.items }
    ensures { Gives (λ x. (list_tree (map print_part_tree x.0.items), x.1.now)) result (mapped (fronts.before (map print_part_tree before.items)) (as_many (heads.heads_of rules.print_part) (readers.print_part_with left (readers.below left)) tokens.now)) }
{
    let mut rest = tokens;
    let mut list = before;
    'list: while starts(rest, fixed::SHIFT_LEFT) {
        let (next, after) = print_part(alloc, left, rest)?;
        list.push(next)?;
        rest = after;
    }
    Ok((list, rest))
}

/// Items, at least one.
#[tactic(auto, unfolding(crate::specs::Statements::print_list_with))]
fn print_list<'a>(alloc: Global, left: usize, tokens: &'a [TreeToken]) -> Read<'a, Vec<PrintPart>>
    ensures { Gives (λ x. (list_tree (map print_part_tree x.0.items), x.1.now)) result (spec.print_list_with left (readers.below left) tokens.now) }
{
    let (first, rest) = print_part(alloc, left, tokens)?;
    let mut list = Vec::new(alloc);
    list.push(first)?;
    more_prints(alloc, left, list, rest)
}

/// `std::cout`, items and `;`.
fn print<'a>(alloc: Global, left: usize, tokens: &'a [TreeToken]) -> Read<'a, PlainStmt>
    ensures { Gives (λ x. (plain_stmt_tree x.0, x.1.now)) result (mapped (node rules.plain) (mapped (node rules.sentence) (spec.print_by_parts left (readers.below left) tokens.now))) }
{
    let (namespace, rest) = mark(tokens, fixed::STD)?;
    let (scope, rest) = mark(rest, fixed::SCOPE)?;
    let (word, rest) = mark(rest, fixed::COUT)?;
    let (parts, rest) = print_list(alloc, left, rest)?;
    let (semicolon, rest) = mark(rest, fixed::SEMICOLON)?;
    let name = Qualified {
        namespace,
        scope,
        word,
    };
    Ok((
        PlainStmt::Print {
            name,
            parts,
            semicolon,
        },
        rest,
    ))
}

/// What is printed, or an assignment, a step or a call, with its `;`.
#[tactic(auto, unfolding(life_expr::specs::Readers::sentence_with))]
fn sentence<'a>(alloc: Global, left: usize, tokens: &'a [TreeToken]) -> Read<'a, PlainStmt>
    ensures { Gives (λ x. (plain_stmt_tree x.0, x.1.now)) result (mapped (node rules.plain) (readers.sentence_with left (readers.below left) tokens.now)) }
{
    if starts_std(tokens, fixed::COUT) {
        return print(alloc, left, tokens);
    }
    let (simple, rest) = simple(alloc, left, tokens)?;
    let (semicolon, rest) = mark(rest, fixed::SEMICOLON)?;
    Ok((PlainStmt::Simple { simple, semicolon }, rest))
}

/// `return`, an expression where one stands, and `;`.
fn returning<'a>(alloc: Global, left: usize, tokens: &'a [TreeToken]) -> Read<'a, PlainStmt>
    ensures { Gives (λ x. (plain_stmt_tree x.0, x.1.now)) result (mapped (node rules.plain) (spec.return_with left (readers.below left) tokens.now)) }
{
    let (keyword, rest) = mark(tokens, fixed::RETURN)?;
    if starts_expr(rest) {
        let (found, rest) = boxed_expr(alloc, left, rest)?;
        let (semicolon, rest) = mark(rest, fixed::SEMICOLON)?;
        return Ok((
            PlainStmt::Return {
                keyword,
                value: Some(found),
                semicolon,
            },
            rest,
        ));
    }
    let (semicolon, rest) = mark(rest, fixed::SEMICOLON)?;
    Ok((
        PlainStmt::Return {
            keyword,
            value: None,
            semicolon,
        },
        rest,
    ))
}

/// `assert` of a condition.
fn asserting<'a>(alloc: Global, left: usize, tokens: &'a [TreeToken]) -> Read<'a, PlainStmt>
    ensures { Gives (λ x. (plain_stmt_tree x.0, x.1.now)) result (mapped (node rules.plain) (spec.assert_with left (readers.below left) tokens.now)) }
{
    let (keyword, rest) = mark(tokens, fixed::ASSERT)?;
    let (found, rest) = condition(alloc, left, rest)?;
    let (semicolon, rest) = mark(rest, fixed::SEMICOLON)?;
    let Guard {
        opening,
        value,
        closing,
    } = found;
    Ok((
        PlainStmt::Assert {
            keyword,
            opening,
            condition: value,
            closing,
            semicolon,
        },
        rest,
    ))
}

/// A statement without statements in it.
pub fn flat<'a>(alloc: Global, left: usize, tokens: &'a [TreeToken]) -> Read<'a, PlainStmt>
    ensures { Gives (λ x. (plain_stmt_tree x.0, x.1.now)) result (mapped (node rules.plain) (spec.flat_with left (readers.below left) tokens.now)) }
{
    if starts(tokens, fixed::BREAK) {
        let (keyword, rest) = mark(tokens, fixed::BREAK)?;
        let (semicolon, rest) = mark(rest, fixed::SEMICOLON)?;
        return Ok((PlainStmt::Break { keyword, semicolon }, rest));
    }
    if starts(tokens, fixed::CONTINUE) {
        let (keyword, rest) = mark(tokens, fixed::CONTINUE)?;
        let (semicolon, rest) = mark(rest, fixed::SEMICOLON)?;
        return Ok((PlainStmt::Continue { keyword, semicolon }, rest));
    }
    if starts(tokens, fixed::RETURN) {
        return returning(alloc, left, tokens);
    }
    if starts(tokens, fixed::ASSERT) {
        return asserting(alloc, left, tokens);
    }
    sentence(alloc, left, tokens)
}
