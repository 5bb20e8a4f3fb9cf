// The edges of a function.
ghost use Rattle.std.specs.Prelude.{◌≡◌, ◌+◌, ◌<◌, ◌^◌, ◌++◌, map, true, false, IfOk, OnOk};
ghost use Rattle.life_core.specs.Columns.{edges_in};
ghost use Rattle.life_core.specs.Function.{function_of};
ghost use Rattle.life_core.specs.Linked.{edge_to, edges_of, entry_of, points_of, AllJoin, AreAscending};
ghost use Rattle.life_core.specs.Tree.{condition_tree, size, tree_of, trees};

use crate::exits::{Entry, Exits};
use crate::point_count::{points_in, points_in_condition};
use crate::program::CoreFn;
use crate::stmt::{Condition, Edge, Point, Stmt};
use life_types::NoMemory;
use std::alloc::Global;

/// The edges of the function, in ascending order of the points from which they go; of the two edges
/// of a test the one that is taken where it holds comes first. No edge goes from a return or a stop,
/// or past the end of the body. `NoMemory` says that memory was wanted.
pub fn edges(alloc: Global, f: &CoreFn) -> Result<Vec<Edge>, NoMemory>
    requires { points_of (function_of f.now) < 2 ^ 31 }
    ensures all { IfOk result (λ edges. edges.items ≡ edges_of (function_of f.now)) }
    ensures join { IfOk result (λ edges. AllJoin (points_of (function_of f.now)) edges.items) }
    ensures ascending { IfOk result (λ edges. AreAscending edges.items) }
{
    let mut edges = Vec::new(alloc);
    push_edges(&f.body, 1, Exits::NONE, &mut edges)?;
    Ok(edges)
}

/// Where control goes to a statement.
#[cycle(entries)]
pub(crate) fn entry_of(s: &Stmt) -> Entry
    ensures { result ≡ entry_of (tree_of s.now) }
{
    match s {
        Stmt::List(items) => entry_of_all(items),
        Stmt::Branch(condition, _, _) | Stmt::Loop { condition, .. } => {
            entry_of_condition(condition)
        }
        Stmt::Do(_, _) | Stmt::Return(_) | Stmt::Stop(_) => Entry::First,
        Stmt::Break => Entry::Break,
        Stmt::Continue => Entry::Continue,
    }
}

/// Where control goes to statements in a row.
#[cycle(entries)]
pub(crate) fn entry_of_all(items: &[Stmt]) -> Entry
    ensures { result ≡ entry_of (trees (map tree_of items.now)) }
{
    for item in items {
        let first = entry_of(item);
        if first != Entry::Next {
            return first;
        }
    }
    Entry::Next
}

/// Where control goes to a condition.
#[cycle(entries)]
pub(crate) fn entry_of_condition(condition: &Condition) -> Entry
    ensures { result ≡ entry_of (condition_tree condition.now) }
{
    match condition {
        Condition::After(before, last) => match entry_of(before) {
            Entry::First => Entry::First,
            Entry::Next => entry_of_condition(last),
            Entry::Break => Entry::Break,
            Entry::Continue => Entry::Continue,
        },
        Condition::Single(_, _) => Entry::First,
        Condition::And(first, _) | Condition::Or(first, _) | Condition::Not(first) => {
            entry_of_condition(first)
        }
    }
}

/// Adds the edges of a single test, the one that is taken where it holds first.
fn push_test_edges(edges: &mut Vec<Edge>, at: u32, exits: Exits) -> Result<(), NoMemory>
    ensures { OnOk result (edges.new.items ≡ edges.old.items
        ++ (edge_to at exits.on_true (Some true) ++ edge_to at exits.on_false (Some false))) }
{
    push_edge(edges, at, exits.on_true, Some(true))?;
    push_edge(edges, at, exits.on_false, Some(false))
}

/// Adds the edge, if there is a point to which it goes.
fn push_edge(
    edges: &mut Vec<Edge>,
    from: u32,
    to: Option<u32>,
    branch: Option<bool>,
) -> Result<(), NoMemory>
    ensures { OnOk result (edges.new.items ≡ edges.old.items ++ edge_to from to branch) }
{
    if let Some(to) = to {
        edges.push(Edge {
            from: Point(from),
            to: Point(to),
            branch,
        })?;
    }
    Ok(())
}

/// Adds the edges of a statement whose first point has the number `at`.
#[cycle(edges)]
fn push_edges(s: &Stmt, at: u32, exits: Exits, edges: &mut Vec<Edge>) -> Result<(), NoMemory>
    requires { at + size (tree_of s.now) < 2 ^ 32 }
    ensures { OnOk result (edges.new.items ≡ edges.old.items ++ edges_in (tree_of s.now) at exits) }
{
    match s {
        Stmt::List(items) => {
            let mut here = at;
            for (i, item) in items.iter().enumerate() {
                let end = here + points_in(item);
                let next = entry_of_all(&items[i + 1..]).target(end, exits);
                push_edges(item, here, exits.with_next(next), edges)?;
                here = end;
            }
        }
        Stmt::Do(_, _) => push_edge(edges, at, exits.next, None)?,
        Stmt::Branch(condition, held, failed) => {
            let first = at + points_in_condition(condition);
            let second = first + points_in(held);
            let on_true = entry_of(held).target(first, exits);
            let on_false = entry_of(failed).target(second, exits);
            let tests = exits.with_false(on_false).with_true(on_true);
            push_condition_edges(condition, at, tests, edges)?;
            push_edges(held, first, exits, edges)?;
            push_edges(failed, second, exits, edges)?;
        }
        Stmt::Loop {
            condition,
            body,
            step,
        } => {
            let first = at + points_in_condition(condition);
            let second = first + points_in(body);
            let turn = exits.with_next(entry_of_condition(condition).target(at, exits));
            let inner = exits.of_body(entry_of(step).target(second, turn));
            let on_true = entry_of(body).target(first, inner);
            let tests = exits.with_false(exits.next).with_true(on_true);
            push_condition_edges(condition, at, tests, edges)?;
            push_edges(body, first, inner, edges)?;
            push_edges(step, second, turn, edges)?;
        }
        Stmt::Break | Stmt::Continue | Stmt::Return(_) | Stmt::Stop(_) => {}
    }
    Ok(())
}

/// Adds the edges of a condition whose first point has the number `at`.
#[cycle(edges)]
fn push_condition_edges(
    condition: &Condition,
    at: u32,
    exits: Exits,
    edges: &mut Vec<Edge>,
) -> Result<(), NoMemory>
    requires { at + size (condition_tree condition.now) < 2 ^ 32 }
    ensures { OnOk result
        (edges.new.items ≡ edges.old.items ++ edges_in (condition_tree condition.now) at exits) }
{
    match condition {
        Condition::After(before, last) => {
            let second = at + points_in(before);
            let next = entry_of_condition(last).target(second, exits);
            push_edges(before, at, exits.with_next(next), edges)?;
            push_condition_edges(last, second, exits, edges)?;
        }
        Condition::Single(_, _) => push_test_edges(edges, at, exits)?,
        Condition::And(left, right) => {
            let second = at + points_in_condition(left);
            let held = entry_of_condition(right).target(second, exits);
            push_condition_edges(left, at, exits.with_true(held), edges)?;
            push_condition_edges(right, second, exits, edges)?;
        }
        Condition::Or(left, right) => {
            let second = at + points_in_condition(left);
            let failed = entry_of_condition(right).target(second, exits);
            push_condition_edges(left, at, exits.with_false(failed), edges)?;
            push_condition_edges(right, second, exits, edges)?;
        }
        Condition::Not(inner) => push_condition_edges(inner, at, exits.turned(), edges)?,
    }
    Ok(())
}
