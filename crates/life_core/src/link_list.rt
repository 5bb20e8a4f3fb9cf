// The points of a function that know where they lead.
ghost use Rattle.std.specs.Prelude.{◌≡◌, ◌+◌, ◌<◌, ◌^◌, ◌++◌, map, IfOk, OnOk};
ghost use Rattle.life_core.specs.Function.{function_of};
ghost use Rattle.life_core.specs.Link.{link_seen};
ghost use Rattle.life_core.specs.Linked.{code_of, linked, points_of};
ghost use Rattle.life_core.specs.Tree.{condition_tree, size, tree_of};

use crate::edge_list::{entry_of, entry_of_all, entry_of_condition};
use crate::exits::Exits;
use crate::link::{Leads, LinkRef};
use crate::node::{NodeRef, SpotRef};
use crate::point_count::{points_in, points_in_condition};
use crate::program::CoreFn;
use crate::stmt::{Condition, Stmt};
use life_types::NoMemory;
use std::alloc::Global;

/// All points of the function, each once and with its ways on: the k-th of the list, counted from 0,
/// is point k + 1. `NoMemory` says that memory was wanted.
pub fn links(alloc: Global, f: &CoreFn) -> Result<Vec<LinkRef>, NoMemory>
    requires { points_of (function_of f.now) < 2 ^ 31 }
    ensures { IfOk result (λ links. map link_seen links.items ≡ code_of (function_of f.now)) }
{
    let mut found = Vec::new(alloc);
    push_links(&f.body, 1, Exits::NONE, &mut found)?;
    Ok(found)
}

/// Adds the points of a statement whose first point has the number `at`.
#[cycle(links)]
fn push_links<'a>(
    s: &'a Stmt,
    at: u32,
    exits: Exits,
    found: &mut Vec<LinkRef<'a>>,
) -> Result<(), NoMemory>
    requires { at + size (tree_of s.now) < 2 ^ 32 }
    ensures { OnOk result
        (map link_seen found.new.items ≡ map link_seen found.old.items ++ linked (tree_of s.now) at exits) }
{
    match s {
        Stmt::List(items) => {
            let mut here = at;
            for (i, item) in items.iter().enumerate() {
                let end = here + points_in(item);
                let next = entry_of_all(&items[i + 1..]).target(end, exits);
                push_links(item, here, exits.with_next(next), found)?;
                here = end;
            }
        }
        Stmt::Do(place, instr) => found.push(LinkRef {
            spot: SpotRef::new(place, NodeRef::Action(instr)),
            leads: Leads::On(exits.next),
        })?,
        Stmt::Branch(condition, held, failed) => {
            let first = at + points_in_condition(condition);
            let second = first + points_in(held);
            let on_true = entry_of(held).target(first, exits);
            let on_false = entry_of(failed).target(second, exits);
            let tests = exits.with_false(on_false).with_true(on_true);
            push_condition_links(condition, at, tests, found)?;
            push_links(held, first, exits, found)?;
            push_links(failed, second, exits, found)?;
        }
        Stmt::Loop {
            condition,
            body,
            step,
        } => {
            let first = at + points_in_condition(condition);
            let second = first + points_in(body);
            let turn = exits.with_next(entry_of_condition(condition).target(at, exits));
            let inner = exits.of_body(entry_of(step).target(second, turn));
            let on_true = entry_of(body).target(first, inner);
            let tests = exits.with_false(exits.next).with_true(on_true);
            push_condition_links(condition, at, tests, found)?;
            push_links(body, first, inner, found)?;
            push_links(step, second, turn, found)?;
        }
        Stmt::Return(place) => found.push(LinkRef {
            spot: SpotRef::new(place, NodeRef::Return),
            leads: Leads::Nowhere,
        })?,
        Stmt::Stop(place) => found.push(LinkRef {
            spot: SpotRef::new(place, NodeRef::Stop),
            leads: Leads::Nowhere,
        })?,
        Stmt::Break | Stmt::Continue => {}
    }
    Ok(())
}

/// Adds the points of a condition whose first point has the number `at`.
#[cycle(links)]
fn push_condition_links<'a>(
    condition: &'a Condition,
    at: u32,
    exits: Exits,
    found: &mut Vec<LinkRef<'a>>,
) -> Result<(), NoMemory>
    requires { at + size (condition_tree condition.now) < 2 ^ 32 }
    ensures { OnOk result
        (map link_seen found.new.items
        ≡ map link_seen found.old.items ++ linked (condition_tree condition.now) at exits) }
{
    match condition {
        Condition::After(before, last) => {
            let second = at + points_in(before);
            let next = entry_of_condition(last).target(second, exits);
            push_links(before, at, exits.with_next(next), found)?;
            push_condition_links(last, second, exits, found)?;
        }
        Condition::Single(place, test) => found.push(LinkRef {
            spot: SpotRef::new(place, NodeRef::Question(test)),
            leads: Leads::Parts {
                held: exits.on_true,
                failed: exits.on_false,
            },
        })?,
        Condition::And(left, right) => {
            let second = at + points_in_condition(left);
            let held = entry_of_condition(right).target(second, exits);
            push_condition_links(left, at, exits.with_true(held), found)?;
            push_condition_links(right, second, exits, found)?;
        }
        Condition::Or(left, right) => {
            let second = at + points_in_condition(left);
            let failed = entry_of_condition(right).target(second, exits);
            push_condition_links(left, at, exits.with_false(failed), found)?;
            push_condition_links(right, second, exits, found)?;
        }
        Condition::Not(inner) => push_condition_links(inner, at, exits.turned(), found)?,
    }
    Ok(())
}
