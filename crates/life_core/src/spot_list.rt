// All points of a function, in their order.
ghost use Rattle.std.specs.Prelude.{◌≡◌, ◌++◌, length, map, IfOk, OnOk};
ghost use Rattle.life_core.specs.Function.{function_of};
ghost use Rattle.life_core.specs.Linked.{code_of, points_of, spot_of_linked};
ghost use Rattle.life_core.specs.Node.{spot_seen};
ghost use Rattle.life_core.specs.Tree.{condition_tree, spots, tree_of};

use crate::node::{NodeRef, SpotRef};
use crate::program::CoreFn;
use crate::stmt::{Condition, Stmt};
use life_types::NoMemory;
use std::alloc::Global;

/// All points of the function, each once: the k-th of the list, counted from 0, is point k + 1.
/// `NoMemory` says that memory was wanted.
pub fn spots(alloc: Global, f: &CoreFn) -> Result<Vec<SpotRef>, NoMemory>
    ensures all { IfOk result (λ spots.
        map spot_seen spots.items ≡ map spot_of_linked (code_of (function_of f.now))) }
    ensures count { IfOk result (λ spots. length spots.items ≡ points_of (function_of f.now)) }
{
    let mut found = Vec::new(alloc);
    push_spots(&f.body, &mut found)?;
    Ok(found)
}

/// Adds the points of a statement.
#[cycle(spots)]
fn push_spots<'a>(s: &'a Stmt, found: &mut Vec<SpotRef<'a>>) -> Result<(), NoMemory>
    ensures { OnOk result
        (map spot_seen found.new.items ≡ map spot_seen found.old.items ++ spots (tree_of s.now)) }
{
    match s {
        Stmt::List(items) => {
            for item in items {
                push_spots(item, found)?;
            }
        }
        Stmt::Branch(condition, first, second)
        | Stmt::Loop {
            condition,
            body: first,
            step: second,
        } => {
            push_condition_spots(condition, found)?;
            push_spots(first, found)?;
            push_spots(second, found)?;
        }
        Stmt::Do(place, instr) => found.push(SpotRef::new(place, NodeRef::Action(instr)))?,
        Stmt::Return(place) => found.push(SpotRef::new(place, NodeRef::Return))?,
        Stmt::Stop(place) => found.push(SpotRef::new(place, NodeRef::Stop))?,
        Stmt::Break | Stmt::Continue => {}
    }
    Ok(())
}

/// Adds the points of a condition.
#[cycle(spots)]
fn push_condition_spots<'a>(
    condition: &'a Condition,
    found: &mut Vec<SpotRef<'a>>,
) -> Result<(), NoMemory>
    ensures { OnOk result
        (map spot_seen found.new.items
        ≡ map spot_seen found.old.items ++ spots (condition_tree condition.now)) }
{
    match condition {
        Condition::After(before, last) => {
            push_spots(before, found)?;
            push_condition_spots(last, found)?;
        }
        Condition::Single(place, test) => {
            found.push(SpotRef::new(place, NodeRef::Question(test)))?;
        }
        Condition::And(first, second) | Condition::Or(first, second) => {
            push_condition_spots(first, found)?;
            push_condition_spots(second, found)?;
        }
        Condition::Not(inner) => push_condition_spots(inner, found)?,
    }
    Ok(())
}
