// What stands at one point of a function.
ghost use Rattle.std.specs.Option.{option_copied};
ghost use Rattle.std.specs.Prelude.{◌≡◌, ◌<◌, ◌^◌, option_map};
ghost use Rattle.life_core.specs.Columns.{only, spot_in};
ghost use Rattle.life_core.specs.Function.{function_of};
ghost use Rattle.life_core.specs.Linked.{instr_of, is_return, node_of, place_of, points_of, spot_of, test_of};
ghost use Rattle.life_core.specs.Node.{spot_seen};
ghost use Rattle.life_core.specs.Step.{asked_of, step_of};
ghost use Rattle.life_core.specs.Tree.{condition_tree, size, tree_of};

use crate::instr::{Instr, Test};
use crate::node::{NodeRef, SpotRef};
use crate::point_count::{points_in, points_in_condition};
use crate::program::CoreFn;
use crate::stmt::{Condition, Point, Stmt};
use life_types::Place;

/// The instruction at the point, if one stands there.
pub fn instr_at(f: &CoreFn, point: Point) -> Option<&Instr>
    requires { points_of (function_of f.now) < 2 ^ 31 }
    ensures { option_map step_of (option_copied result) ≡ instr_of (function_of f.now) point }
{
    spot_at(f, point)?.node.instr()
}

/// The single test at the point, if one stands there.
pub fn test_at(f: &CoreFn, point: Point) -> Option<&Test>
    requires { points_of (function_of f.now) < 2 ^ 31 }
    ensures { option_map asked_of (option_copied result) ≡ test_of (function_of f.now) point }
{
    spot_at(f, point)?.node.test()
}

/// Whether the function returns at the point.
pub fn returns_at(f: &CoreFn, point: Point) -> bool
    requires { points_of (function_of f.now) < 2 ^ 31 }
    ensures { result ≡ is_return (node_of (function_of f.now) point) }
{
    match spot_at(f, point) {
        None => false,
        Some(spot) => spot.node.is_return(),
    }
}

/// The place of the point in the file, if the function has the point.
pub fn place_at(f: &CoreFn, point: Point) -> Option<Place>
    requires { points_of (function_of f.now) < 2 ^ 31 }
    ensures { result ≡ place_of (function_of f.now) point }
{
    match spot_at(f, point) {
        None => None,
        Some(spot) => Some(spot.place),
    }
}

fn spot_at(f: &CoreFn, point: Point) -> Option<SpotRef>
    requires { points_of (function_of f.now) < 2 ^ 31 }
    ensures { option_map spot_seen result ≡ spot_of (function_of f.now) point }
{
    if point.0 == 0 {
        return None;
    }
    spot_in(&f.body, point.0 - 1)
}

/// The k-th point of a statement, from 0.
#[cycle(spot)]
fn spot_in(s: &Stmt, k: u32) -> Option<SpotRef>
    requires { size (tree_of s.now) < 2 ^ 32 }
    ensures { option_map spot_seen result ≡ spot_in (tree_of s.now) k }
{
    match s {
        Stmt::List(items) => {
            let mut left = k;
            for item in items {
                let points = points_in(item);
                if left < points {
                    return spot_in(item, left);
                }
                left -= points;
            }
            None
        }
        Stmt::Branch(condition, first, second)
        | Stmt::Loop {
            condition,
            body: first,
            step: second,
        } => {
            let tests = points_in_condition(condition);
            if k < tests {
                return spot_in_condition(condition, k);
            }
            let points = points_in(first);
            if k - tests < points {
                return spot_in(first, k - tests);
            }
            spot_in(second, k - tests - points)
        }
        Stmt::Do(place, instr) => only(SpotRef::new(place, NodeRef::Action(instr)), k),
        Stmt::Return(place) => only(SpotRef::new(place, NodeRef::Return), k),
        Stmt::Stop(place) => only(SpotRef::new(place, NodeRef::Stop), k),
        Stmt::Break | Stmt::Continue => None,
    }
}

/// The k-th point of a condition, from 0.
#[cycle(spot)]
fn spot_in_condition(condition: &Condition, k: u32) -> Option<SpotRef>
    requires { size (condition_tree condition.now) < 2 ^ 32 }
    ensures { option_map spot_seen result ≡ spot_in (condition_tree condition.now) k }
{
    match condition {
        Condition::After(before, last) => {
            let points = points_in(before);
            if k < points {
                return spot_in(before, k);
            }
            spot_in_condition(last, k - points)
        }
        Condition::Single(place, test) => only(SpotRef::new(place, NodeRef::Question(test)), k),
        Condition::And(first, second) | Condition::Or(first, second) => {
            let points = points_in_condition(first);
            if k < points {
                return spot_in_condition(first, k);
            }
            spot_in_condition(second, k - points)
        }
        Condition::Not(inner) => spot_in_condition(inner, k),
    }
}

/// The k-th point of what has this one alone, from 0.
fn only(spot: SpotRef, k: u32) -> Option<SpotRef>
    ensures { option_map spot_seen result ≡ only (spot_seen spot.entry) k }
{
    if k == 0 { Some(spot) } else { None }
}
