// How many points a function has.
ghost use Rattle.std.specs.Prelude.{◌≡◌, ◌<◌, ◌^◌};
ghost use Rattle.life_core.specs.Function.{function_of};
ghost use Rattle.life_core.specs.Linked.{points_of};
ghost use Rattle.life_core.specs.Tree.{condition_tree, size, tree_of};

use crate::program::CoreFn;
use crate::stmt::{Condition, Stmt};

/// How many points the function has. They are numbered from 1.
pub fn points(f: &CoreFn) -> u32
    requires { points_of (function_of f.now) < 2 ^ 31 }
    ensures { result ≡ points_of (function_of f.now) }
{
    points_in(&f.body)
}

/// How many points the statement has.
#[cycle(points)]
pub(crate) fn points_in(s: &Stmt) -> u32
    requires { size (tree_of s.now) < 2 ^ 32 }
    ensures { result ≡ size (tree_of s.now) }
{
    match s {
        Stmt::List(items) => {
            let mut sum = 0;
            for item in items {
                sum += points_in(item);
            }
            sum
        }
        Stmt::Branch(condition, first, second)
        | Stmt::Loop {
            condition,
            body: first,
            step: second,
        } => points_in_condition(condition) + points_in(first) + points_in(second),
        Stmt::Do(_, _) | Stmt::Return(_) | Stmt::Stop(_) => 1,
        Stmt::Break | Stmt::Continue => 0,
    }
}

/// How many points the condition has.
#[cycle(points)]
pub(crate) fn points_in_condition(condition: &Condition) -> u32
    requires { size (condition_tree condition.now) < 2 ^ 32 }
    ensures { result ≡ size (condition_tree condition.now) }
{
    match condition {
        Condition::After(before, last) => points_in(before) + points_in_condition(last),
        Condition::Single(_, _) => 1,
        Condition::And(first, second) | Condition::Or(first, second) => {
            points_in_condition(first) + points_in_condition(second)
        }
        Condition::Not(inner) => points_in_condition(inner),
    }
}
