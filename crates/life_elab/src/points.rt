// Whether a function has few points, found without a list of them. The branches of an `if` nest in
// the core as deep as there are many, and so do the parts of a long condition, so each call goes down
// last where the nesting goes on: by then each level has taken a point, and without room it looks no
// further.
ghost use Rattle.std.specs.Prelude.{◌≡◌, ◌≤◌, ◌-◌, ◌↔◌, IsTrue};
ghost use Rattle.life_core.specs.Function.{function_of};
ghost use Rattle.life_core.specs.Linked.{points_of};
ghost use Rattle.life_core.specs.Tree.{condition_tree, size, tree_of};

use life_core::{Condition, CoreFn, Stmt};
use life_pset::POINT_LIMIT;

/// Whether a function has no more points than it may.
pub(crate) fn has_few_points(f: &CoreFn) -> bool
    ensures { IsTrue result ↔ points_of (function_of f.now) ≤ 1024 }
{
    room_after(&f.body, POINT_LIMIT + 1) > 0
}

// What is left of so much room once each point of the statement has taken one.
#[cycle(points)]
fn room_after(s: &Stmt, room: usize) -> usize
    ensures { result ≡ room - size (tree_of s.now) }
{
    if room == 0 {
        return 0;
    }
    match s {
        Stmt::List(items) => {
            let mut left = room;
            for item in items {
                left = room_after(item, left);
            }
            left
        }
        Stmt::Branch(condition, first, second)
        | Stmt::Loop {
            condition,
            body: first,
            step: second,
        } => {
            let left = room_after_condition(condition, room);
            let left = room_after(first, left);
            room_after(second, left)
        }
        Stmt::Do(_, _) | Stmt::Return(_) | Stmt::Stop(_) => room - 1,
        Stmt::Break | Stmt::Continue => room,
    }
}

// .. of the condition. A long one goes on in its first part.
#[cycle(points)]
fn room_after_condition(condition: &Condition, room: usize) -> usize
    ensures { result ≡ room - size (condition_tree condition.now) }
{
    if room == 0 {
        return 0;
    }
    match condition {
        Condition::After(before, last) => {
            let left = room_after(before, room);
            room_after_condition(last, left)
        }
        Condition::Single(_, _) => room - 1,
        Condition::And(first, second) | Condition::Or(first, second) => {
            let left = room_after_condition(second, room);
            room_after_condition(first, left)
        }
        Condition::Not(inner) => room_after_condition(inner, room),
    }
}
