// Break and continue stand in the body of a loop.
ghost use Rattle.std.specs.Prelude.{◌≡◌};
ghost use Rattle.life_core.specs.Shape.{breaks_inside};
ghost use Rattle.life_core.specs.Tree.{condition_tree, tree_of};

use life_core::{Condition, Stmt};

/// Whether they do in the statement, which itself stands in a loop's body or doesn't.
#[cycle(breaks)]
pub(crate) fn breaks_inside(s: &Stmt, in_loop: bool) -> bool
    ensures { result ≡ breaks_inside in_loop (tree_of s.now) }
{
    match s {
        Stmt::List(items) => {
            for item in items {
                if !breaks_inside(item, in_loop) {
                    return false;
                }
            }
            true
        }
        Stmt::Branch(condition, held, failed) => {
            condition_breaks_inside(condition, in_loop)
                && breaks_inside(held, in_loop)
                && breaks_inside(failed, in_loop)
        }
        Stmt::Loop {
            condition,
            body,
            step,
        } => {
            condition_breaks_inside(condition, in_loop)
                && breaks_inside(body, true)
                && breaks_inside(step, in_loop)
        }
        Stmt::Break | Stmt::Continue => in_loop,
        Stmt::Do(_, _) | Stmt::Return(_) | Stmt::Stop(_) => true,
    }
}

/// .. and in the condition.
#[cycle(breaks)]
fn condition_breaks_inside(condition: &Condition, in_loop: bool) -> bool
    ensures { result ≡ breaks_inside in_loop (condition_tree condition.now) }
{
    match condition {
        Condition::After(before, last) => {
            breaks_inside(before, in_loop) && condition_breaks_inside(last, in_loop)
        }
        Condition::Single(_, _) => true,
        Condition::And(left, right) | Condition::Or(left, right) => {
            condition_breaks_inside(left, in_loop) && condition_breaks_inside(right, in_loop)
        }
        Condition::Not(inner) => condition_breaks_inside(inner, in_loop),
    }
}
