// What conditions compute before their tests is straight.
ghost use Rattle.std.specs.Prelude.{◌≡◌};
ghost use Rattle.life_core.specs.Shape.{is_straight, test_straight, tests_straight};
ghost use Rattle.life_core.specs.Tree.{condition_tree, tree_of};

use life_core::{Condition, Stmt};

/// Whether control leaves the statement at its end alone.
#[cycle(straight)]
fn is_straight(s: &Stmt) -> bool
    ensures { result ≡ is_straight (tree_of s.now) }
{
    match s {
        Stmt::List(items) => {
            for item in items {
                if !is_straight(item) {
                    return false;
                }
            }
            true
        }
        Stmt::Do(_, _) | Stmt::Stop(_) => true,
        Stmt::Branch(_, held, failed) => is_straight(held) && is_straight(failed),
        Stmt::Loop { .. } | Stmt::Break | Stmt::Continue | Stmt::Return(_) => false,
    }
}

/// Whether what the conditions of the statement compute before their tests is straight.
#[cycle(tests)]
pub(crate) fn tests_straight(s: &Stmt) -> bool
    ensures { result ≡ tests_straight (tree_of s.now) }
{
    match s {
        Stmt::List(items) => {
            for item in items {
                if !tests_straight(item) {
                    return false;
                }
            }
            true
        }
        Stmt::Branch(condition, first, second)
        | Stmt::Loop {
            condition,
            body: first,
            step: second,
        } => test_straight(condition) && tests_straight(first) && tests_straight(second),
        Stmt::Do(_, _) | Stmt::Break | Stmt::Continue | Stmt::Return(_) | Stmt::Stop(_) => true,
    }
}

/// .. and of the condition.
#[cycle(tests)]
fn test_straight(condition: &Condition) -> bool
    ensures { result ≡ test_straight (condition_tree condition.now) }
{
    match condition {
        Condition::After(before, last) => is_straight(before)
            && tests_straight(before)
            && test_straight(last),
        Condition::Single(_, _) => true,
        Condition::And(left, right) | Condition::Or(left, right) => test_straight(left)
            && test_straight(right),
        Condition::Not(inner) => test_straight(inner),
    }
}
