// What is known where control leaves a statement or a condition, and whether all of its points are
// ready.
ghost use Rattle.std.specs.Prelude.{◌≡◌, IfOk};
ghost use Rattle.life_core.specs.Function.{function_of};
ghost use Rattle.life_core.specs.Step.{asked_of, step_of};
ghost use Rattle.life_core.specs.Tree.{condition_tree, tree_of, Question, Return};
ghost use Rattle.life_proper.specs.Checking.{acting, asking, flow, returning};
ghost use Rattle.life_proper.specs.ReadyKnown.{is_node_ready};
ghost use Rattle.life_proper.specs.Seen.{flow_seen, state_seen};

use crate::flow::Flow;
use crate::knowing::{State, at_head, copied};
use crate::known::Known;
use crate::passing::pass;
use crate::scope::Scope;
use crate::uses::{is_result_ready, is_test_ready};
use life_core::{Condition, Instr, Stmt, Test};
use life_types::NoMemory;
use std::alloc::Global;

fn instr_flow(instr: &Instr, here: State, at: &Scope) -> Flow
    ensures { flow_seen result ≡ acting at.now.types.now (function_of at.now.function.now) (step_of instr.now) (state_seen here) }
{
    match here {
        None => Flow::stopping(true),
        Some(before) => {
            let mut known = before;
            let ready = pass(&mut known, instr, at.function);
            Flow::ending(ready, Some(known))
        }
    }
}

fn test_flow(alloc: Global, test: &Test, here: State, at: &Scope) -> Result<Flow, NoMemory>
    ensures { IfOk result (λ w. flow_seen w ≡ asking at.now.types.now (function_of at.now.function.now) (asked_of test.now) (state_seen here)) }
{
    match here {
        None => Ok(Flow::stopping(true)),
        Some(known) => {
            let ready = test_ready(&known, test, at);
            let failed = Vec::from_slice(alloc, &known)?;
            Ok(Flow::asking(ready, Some(known), Some(failed)))
        }
    }
}

// Nothing is born by a test or a return, and nothing goes.
#[tactic(auto, using(crate::proofs::Joining::and_true))]
fn test_ready(known: &[Known], test: &Test, at: &Scope) -> bool
    ensures { result ≡ is_node_ready at.now.types.now (function_of at.now.function.now) known.now (Question (asked_of test.now)) }
{
    is_test_ready(known, test)
}

#[tactic(auto, using(crate::proofs::Joining::and_true))]
fn return_ready(known: &[Known], at: &Scope) -> bool
    ensures { result ≡ is_node_ready at.now.types.now (function_of at.now.function.now) known.now Return }
{
    is_result_ready(known, at.types, at.function)
}

fn return_flow(here: State, at: &Scope) -> Flow
    ensures { flow_seen result ≡ returning at.now.types.now (function_of at.now.function.now) (state_seen here) }
{
    match here {
        None => Flow::stopping(true),
        Some(known) => Flow::stopping(return_ready(&known, at)),
    }
}

/// The ways of a statement, to which control comes with this known.
#[tactic(auto, using(crate::proofs::Joining::flow_more, crate::proofs::Joining::joined_end))]
#[cycle(flows)]
pub(crate) fn stmt_flow(alloc: Global, s: &Stmt, here: State, at: &Scope) -> Result<Flow, NoMemory>
    ensures { IfOk result (λ w. flow_seen w ≡ flow at.now.types.now (function_of at.now.function.now) (tree_of s.now) (state_seen here)) }
{
    match s {
        Stmt::List(items) => {
            let mut ways = Flow::ending(true, here);
            for item in items {
                let next = ways.take_next();
                let more = stmt_flow(alloc, item, next, at)?;
                ways = ways.joined(more);
            }
            Ok(ways)
        }
        Stmt::Do(_, instr) => Ok(instr_flow(instr, here, at)),
        Stmt::Branch(condition, held, failed) => {
            let mut test = condition_flow(alloc, condition, here, at)?;
            let on_true = test.take_true();
            let on_false = test.take_false();
            let first = stmt_flow(alloc, held, on_true, at)?;
            let second = stmt_flow(alloc, failed, on_false, at)?;
            Ok(test.joined(first.joined(second)))
        }
        Stmt::Loop {
            condition,
            body,
            step,
        } => {
            let head = at_head(alloc, &at.function.locals, &here)?;
            let mut test = condition_flow(alloc, condition, copied(alloc, &head)?, at)?;
            let on_true = test.take_true();
            let mut turn = stmt_flow(alloc, body, on_true, at)?;
            let again = turn.take_turn();
            let back = stmt_flow(alloc, step, again, at)?;
            Ok(
                test.of_test()
                    .joined(turn.of_body().joined(back.of_step(&head))),
            )
        }
        Stmt::Break => Ok(Flow::breaking(here)),
        Stmt::Continue => Ok(Flow::continuing(here)),
        Stmt::Return(_) => Ok(return_flow(here, at)),
        Stmt::Stop(_) => Ok(Flow::stopping(true)),
    }
}

/// .. and of a condition.
#[cycle(flows)]
fn condition_flow(
    alloc: Global,
    condition: &Condition,
    here: State,
    at: &Scope,
) -> Result<Flow, NoMemory>
    ensures { IfOk result (λ w. flow_seen w ≡ flow at.now.types.now (function_of at.now.function.now) (condition_tree condition.now) (state_seen here)) }
{
    match condition {
        Condition::After(before, last) => {
            let mut ways = stmt_flow(alloc, before, here, at)?;
            let next = ways.take_next();
            Ok(ways.joined(condition_flow(alloc, last, next, at)?))
        }
        Condition::Single(_, test) => test_flow(alloc, test, here, at),
        Condition::And(left, right) => {
            let mut ways = condition_flow(alloc, left, here, at)?;
            let next = ways.take_true();
            Ok(ways.joined(condition_flow(alloc, right, next, at)?))
        }
        Condition::Or(left, right) => {
            let mut ways = condition_flow(alloc, left, here, at)?;
            let next = ways.take_false();
            Ok(ways.joined(condition_flow(alloc, right, next, at)?))
        }
        Condition::Not(inner) => Ok(condition_flow(alloc, inner, here, at)?.turned()),
    }
}
