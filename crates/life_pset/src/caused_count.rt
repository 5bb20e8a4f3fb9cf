// How much room the elements with causes take, found without a list of them.
ghost use Rattle.std.specs.Option.{option_copied};
ghost use Rattle.std.specs.Prelude.{◌≡◌, ◌-◌, slice_get};
ghost use Rattle.life_core.specs.Function.{function_of};
ghost use Rattle.life_core.specs.Step.{step_of};
ghost use Rattle.life_core.specs.Tree.{condition_tree, tree_of};
ghost use Rattle.life_pset.specs.Counts.{caused_count, end_count, ends_count, step_count};

use life_core::{Condition, CoreFn, Instr, Local, LocalKind, Stmt};

/// What is left of so much room once each element with a cause that the statement's points may give has
/// taken one.
#[cycle(caused)]
#[tactic(auto, using(crate::proofs::CountLemmas::room_after_both))]
pub(crate) fn room_after_caused(s: &Stmt, f: &CoreFn, room: usize) -> usize
    ensures { result ≡ room - caused_count (function_of f.now) (tree_of s.now) }
{
    match s {
        Stmt::List(items) => {
            let mut left = room;
            for item in items {
                left = room_after_caused(item, f, left);
            }
            left
        }
        Stmt::Branch(condition, first, second)
        | Stmt::Loop {
            condition,
            body: first,
            step: second,
        } => {
            let left = room_after_condition(condition, f, room);
            let left = room_after_caused(first, f, left);
            room_after_caused(second, f, left)
        }
        Stmt::Do(_, instr) => room_after_step(f, instr, room),
        Stmt::Break | Stmt::Continue | Stmt::Return(_) | Stmt::Stop(_) => room,
    }
}

// .. of the condition.
#[cycle(caused)]
#[tactic(auto, using(crate::proofs::CountLemmas::room_after_both))]
fn room_after_condition(condition: &Condition, f: &CoreFn, room: usize) -> usize
    ensures { result ≡ room - caused_count (function_of f.now) (condition_tree condition.now) }
{
    match condition {
        Condition::After(before, last) => {
            let left = room_after_caused(before, f, room);
            room_after_condition(last, f, left)
        }
        Condition::Single(_, _) => room,
        Condition::And(first, second) | Condition::Or(first, second) => {
            let left = room_after_condition(first, f, room);
            room_after_condition(second, f, left)
        }
        Condition::Not(inner) => room_after_condition(inner, f, room),
    }
}

// .. of an instruction.
fn room_after_step(f: &CoreFn, instr: &Instr, room: usize) -> usize
    ensures { result ≡ room - step_count (function_of f.now) (step_of instr.now) }
{
    match instr {
        Instr::Live { .. } => room.saturating_sub(1),
        Instr::End { locals } => room_after_ends(f, locals, room),
        Instr::Copy { .. } => room.saturating_sub(1),
        Instr::Move { .. } => room.saturating_sub(3),
        Instr::Change { .. } => room.saturating_sub(1),
        Instr::Make { .. } => room.saturating_sub(1),
        Instr::Call { .. } => room.saturating_sub(1),
        _ => room,
    }
}

// .. of the end of these locals.
#[tactic(auto, using(crate::proofs::CountLemmas::room_after_both))]
fn room_after_ends(f: &CoreFn, ended: &[u32], room: usize) -> usize
    ensures { result ≡ room - ends_count (function_of f.now) ended.now }
{
    let mut left = room;
    for local in ended {
        left = room_after_end(f, *local, left);
    }
    left
}

// .. of the end of the local with this number.
fn room_after_end(f: &CoreFn, number: u32, room: usize) -> usize
    ensures { result ≡ room - end_count (slice_get (function_of f.now).locals number) }
{
    room_after_end_of(f.locals.get(number as usize), room)
}

fn room_after_end_of(local: Option<&Local>, room: usize) -> usize
    ensures { result ≡ room - end_count (option_copied local.entry) }
{
    match local {
        None => room,
        Some(local) => match local.kind {
            LocalKind::Object => room.saturating_sub(1),
            LocalKind::Register => room,
            LocalKind::Range => room,
        },
    }
}
