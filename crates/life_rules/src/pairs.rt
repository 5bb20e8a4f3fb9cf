// What each two of the facts before a point make wrong there.
ghost use Rattle.std.specs.List.{flat_map};
ghost use Rattle.std.specs.Prelude.{◌≡◌, ◌++◌, OnOk, Some};
ghost use Rattle.life_core.specs.Function.{function_of};
ghost use Rattle.life_core.specs.Node.{node_seen, spot_seen};
ghost use Rattle.life_core.specs.Step.{step_of};
ghost use Rattle.life_core.specs.Tree.{Action};
ghost use Rattle.life_rules.specs.Diagnosing.{diags_of_two, step_diags_of_two};
ghost use Rattle.life_rules.specs.Pairs.{moved_uses, Adds, IsOfPair};

use crate::arguing::push_argument_diags_of_pairs;
use crate::context::PointContext;
use crate::diag::Diag;
use crate::wrong_two::{push_moved_uses_of_two, tells_first};
use life_core::{Instr, NodeRef};
use life_pset::Fact;
use life_types::NoMemory;

/// Adds what each two of these facts make wrong at a point before which all of them hold, in any order: a
/// vector or a string that a pointer points to may not be used, or handed over, where it may be moved
/// from, and two arguments may not overlap where the callee may change an owner behind one of them. At a
/// call it takes no more than its arguments times the facts, and not pairs of these. The only error is the
/// want of memory.
pub fn push_diags_of_pairs(
    at: &PointContext<'_>,
    facts: &[Fact],
    out: &mut Vec<Diag>,
) -> Result<(), NoMemory>
    ensures { OnOk result
        (Adds (IsOfPair (diags_of_two at.now.sigs.now at.now.types.now at.now.function (function_of at.now.f.now) (Some (spot_seen at.now.spot))) facts.now) out.old.items out.new.items) }
{
    match at.spot.node {
        NodeRef::Action(instr) => push_step_diags_of_pairs(at, instr, facts, out),
        NodeRef::Question(_) => Ok(()),
        NodeRef::Return => Ok(()),
        NodeRef::Stop => Ok(()),
    }
}

fn push_step_diags_of_pairs(
    at: &PointContext<'_>,
    instr: &Instr,
    facts: &[Fact],
    out: &mut Vec<Diag>,
) -> Result<(), NoMemory>
    requires { node_seen at.now.spot.node ≡ Action (step_of instr.now) }
    ensures { OnOk result
        (Adds (IsOfPair (step_diags_of_two at.now.sigs.now at.now.types.now at.now.function (function_of at.now.f.now) at.now.spot.place (step_of instr.now)) facts.now) out.old.items out.new.items) }
{
    push_moved_uses(at, instr, facts, out)?;
    push_argument_diags_of_pairs(at, instr, facts, out)
}

// ---- owners that are used through a pointer

fn push_moved_uses(
    at: &PointContext<'_>,
    instr: &Instr,
    facts: &[Fact],
    out: &mut Vec<Diag>,
) -> Result<(), NoMemory>
    ensures { OnOk result
        (out.new.items
        ≡ out.old.items ++ flat_map (λ first. flat_map (moved_uses at.now.types.now at.now.function (function_of at.now.f.now) at.now.spot.place (step_of instr.now) first) facts.now) facts.now) }
{
    for first in facts {
        push_moved_uses_with(at, instr, first, facts, out)?;
    }
    Ok(())
}

// Adds what the first fact and each other make wrong, if they may.
fn push_moved_uses_with(
    at: &PointContext<'_>,
    instr: &Instr,
    first: &Fact,
    facts: &[Fact],
    out: &mut Vec<Diag>,
) -> Result<(), NoMemory>
    ensures { OnOk result
        (out.new.items
        ≡ out.old.items ++ flat_map (moved_uses at.now.types.now at.now.function (function_of at.now.f.now) at.now.spot.place (step_of instr.now) first.now) facts.now) }
{
    if !tells_first(instr, first) {
        return Ok(());
    }
    for second in facts {
        push_moved_uses_of_two(at, instr, first, second, out)?;
    }
    Ok(())
}
