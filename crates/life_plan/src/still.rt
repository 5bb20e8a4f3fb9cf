// Edges along which each fact comes of itself, and nothing else comes.
ghost use Rattle.std.specs.Prelude.{◌≡◌, ℕ, true, false, IfOk, Some, slice_get, option_map};
ghost use Rattle.life_core.specs.Node.{spot_seen};
ghost use Rattle.life_core.specs.Step.{step_of};
ghost use Rattle.life_pset.specs.declared.element.AbsPlace.{AbsPlace};
ghost use Rattle.life_rules.specs.Staying.{spot_writes};
ghost use Rattle.life_plan.specs.Crossing.{crossing_in};
ghost use Rattle.life_plan.specs.Still.{spot_bears, step_bears, IsStill};

use crate::context::EdgeContext;
use crate::staying::is_written;
use life_core::{Instr, NodeRef, SpotRef};
use life_rules::{keeps_all, push_none};
use life_types::NoMemory;
use std::alloc::Global;

/// Whether it is plain that nothing comes of facts along the edge but each fact itself: its first point
/// looks at no pointer, or only brings a local to life in which no location is.
pub fn is_still(alloc: Global, context: &EdgeContext) -> Result<bool, NoMemory>
    ensures { IfOk result (λ still. still ≡ true → IsStill (crossing_in context.now)) }
{
    if keeps_all(context.spot) {
        return Ok(true);
    }
    if bears(context.spot) {
        bears_no_location(alloc, context)
    } else {
        Ok(false)
    }
}

// Whether a local that comes to life has no location.
fn bears_no_location(alloc: Global, context: &EdgeContext) -> Result<bool, NoMemory>
    requires { spot_bears (option_map spot_seen context.now.spot) ≡ true }
    ensures { IfOk result (λ still. still ≡ true → IsStill (crossing_in context.now)) }
{
    if writes_some(context) {
        return Ok(false);
    }
    let mut born = Vec::new(alloc);
    push_none(
        alloc,
        context.types,
        context.f,
        context.spot,
        context.callee,
        &mut born,
    )?;
    Ok(born.is_empty())
}

// Whether the edge's first point brings a local to life.
fn bears(spot: Option<SpotRef>) -> bool
    ensures { result ≡ spot_bears (option_map spot_seen spot.entry) }
{
    match spot {
        None => false,
        Some(spot) => match spot.node {
            NodeRef::Action(instr) => is_birth(instr),
            NodeRef::Question(_) => false,
            NodeRef::Return => false,
            NodeRef::Stop => false,
        },
    }
}

fn is_birth(instr: &Instr) -> bool
    ensures { result ≡ step_bears (step_of instr.now) }
{
    match instr {
        Instr::Live { .. } => true,
        _ => false,
    }
}

// Whether a location of the function is written.
fn writes_some(context: &EdgeContext) -> bool
    ensures { result ≡ false → (n : ℕ) (l : AbsPlace) → slice_get context.now.table.now.locations n ≡ Some l → spot_writes (option_map spot_seen context.now.spot) l ≡ false }
{
    for n in 0..context.table.location_count() {
        if is_written(context, n) {
            return true;
        }
    }
    false
}
