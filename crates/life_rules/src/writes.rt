// Which sets an instruction replaces.
ghost use Rattle.std.specs.Prelude.{◌≡◌, ◌||◌};
ghost use Rattle.life_core.specs.Operands.{operand_of, whole};
ghost use Rattle.life_core.specs.Step.{change_of, step_of};
ghost use Rattle.life_rules.specs.Carrying.{is_erased_into, is_in_named, is_location, is_named, writes};

use crate::calling::is_in_target;
use crate::matching::{is_location, is_rooted, is_rooted_among, located};
use life_core::{Change, Instr, Operand};
use life_pset::{AbsPlace, is_within};

// Whether a location lies in what an operand names.
fn is_in_named(operand: &Operand, location: &AbsPlace) -> bool
    ensures { result ≡ is_in_named (operand_of operand.now) location.now }
{
    match operand {
        Operand::Name(named) => is_within(&located(named), location),
        Operand::Through { .. } => false,
    }
}

fn is_named(operand: &Operand, location: &AbsPlace) -> bool
    ensures { result ≡ is_named (operand_of operand.now) location.now }
{
    match operand {
        Operand::Name(named) => is_location(named, location),
        Operand::Through { .. } => false,
    }
}

// Whether the location is given the position of what is erased.
fn is_erased_into(change: &Change, location: &AbsPlace) -> bool
    ensures { result ≡ is_erased_into (change_of change.now) location.now }
{
    match change {
        Change::Erase { into, .. } => is_location(into, location),
        _ => false,
    }
}

/// Whether the instruction replaces the set of a location.
pub fn writes(instr: &Instr, location: &AbsPlace) -> bool
    ensures { result ≡ writes (step_of instr.now) location.now }
{
    match instr {
        Instr::Live { local, .. } => is_rooted(*local, location),
        Instr::End { locals } => is_rooted_among(locals, location),
        Instr::Copy { to, .. } => is_in_named(to, location),
        Instr::Move { to, from } => is_whole(*from, location) || is_named(to, location),
        Instr::Aim { pointer, .. } => is_location(pointer, location),
        Instr::Repoint { pointer, .. } => is_location(pointer, location),
        Instr::Advance { pointer, .. } => is_location(pointer, location),
        Instr::Cut { pointer, .. } => is_location(pointer, location),
        Instr::Element { pointer, .. } => is_location(pointer, location),
        Instr::Cursor { pointer, .. } => is_location(pointer, location),
        Instr::Change { change, .. } => is_erased_into(change, location),
        Instr::Make { owner, .. } => is_location(owner, location),
        Instr::Call { target, .. } => is_in_target(target, location),
        _ => false,
    }
}

/// Whether the location is the local with this number itself.
pub fn is_whole(local: u32, location: &AbsPlace) -> bool
    ensures { result ≡ is_location (whole local) location.now }
{
    *location == AbsPlace::of_local(local)
}
