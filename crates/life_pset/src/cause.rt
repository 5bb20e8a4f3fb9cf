// Why pointers become invalid, and owners moved from.
ghost use Rattle.std.specs.Prelude.{◌≡◌};
ghost use Rattle.life_core.specs.Operands.{operand_of};
ghost use Rattle.life_pset.specs.Elements.{called, changed, changed_in, end_kind, ended_local, moved, owner_changed, uninitialised};

use crate::element::{Cause, CauseKind};
use life_core::{FnId, Local, Operand};
use life_types::{NameId, Place};

/// The local came to life at a place without a value.
pub fn uninitialised(place: Place, local: u32) -> Cause
    ensures { result ≡ uninitialised place local }
{
    Cause {
        kind: CauseKind::Uninitialised,
        place,
        root: local,
    }
}

/// The local with this number ended at a place.
pub fn ended(place: Place, number: u32, local: &Local) -> Cause
    ensures { result ≡ ended_local place number local.now }
{
    Cause {
        kind: end_kind(local.name),
        place,
        root: number,
    }
}

// What has a name is a variable, and else a temporary.
fn end_kind(name: Option<NameId>) -> CauseKind
    ensures { result ≡ end_kind name }
{
    match name {
        Some(_) => CauseKind::Ended,
        None => CauseKind::TemporaryEnded,
    }
}

/// The variable was changed at a place, by its name.
pub fn changed(place: Place, local: u32) -> Cause
    ensures { result ≡ changed place local }
{
    Cause {
        kind: CauseKind::Changed,
        place,
        root: local,
    }
}

/// An owner was changed at a place, through a pointer.
pub fn owner_changed(place: Place) -> Cause
    ensures { result ≡ owner_changed place }
{
    Cause {
        kind: CauseKind::OwnerChanged,
        place,
        root: 0,
    }
}

/// What an operand names was changed at a place.
pub fn changed_in(place: Place, operand: &Operand) -> Cause
    ensures { result ≡ changed_in place (operand_of operand.now) }
{
    match operand {
        Operand::Name(location) => changed(place, location.local),
        Operand::Through { .. } => owner_changed(place),
    }
}

/// The variable was moved from at a place.
pub fn moved(place: Place, local: u32) -> Cause
    ensures { result ≡ moved place local }
{
    Cause {
        kind: CauseKind::Moved,
        place,
        root: local,
    }
}

/// The function was called at a place.
pub fn called(place: Place, function: FnId) -> Cause
    ensures { result ≡ called place function.0 }
{
    Cause {
        kind: CauseKind::Called,
        place,
        root: function.0,
    }
}
