// Whether a program is one of those whose verdict is proved.
ghost use Rattle.std.specs.Prelude.{◌≡◌, true};
ghost use Rattle.std.specs.List.{list_all};
ghost use Rattle.life_core.specs.Function.{program_of};
ghost use Rattle.life_core_served.specs.ProperPrograms.{IsServedProgram};
ghost use Rattle.life_core_served.specs.Served.{has_no_slots, is_no_slot};

use life_core::{CoreFn, CoreProgram, Local};
use life_types::{TypeTable, is_slot};

// ---- functions

fn is_no_slot(types: &TypeTable, local: &Local) -> bool
    ensures { result ≡ is_no_slot types.now local.now }
{
    !is_slot(types, local.ty)
}

fn lacks_slots(types: &TypeTable, f: &CoreFn) -> bool
    ensures { result ≡ list_all (is_no_slot types.now) f.now.locals.items }
{
    for local in &f.locals {
        if !is_no_slot(types, local) {
            return false;
        }
    }
    true
}

// ---- all of it

/// Whether the program is one of those of which it is proved that no run of theirs faults where nothing is diagnosed:
/// none of its locals is a slot.
#[tactic(auto, using(crate::proofs::Parts::parts_served))]
pub fn is_slotless(p: &CoreProgram) -> bool
    ensures { result ≡ true → IsServedProgram (program_of p.now) }
{
    has_no_slots(p)
}

fn has_no_slots(p: &CoreProgram) -> bool
    ensures { result ≡ has_no_slots (program_of p.now) }
{
    for f in &p.functions {
        if !lacks_slots(&p.types, f) {
            return false;
        }
    }
    true
}
