// Owners that are used through a pointer, and moved from.
ghost use Rattle.std.specs.List.{flat_map};
ghost use Rattle.std.specs.Prelude.{◌≡◌, ◌++◌, OnOk};
ghost use Rattle.life_core.specs.Function.{function_of};
ghost use Rattle.life_core.specs.Operands.{base_of, location_of, operand_of, source_of};
ghost use Rattle.life_core.specs.Step.{step_of};
ghost use Rattle.life_rules.specs.Along.{base_tells_first, is_target_of, source_tells_first, tells_first};
ghost use Rattle.life_rules.specs.Diagnosing.{moved_target, moved_through, owner_of_base, owner_of_source, owners};

use crate::context::PointContext;
use crate::diag::Diag;
use crate::matching::{is_location, located};
use crate::wrong::push_moved_use;
use life_core::{Base, Instr, Location, Operand, Source};
use life_pset::{Element, Fact, is_variable_place};
use life_types::NoMemory;

/// Adds that an instruction uses, through the pointer that the first fact is about, a vector or a string
/// that the second says is moved from.
pub(crate) fn push_moved_uses_of_two(
    at: &PointContext<'_>,
    instr: &Instr,
    target: &Fact,
    owner: &Fact,
    out: &mut Vec<Diag>,
) -> Result<(), NoMemory>
    ensures { OnOk result
        (out.new.items
        ≡ out.old.items ++ flat_map (moved_through at.now.types.now at.now.function (function_of at.now.f.now) at.now.spot.place target.now owner.now) (owners (step_of instr.now))) }
{
    match instr {
        Instr::Copy { from, .. } => push_moved_through(at, from, target, owner, out),
        Instr::Aim { source, .. } => push_moved_by_source(at, source, target, owner, out),
        Instr::Element { base, .. } => push_moved_by_base(at, base, target, owner, out),
        Instr::Cursor { base, .. } => push_moved_by_base(at, base, target, owner, out),
        Instr::Size { base, .. } => push_moved_by_base(at, base, target, owner, out),
        Instr::Change { place: operand, .. } => push_moved_through(at, operand, target, owner, out),
        _ => Ok(()),
    }
}

fn push_moved_by_source(
    at: &PointContext<'_>,
    source: &Source,
    target: &Fact,
    owner: &Fact,
    out: &mut Vec<Diag>,
) -> Result<(), NoMemory>
    ensures { OnOk result
        (out.new.items
        ≡ out.old.items ++ flat_map (moved_through at.now.types.now at.now.function (function_of at.now.f.now) at.now.spot.place target.now owner.now) (owner_of_source (source_of source.now))) }
{
    match source {
        Source::Whole(operand) => push_moved_through(at, operand, target, owner, out),
        _ => Ok(()),
    }
}

fn push_moved_by_base(
    at: &PointContext<'_>,
    base: &Base,
    target: &Fact,
    owner: &Fact,
    out: &mut Vec<Diag>,
) -> Result<(), NoMemory>
    ensures { OnOk result
        (out.new.items
        ≡ out.old.items ++ flat_map (moved_through at.now.types.now at.now.function (function_of at.now.f.now) at.now.spot.place target.now owner.now) (owner_of_base (base_of base.now))) }
{
    match base {
        Base::Owner(operand) => push_moved_through(at, operand, target, owner, out),
        Base::Pointer(_) => Ok(()),
    }
}

fn push_moved_through(
    at: &PointContext<'_>,
    operand: &Operand,
    target: &Fact,
    owner: &Fact,
    out: &mut Vec<Diag>,
) -> Result<(), NoMemory>
    ensures { OnOk result
        (out.new.items
        ≡ out.old.items ++ moved_through at.now.types.now at.now.function (function_of at.now.f.now) at.now.spot.place target.now owner.now (operand_of operand.now)) }
{
    match operand {
        Operand::Name(_) => {}
        Operand::Through { pointer, members } => {
            if is_location(pointer, &target.location) {
                push_moved_target(at, pointer, members, target.element, owner, out)?;
            }
        }
    }
    Ok(())
}

fn push_moved_target(
    at: &PointContext<'_>,
    pointer: &Location,
    members: &[u32],
    target: Element,
    owner: &Fact,
    out: &mut Vec<Diag>,
) -> Result<(), NoMemory>
    ensures { OnOk result
        (out.new.items
        ≡ out.old.items ++ moved_target at.now.types.now at.now.function (function_of at.now.f.now) at.now.spot.place (location_of pointer.now) members.now target owner.now) }
{
    match target {
        Element::At(named) => {
            if owner.location == named.members(members)
                && is_variable_place(at.types, at.f, &owner.location)
            {
                push_moved_use(
                    at.function,
                    at.spot.place,
                    located(pointer),
                    owner.element,
                    out,
                )?;
            }
        }
        _ => {}
    }
    Ok(())
}

/// Whether the fact and another one may make the use of an owner wrong: the instruction uses it through the
/// pointer that the fact is about.
pub(crate) fn tells_first(instr: &Instr, fact: &Fact) -> bool
    ensures { result ≡ tells_first (step_of instr.now) fact.now }
{
    match instr {
        Instr::Copy { from, .. } => is_target_of(from, fact),
        Instr::Aim { source, .. } => source_tells_first(source, fact),
        Instr::Element { base, .. } => base_tells_first(base, fact),
        Instr::Cursor { base, .. } => base_tells_first(base, fact),
        Instr::Size { base, .. } => base_tells_first(base, fact),
        Instr::Change { place, .. } => is_target_of(place, fact),
        _ => false,
    }
}

// Whether the fact is about the pointer through which an operand names something.
fn is_target_of(operand: &Operand, fact: &Fact) -> bool
    ensures { result ≡ is_target_of (operand_of operand.now) fact.now }
{
    match operand {
        Operand::Name(_) => false,
        Operand::Through { pointer, .. } => is_location(pointer, &fact.location),
    }
}

fn source_tells_first(source: &Source, fact: &Fact) -> bool
    ensures { result ≡ source_tells_first (source_of source.now) fact.now }
{
    match source {
        Source::Whole(operand) => is_target_of(operand, fact),
        _ => false,
    }
}

fn base_tells_first(base: &Base, fact: &Fact) -> bool
    ensures { result ≡ base_tells_first (base_of base.now) fact.now }
{
    match base {
        Base::Owner(operand) => is_target_of(operand, fact),
        Base::Pointer(_) => false,
    }
}
