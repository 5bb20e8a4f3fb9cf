// What is wrong at a point.
ghost use Rattle.std.specs.List.{flat_map};
ghost use Rattle.std.specs.Prelude.{◌≡◌, ◌++◌, ◌∷◌, [], OnOk, Some};
ghost use Rattle.life_core.specs.Function.{function_of};
ghost use Rattle.life_core.specs.Node.{node_seen, spot_seen};
ghost use Rattle.life_core.specs.Operands.{base_of, characters_of, location_of, operand_of, source_of, whole, Name};
ghost use Rattle.life_core.specs.Step.{change_of, port_of, step_of};
ghost use Rattle.life_core.specs.Tree.{Action};
ghost use Rattle.life_rules.specs.Diagnosing.{diags_at, misopened, misopened_as, misread, misread_as, misused, misused_as, moved_as, moved_use, opened_by_base, opened_if, opened_in, opens, owner_of_base, owner_of_source, owners, read_by_base, read_by_change, read_by_characters, read_by_port, reads, step_diags, use_diags, used_by_base, used_by_source, used_in, uses};

use crate::arguing::push_argument_diags;
use crate::context::PointContext;
use crate::diag::{Diag, DiagKind, Why};
use crate::keeping::push_keeping_diags;
use crate::matching::is_location;
use crate::returning::push_return_diags;
use crate::telling::push_told;
use crate::writes::is_whole;
use life_core::{Base, Change, Characters, Instr, Location, NodeRef, Operand, Port, Source, Which};
use life_pset::{AbsPlace, Element, Fact, is_variable_place};
use life_types::{NoMemory, Place};

/// Adds what one fact makes wrong at a point before which it holds, in the manner of WG21 P1179R1:
/// nothing may go through a pointer that may be null or invalid, use a view, a span or an iterator that
/// may be invalid, take what a `std::unique_ptr` owns that may be null, or use a vector or a string that
/// may be moved from; no argument may be invalid, or null where the parameter doesn't admit it; no owner
/// may change that a parameter keeps; and no result may be invalid, or what its function doesn't promise.
/// The only error is the want of memory.
pub fn push_diags(at: &PointContext<'_>, fact: &Fact, out: &mut Vec<Diag>) -> Result<(), NoMemory>
    ensures { OnOk result
        (out.new.items
        ≡ out.old.items ++ diags_at at.now.sigs.now at.now.types.now at.now.function (function_of at.now.f.now) (Some (spot_seen at.now.spot)) fact.now) }
{
    match at.spot.node {
        NodeRef::Action(instr) => push_step_diags(at, instr, fact, out),
        NodeRef::Question(_) => Ok(()),
        NodeRef::Return => push_return_diags(at, fact, out),
        NodeRef::Stop => Ok(()),
    }
}

#[tactic(auto, using(std::proofs::Common::append_assoc))]
fn push_step_diags(
    at: &PointContext<'_>,
    instr: &Instr,
    fact: &Fact,
    out: &mut Vec<Diag>,
) -> Result<(), NoMemory>
    requires { node_seen at.now.spot.node ≡ Action (step_of instr.now) }
    ensures { OnOk result
        (out.new.items
        ≡ out.old.items ++ step_diags at.now.sigs.now at.now.types.now at.now.function (function_of at.now.f.now) at.now.spot.place (step_of instr.now) fact.now) }
{
    push_use_diags(at, instr, fact, out)?;
    push_argument_diags(at, instr, fact, out)?;
    push_keeping_diags(at, instr, fact, out)
}

// Adds what is wrong with what an instruction uses.
#[tactic(auto, using(std::proofs::Common::append_assoc))]
fn push_use_diags(
    at: &PointContext<'_>,
    instr: &Instr,
    fact: &Fact,
    out: &mut Vec<Diag>,
) -> Result<(), NoMemory>
    ensures { OnOk result
        (out.new.items
        ≡ out.old.items ++ use_diags at.now.types.now at.now.function (function_of at.now.f.now) at.now.spot.place (step_of instr.now) fact.now) }
{
    let place = at.spot.place;
    push_misuses(at.function, place, instr, fact, out)?;
    push_misreads(at.function, place, instr, fact, out)?;
    push_misopened_by(at.function, place, instr, fact, out)?;
    push_moved_uses(at, instr, fact, out)
}

// ---- pointers through which an instruction goes

fn push_misuses(
    function: u32,
    place: Place,
    instr: &Instr,
    fact: &Fact,
    out: &mut Vec<Diag>,
) -> Result<(), NoMemory>
    ensures { OnOk result
        (out.new.items ≡ out.old.items ++ flat_map (misused_as function place fact.now) (uses (step_of instr.now))) }
{
    match instr {
        Instr::Load { from, .. } => push_misuses_of(function, place, from, fact, out),
        Instr::Save { to, .. } => push_misuses_of(function, place, to, fact, out),
        Instr::Copy { to, from } => push_misuses_of_both(function, place, to, from, fact, out),
        Instr::Move { to, .. } => push_misuses_of(function, place, to, fact, out),
        Instr::Aim { source, .. } => push_misuses_by(function, place, source, fact, out),
        Instr::Element { base, .. } => push_misuses_by_base(function, place, base, fact, out),
        Instr::Cursor { base, .. } => push_misuses_by_base(function, place, base, fact, out),
        Instr::Size { base, .. } => push_misuses_by_base(function, place, base, fact, out),
        Instr::Change { place: operand, .. } => push_misuses_of(
            function, place, operand, fact, out,
        ),
        _ => Ok(()),
    }
}

#[tactic(auto, using(std::proofs::Common::append_assoc, crate::proofs::Giving::flat_map_both))]
fn push_misuses_of_both(
    function: u32,
    place: Place,
    to: &Operand,
    from: &Operand,
    fact: &Fact,
    out: &mut Vec<Diag>,
) -> Result<(), NoMemory>
    ensures { OnOk result
        (out.new.items
        ≡ out.old.items ++ flat_map (misused_as function place fact.now) (used_in (operand_of to.now) ++ used_in (operand_of from.now))) }
{
    push_misuses_of(function, place, to, fact, out)?;
    push_misuses_of(function, place, from, fact, out)
}

fn push_misuses_by(
    function: u32,
    place: Place,
    source: &Source,
    fact: &Fact,
    out: &mut Vec<Diag>,
) -> Result<(), NoMemory>
    ensures { OnOk result
        (out.new.items ≡ out.old.items ++ flat_map (misused_as function place fact.now) (used_by_source (source_of source.now))) }
{
    match source {
        Source::Place(operand) => push_misuses_of(function, place, operand, fact, out),
        Source::Whole(operand) => push_misuses_of(function, place, operand, fact, out),
        _ => Ok(()),
    }
}

fn push_misuses_by_base(
    function: u32,
    place: Place,
    base: &Base,
    fact: &Fact,
    out: &mut Vec<Diag>,
) -> Result<(), NoMemory>
    ensures { OnOk result
        (out.new.items ≡ out.old.items ++ flat_map (misused_as function place fact.now) (used_by_base (base_of base.now))) }
{
    match base {
        Base::Owner(operand) => push_misuses_of(function, place, operand, fact, out),
        Base::Pointer(_) => Ok(()),
    }
}

fn push_misuses_of(
    function: u32,
    place: Place,
    operand: &Operand,
    fact: &Fact,
    out: &mut Vec<Diag>,
) -> Result<(), NoMemory>
    ensures { OnOk result
        (out.new.items ≡ out.old.items ++ flat_map (misused_as function place fact.now) (used_in (operand_of operand.now))) }
{
    match operand {
        Operand::Name(_) => Ok(()),
        Operand::Through { pointer, .. } => push_misuse(function, place, pointer, fact, out),
    }
}

fn push_misuse(
    function: u32,
    place: Place,
    pointer: &Location,
    fact: &Fact,
    out: &mut Vec<Diag>,
) -> Result<(), NoMemory>
    ensures { OnOk result
        (out.new.items ≡ out.old.items ++ misused_as function place fact.now (location_of pointer.now)) }
{
    if is_location(pointer, &fact.location) {
        push_misused(function, place, fact, out)?;
    }
    Ok(())
}

// Adds what is wrong with going through the fact's location, if it may not be used as it is.
fn push_misused(
    function: u32,
    place: Place,
    fact: &Fact,
    out: &mut Vec<Diag>,
) -> Result<(), NoMemory>
    ensures { OnOk result
        (out.new.items ≡ out.old.items ++ misused function place fact.now.location fact.now.element) }
{
    let name = fact.location;
    match fact.element {
        Element::Null => push_told(function, place, DiagKind::NullUse, name, Why::Null, out)?,
        Element::Invalid(cause) => push_told(
            function,
            place,
            DiagKind::DanglingUse,
            name,
            Why::Cause(cause),
            out,
        )?,
        Element::Moved(_) => {}
        Element::Own => {}
        Element::Static => {}
        Element::At(_) => {}
    }
    Ok(())
}

// ---- views, spans and iterators

fn push_misreads(
    function: u32,
    place: Place,
    instr: &Instr,
    fact: &Fact,
    out: &mut Vec<Diag>,
) -> Result<(), NoMemory>
    ensures { OnOk result
        (out.new.items ≡ out.old.items ++ flat_map (misread_as function place fact.now) (reads (step_of instr.now))) }
{
    match instr {
        Instr::Element { base, .. } => push_misreads_by_base(function, place, base, fact, out),
        Instr::Cursor { base, .. } => push_misreads_by_base(function, place, base, fact, out),
        Instr::Advance { from, .. } => push_misread(function, place, from, fact, out),
        Instr::Cut { from, .. } => push_misread(function, place, from, fact, out),
        Instr::Size { base, .. } => push_misreads_by_base(function, place, base, fact, out),
        Instr::Same { left, right, .. } => {
            push_misreads_of_both(function, place, left, right, fact, out)
        }
        Instr::Change { change, .. } => {
            push_misreads_by_change(function, place, change, fact, out)
        }
        Instr::Port(port) => push_misreads_by_port(function, place, port, fact, out),
        _ => Ok(()),
    }
}

fn push_misreads_by_base(
    function: u32,
    place: Place,
    base: &Base,
    fact: &Fact,
    out: &mut Vec<Diag>,
) -> Result<(), NoMemory>
    ensures { OnOk result
        (out.new.items ≡ out.old.items ++ flat_map (misread_as function place fact.now) (read_by_base (base_of base.now))) }
{
    match base {
        Base::Owner(_) => Ok(()),
        Base::Pointer(location) => push_misread(function, place, location, fact, out),
    }
}

#[tactic(auto, using(std::proofs::Common::append_assoc))]
fn push_misreads_of_both(
    function: u32,
    place: Place,
    left: &Location,
    right: &Location,
    fact: &Fact,
    out: &mut Vec<Diag>,
) -> Result<(), NoMemory>
    ensures { OnOk result
        (out.new.items
        ≡ out.old.items ++ flat_map (misread_as function place fact.now) (location_of left.now ∷ location_of right.now ∷ [])) }
{
    push_misread(function, place, left, fact, out)?;
    push_misread(function, place, right, fact, out)
}

fn push_misreads_by_change(
    function: u32,
    place: Place,
    change: &Change,
    fact: &Fact,
    out: &mut Vec<Diag>,
) -> Result<(), NoMemory>
    ensures { OnOk result
        (out.new.items ≡ out.old.items ++ flat_map (misread_as function place fact.now) (read_by_change (change_of change.now))) }
{
    match change {
        Change::Erase { at, .. } => push_misread(function, place, at, fact, out),
        Change::Set(characters) => {
            push_misreads_by_characters(function, place, characters, fact, out)
        }
        Change::Append(characters) => {
            push_misreads_by_characters(function, place, characters, fact, out)
        }
        _ => Ok(()),
    }
}

fn push_misreads_by_characters(
    function: u32,
    place: Place,
    characters: &Characters,
    fact: &Fact,
    out: &mut Vec<Diag>,
) -> Result<(), NoMemory>
    ensures { OnOk result
        (out.new.items ≡ out.old.items ++ flat_map (misread_as function place fact.now) (read_by_characters (characters_of characters.now))) }
{
    match characters {
        Characters::View(location) => push_misread(function, place, location, fact, out),
        Characters::Single(_) => Ok(()),
    }
}

fn push_misreads_by_port(
    function: u32,
    place: Place,
    port: &Port,
    fact: &Fact,
    out: &mut Vec<Diag>,
) -> Result<(), NoMemory>
    ensures { OnOk result
        (out.new.items ≡ out.old.items ++ flat_map (misread_as function place fact.now) (read_by_port (port_of port.now))) }
{
    match port {
        Port::View(location) => push_misread(function, place, location, fact, out),
        _ => Ok(()),
    }
}

fn push_misread(
    function: u32,
    place: Place,
    location: &Location,
    fact: &Fact,
    out: &mut Vec<Diag>,
) -> Result<(), NoMemory>
    ensures { OnOk result
        (out.new.items ≡ out.old.items ++ misread_as function place fact.now (location_of location.now)) }
{
    if is_location(location, &fact.location) {
        push_misread_fact(function, place, fact, out)?;
    }
    Ok(())
}

fn push_misread_fact(
    function: u32,
    place: Place,
    fact: &Fact,
    out: &mut Vec<Diag>,
) -> Result<(), NoMemory>
    ensures { OnOk result
        (out.new.items ≡ out.old.items ++ misread function place fact.now.location fact.now.element) }
{
    match fact.element {
        Element::Invalid(cause) => push_told(
            function,
            place,
            DiagKind::DanglingUse,
            fact.location,
            Why::Cause(cause),
            out,
        )?,
        _ => {}
    }
    Ok(())
}

// ---- targets of unique_ptrs

fn push_misopened_by(
    function: u32,
    place: Place,
    instr: &Instr,
    fact: &Fact,
    out: &mut Vec<Diag>,
) -> Result<(), NoMemory>
    ensures { OnOk result
        (out.new.items ≡ out.old.items ++ flat_map (misopened_as function place fact.now) (opens (step_of instr.now))) }
{
    match instr {
        Instr::Element { base, which, .. } => {
            push_misopened_if(function, place, *which, base, fact, out)
        }
        _ => Ok(()),
    }
}

fn push_misopened_if(
    function: u32,
    place: Place,
    which: Which,
    base: &Base,
    fact: &Fact,
    out: &mut Vec<Diag>,
) -> Result<(), NoMemory>
    ensures { OnOk result
        (out.new.items ≡ out.old.items ++ flat_map (misopened_as function place fact.now) (opened_if which (base_of base.now))) }
{
    match which {
        Which::Target => push_misopened_by_base(function, place, base, fact, out),
        _ => Ok(()),
    }
}

fn push_misopened_by_base(
    function: u32,
    place: Place,
    base: &Base,
    fact: &Fact,
    out: &mut Vec<Diag>,
) -> Result<(), NoMemory>
    ensures { OnOk result
        (out.new.items ≡ out.old.items ++ flat_map (misopened_as function place fact.now) (opened_by_base (base_of base.now))) }
{
    match base {
        Base::Owner(operand) => push_misopened_in(function, place, operand, fact, out),
        Base::Pointer(_) => Ok(()),
    }
}

fn push_misopened_in(
    function: u32,
    place: Place,
    operand: &Operand,
    fact: &Fact,
    out: &mut Vec<Diag>,
) -> Result<(), NoMemory>
    ensures { OnOk result
        (out.new.items ≡ out.old.items ++ flat_map (misopened_as function place fact.now) (opened_in (operand_of operand.now))) }
{
    match operand {
        Operand::Name(location) => push_misopened(function, place, location, fact, out),
        Operand::Through { .. } => Ok(()),
    }
}

fn push_misopened(
    function: u32,
    place: Place,
    owner: &Location,
    fact: &Fact,
    out: &mut Vec<Diag>,
) -> Result<(), NoMemory>
    ensures { OnOk result
        (out.new.items ≡ out.old.items ++ misopened_as function place fact.now (location_of owner.now)) }
{
    if is_location(owner, &fact.location) {
        push_misopened_fact(function, place, fact, out)?;
    }
    Ok(())
}

fn push_misopened_fact(
    function: u32,
    place: Place,
    fact: &Fact,
    out: &mut Vec<Diag>,
) -> Result<(), NoMemory>
    ensures { OnOk result
        (out.new.items ≡ out.old.items ++ misopened function place fact.now.location fact.now.element) }
{
    let name = fact.location;
    match fact.element {
        Element::Null => push_told(function, place, DiagKind::NullUse, name, Why::Null, out)?,
        Element::Moved(cause) => push_told(
            function,
            place,
            DiagKind::NullUse,
            name,
            Why::Cause(cause),
            out,
        )?,
        _ => {}
    }
    Ok(())
}

// ---- owners that are moved from

fn push_moved_uses(
    at: &PointContext<'_>,
    instr: &Instr,
    fact: &Fact,
    out: &mut Vec<Diag>,
) -> Result<(), NoMemory>
    ensures { OnOk result
        (out.new.items
        ≡ out.old.items ++ flat_map (moved_as at.now.types.now at.now.function (function_of at.now.f.now) at.now.spot.place fact.now) (owners (step_of instr.now))) }
{
    match instr {
        Instr::Copy { from, .. } => push_moved_as(at, from, fact, out),
        Instr::Move { from, .. } => push_moved_local(at, *from, fact, out),
        Instr::Aim { source, .. } => push_moved_by_source(at, source, fact, out),
        Instr::Element { base, .. } => push_moved_by_base(at, base, fact, out),
        Instr::Cursor { base, .. } => push_moved_by_base(at, base, fact, out),
        Instr::Size { base, .. } => push_moved_by_base(at, base, fact, out),
        Instr::Change { place: operand, .. } => push_moved_as(at, operand, fact, out),
        _ => Ok(()),
    }
}

fn push_moved_by_source(
    at: &PointContext<'_>,
    source: &Source,
    fact: &Fact,
    out: &mut Vec<Diag>,
) -> Result<(), NoMemory>
    ensures { OnOk result
        (out.new.items
        ≡ out.old.items ++ flat_map (moved_as at.now.types.now at.now.function (function_of at.now.f.now) at.now.spot.place fact.now) (owner_of_source (source_of source.now))) }
{
    match source {
        Source::Whole(operand) => push_moved_as(at, operand, fact, out),
        _ => Ok(()),
    }
}

fn push_moved_by_base(
    at: &PointContext<'_>,
    base: &Base,
    fact: &Fact,
    out: &mut Vec<Diag>,
) -> Result<(), NoMemory>
    ensures { OnOk result
        (out.new.items
        ≡ out.old.items ++ flat_map (moved_as at.now.types.now at.now.function (function_of at.now.f.now) at.now.spot.place fact.now) (owner_of_base (base_of base.now))) }
{
    match base {
        Base::Owner(operand) => push_moved_as(at, operand, fact, out),
        Base::Pointer(_) => Ok(()),
    }
}

fn push_moved_as(
    at: &PointContext<'_>,
    operand: &Operand,
    fact: &Fact,
    out: &mut Vec<Diag>,
) -> Result<(), NoMemory>
    ensures { OnOk result
        (out.new.items
        ≡ out.old.items ++ moved_as at.now.types.now at.now.function (function_of at.now.f.now) at.now.spot.place fact.now (operand_of operand.now)) }
{
    match operand {
        Operand::Name(location) => {
            if is_location(location, &fact.location)
                && is_variable_place(at.types, at.f, &fact.location)
            {
                push_moved_use(at.function, at.spot.place, fact.location, fact.element, out)?;
            }
        }
        Operand::Through { .. } => {}
    }
    Ok(())
}

fn push_moved_local(
    at: &PointContext<'_>,
    local: u32,
    fact: &Fact,
    out: &mut Vec<Diag>,
) -> Result<(), NoMemory>
    ensures { OnOk result
        (out.new.items
        ≡ out.old.items ++ moved_as at.now.types.now at.now.function (function_of at.now.f.now) at.now.spot.place fact.now (Name (whole local))) }
{
    if is_whole(local, &fact.location) && is_variable_place(at.types, at.f, &fact.location) {
        push_moved_use(at.function, at.spot.place, fact.location, fact.element, out)?;
    }
    Ok(())
}

/// Adds that an owner is used that is moved from, with the name of this location.
pub(crate) fn push_moved_use(
    function: u32,
    place: Place,
    name: AbsPlace,
    element: Element,
    out: &mut Vec<Diag>,
) -> Result<(), NoMemory>
    ensures { OnOk result (out.new.items ≡ out.old.items ++ moved_use function place name element) }
{
    match element {
        Element::Moved(cause) => push_told(
            function,
            place,
            DiagKind::MovedUse,
            name,
            Why::Cause(cause),
            out,
        )?,
        _ => {}
    }
    Ok(())
}
