// At which locations facts may make something wrong at a point.
ghost use Rattle.std.specs.Prelude.{◌≡◌, false, Some};
ghost use Rattle.life_core.specs.Function.{function_of};
ghost use Rattle.life_core.specs.Node.{node_seen, spot_seen};
ghost use Rattle.life_core.specs.Operands.{base_of, characters_of, operand_of, source_of};
ghost use Rattle.life_core.specs.Step.{change_of, port_of, step_of};
ghost use Rattle.life_pset.specs.declared.element.AbsPlace.{AbsPlace};
ghost use Rattle.life_rules.specs.ToldAt.{base_names, base_reaches, change_names, characters_name, is_operand, is_through, names, names_some, node_tells_some, port_names, reaches, source_names, source_names_some, source_reaches, spot_tells};

use crate::matching::{is_location, is_rooted};
use crate::texts::is_result;
use crate::writes::is_whole;
use life_contract::is_in_arguments;
use life_core::{Base, Change, Characters, CoreFn, Instr, NodeRef, Operand, Port, Source, SpotRef};
use life_pset::{AbsPlace, is_variable_place};
use life_types::TypeTable;

/// Whether facts about the location may make something wrong at a point, alone or beside another one. No
/// other facts need be looked at there.
pub fn is_told_at(types: &TypeTable, f: &CoreFn, spot: SpotRef, location: &AbsPlace) -> bool
    ensures { result ≡ spot_tells types.now (function_of f.now) (Some (spot_seen spot.entry)) location.now }
{
    match spot.node {
        NodeRef::Action(instr) => {
            names(instr, location) || (reaches(instr) && is_variable_place(types, f, location))
        }
        NodeRef::Question(_) => false,
        NodeRef::Return => is_result(f, types, f.parameters) && is_rooted(f.parameters, location),
        NodeRef::Stop => false,
    }
}

/// Whether something may be told at a point at all: else it tells of no location.
#[tactic(auto, using(crate::proofs::Untold::tells_none))]
pub fn tells_some(types: &TypeTable, f: &CoreFn, spot: SpotRef) -> bool
    ensures some { result ≡ node_tells_some types.now (function_of f.now) (node_seen spot.entry.node) }
    ensures none { result ≡ false → (location : AbsPlace) → spot_tells types.now (function_of f.now) (Some (spot_seen spot.entry)) location ≡ false }
{
    node_tells_some(types, f, spot.node)
}

fn node_tells_some(types: &TypeTable, f: &CoreFn, node: NodeRef) -> bool
    ensures { result ≡ node_tells_some types.now (function_of f.now) (node_seen node.entry) }
{
    match node {
        NodeRef::Action(instr) => names_some(instr),
        NodeRef::Question(_) => false,
        NodeRef::Return => is_result(f, types, f.parameters),
        NodeRef::Stop => false,
    }
}

// ---- what an instruction names

// Whether the instruction is of a kind that names a location, or uses what it doesn't name.
fn names_some(instr: &Instr) -> bool
    ensures { result ≡ names_some (step_of instr.now) }
{
    match instr {
        Instr::Live { .. } => false,
        Instr::End { .. } => false,
        Instr::Eval { .. } => false,
        Instr::Repoint { .. } => false,
        Instr::Make { .. } => false,
        Instr::Aim { source, .. } => source_names_some(source),
        _ => true,
    }
}

fn source_names_some(source: &Source) -> bool
    ensures { result ≡ source_names_some (source_of source.now) }
{
    match source {
        Source::Place(_) => true,
        Source::Whole(_) => true,
        _ => false,
    }
}

fn is_operand(operand: &Operand, location: &AbsPlace) -> bool
    ensures { result ≡ is_operand (operand_of operand.now) location.now }
{
    match operand {
        Operand::Name(named) => is_location(named, location),
        Operand::Through { pointer, .. } => is_location(pointer, location),
    }
}

fn source_names(source: &Source, location: &AbsPlace) -> bool
    ensures { result ≡ source_names (source_of source.now) location.now }
{
    match source {
        Source::Place(operand) => is_operand(operand, location),
        Source::Whole(operand) => is_operand(operand, location),
        _ => false,
    }
}

fn base_names(base: &Base, location: &AbsPlace) -> bool
    ensures { result ≡ base_names (base_of base.now) location.now }
{
    match base {
        Base::Owner(operand) => is_operand(operand, location),
        Base::Pointer(pointer) => is_location(pointer, location),
    }
}

fn characters_name(characters: &Characters, location: &AbsPlace) -> bool
    ensures { result ≡ characters_name (characters_of characters.now) location.now }
{
    match characters {
        Characters::View(view) => is_location(view, location),
        Characters::Single(_) => false,
    }
}

fn change_names(change: &Change, location: &AbsPlace) -> bool
    ensures { result ≡ change_names (change_of change.now) location.now }
{
    match change {
        Change::Erase { at, .. } => is_location(at, location),
        Change::Set(characters) => characters_name(characters, location),
        Change::Append(characters) => characters_name(characters, location),
        _ => false,
    }
}

fn port_names(port: &Port, location: &AbsPlace) -> bool
    ensures { result ≡ port_names (port_of port.now) location.now }
{
    match port {
        Port::View(view) => is_location(view, location),
        _ => false,
    }
}

fn names(instr: &Instr, location: &AbsPlace) -> bool
    ensures { result ≡ names (step_of instr.now) location.now }
{
    match instr {
        Instr::Load { from, .. } => is_operand(from, location),
        Instr::Save { to, .. } => is_operand(to, location),
        Instr::Copy { to, from } => is_operand(to, location) || is_operand(from, location),
        Instr::Move { to, from } => is_operand(to, location) || is_whole(*from, location),
        Instr::Aim { source, .. } => source_names(source, location),
        Instr::Element { base, .. } => base_names(base, location),
        Instr::Cursor { base, .. } => base_names(base, location),
        Instr::Advance { from, .. } => is_location(from, location),
        Instr::Cut { from, .. } => is_location(from, location),
        Instr::Size { base, .. } => base_names(base, location),
        Instr::Same { left, right, .. } => {
            is_location(left, location) || is_location(right, location)
        }
        Instr::Change {
            place: operand,
            change,
        } => is_operand(operand, location) || change_names(change, location),
        Instr::Call { arguments, .. } => is_in_arguments(arguments, location),
        Instr::Port(port) => port_names(port, location),
        _ => false,
    }
}

// ---- what it may use behind a pointer

fn is_through(operand: &Operand) -> bool
    ensures { result ≡ is_through (operand_of operand.now) }
{
    match operand {
        Operand::Name(_) => false,
        Operand::Through { .. } => true,
    }
}

fn source_reaches(source: &Source) -> bool
    ensures { result ≡ source_reaches (source_of source.now) }
{
    match source {
        Source::Whole(operand) => is_through(operand),
        _ => false,
    }
}

fn base_reaches(base: &Base) -> bool
    ensures { result ≡ base_reaches (base_of base.now) }
{
    match base {
        Base::Owner(operand) => is_through(operand),
        Base::Pointer(_) => false,
    }
}

fn reaches(instr: &Instr) -> bool
    ensures { result ≡ reaches (step_of instr.now) }
{
    match instr {
        Instr::Copy { from, .. } => is_through(from),
        Instr::Aim { source, .. } => source_reaches(source),
        Instr::Element { base, .. } => base_reaches(base),
        Instr::Cursor { base, .. } => base_reaches(base),
        Instr::Size { base, .. } => base_reaches(base),
        Instr::Change { place: operand, .. } => is_through(operand),
        Instr::Call { .. } => true,
        _ => false,
    }
}
