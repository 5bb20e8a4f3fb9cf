// Points in a form of their own: what is done at once there, by the numbers of whole locals, and where control goes.
ghost use Rattle.std.specs.Prelude.{◌≡◌, map, IfOk};
ghost use Rattle.life_core.specs.Link.{link_seen};
ghost use Rattle.life_core.specs.Node.{node_seen};
ghost use Rattle.life_core.specs.Operands.{base_of, location_of, operand_of};
ghost use Rattle.life_core.specs.Step.{asked_of, step_of};
ghost use Rattle.life_interp.specs.Flats as spec;
ghost use Rattle.life_interp.specs.Flats.{table_in};
ghost use Rattle.life_interp.specs.Runs.{links_seen, table_seen};

use crate::point::{first_way, second_way};
use life_core::{Base, Form, Instr, LinkRef, Location, NodeRef, Operand, Operation, Test, Which};
use life_types::NoMemory;
use std::alloc::Global;

/// What is done at a point, and the point that control goes to from there, or where a test holds.
#[derive(Clone, Copy, Debug)]
pub(crate) struct Flat {
    pub(crate) act: Act,
    pub(crate) to: Option<u32>,
}

/// What is done at once at a point.
#[derive(Clone, Copy, Debug)]
pub(crate) enum Act {
    /// Nothing: what stands there is done in other ways.
    Other,
    /// A number comes to life.
    Live {
        local: u32,
    },
    /// .. and ends.
    End {
        local: u32,
    },
    /// A register is given a value.
    Eval {
        into: u32,
        operation: Operation,
    },
    /// .. or the value of a local.
    Load {
        into: u32,
        local: u32,
    },
    /// .. or of what a pointer points to.
    LoadThrough {
        into: u32,
        pointer: u32,
    },
    /// A local is given the value of a register.
    Save {
        local: u32,
        from: u32,
    },
    /// .. or what a pointer points to is.
    SaveThrough {
        pointer: u32,
        from: u32,
    },
    /// A pointer is given an element of an owner.
    Index {
        pointer: u32,
        owner: u32,
        index: u32,
    },
    /// A register is asked whether it isn't 0; where it is, control goes to another point.
    Test {
        register: u32,
        failed: Option<u32>,
    },
}

/// The points of all functions in this form.
pub(crate) fn all_flat(alloc: Global, code: &[Vec<LinkRef<'_>>]) -> Result<Vec<Vec<Flat>>, NoMemory>
    ensures { IfOk result (λ tables. map table_seen tables.items ≡ map table_in (map links_seen code.now)) }
{
    let mut tables = Vec::new(alloc);
    for links in code {
        tables.push(table_of(alloc, links)?)?;
    }
    Ok(tables)
}

// The points of a function behind one that is none, so that each has the index of its number.
fn table_of(alloc: Global, links: &[LinkRef<'_>]) -> Result<Vec<Flat>, NoMemory>
    ensures { IfOk result (λ table. table.items ≡ table_in (map link_seen links.now)) }
{
    let mut table = Vec::new(alloc);
    table.push(Flat {
        act: Act::Other,
        to: None,
    })?;
    for link in links {
        table.push(flat_of(*link))?;
    }
    Ok(table)
}

// A point in this form.
fn flat_of(link: LinkRef<'_>) -> Flat
    ensures { result ≡ spec.flat_of (link_seen link.entry) }
{
    Flat {
        act: flat_node(link.spot.node, second_way(link.leads)),
        to: first_way(link.leads),
    }
}

// What stands there, where control goes to this point if it is a test that doesn't hold.
fn flat_node(node: NodeRef<'_>, failed: Option<u32>) -> Act
    ensures { result ≡ spec.flat_node (node_seen node.entry) failed }
{
    match node {
        NodeRef::Action(instr) => flat_act(instr),
        NodeRef::Question(test) => flat_test(test, failed),
        NodeRef::Return => Act::Other,
        NodeRef::Stop => Act::Other,
    }
}

fn flat_test(test: &Test, failed: Option<u32>) -> Act
    ensures { result ≡ spec.flat_test (asked_of test.now) failed }
{
    match test {
        Test::NonZero(register) => Act::Test {
            register: *register,
            failed,
        },
        Test::NotNull(_) => Act::Other,
    }
}

fn flat_act(instr: &Instr) -> Act
    ensures { result ≡ spec.flat_act (step_of instr.now) }
{
    match instr {
        Instr::Eval { into, operation } => Act::Eval {
            into: *into,
            operation: *operation,
        },
        Instr::Load { into, from } => flat_load(*into, from),
        Instr::Save { to, from } => flat_save(to, *from),
        Instr::Element {
            pointer,
            base,
            which,
        } => flat_element(pointer, base, *which),
        Instr::Live { local, form } => match form {
            Form::Plain => Act::Live { local: *local },
            Form::Zero => Act::Other,
        },
        Instr::End { locals } => flat_end(locals),
        Instr::Copy { .. } => Act::Other,
        Instr::Move { .. } => Act::Other,
        Instr::Aim { .. } => Act::Other,
        Instr::Repoint { .. } => Act::Other,
        Instr::Cursor { .. } => Act::Other,
        Instr::Advance { .. } => Act::Other,
        Instr::Cut { .. } => Act::Other,
        Instr::Size { .. } => Act::Other,
        Instr::Same { .. } => Act::Other,
        Instr::Change { .. } => Act::Other,
        Instr::Make { .. } => Act::Other,
        Instr::Call { .. } => Act::Other,
        Instr::Port(_) => Act::Other,
    }
}

// The end of one local.
fn flat_end(locals: &[u32]) -> Act
    ensures { result ≡ spec.end_of locals.now }
{
    if locals.len() == 1 {
        Act::End { local: locals[0] }
    } else {
        Act::Other
    }
}

fn flat_load(into: u32, from: &Operand) -> Act
    ensures { result ≡ spec.load_from into (spec.named_local (operand_of from.now)) (spec.pointed_local (operand_of from.now)) }
{
    match named_local(from) {
        Some(local) => Act::Load { into, local },
        None => match pointed_local(from) {
            Some(pointer) => Act::LoadThrough { into, pointer },
            None => Act::Other,
        },
    }
}

fn flat_save(to: &Operand, from: u32) -> Act
    ensures { result ≡ spec.save_to (spec.named_local (operand_of to.now)) (spec.pointed_local (operand_of to.now)) from }
{
    match named_local(to) {
        Some(local) => Act::Save { local, from },
        None => match pointed_local(to) {
            Some(pointer) => Act::SaveThrough { pointer, from },
            None => Act::Other,
        },
    }
}

fn flat_element(pointer: &Location, base: &Base, which: Which) -> Act
    ensures { result ≡ spec.flat_element (location_of pointer.now) (base_of base.now) which }
{
    match which {
        Which::Index(index) => match whole_local(pointer) {
            None => Act::Other,
            Some(pointer) => match owning_local(base) {
                None => Act::Other,
                Some(owner) => Act::Index {
                    pointer,
                    owner,
                    index,
                },
            },
        },
        Which::First => Act::Other,
        Which::Last => Act::Other,
        Which::Target => Act::Other,
    }
}

// The local, if the location is one itself.
fn whole_local(location: &Location) -> Option<u32>
    ensures { result ≡ spec.whole_local (location_of location.now) }
{
    if location.members.is_empty() {
        Some(location.local)
    } else {
        None
    }
}

// The local, if the operand names one itself.
fn named_local(operand: &Operand) -> Option<u32>
    ensures { result ≡ spec.named_local (operand_of operand.now) }
{
    match operand {
        Operand::Name(location) => whole_local(location),
        Operand::Through { .. } => None,
    }
}

// The local, if the operand is what one points to.
fn pointed_local(operand: &Operand) -> Option<u32>
    ensures { result ≡ spec.pointed_local (operand_of operand.now) }
{
    match operand {
        Operand::Name(_) => None,
        Operand::Through { pointer, members } => {
            if members.is_empty() {
                whole_local(pointer)
            } else {
                None
            }
        }
    }
}

// The local, if one has the elements itself.
fn owning_local(base: &Base) -> Option<u32>
    ensures { result ≡ spec.owning_local (base_of base.now) }
{
    match base {
        Base::Owner(operand) => named_local(operand),
        Base::Pointer(_) => None,
    }
}
