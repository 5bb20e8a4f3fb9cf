// Where an instruction reads: it may make something of the facts there, beside what stays of them.
ghost use Rattle.std.specs.Prelude.{◌≡◌};
ghost use Rattle.life_core.specs.Operands.{base_of, operand_of, source_of};
ghost use Rattle.life_core.specs.Step.{asked_of, change_of, step_of};
ghost use Rattle.life_rules.specs.Staying.{base_reads, change_reads, goes_through, is_copied, reads, source_reads, test_keeps, test_writes};

use crate::matching::{is_location, located};
use crate::writes::is_whole;
use life_contract::is_in_arguments;
use life_core::{Base, Change, Instr, Operand, Source, Test};
use life_pset::{AbsPlace, is_within};

/// Whether the location is the pointer through which an operand names something.
pub fn goes_through(operand: &Operand, location: &AbsPlace) -> bool
    ensures { result ≡ goes_through (operand_of operand.now) location.now }
{
    match operand {
        Operand::Name(_) => false,
        Operand::Through { pointer, .. } => is_location(pointer, location),
    }
}

// Whether the location lies in what is copied from.
fn is_copied(to: &Operand, from: &Operand, location: &AbsPlace) -> bool
    ensures { result ≡ is_copied (operand_of to.now) (operand_of from.now) location.now }
{
    match to {
        Operand::Name(_) => match from {
            Operand::Name(from) => is_within(&located(from), location),
            Operand::Through { .. } => false,
        },
        Operand::Through { .. } => false,
    }
}

fn source_reads(source: &Source, location: &AbsPlace) -> bool
    ensures { result ≡ source_reads (source_of source.now) location.now }
{
    match source {
        Source::Place(operand) => goes_through(operand, location),
        Source::Whole(operand) => goes_through(operand, location),
        Source::Get(owner) => is_location(owner, location),
        _ => false,
    }
}

fn base_reads(base: &Base, location: &AbsPlace) -> bool
    ensures { result ≡ base_reads (base_of base.now) location.now }
{
    match base {
        Base::Owner(operand) => goes_through(operand, location),
        Base::Pointer(from) => is_location(from, location),
    }
}

fn change_reads(operand: &Operand, change: &Change, location: &AbsPlace) -> bool
    ensures { result ≡ change_reads (operand_of operand.now) (change_of change.now) location.now }
{
    match change {
        Change::Erase { .. } => goes_through(operand, location),
        _ => false,
    }
}

/// Whether an instruction may make something of the facts of a location: of the pointer that it takes or
/// goes through, of what it copies or moves, and of what it hands over.
pub fn reads(instr: &Instr, location: &AbsPlace) -> bool
    ensures { result ≡ reads (step_of instr.now) location.now }
{
    match instr {
        Instr::Copy { to, from } => is_copied(to, from, location),
        Instr::Move { from, .. } => is_whole(*from, location),
        Instr::Aim { source, .. } => source_reads(source, location),
        Instr::Repoint { from, .. } => is_location(from, location),
        Instr::Advance { from, .. } => is_location(from, location),
        Instr::Cut { from, .. } => is_location(from, location),
        Instr::Element { base, .. } => base_reads(base, location),
        Instr::Cursor { base, .. } => base_reads(base, location),
        Instr::Change {
            place: operand,
            change,
        } => change_reads(operand, change, location),
        Instr::Call { arguments, .. } => is_in_arguments(arguments, location),
        _ => false,
    }
}

/// Whether a test is of the pointer at the location: what stays of it hangs on the branch.
pub fn is_tested(test: &Test, location: &AbsPlace) -> bool
    ensures { result ≡ test_writes (asked_of test.now) location.now }
{
    match test {
        Test::NonZero(_) => false,
        Test::NotNull(pointer) => is_location(pointer, location),
    }
}

/// Whether the test is of a value, and of no pointer.
pub fn is_of_value(test: &Test) -> bool
    ensures { result ≡ test_keeps (asked_of test.now) }
{
    match test {
        Test::NonZero(_) => true,
        Test::NotNull(_) => false,
    }
}
