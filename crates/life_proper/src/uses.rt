// Whether what a point uses is known to be there.
ghost use Rattle.std.specs.Prelude.{◌≡◌, [], ◌∷◌, flat_map, map, option_map};
ghost use Rattle.life_core.specs.Function.{function_of};
ghost use Rattle.life_core.specs.Kinds.{is_object, is_object_at};
ghost use Rattle.life_core.specs.Operands.{argument_of, base_of, characters_of, location_of, operand_of, source_of};
ghost use Rattle.life_core.specs.Step.{asked_of, change_of, port_of, step_of};
ghost use Rattle.life_core.specs.Touched.{argument_uses, base_uses, by_members, change_uses, characters_uses, count_uses, made_uses, operation_uses, part_uses, place_uses, port_uses, result_uses, source_uses, target_uses, test_uses, touched_by, unless_object, which_uses};
ghost use Rattle.life_types.specs.Types.{class_at};
ghost use Rattle.life_proper.specs.ReadyKnown.{are_known, is_known};
ghost use Rattle.life_proper.specs.declared.known.Known.TheVariants as variant;

use crate::knowing::is_known;
use crate::known::Known;
use life_core::{
    Argument, Base, Change, Characters, CoreFn, Instr, LocalKind, Location, Made, Operand,
    Operation, Port, Source, Test, Which,
};
use life_types::{Class, TypeTable, class_of};

fn is_object(kind: LocalKind) -> bool
    ensures { result ≡ is_object kind }
{
    match kind {
        LocalKind::Object => true,
        LocalKind::Register => false,
        LocalKind::Range => false,
    }
}

/// Whether the local lies in memory.
pub(crate) fn is_object_at(f: &CoreFn, x: u32) -> bool
    ensures { result ≡ is_object_at (function_of f.now) x }
{
    match f.locals.get(x as usize) {
        None => false,
        Some(l) => is_object(l.kind),
    }
}

/// Whether the local is known to be there.
pub(crate) fn is_ready(known: &[Known], x: u32) -> bool
    ensures { result ≡ is_known variant.Ready known.now x }
{
    is_known(known, x, Known::Ready)
}

#[tactic(auto, using(crate::proofs::Lists::known_one))]
fn is_one_ready(known: &[Known], x: u32) -> bool
    ensures { result ≡ are_known variant.Ready known.now (x ∷ []) }
{
    is_ready(known, x)
}

fn is_place_ready(known: &[Known], o: &Operand) -> bool
    ensures { result ≡ are_known variant.Ready known.now (place_uses (operand_of o.now)) }
{
    match o {
        Operand::Name(l) => is_one_ready(known, l.local),
        Operand::Through { pointer, .. } => is_one_ready(known, pointer.local),
    }
}

fn is_operation_ready(known: &[Known], operation: &Operation) -> bool
    ensures { result ≡ are_known variant.Ready known.now (operation_uses operation.now) }
{
    match operation {
        Operation::Number(_) => true,
        Operation::Convert(r) => is_one_ready(known, *r),
        Operation::Negate(r) => is_one_ready(known, *r),
        Operation::IsZero(r) => is_one_ready(known, *r),
        Operation::Binary { left, right, .. } => {
            is_ready(known, *left) && is_one_ready(known, *right)
        }
    }
}

fn is_source_ready(known: &[Known], source: &Source) -> bool
    ensures { result ≡ are_known variant.Ready known.now (source_uses (source_of source.now)) }
{
    match source {
        Source::Null => true,
        Source::Text(_) => true,
        Source::Empty => true,
        Source::Place(o) => is_place_ready(known, o),
        Source::Whole(o) => is_place_ready(known, o),
        Source::Get(l) => is_one_ready(known, l.local),
    }
}

fn is_base_ready(known: &[Known], base: &Base) -> bool
    ensures { result ≡ are_known variant.Ready known.now (base_uses (base_of base.now)) }
{
    match base {
        Base::Owner(o) => is_place_ready(known, o),
        Base::Pointer(l) => is_one_ready(known, l.local),
    }
}

fn is_which_ready(known: &[Known], which: Which) -> bool
    ensures { result ≡ are_known variant.Ready known.now (which_uses which) }
{
    match which {
        Which::Index(r) => is_one_ready(known, r),
        _ => true,
    }
}

fn is_count_ready(known: &[Known], count: Option<u32>) -> bool
    ensures { result ≡ are_known variant.Ready known.now (count_uses count) }
{
    match count {
        None => true,
        Some(r) => is_one_ready(known, r),
    }
}

fn are_characters_ready(known: &[Known], characters: &Characters) -> bool
    ensures { result ≡ are_known variant.Ready known.now (characters_uses (characters_of characters.now)) }
{
    match characters {
        Characters::View(l) => is_one_ready(known, l.local),
        Characters::Single(r) => is_one_ready(known, *r),
    }
}

// Where a member is written, the local is there before.
fn is_holder_ready(known: &[Known], members: &[u32], x: u32) -> bool
    ensures { result ≡ are_known variant.Ready known.now (by_members members.now [] (x ∷ [])) }
{
    match members {
        [] => true,
        _ => is_one_ready(known, x),
    }
}

fn is_part_ready(known: &[Known], l: &Location) -> bool
    ensures { result ≡ are_known variant.Ready known.now (part_uses (location_of l.now)) }
{
    is_holder_ready(known, &l.members, l.local)
}

fn is_target_ready(known: &[Known], target: &Option<Location>) -> bool
    ensures { result ≡ are_known variant.Ready known.now (target_uses (option_map location_of target.now)) }
{
    match target {
        None => true,
        Some(l) => is_part_ready(known, l),
    }
}

// A register that is given over is read.
fn is_given_ready(known: &[Known], x: u32, f: &CoreFn) -> bool
    ensures { result ≡ are_known variant.Ready known.now (unless_object (function_of f.now) x) }
{
    if is_object_at(f, x) {
        true
    } else {
        is_one_ready(known, x)
    }
}

fn is_argument_ready(known: &[Known], argument: &Argument, f: &CoreFn) -> bool
    ensures { result ≡ are_known variant.Ready known.now (argument_uses (function_of f.now) (argument_of argument.now)) }
{
    match argument {
        Argument::Value(r) => is_one_ready(known, *r),
        Argument::Given(x) => is_given_ready(known, *x, f),
        Argument::Pointer(l) => is_one_ready(known, l.local),
        Argument::Slot(l) => is_one_ready(known, l.local),
    }
}

#[tactic(auto, using(crate::proofs::Lists::known_both))]
fn are_arguments_ready(known: &[Known], arguments: &[Argument], f: &CoreFn) -> bool
    ensures { result ≡ are_known variant.Ready known.now (flat_map (argument_uses (function_of f.now)) (map argument_of arguments.now)) }
{
    for argument in arguments {
        if !is_argument_ready(known, argument, f) {
            return false;
        }
    }
    true
}

fn is_made_ready(known: &[Known], made: Made, f: &CoreFn) -> bool
    ensures { result ≡ are_known variant.Ready known.now (made_uses (function_of f.now) made) }
{
    match made {
        Made::Of(x) => is_given_ready(known, x, f),
        _ => true,
    }
}

fn is_change_ready(known: &[Known], change: &Change, f: &CoreFn) -> bool
    ensures { result ≡ are_known variant.Ready known.now (change_uses (function_of f.now) (change_of change.now)) }
{
    match change {
        Change::PushBack(x) => is_given_ready(known, *x, f),
        Change::PopBack => true,
        Change::Clear => true,
        Change::Reserve(r) => is_one_ready(known, *r),
        Change::Erase { at, into } => is_ready(known, at.local) && is_part_ready(known, into),
        Change::Set(characters) => are_characters_ready(known, characters),
        Change::Append(characters) => are_characters_ready(known, characters),
    }
}

fn is_port_ready(known: &[Known], port: &Port) -> bool
    ensures { result ≡ are_known variant.Ready known.now (port_uses (port_of port.now)) }
{
    match port {
        Port::Value(r) => is_one_ready(known, *r),
        Port::View(l) => is_one_ready(known, l.local),
        Port::Take(_) => true,
    }
}

/// Whether all that the instruction uses is known to be there.
#[tactic(auto, using(crate::proofs::Lists::known_both))]
pub(crate) fn are_uses_ready(known: &[Known], instr: &Instr, f: &CoreFn) -> bool
    ensures { result ≡ are_known variant.Ready known.now (touched_by (function_of f.now) (step_of instr.now)).uses }
{
    match instr {
        Instr::Live { .. } => true,
        Instr::End { .. } => true,
        Instr::Eval { operation, .. } => is_operation_ready(known, operation),
        Instr::Load { from, .. } => is_place_ready(known, from),
        Instr::Save { to, from } => is_ready(known, *from) && is_place_ready(known, to),
        Instr::Copy { to, from } => is_place_ready(known, to) && is_place_ready(known, from),
        Instr::Move { to, from } => is_ready(known, *from) && is_place_ready(known, to),
        Instr::Aim { pointer, source } => {
            is_source_ready(known, source) && is_part_ready(known, pointer)
        }
        Instr::Repoint { pointer, from } => {
            is_ready(known, from.local) && is_part_ready(known, pointer)
        }
        Instr::Element {
            pointer,
            base,
            which,
        } => {
            is_base_ready(known, base)
                && is_which_ready(known, *which)
                && is_part_ready(known, pointer)
        }
        Instr::Cursor { pointer, base, .. } => {
            is_base_ready(known, base) && is_part_ready(known, pointer)
        }
        Instr::Advance {
            pointer,
            from,
            count,
            ..
        } => {
            is_ready(known, from.local) && is_ready(known, *count) && is_part_ready(known, pointer)
        }
        Instr::Cut {
            pointer,
            from,
            index,
            count,
        } => {
            is_ready(known, from.local)
                && is_ready(known, *index)
                && is_count_ready(known, *count)
                && is_part_ready(known, pointer)
        }
        Instr::Size { base, .. } => is_base_ready(known, base),
        Instr::Same { left, right, .. } => {
            is_ready(known, left.local) && is_one_ready(known, right.local)
        }
        Instr::Change { place, change } => {
            is_place_ready(known, place) && is_change_ready(known, change, f)
        }
        Instr::Make { owner, made } => {
            is_ready(known, owner.local) && is_made_ready(known, *made, f)
        }
        Instr::Call {
            target,
            arguments,
            ..
        } => are_arguments_ready(known, arguments, f) && is_target_ready(known, target),
        Instr::Port(port) => is_port_ready(known, port),
    }
}

/// Whether what a single test asks of is known to be there.
pub(crate) fn is_test_ready(known: &[Known], test: &Test) -> bool
    ensures { result ≡ are_known variant.Ready known.now (test_uses (asked_of test.now)) }
{
    match test {
        Test::NonZero(r) => is_one_ready(known, *r),
        Test::NotNull(l) => is_one_ready(known, l.local),
    }
}

/// Whether what a return gives back is known to be there: a value needn't.
pub(crate) fn is_result_ready(known: &[Known], types: &TypeTable, f: &CoreFn) -> bool
    ensures { result ≡ are_known variant.Ready known.now (result_uses (class_at types.now f.now.result) f.now.parameters) }
{
    match class_of(types, f.result) {
        Class::Value => true,
        _ => is_one_ready(known, f.parameters),
    }
}
