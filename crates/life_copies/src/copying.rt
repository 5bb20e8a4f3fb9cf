// How values are copied.
ghost use Rattle.std.specs.Prelude.{◌≡◌, ◌∷◌, [], OnOk};
ghost use Rattle.life_core.specs.Operands.{operand_of};
ghost use Rattle.life_core.specs.Step.{Copy};
ghost use Rattle.life_store.specs.Doing as spec;
ghost use Rattle.life_store.specs.Effects.{word_of_number, Setting};
ghost use Rattle.life_store.specs.Parts.{operand_parts, parts_at, Single};
ghost use Rattle.life_seen.specs.Housed.{Later};
ghost use Rattle.life_seen.specs.Kinds.{kinds_of};
ghost use Rattle.life_forest.proofs.StandingSteps.{IsTypedStep};
ghost use Rattle.life_values.specs.Copyable.{HasCopy};
ghost use Rattle.life_moves.specs.CopiedTo.{copied_over};
ghost use Rattle.life_pointers.specs.Owned.{spot_seen};
ghost use Rattle.life_pointers.specs.Pointers.{characters_seen};
ghost use Rattle.life_cells.specs.Cells.{state_in};
ghost use Rattle.life_cells.specs.Fits.{meant, IsFit};
ghost use Rattle.life_cells.specs.Scopes.{function_in, texts_in, types_in};
ghost use Rattle.life_cells.specs.Typed.{IsPlaced};
ghost use Rattle.life_changes.specs.Bounded.{Grows, IsBounded};
ghost use Rattle.life_changes.specs.Ready.{AreServed, IsReady};
ghost use Rattle.life_changes.specs.Steps.{Gets, Goes};
ghost use Rattle.life_copies.specs.Values.{copied_from, failed, IsCopiedTo, ValueAt};

use crate::spots::{overlaps, spot_at};
use life_cells::{Cell, Scope, locate};
use life_changes::{Failure, operand_type, wide};
use life_core::Operand;
use life_moves::copy_value;
use life_pointers::{Characters, Place, Spot, Stop, character};
use life_store::{FaultKind, Store, TrapKind};
use life_types::TyId;
use life_values::{CopyFault, width_of};
use life_words::put_number;
use std::alloc::Global;

/// Copies a value to another place of its type.
pub fn copy<S: Store>(
    alloc: Global,
    scope: &Scope<'_>,
    store: &mut S,
    cells: &[Cell],
    to: &Operand,
    from: &Operand,
    depth: u32,
) -> Result<(), Failure>
    requires served { AreServed (types_in scope.now) (S.limit store.old) depth }
    requires ready { IsReady (types_in scope.now) (function_in scope.now) (S.limit store.old) (S.content store.old) (S.rows store.old) cells.now }
    requires to_placed { IsPlaced (types_in scope.now) (function_in scope.now) (operand_of to.now) (state_in (meant (types_in scope.now) (S.content store.old) (S.rows store.old)) cells.now) }
    requires from_placed { IsPlaced (types_in scope.now) (function_in scope.now) (operand_of from.now) (state_in (meant (types_in scope.now) (S.content store.old) (S.rows store.old)) cells.now) }
    requires typed { IsTypedStep (types_in scope.now) (function_in scope.now) (state_in (meant (types_in scope.now) (S.content store.old) (S.rows store.old)) cells.now) (Copy (operand_of to.now) (operand_of from.now)) }
    requires copied { HasCopy (operand_parts (types_in scope.now) (function_in scope.now) (operand_of to.now)) }
    ensures step { (s : Setting) → s.given.cells ≡ S.limit store.old → s.texts ≡ texts_in scope.now
        → Goes (spec.copies s (types_in scope.now) (function_in scope.now) (operand_of to.now) (operand_of from.now)) (meant (types_in scope.now) (S.content store.old) (S.rows store.old)) cells.now (meant (types_in scope.now) (S.content store.new) (S.rows store.new)) cells.now result }
    ensures fits { OnOk result (IsFit (types_in scope.now) (S.content store.new) (S.rows store.new) cells.now) }
    ensures bounded { OnOk result (IsBounded (S.limit store.old) (meant (types_in scope.now) (S.content store.new) (S.rows store.new))) }
    ensures later { OnOk result (Later (S.content store.old) (S.content store.new) (S.rows store.old) (S.rows store.new)) }
    ensures grows { OnOk result (Grows (S.content store.old) (S.content store.new)) }
    ensures limit { S.limit store.new ≡ S.limit store.old }
{
    match spot_at(scope, store, cells, to) {
        Err(stop) => Err(Failure::Stopped(stop)),
        Ok(target) => match operand_type(scope, to) {
            None => Err(Failure::Stopped(Stop::Lost)),
            Some(ty) => copy_from(alloc, scope, store, cells, target, ty, from, depth),
        },
    }
}

// Copies what the operand names to a place of the type.
fn copy_from<S: Store>(
    alloc: Global,
    scope: &Scope<'_>,
    store: &mut S,
    cells: &[Cell],
    target: Spot,
    ty: TyId,
    from: &Operand,
    depth: u32,
) -> Result<(), Failure>
    requires target { ValueAt (types_in scope.now) (function_in scope.now) (S.limit store.old) depth ty target (S.content store.old) (S.rows store.old) cells.now }
    requires placed { IsPlaced (types_in scope.now) (function_in scope.now) (operand_of from.now) (state_in (meant (types_in scope.now) (S.content store.old) (S.rows store.old)) cells.now) }
    requires typed { IsCopiedTo (types_in scope.now) (function_in scope.now) (operand_of from.now) ty (state_in (meant (types_in scope.now) (S.content store.old) (S.rows store.old)) cells.now) }
    requires copied { HasCopy (parts_at (types_in scope.now) ty) }
    ensures step { (s : Setting) → s.given.cells ≡ S.limit store.old → s.texts ≡ texts_in scope.now
        → Goes (copied_from s (types_in scope.now) (function_in scope.now) (parts_at (types_in scope.now) ty) (spot_seen target) (operand_of from.now)) (meant (types_in scope.now) (S.content store.old) (S.rows store.old)) cells.now (meant (types_in scope.now) (S.content store.new) (S.rows store.new)) cells.now result }
    ensures fits { OnOk result (IsFit (types_in scope.now) (S.content store.new) (S.rows store.new) cells.now) }
    ensures bounded { OnOk result (IsBounded (S.limit store.old) (meant (types_in scope.now) (S.content store.new) (S.rows store.new))) }
    ensures later { OnOk result (Later (S.content store.old) (S.content store.new) (S.rows store.old) (S.rows store.new)) }
    ensures grows { OnOk result (Grows (S.content store.old) (S.content store.new)) }
    ensures limit { S.limit store.new ≡ S.limit store.old }
{
    match locate(scope, store, cells, from) {
        Err(stop) => Err(Failure::Stopped(stop)),
        Ok(Place::Fixed(characters)) => {
            copy_character(scope, store, cells, target, ty, characters, depth)
        }
        Ok(Place::Here(source)) => {
            copy_there(alloc, scope, store, cells, source, target, ty, depth)
        }
    }
}

// .. where it lies in an object. Places of one type are never on top of each other in part: where they
// were, the words would need memory on their way.
fn copy_there<S: Store>(
    alloc: Global,
    scope: &Scope<'_>,
    store: &mut S,
    cells: &[Cell],
    from: Spot,
    to: Spot,
    ty: TyId,
    depth: u32,
) -> Result<(), Failure>
    requires source { ValueAt (types_in scope.now) (function_in scope.now) (S.limit store.old) depth ty from (S.content store.old) (S.rows store.old) cells.now }
    requires target { ValueAt (types_in scope.now) (function_in scope.now) (S.limit store.old) depth ty to (S.content store.old) (S.rows store.old) cells.now }
    requires copied { HasCopy (parts_at (types_in scope.now) ty) }
    ensures gets { (s : Setting) → s.given.cells ≡ S.limit store.old
        → Gets (kinds_of (types_in scope.now)) (copied_over s (parts_at (types_in scope.now) ty) (spot_seen from) (spot_seen to) (meant (types_in scope.now) (S.content store.old) (S.rows store.old))) result (S.content store.new) (S.rows store.new) }
    ensures fits { OnOk result (IsFit (types_in scope.now) (S.content store.new) (S.rows store.new) cells.now) }
    ensures bounded { OnOk result (IsBounded (S.limit store.old) (meant (types_in scope.now) (S.content store.new) (S.rows store.new))) }
    ensures later { OnOk result (Later (S.content store.old) (S.content store.new) (S.rows store.old) (S.rows store.new)) }
    ensures grows { OnOk result (Grows (S.content store.old) (S.content store.new)) }
    ensures limit { S.limit store.new ≡ S.limit store.old }
{
    if overlaps(from, to, width_of(scope.layouts, ty)) {
        return Err(Failure::NoMemory);
    }
    match copy_value(
        alloc,
        scope.types,
        scope.layouts,
        store,
        wide(from),
        wide(to),
        ty,
        depth,
    ) {
        Err(fault) => Err(failed(fault)),
        Ok(()) => Ok(()),
    }
}

// .. where it is a character of a text.
fn copy_character<S: Store>(
    scope: &Scope<'_>,
    store: &mut S,
    cells: &[Cell],
    target: Spot,
    ty: TyId,
    characters: Characters,
    depth: u32,
) -> Result<(), Failure>
    requires target { ValueAt (types_in scope.now) (function_in scope.now) (S.limit store.old) depth ty target (S.content store.old) (S.rows store.old) cells.now }
    requires single { parts_at (types_in scope.now) ty ≡ Single }
    ensures step { (s : Setting) → s.texts ≡ texts_in scope.now
        → Goes (λ st. spec.on_character s.texts (characters_seen characters) (λ z. spec.copied_to s (parts_at (types_in scope.now) ty) (spot_seen target) (word_of_number z ∷ []) st)) (meant (types_in scope.now) (S.content store.old) (S.rows store.old)) cells.now (meant (types_in scope.now) (S.content store.new) (S.rows store.new)) cells.now result }
    ensures fits { OnOk result (IsFit (types_in scope.now) (S.content store.new) (S.rows store.new) cells.now) }
    ensures bounded { OnOk result (IsBounded (S.limit store.old) (meant (types_in scope.now) (S.content store.new) (S.rows store.new))) }
    ensures later { OnOk result (Later (S.content store.old) (S.content store.new) (S.rows store.old) (S.rows store.new)) }
    ensures grows { OnOk result (Grows (S.content store.old) (S.content store.new)) }
    ensures limit { S.limit store.new ≡ S.limit store.old }
{
    match character(scope.texts, characters) {
        Err(stop) => Err(Failure::Stopped(stop)),
        Ok(value) => {
            let word = target.word as u64;
            put_number(
                store,
                target.object,
                target.index,
                word,
                value.cast_unsigned(),
            );
            Ok(())
        }
    }
}

fn failed(fault: CopyFault) -> Failure
    ensures { result ≡ failed fault }
{
    match fault {
        CopyFault::Moved => Failure::Stopped(Stop::Fault(FaultKind::Moved)),
        CopyFault::Cells => Failure::Stopped(Stop::Trap(TrapKind::Cells)),
        CopyFault::NoMemory => Failure::NoMemory,
    }
}
