// Changes of strings.
ghost use Rattle.std.specs.Prelude.{◌≡◌, ◌++◌, ℕ, OnOk};
ghost use Rattle.life_store.specs.Edits.{characters_of, edited, rewritten};
ghost use Rattle.life_store.specs.Effects.{Setting};
ghost use Rattle.life_store.specs.Parts.{parts_at, Text};
ghost use Rattle.life_seen.specs.Housed.{Later};
ghost use Rattle.life_seen.specs.Kinds.{kinds_of};
ghost use Rattle.life_seen.specs.Rowed.{AreRowed};
ghost use Rattle.life_pointers.specs.Owned.{spot_seen};
ghost use Rattle.life_cells.specs.Fits.{meant};
ghost use Rattle.life_cells.specs.Scopes.{texts_in, types_in};
ghost use Rattle.life_changes.specs.Edits.{edit_of};
ghost use Rattle.life_changes.specs.Owners.{HasBuffer};
ghost use Rattle.life_changes.specs.Steps.{Gets, IsGiven};

use crate::characters::collected;
use crate::edit::Edit;
use crate::failure::{Failure, unborn};
use crate::owner::wide;
use life_cells::Scope;
use life_pointers::{Pointer, Spot, Stop, length};
use life_store::{Growth, ObjRef, Store, TrapKind};
use life_types::TyId;
use life_values::rewrite;
use std::alloc::Global;

/// One change of a string.
pub(crate) fn edit_text<S: Store>(
    alloc: Global,
    scope: &Scope<'_>,
    store: &mut S,
    spot: Spot,
    ty: TyId,
    buffer: ObjRef,
    characters: TyId,
    edit: Edit<'_>,
    growth: Growth,
    depth: u32,
) -> Result<(), Failure>
    requires owner { (hand : ℕ → ℕ) × HasBuffer (types_in scope.now) (S.limit store.old) depth hand ty spot buffer (S.content store.old) (S.rows store.old) }
    requires text { parts_at (types_in scope.now) ty ≡ Text characters }
    ensures edited { (s : Setting) → IsGiven s growth (S.limit store.old) (texts_in scope.now)
        → Gets (kinds_of (types_in scope.now)) (edited s (parts_at (types_in scope.now) ty) (spot_seen spot) buffer.birth (edit_of edit.entry) (meant (types_in scope.now) (S.content store.old) (S.rows store.old))) result (S.content store.new) (S.rows store.new) }
    ensures later { OnOk result (Later (S.content store.old) (S.content store.new) (S.rows store.old) (S.rows store.new)) }
    ensures rowed { OnOk result (AreRowed (kinds_of (types_in scope.now)) (S.content store.new) (S.rows store.new)) }
    ensures limit { S.limit store.new ≡ S.limit store.old }
{
    match edit {
        Edit::Push(number) => add(
            alloc,
            scope,
            store,
            spot,
            ty,
            buffer,
            characters,
            &[number],
            growth,
            depth,
        ),
        Edit::Clear => put(
            scope,
            store,
            spot,
            ty,
            buffer,
            characters,
            &[],
            growth,
            depth,
        ),
        Edit::Put(words) => put(
            scope, store, spot, ty, buffer, characters, words, growth, depth,
        ),
        Edit::Add(words) => add(
            alloc, scope, store, spot, ty, buffer, characters, words, growth, depth,
        ),
        Edit::Pop => Err(Failure::Stopped(Stop::Lost)),
        Edit::Reserve(_) => Err(Failure::Stopped(Stop::Lost)),
    }
}

// The string gets these characters behind its own.
fn add<S: Store>(
    alloc: Global,
    scope: &Scope<'_>,
    store: &mut S,
    spot: Spot,
    ty: TyId,
    buffer: ObjRef,
    characters: TyId,
    words: &[u64],
    growth: Growth,
    depth: u32,
) -> Result<(), Failure>
    requires owner { (hand : ℕ → ℕ) × HasBuffer (types_in scope.now) (S.limit store.old) depth hand ty spot buffer (S.content store.old) (S.rows store.old) }
    requires text { parts_at (types_in scope.now) ty ≡ Text characters }
    ensures rewritten { (s : Setting) → IsGiven s growth (S.limit store.old) (texts_in scope.now)
        → Gets (kinds_of (types_in scope.now)) (rewritten s characters (spot_seen spot) buffer.birth (characters_of (meant (types_in scope.now) (S.content store.old) (S.rows store.old)) buffer.birth ++ words.now) (meant (types_in scope.now) (S.content store.old) (S.rows store.old))) result (S.content store.new) (S.rows store.new) }
    ensures later { OnOk result (Later (S.content store.old) (S.content store.new) (S.rows store.old) (S.rows store.new)) }
    ensures rowed { OnOk result (AreRowed (kinds_of (types_in scope.now)) (S.content store.new) (S.rows store.new)) }
    ensures limit { S.limit store.new ≡ S.limit store.old }
{
    let view = Pointer::To {
        index: 0,
        count: length(store, buffer),
        word: 0,
        object: buffer,
        moment: 0,
    };
    match collected(alloc, store, scope.texts, view, words) {
        Err(_) => Err(Failure::NoMemory),
        Ok(all) => put(
            scope, store, spot, ty, buffer, characters, &all, growth, depth,
        ),
    }
}

// The string gets these characters in place of its own. There is no room for 2^32.
fn put<S: Store>(
    scope: &Scope<'_>,
    store: &mut S,
    spot: Spot,
    ty: TyId,
    buffer: ObjRef,
    characters: TyId,
    words: &[u64],
    growth: Growth,
    depth: u32,
) -> Result<(), Failure>
    requires owner { (hand : ℕ → ℕ) × HasBuffer (types_in scope.now) (S.limit store.old) depth hand ty spot buffer (S.content store.old) (S.rows store.old) }
    requires text { parts_at (types_in scope.now) ty ≡ Text characters }
    ensures rewritten { (s : Setting) → IsGiven s growth (S.limit store.old) (texts_in scope.now)
        → Gets (kinds_of (types_in scope.now)) (rewritten s characters (spot_seen spot) buffer.birth words.now (meant (types_in scope.now) (S.content store.old) (S.rows store.old))) result (S.content store.new) (S.rows store.new) }
    ensures later { OnOk result (Later (S.content store.old) (S.content store.new) (S.rows store.old) (S.rows store.new)) }
    ensures rowed { OnOk result (AreRowed (kinds_of (types_in scope.now)) (S.content store.new) (S.rows store.new)) }
    ensures limit { S.limit store.new ≡ S.limit store.old }
{
    match u32::try_from(words.len()) {
        Err(_) => Err(Failure::Stopped(Stop::Trap(TrapKind::Cells))),
        Ok(_) => {
            let place = wide(spot);
            match rewrite(
                scope.types,
                scope.layouts,
                store,
                place,
                &[0],
                characters,
                words,
                depth,
            ) {
                Err(fault) => Err(unborn(fault)),
                Ok(()) => Ok(()),
            }
        }
    }
}
