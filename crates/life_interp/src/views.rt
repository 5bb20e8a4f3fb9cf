// The characters of views, written out.
ghost use Rattle.std.specs.Prelude.{◌≡◌, drop, map, take, IfOk, List, ℤ};
ghost use Rattle.life_core.specs.Function.{name_bytes};
ghost use Rattle.life_core.specs.Operands.{location_of};
ghost use Rattle.life_core.specs.Step.{WritesView};
ghost use Rattle.life_pointers.specs.Bytes.{stored_bytes, IsInside};
ghost use Rattle.life_pointers.specs.Pointers.{characters_seen, IsThere};
ghost use Rattle.life_cells.specs.Cells.{state_in};
ghost use Rattle.life_cells.specs.Fits.{meant, IsFit};
ghost use Rattle.life_cells.specs.Scopes.{function_in, texts_in, types_in};
ghost use Rattle.life_cells.specs.Typed.{HoldsPointer, SeesCharacters};
ghost use Rattle.life_interp.specs.Walking.{Performs, Writes};
ghost use Rattle.life_store.specs.Doing.{characters_in, port, Setting};

use crate::ending::Ending;
use crate::ports::write_text;
use crate::reaching::settled;
use life_base::Sink;
use life_cells::{Cell, Scope, pointer_at};
use life_core::Location;
use life_pointers::{Characters, Pointer, byte_at, byte_count, usable};
use life_store::Store;
use life_types::NoMemory;
use std::alloc::Global;

/// Writes the characters that a view sees.
pub(crate) fn write_view<S: Store, O: Sink>(
    alloc: Global,
    scope: &Scope<'_>,
    store: &S,
    cells: &[Cell],
    location: &Location,
    out: &mut O,
) -> Result<(), Ending>
    requires fits { IsFit (types_in scope.now) (S.content store.now) (S.rows store.now) cells.now }
    requires holds { HoldsPointer (types_in scope.now) (function_in scope.now) (location_of location.now) (state_in (meant (types_in scope.now) (S.content store.now) (S.rows store.now)) cells.now) }
    requires sees { SeesCharacters (types_in scope.now) (function_in scope.now) (location_of location.now) (state_in (meant (types_in scope.now) (S.content store.now) (S.rows store.now)) cells.now) }
    ensures { (s : Setting) (ins : List ℤ) → s.texts ≡ texts_in scope.now
        → Performs (port s (types_in scope.now) (function_in scope.now) (WritesView (location_of location.now))) (meant (types_in scope.now) (S.content store.now) (S.rows store.now)) cells.now ins (meant (types_in scope.now) (S.content store.now) (S.rows store.now)) cells.now ins
        (record { old = O.taken out.old; new = O.taken out.new; faults = O.faults out.old; later = O.faults out.new }) result }
{
    match pointer_at(scope, store, cells, location) {
        None => Err(Ending::Stray),
        Some(pointer) => match usable(store, pointer) {
            Err(stop) => settled(Err(stop)),
            Ok(view) => write_seen(alloc, scope.texts, store, view, out),
        },
    }
}

// .. which may be used.
fn write_seen<S: Store, O: Sink>(
    alloc: Global,
    texts: &[Vec<u8>],
    store: &S,
    view: Pointer,
    out: &mut O,
) -> Result<(), Ending>
    requires inside { IsInside (S.content store.now) (S.rows store.now) view }
    requires there { IsThere view }
    ensures { Writes (stored_bytes (map name_bytes texts.now) (S.content store.now) (S.rows store.now) view)
        (record { old = O.taken out.old; new = O.taken out.new; faults = O.faults out.old; later = O.faults out.new }) result }
{
    match view {
        Pointer::Static(characters) => write_text(characters_in(texts, characters), out),
        _ => match bytes_of(alloc, texts, store, view) {
            Err(_) => Err(Ending::NoMemory),
            Ok(bytes) => write_text(&bytes, out),
        },
    }
}

// Characters that lie in a store, beside one another.
fn bytes_of<S: Store>(
    alloc: Global,
    texts: &[Vec<u8>],
    store: &S,
    view: Pointer,
) -> Result<Vec<u8>, NoMemory>
    requires inside { IsInside (S.content store.now) (S.rows store.now) view }
    requires there { IsThere view }
    ensures { IfOk result (λ bytes. bytes.items ≡ stored_bytes (map name_bytes texts.now) (S.content store.now) (S.rows store.now) view) }
{
    let mut bytes = Vec::new(alloc);
    for position in 0..byte_count(store, texts, view) {
        bytes.push(byte_at(store, texts, view, position))?;
    }
    Ok(bytes)
}

// Characters of a text.
fn characters_in(texts: &[Vec<u8>], characters: Characters) -> &[u8]
    ensures { result.now ≡ characters_in (map name_bytes texts.now) (characters_seen characters) }
{
    match characters.text {
        None => &[],
        Some(number) => match texts.get(number as usize) {
            None => &[],
            Some(text) => part(text, characters.index as usize, characters.count as usize),
        },
    }
}

// So many bytes from the index on, or as many as there are.
fn part(text: &[u8], index: usize, count: usize) -> &[u8]
    ensures { result.now ≡ take count (drop index text.now) }
{
    let start = index.min(text.len());
    let rest = &text[start..];
    &rest[..count.min(rest.len())]
}
