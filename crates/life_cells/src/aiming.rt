// What pointers are aimed at.
ghost use Rattle.std.specs.Prelude.{◌≡◌, map, IfOk, OnOk};
ghost use Rattle.life_core.specs.Function.{name_bytes};
ghost use Rattle.life_core.specs.Operands.{location_of, operand_of, source_of, Get, Place as Placed, Whole};
ghost use Rattle.life_store.specs.Content.{Content};
ghost use Rattle.life_store.specs.Doing as spec;
ghost use Rattle.life_store.specs.Effects.{on_got, Effect, Setting};
ghost use Rattle.life_store.specs.Iterators.{at_index};
ghost use Rattle.life_store.specs.References.{Rows};
ghost use Rattle.life_store.specs.State as state;
ghost use Rattle.life_pointers.specs.Attempts.{tried};
ghost use Rattle.life_pointers.specs.Pointers.{characters_seen, pointer_seen, PointerFits};
ghost use Rattle.life_cells.specs.Cells.{state_in};
ghost use Rattle.life_cells.specs.Fits.{meant, IsFit, Keeps};
ghost use Rattle.life_cells.specs.Scopes.{function_in, texts_in, types_in};
ghost use Rattle.life_cells.specs.Steps.{repointed, Comes, Makes};
ghost use Rattle.life_cells.specs.Typed.{HoldsOwner, HoldsPointer, IsOwnerPlace, IsPlaced, IsSource};

use crate::cell::Cell;
use crate::locations::{point, pointer_at};
use crate::owners::{local_owner, owner_at};
use crate::places::locate;
use crate::scope::Scope;
use life_core::{Location, Operand, Source};
use life_pointers::{
    Characters, Place, Pointer, Stop, character, empty_view, owned_pointer, owned_whole,
    place_pointer, text_view,
};
use life_store::Store;

/// Makes a pointer point to something.
pub fn aim<S: Store>(
    scope: &Scope<'_>,
    store: &mut S,
    cells: &mut Vec<Cell>,
    pointer: &Location,
    source: &Source,
) -> Result<(), Stop>
    requires fits { IsFit (types_in scope.now) (S.content store.old) (S.rows store.old) cells.old.items }
    requires pointer { HoldsPointer (types_in scope.now) (function_in scope.now) (location_of pointer.now) (state_in (meant (types_in scope.now) (S.content store.old) (S.rows store.old)) cells.old.items) }
    requires source { IsSource (types_in scope.now) (function_in scope.now) (source_of source.now) (state_in (meant (types_in scope.now) (S.content store.old) (S.rows store.old)) cells.old.items) }
    ensures step { (s : Setting) → s.texts ≡ texts_in scope.now → Comes (spec.aimed s (types_in scope.now) (function_in scope.now) (location_of pointer.now) (source_of source.now)) (meant (types_in scope.now) (S.content store.old) (S.rows store.old)) cells.old.items (meant (types_in scope.now) (S.content store.new) (S.rows store.new)) cells.new.items result }
    ensures fits { OnOk result (IsFit (types_in scope.now) (S.content store.new) (S.rows store.new) cells.new.items) }
    ensures keeps { Keeps (S.content store.old) (S.content store.new) (S.rows store.old) (S.rows store.new) }
    ensures limit { S.limit store.new ≡ S.limit store.old }
{
    let to = aimed(scope, store, cells, source)?;
    point(scope, store, cells, pointer, to)
}

// What it is aimed at.
fn aimed<S: Store>(
    scope: &Scope<'_>,
    store: &S,
    cells: &[Cell],
    source: &Source,
) -> Result<Pointer, Stop>
    requires fits { IsFit (types_in scope.now) (S.content store.now) (S.rows store.now) cells.now }
    requires source { IsSource (types_in scope.now) (function_in scope.now) (source_of source.now) (state_in (meant (types_in scope.now) (S.content store.now) (S.rows store.now)) cells.now) }
    ensures is { (s : Setting) → s.texts ≡ texts_in scope.now → Makes (types_in scope.now) (function_in scope.now) (λ p. spec.aimed s (types_in scope.now) (function_in scope.now) p (source_of source.now)) (meant (types_in scope.now) (S.content store.now) (S.rows store.now)) cells.now result }
    ensures fits { IfOk result (PointerFits (S.content store.now) (S.rows store.now)) }
{
    match source {
        Source::Null => Ok(Pointer::Null),
        Source::Text(number) => Ok(text_view(scope.texts, *number)),
        Source::Empty => Ok(empty_view()),
        Source::Place(operand) => at_place(scope, store, cells, operand),
        Source::Whole(operand) => at_whole(scope, store, cells, operand),
        Source::Get(owner) => at_target(scope, store, cells, owner),
    }
}

// What lies at a place: a value, or a character of a text, unless it is the end.
fn at_place<S: Store>(
    scope: &Scope<'_>,
    store: &S,
    cells: &[Cell],
    operand: &Operand,
) -> Result<Pointer, Stop>
    requires fits { IsFit (types_in scope.now) (S.content store.now) (S.rows store.now) cells.now }
    requires placed { IsPlaced (types_in scope.now) (function_in scope.now) (operand_of operand.now) (state_in (meant (types_in scope.now) (S.content store.now) (S.rows store.now)) cells.now) }
    ensures is { (s : Setting) → s.texts ≡ texts_in scope.now → Makes (types_in scope.now) (function_in scope.now) (λ p. spec.aimed s (types_in scope.now) (function_in scope.now) p (Placed (operand_of operand.now))) (meant (types_in scope.now) (S.content store.now) (S.rows store.now)) cells.now result }
    ensures fits { IfOk result (PointerFits (S.content store.now) (S.rows store.now)) }
{
    match locate(scope, store, cells, operand) {
        Err(stop) => Err(stop),
        Ok(Place::Here(spot)) => Ok(place_pointer(store.now(), spot)),
        Ok(Place::Fixed(characters)) => first_of(scope.texts, characters),
    }
}

// The first of the characters, unless it is the end of its text.
fn first_of(texts: &[Vec<u8>], characters: Characters) -> Result<Pointer, Stop>
    ensures is { (go : state.Pointer → Effect) → spec.on_character (map name_bytes texts.now) (characters_seen characters) (λ _. go (at_index 0 characters.index (state.Static (characters_seen characters)))) ≡ on_got (tried pointer_seen result) go }
    ensures fits { (c : Content) (rows : Rows) → IfOk result (PointerFits c rows) }
{
    match character(texts, characters) {
        Err(stop) => Err(stop),
        Ok(_) => Ok(Pointer::Static(Characters {
            text: characters.text,
            index: characters.index,
            count: 1,
        })),
    }
}

// All that a vector or a string has.
fn at_whole<S: Store>(
    scope: &Scope<'_>,
    store: &S,
    cells: &[Cell],
    operand: &Operand,
) -> Result<Pointer, Stop>
    requires fits { IsFit (types_in scope.now) (S.content store.now) (S.rows store.now) cells.now }
    requires owner { IsOwnerPlace (types_in scope.now) (function_in scope.now) (operand_of operand.now) (state_in (meant (types_in scope.now) (S.content store.now) (S.rows store.now)) cells.now) }
    ensures is { (s : Setting) → s.texts ≡ texts_in scope.now → Makes (types_in scope.now) (function_in scope.now) (λ p. spec.aimed s (types_in scope.now) (function_in scope.now) p (Whole (operand_of operand.now))) (meant (types_in scope.now) (S.content store.now) (S.rows store.now)) cells.now result }
    ensures fits { IfOk result (PointerFits (S.content store.now) (S.rows store.now)) }
{
    match owner_at(scope, store, cells, operand) {
        Err(stop) => Err(stop),
        Ok(owner) => owned_whole(store, owner),
    }
}

// What a `std::unique_ptr` owns.
fn at_target<S: Store>(
    scope: &Scope<'_>,
    store: &S,
    cells: &[Cell],
    owner: &Location,
) -> Result<Pointer, Stop>
    requires fits { IsFit (types_in scope.now) (S.content store.now) (S.rows store.now) cells.now }
    requires owner { HoldsOwner (types_in scope.now) (function_in scope.now) (location_of owner.now) (state_in (meant (types_in scope.now) (S.content store.now) (S.rows store.now)) cells.now) }
    ensures is { (s : Setting) → s.texts ≡ texts_in scope.now → Makes (types_in scope.now) (function_in scope.now) (λ p. spec.aimed s (types_in scope.now) (function_in scope.now) p (Get (location_of owner.now))) (meant (types_in scope.now) (S.content store.now) (S.rows store.now)) cells.now result }
    ensures fits { IfOk result (PointerFits (S.content store.now) (S.rows store.now)) }
{
    match local_owner(scope, store, cells, owner) {
        Err(stop) => Err(stop),
        Ok(owner) => Ok(owned_pointer(store, owner)),
    }
}

/// Makes a pointer point to what another one points to.
pub fn repoint<S: Store>(
    scope: &Scope<'_>,
    store: &mut S,
    cells: &mut Vec<Cell>,
    pointer: &Location,
    from: &Location,
) -> Result<(), Stop>
    requires fits { IsFit (types_in scope.now) (S.content store.old) (S.rows store.old) cells.old.items }
    requires pointer { HoldsPointer (types_in scope.now) (function_in scope.now) (location_of pointer.now) (state_in (meant (types_in scope.now) (S.content store.old) (S.rows store.old)) cells.old.items) }
    requires from { HoldsPointer (types_in scope.now) (function_in scope.now) (location_of from.now) (state_in (meant (types_in scope.now) (S.content store.old) (S.rows store.old)) cells.old.items) }
    ensures step { Comes (repointed (types_in scope.now) (function_in scope.now) (location_of pointer.now) (location_of from.now)) (meant (types_in scope.now) (S.content store.old) (S.rows store.old)) cells.old.items (meant (types_in scope.now) (S.content store.new) (S.rows store.new)) cells.new.items result }
    ensures fits { OnOk result (IsFit (types_in scope.now) (S.content store.new) (S.rows store.new) cells.new.items) }
    ensures keeps { Keeps (S.content store.old) (S.content store.new) (S.rows store.old) (S.rows store.new) }
    ensures limit { S.limit store.new ≡ S.limit store.old }
{
    match pointer_at(scope, store, cells, from) {
        None => Err(Stop::Lost),
        Some(to) => point(scope, store, cells, pointer, to),
    }
}
