// The characters that strings are given.
ghost use Rattle.std.specs.Prelude.{◌≡◌, ◌++◌, ◌∷◌, [], map, IfOk};
ghost use Rattle.life_core.specs.Function.{name_bytes};
ghost use Rattle.life_core.specs.Operands.{characters_of};
ghost use Rattle.life_store.specs.Effects.{Setting};
ghost use Rattle.life_pointers.specs.Bytes.{stored_words, IsInside};
ghost use Rattle.life_pointers.specs.Pointers.{IsThere};
ghost use Rattle.life_cells.specs.Cells.{state_in};
ghost use Rattle.life_cells.specs.Fits.{meant, IsFit};
ghost use Rattle.life_cells.specs.Scopes.{function_in, texts_in, types_in};
ghost use Rattle.life_changes.specs.Given.{GivesWords};
ghost use Rattle.life_changes.specs.Ready.{AreGiven};

use crate::failure::Failure;
use life_cells::{Cell, Scope, number_at, pointer_at};
use life_core::Characters;
use life_pointers::{Pointer, Stop, byte_count, usable, word_at};
use life_store::Store;
use life_types::NoMemory;
use std::alloc::Global;

/// The characters that a string is given, each as it lies in a slot.
pub(crate) fn given<S: Store>(
    alloc: Global,
    scope: &Scope<'_>,
    store: &S,
    cells: &[Cell],
    characters: &Characters,
) -> Result<Vec<u64>, Failure>
    requires fits { IsFit (types_in scope.now) (S.content store.now) (S.rows store.now) cells.now }
    requires seen { AreGiven (types_in scope.now) (function_in scope.now) (characters_of characters.now) (state_in (meant (types_in scope.now) (S.content store.now) (S.rows store.now)) cells.now) }
    ensures { (s : Setting) → s.texts ≡ texts_in scope.now
        → GivesWords s (types_in scope.now) (function_in scope.now) (characters_of characters.now) (meant (types_in scope.now) (S.content store.now) (S.rows store.now)) cells.now result }
{
    match characters {
        Characters::View(location) => match pointer_at(scope, store, cells, location) {
            None => Err(Failure::Stopped(Stop::Lost)),
            Some(view) => match usable(store, view) {
                Err(stop) => Err(Failure::Stopped(stop)),
                Ok(view) => match collected(alloc, store, scope.texts, view, &[]) {
                    Err(_) => Err(Failure::NoMemory),
                    Ok(words) => Ok(words),
                },
            },
        },
        Characters::Single(register) => match number_at(cells, *register) {
            None => Err(Failure::Stopped(Stop::Lost)),
            Some(number) => match single(alloc, number.cast_unsigned()) {
                Err(_) => Err(Failure::NoMemory),
                Ok(words) => Ok(words),
            },
        },
    }
}

// One word alone.
fn single(alloc: Global, word: u64) -> Result<Vec<u64>, NoMemory>
    ensures { IfOk result (λ words. words.items ≡ word ∷ []) }
{
    let mut words = Vec::new(alloc);
    words.push(word)?;
    Ok(words)
}

/// The characters that a view sees, and others behind them.
pub(crate) fn collected<S: Store>(
    alloc: Global,
    store: &S,
    texts: &[Vec<u8>],
    view: Pointer,
    others: &[u64],
) -> Result<Vec<u64>, NoMemory>
    requires inside { IsInside (S.content store.now) (S.rows store.now) view }
    requires there { IsThere view }
    ensures { IfOk result (λ words. words.items ≡ stored_words (map name_bytes texts.now) (S.content store.now) (S.rows store.now) view ++ others.now) }
{
    let mut words = Vec::new(alloc);
    for position in 0..byte_count(store, texts, view) {
        words.push(word_at(store, texts, view, position))?;
    }
    for other in others {
        words.push(*other)?;
    }
    Ok(words)
}
