// Texts of the program.
ghost use Rattle.std.specs.Prelude.{◌≡◌, ◌<◌, ◌≤◌, ◌+◌, ◌^◌, map, slice_get, IfOk, ℤ};
ghost use Rattle.life_core.specs.Function.{name_bytes};
ghost use Rattle.life_store.specs.Content.{Content};
ghost use Rattle.life_store.specs.Doing.{on_character};
ghost use Rattle.life_store.specs.Effects.{on_got, Effect};
ghost use Rattle.life_store.specs.Owners as owners;
ghost use Rattle.life_store.specs.References.{Rows};
ghost use Rattle.life_store.specs.Views as spec;
ghost use Rattle.life_pointers.specs.Attempts.{itself, tried};
ghost use Rattle.life_pointers.specs.Pointers.{characters_seen, pointer_seen, PointerFits};

use crate::pointer::{Characters, Pointer};
use crate::stop::Stop;
use life_store::TrapKind;

/// A view of the whole of a text.
pub fn text_view(texts: &[Vec<u8>], number: u32) -> Pointer
    ensures is { pointer_seen result ≡ spec.viewed (map name_bytes texts.now) number }
    ensures fits { (c : Content) (rows : Rows) → PointerFits c rows result }
{
    Pointer::Static(Characters {
        text: Some(number),
        index: 0,
        count: text_length(texts, number),
    })
}

/// A view that sees nothing.
pub fn empty_view() -> Pointer
    ensures is { pointer_seen result ≡ owners.empty_view }
    ensures fits { (c : Content) (rows : Rows) → PointerFits c rows result }
{
    Pointer::Static(Characters {
        text: None,
        index: 0,
        count: 0,
    })
}

// A text that isn't there has no characters.
pub(crate) fn text_length(texts: &[Vec<u8>], number: u32) -> u64
    ensures is { result ≡ spec.text_length (slice_get (map name_bytes texts.now) number) }
    ensures small { result < 2 ^ 63 }
{
    match texts.get(number as usize) {
        None => 0,
        Some(text) => text.len() as u64,
    }
}

/// The value of the first character, unless it is the end of its text.
pub fn character(texts: &[Vec<u8>], characters: Characters) -> Result<i64, Stop>
    ensures is { (go : ℤ → Effect) → on_character (map name_bytes texts.now) (characters_seen characters) go ≡ on_got (tried itself result) go }
    ensures within { IfOk result (λ _. characters.index + 1 ≤ 2 ^ 63) }
{
    match characters.text {
        None => Err(Stop::Trap(TrapKind::Bounds)),
        Some(number) => match texts.get(number as usize) {
            None => Err(Stop::Trap(TrapKind::Bounds)),
            Some(text) => {
                if characters.index < text.len() as u64 {
                    Ok(char_value(text[characters.index as usize]))
                } else {
                    Err(Stop::Trap(TrapKind::Bounds))
                }
            }
        },
    }
}

/// A byte as the value of a char.
pub(crate) fn char_value(byte: u8) -> i64
    ensures { result ≡ spec.char_of byte }
{
    byte.cast_signed() as i64
}
