// Where pointers, iterators, spans and views lead.
ghost use Rattle.std.specs.Prelude.{◌≡◌, ◌+◌, ◌<◌, ◌^◌, ◌≤◌};
ghost use Rattle.life_store.specs.Content.{Content};
ghost use Rattle.life_store.specs.Iterators as spec;
ghost use Rattle.life_store.specs.References.{Rows};
ghost use Rattle.life_store.specs.Views as views;
ghost use Rattle.life_pointers.specs.Pointers.{pointer_seen, starts_at, IsNarrow, IsShort, PointerFits};

use life_store::ObjRef;

/// Characters that never end: of a text of the program, or of none, from an index on.
#[derive(Clone, Copy)]
pub struct Characters {
    /// The text's number in its program.
    pub text: Option<u32>,
    /// The first character that is seen, and how many are.
    pub index: u64,
    pub count: u64,
}

/// Where a pointer leads.
#[derive(Clone, Copy)]
pub enum Pointer {
    /// To nothing.
    Null,
    /// It never pointed to anything.
    Wild,
    /// To `count` positions of an object from `index` on, and there to what begins at a word of the
    /// slot; the moment is the store's clock when the pointer was made.
    To {
        index: u32,
        count: u32,
        word: u32,
        object: ObjRef,
        moment: u64,
    },
    /// To characters that never end.
    Static(Characters),
}

const _: () = prove!(size_of::<Pointer>() == 40);

// How many positions a span or a view sees.
pub(crate) fn seen_count(pointer: Pointer) -> u64
    ensures { result ≡ views.seen_count (pointer_seen pointer) }
{
    match pointer {
        Pointer::Null | Pointer::Wild => 0,
        Pointer::To { count, .. } => count as u64,
        Pointer::Static(characters) => characters.count,
    }
}

/// A pointer of this moment to one position of the same object, or to one character of the same text.
pub fn at_index(now: u64, index: u64, pointer: Pointer) -> Pointer
    requires { IsNarrow index pointer }
    ensures is { pointer_seen result ≡ spec.at_index now index (pointer_seen pointer) }
    ensures fits { (c : Content) (rows : Rows) → PointerFits c rows pointer → now + 1 < 2 ^ 64 → IsShort (index + 1) pointer → PointerFits c rows result }
{
    match pointer {
        Pointer::Null => Pointer::Null,
        Pointer::Wild => Pointer::Wild,
        Pointer::To { word, object, .. } => Pointer::To {
            index: index as u32,
            count: 1,
            word,
            object,
            moment: now,
        },
        Pointer::Static(characters) => Pointer::Static(Characters {
            text: characters.text,
            index,
            count: 1,
        }),
    }
}

// .. so many behind where it points.
pub(crate) fn element_of(now: u64, index: u64, pointer: Pointer) -> Pointer
    requires wide { starts_at pointer + index < 2 ^ 64 }
    requires narrow { IsNarrow (starts_at pointer + index) pointer }
    ensures is { pointer_seen result ≡ spec.element_of now index (pointer_seen pointer) }
    ensures fits { (c : Content) (rows : Rows) → PointerFits c rows pointer → now + 1 < 2 ^ 64 → IsShort (starts_at pointer + index + 1) pointer → PointerFits c rows result }
{
    at_index(now, start_of(pointer) + index, pointer)
}

// The first position that it sees.
pub(crate) fn start_of(pointer: Pointer) -> u64
    ensures start { result ≡ starts_at pointer }
    ensures is { result ≡ spec.start_of (pointer_seen pointer) }
{
    match pointer {
        Pointer::Null | Pointer::Wild => 0,
        Pointer::To { index, .. } => index as u64,
        Pointer::Static(characters) => characters.index,
    }
}

// So many positions from an index on. What is made now has this moment.
pub(crate) fn part_of(now: u64, index: u64, count: u64, pointer: Pointer) -> Pointer
    requires wide { starts_at pointer + index < 2 ^ 64 }
    requires first { IsNarrow (starts_at pointer + index) pointer }
    requires narrow { IsNarrow count pointer }
    ensures is { pointer_seen result ≡ views.part_of now index count (pointer_seen pointer) }
    ensures fits { (c : Content) (rows : Rows) → PointerFits c rows pointer → now + 1 < 2 ^ 64 → IsShort (count + 1) pointer → IsShort (starts_at pointer + index + count) pointer → PointerFits c rows result }
{
    match pointer {
        Pointer::Null => Pointer::Null,
        Pointer::Wild => Pointer::Wild,
        Pointer::To {
            index: start,
            word,
            object,
            ..
        } => Pointer::To {
            index: start + index as u32,
            count: count as u32,
            word,
            object,
            moment: now,
        },
        Pointer::Static(characters) => Pointer::Static(Characters {
            text: characters.text,
            index: characters.index + index,
            count,
        }),
    }
}
