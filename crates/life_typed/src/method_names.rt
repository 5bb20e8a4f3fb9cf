// The names of the member functions of the library's types.
ghost use Rattle.std.specs.Prelude.{◌≡◌};
ghost use Rattle.life_typed.specs.Members as spec;

use crate::typed_expr::Method;

/// The member function with this name, if a type of the library has one that is offered.
pub fn method_named(text: &[u8]) -> Option<Method>
    ensures { result ≡ spec.method_named text.now }
{
    match reading_named(text) {
        Some(method) => Some(method),
        None => changing_or_pointing_named(text),
    }
}

fn changing_or_pointing_named(text: &[u8]) -> Option<Method>
    ensures { result ≡ spec.either (spec.changing_named text.now) (spec.pointing_named text.now) }
{
    match changing_named(text) {
        Some(method) => Some(method),
        None => pointing_named(text),
    }
}

// What only reads its object.
fn reading_named(text: &[u8]) -> Option<Method>
    ensures { result ≡ spec.reading_named text.now }
{
    if text == b"size".as_slice() {
        Some(Method::Size)
    } else if text == b"empty".as_slice() {
        Some(Method::Empty)
    } else if text == b"front".as_slice() {
        Some(Method::Front)
    } else if text == b"back".as_slice() {
        Some(Method::Back)
    } else if text == b"begin".as_slice() {
        Some(Method::Begin)
    } else if text == b"end".as_slice() {
        Some(Method::End)
    } else {
        None
    }
}

// What changes its object.
fn changing_named(text: &[u8]) -> Option<Method>
    ensures { result ≡ spec.changing_named text.now }
{
    if text == b"push_back".as_slice() {
        Some(Method::PushBack)
    } else if text == b"pop_back".as_slice() {
        Some(Method::PopBack)
    } else if text == b"clear".as_slice() {
        Some(Method::Clear)
    } else if text == b"reserve".as_slice() {
        Some(Method::Reserve)
    } else if text == b"erase".as_slice() {
        Some(Method::Erase)
    } else if text == b"reset".as_slice() {
        Some(Method::Reset)
    } else {
        None
    }
}

// What answers a pointer, a span or a view.
fn pointing_named(text: &[u8]) -> Option<Method>
    ensures { result ≡ spec.pointing_named text.now }
{
    if text == b"get".as_slice() {
        Some(Method::Get)
    } else if text == b"subspan".as_slice() {
        Some(Method::Subspan)
    } else if text == b"substr".as_slice() {
        Some(Method::Substr)
    } else {
        None
    }
}
