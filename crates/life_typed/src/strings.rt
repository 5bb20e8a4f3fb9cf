// What strings are combined with.
ghost use Rattle.std.specs.Prelude.{◌≡◌};
ghost use Rattle.life_typed.specs.Operators as spec;

use life_types::{Ty, is_char, is_text, is_view};

// A string or a view.
pub(crate) fn is_text_like(ty: Ty) -> bool
    ensures { result ≡ spec.is_text_like ty }
{
    is_text(ty) || is_view(ty)
}

// What a string is joined with by `+`: a string, or a character; of numbers none other.
fn is_joined(ty: Ty) -> bool
    ensures { result ≡ spec.is_joined ty }
{
    is_text(ty) || is_char(ty)
}

// `+` where one operand is a string ([string.op+]).
pub(crate) fn concatenated(left: Ty, right: Ty) -> Option<Ty>
    ensures { result ≡ spec.concatenated left right }
{
    if is_joined(left) && is_joined(right) {
        Some(Ty::Text)
    } else {
        None
    }
}
