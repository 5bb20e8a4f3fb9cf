// Tests of a type by its outermost form.
ghost use Rattle.std.specs.Prelude.{◌≡◌};
ghost use Rattle.life_types.specs.TypeTests as spec;

use crate::ty::Ty;

// ---- values

/// Whether the type is `void`.
pub fn is_void(ty: Ty) -> bool
    ensures { result ≡ spec.is_void ty }
{
    matches!(ty, Ty::Void)
}

/// Whether the type is of class Value: `bool`, `char`, `int`, `long` and `std::size_t`, each of
/// which converts to each other (ISO/IEC 14882:2017 [conv]).
pub fn is_value(ty: Ty) -> bool
    ensures { result ≡ spec.is_value ty }
{
    matches!(ty, Ty::Bool | Ty::Char | Ty::Int | Ty::Long | Ty::Size)
}

/// Whether the type is `char`.
pub fn is_char(ty: Ty) -> bool
    ensures { result ≡ spec.is_char ty }
{
    matches!(ty, Ty::Char)
}

/// Whether the type is `long`.
pub fn is_long(ty: Ty) -> bool
    ensures { result ≡ spec.is_long ty }
{
    matches!(ty, Ty::Long)
}

/// Whether the type is `std::size_t`.
pub fn is_size(ty: Ty) -> bool
    ensures { result ≡ spec.is_size ty }
{
    matches!(ty, Ty::Size)
}

// ---- owners

/// Whether the type is `std::string`.
pub fn is_text(ty: Ty) -> bool
    ensures { result ≡ spec.is_text ty }
{
    matches!(ty, Ty::Text)
}

/// Whether the type is a `std::unique_ptr`.
pub fn is_unique(ty: Ty) -> bool
    ensures { result ≡ spec.is_unique ty }
{
    matches!(ty, Ty::Unique(_))
}

// ---- pointers

/// Whether the type is a pointer: a raw one, a reference, an iterator, a span or a view.
pub fn is_pointer(ty: Ty) -> bool
    ensures { result ≡ spec.is_pointer ty }
{
    match ty {
        Ty::View => true,
        Ty::Raw { .. } => true,
        Ty::Reference { .. } => true,
        Ty::Iterator { .. } => true,
        Ty::Span { .. } => true,
        _ => false,
    }
}

/// Whether nothing changes through a pointer of this type.
pub fn is_constant(ty: Ty) -> bool
    ensures { result ≡ spec.is_constant ty }
{
    match ty {
        Ty::View => true,
        Ty::Raw { constant, .. } => constant,
        Ty::Reference { constant, .. } => constant,
        Ty::Iterator { constant, .. } => constant,
        Ty::Span { constant, .. } => constant,
        _ => false,
    }
}

/// Whether the type is a raw pointer: of the pointers no other may be null.
pub fn is_raw(ty: Ty) -> bool
    ensures { result ≡ spec.is_raw ty }
{
    matches!(ty, Ty::Raw { .. })
}

/// Whether the type is an iterator of a vector.
pub fn is_iterator(ty: Ty) -> bool
    ensures { result ≡ spec.is_iterator ty }
{
    matches!(ty, Ty::Iterator { .. })
}

/// Whether the type is `std::string_view`.
pub fn is_view(ty: Ty) -> bool
    ensures { result ≡ spec.is_view ty }
{
    matches!(ty, Ty::View)
}
