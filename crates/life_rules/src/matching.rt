// Which facts a rule speaks of, and what it makes of their elements.
ghost use Rattle.std.specs.Prelude.{◌≡◌};
ghost use Rattle.life_rules.specs.Matching.{given_over, gotten, is_at_place, is_held, is_null, is_rooted_among, part_of, points_among, points_under, position_in, reached};

pub use life_contract::{is_location, is_rooted, located};
use life_pset::{AbsPlace, Element, under};

/// Whether the place is one of these locals, or lies in one.
pub fn is_rooted_among(locals: &[u32], place: &AbsPlace) -> bool
    ensures { result ≡ is_rooted_among locals.now place.now }
{
    locals.iter().any(|local| is_rooted(*local, place))
}

/// Whether the element is a place.
pub fn is_at_place(element: &Element) -> bool
    ensures { result ≡ is_at_place element.now }
{
    match element {
        Element::Null => false,
        Element::Invalid(_) => false,
        Element::Moved(_) => false,
        Element::Own => false,
        Element::Static => false,
        Element::At(_) => true,
    }
}

/// Whether the element points to one of these locals, or into one.
pub fn points_among(locals: &[u32], element: &Element) -> bool
    ensures { result ≡ points_among locals.now element.now }
{
    match element {
        Element::Null => false,
        Element::Invalid(_) => false,
        Element::Moved(_) => false,
        Element::Own => false,
        Element::Static => false,
        Element::At(place) => is_rooted_among(locals, place),
    }
}

/// Whether the element points to what the owner at a place owns, or into that.
pub fn points_under(owner: &AbsPlace, element: &Element) -> bool
    ensures { result ≡ points_under owner.now element.now }
{
    match element {
        Element::Null => false,
        Element::Invalid(_) => false,
        Element::Moved(_) => false,
        Element::Own => false,
        Element::Static => false,
        Element::At(place) => under(owner, place),
    }
}

/// Whether a pointer that isn't null can't have this element.
pub fn is_null(element: &Element) -> bool
    ensures { result ≡ is_null element.now }
{
    match element {
        Element::Null => true,
        Element::Invalid(_) => false,
        Element::Moved(_) => true,
        Element::Own => false,
        Element::Static => false,
        Element::At(_) => false,
    }
}

/// Whether a null pointer can't have this element.
pub fn is_held(element: &Element) -> bool
    ensures { result ≡ is_held element.now }
{
    match element {
        Element::Null => false,
        Element::Invalid(_) => false,
        Element::Moved(_) => false,
        Element::Own => true,
        Element::Static => true,
        Element::At(_) => true,
    }
}

/// A place itself, or what the owner there owns.
pub fn part_of(owned: bool, place: AbsPlace) -> AbsPlace
    ensures { result ≡ part_of owned place }
{
    if owned { place.owned() } else { place }
}

/// What is reached through a pointer with this element: a part of its target, and static and invalid as
/// they are.
pub fn reached(owned: bool, members: &[u32], element: Element) -> Option<Element>
    ensures { result ≡ reached owned members.now element }
{
    match element {
        Element::Null => None,
        Element::Invalid(cause) => Some(Element::Invalid(cause)),
        Element::Moved(_) => None,
        Element::Own => None,
        Element::Static => Some(Element::Static),
        Element::At(place) => Some(Element::At(part_of(owned, place.members(members)))),
    }
}

/// The position in the owner that a pointer with this element points to.
pub fn position_in(members: &[u32], element: Element) -> Option<Element>
    ensures { result ≡ position_in members.now element }
{
    match element {
        Element::At(place) => Some(Element::At(place.members(members).owned())),
        _ => None,
    }
}

/// What a `std::unique_ptr` at a place, with this element, gives to a pointer.
pub fn gotten(owner: AbsPlace, element: Element) -> Option<Element>
    ensures { result ≡ gotten owner element }
{
    match element {
        Element::Null => Some(Element::Null),
        Element::Moved(_) => Some(Element::Null),
        Element::Own => Some(Element::At(owner.owned())),
        _ => None,
    }
}

/// What a `std::unique_ptr` with this element gives to another one.
pub fn given_over(element: Element) -> Option<Element>
    ensures { result ≡ given_over element }
{
    match element {
        Element::Null => Some(Element::Null),
        Element::Moved(_) => Some(Element::Null),
        Element::Own => Some(Element::Own),
        _ => None,
    }
}
