// What two arguments break.
ghost use Rattle.std.specs.Prelude.{◌≡◌};
ghost use Rattle.life_pset.specs.Inputs.{input_seen};
ghost use Rattle.life_contract.specs.Breaking.{breaks_apart, overlapping};

use crate::inputs::is_mutating;
use crate::signature::Signature;
use life_pset::{AbsPlace, Element, InputPointer, overlap};
use life_types::TypeTable;

fn overlapping(first: Element, second: Element) -> bool
    ensures { result ≡ overlapping first second }
{
    match first {
        Element::At(place) => overlaps_with(place, second),
        _ => false,
    }
}

fn overlaps_with(place: AbsPlace, element: Element) -> bool
    ensures { result ≡ overlapping (Element.At place) element }
{
    match element {
        Element::At(other) => overlap(&place, &other),
        _ => false,
    }
}

/// Whether one of two inputs is mutating, and what is given for them overlaps.
pub fn breaks_apart(
    sig: &Signature,
    types: &TypeTable,
    first: InputPointer,
    second: InputPointer,
    at_first: Element,
    at_second: Element,
) -> bool
    ensures { result ≡ breaks_apart types.now sig.now (input_seen first) (input_seen second) at_first at_second }
{
    (is_mutating(sig, types, first) || is_mutating(sig, types, second))
        && overlapping(at_first, at_second)
}
