// The numbers that a function may not pass.
ghost use Rattle.std.specs.Prelude.{◌≡◌, ◌<◌, ◌^◌, ◌↔◌, length, IfOk, IsTrue};
ghost use Rattle.life_core.specs.Function.{function_of};
ghost use Rattle.life_core.specs.Linked.{points_of};
ghost use Rattle.life_pset.specs.Elements.{elements_of, AreShort, IsShort, IsWithinLimits};

use crate::counts::{has_few_elements, has_few_locations};
use crate::element::Element;
use crate::element_list::elements;
use life_core::{CoreFn, spots};
use life_types::{NoMemory, TypeTable};
use std::alloc::Global;

/// How many points a function may have.
pub const POINT_LIMIT: usize = 1024;

/// How many locations a function may have.
pub const LOCATION_LIMIT: usize = 256;

/// How many elements a function may have.
pub const ELEMENT_LIMIT: usize = 2048;

/// How many steps a place of a function may have.
pub const STEP_LIMIT: u8 = 8;

/// Whether the function passes none of its limits, so that it has an `ElementTable`. It is for functions that
/// are made by hand, as those of tests: a translation passes none, and isn't asked.
pub fn is_within_limits(alloc: Global, f: &CoreFn, types: &TypeTable) -> Result<bool, NoMemory>
    ensures { IfOk result (λ within. IsTrue within ↔ IsWithinLimits types.now (function_of f.now)) }
{
    if f.locals.len() > u32::MAX as usize {
        return Ok(false);
    }
    if !has_few_locations(f, types) {
        return Ok(false);
    }
    if !has_few_elements(alloc, f, types)? {
        return Ok(false);
    }
    let points = count_points(alloc, f)?;
    let short = has_short_places(alloc, f, types)?;
    Ok(points <= POINT_LIMIT && short)
}

/// How many points a function has.
pub fn count_points(alloc: Global, f: &CoreFn) -> Result<usize, NoMemory>
    ensures { IfOk result (λ count. count ≡ points_of (function_of f.now)) }
{
    Ok(spots(alloc, f)?.len())
}

/// Whether no place of a function has more steps than it may. Its elements are listed, so let them be
/// few.
pub fn has_short_places(alloc: Global, f: &CoreFn, types: &TypeTable) -> Result<bool, NoMemory>
    requires { length f.now.locals.items < 2 ^ 32 }
    ensures { IfOk result (λ short. IsTrue short ↔ AreShort (elements_of types.now (function_of f.now))) }
{
    let elements = elements(alloc, f, types)?;
    Ok(are_short(&elements))
}

// Whether the places among these elements pass no limit.
fn are_short(elements: &[Element]) -> bool
    ensures { IsTrue result ↔ AreShort elements.now }
{
    for element in elements {
        if !is_short(element) {
            return false;
        }
    }
    true
}

fn is_short(element: &Element) -> bool
    ensures { IsTrue result ↔ IsShort element.now }
{
    match element {
        Element::At(place) => place.length <= STEP_LIMIT,
        _ => true,
    }
}
