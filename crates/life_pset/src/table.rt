// The numbers of a function's locations and elements.
ghost use Rattle.std.specs.Prelude.{◌≡◌, ℕ, ◌<◌, ◌^◌, [], length, IfOk, IfSome, Some, slice_get};
ghost use Rattle.std.specs.Option.{option_copied};
ghost use Rattle.indexmap.specs.IndexSet.{insert_all};
ghost use Rattle.life_core.specs.Function.{function_of};
ghost use Rattle.life_pset.specs.Causes.{AreSpotsOf};
ghost use Rattle.life_pset.specs.Elements.{IsWithinLimits};
ghost use Rattle.life_pset.specs.Table.{table_of};

use crate::element::{AbsPlace, Element};
use crate::element_list::elements_of;
use crate::location_list::locations;
use indexmap::IndexSet;
use life_core::{CoreFn, SpotRef};
use life_types::{NoMemory, TypeTable};
use std::alloc::{AllocError, Global};
use std::hash::Hash;
use std::marker::Model;

/// The locations and the elements of a function, each once, numbered from 0 in the order in which
/// they first stand among its locations and its elements.
#[derive(Drop)]
pub struct ElementTable {
    locations: IndexSet<AbsPlace>,
    elements: IndexSet<Element>,
}

impl Model for ElementTable {
    ghost use Rattle.life_pset.specs.Table.{Table};
    ghost use Rattle.life_pset.specs.TableInvariant.{IsNumbered};

    ghost Value = { Table };

    ghost view = { λ t. record { locations = t.locations.keys; elements = t.elements.keys } };

    ghost invariant = { λ t. IsNumbered t.locations.keys t.elements.keys };
}

impl ElementTable {
    /// The table of a function, among the types of its program, by the list of its points.
    /// `is_within_limits` is the test of the limits that it requires.
    pub fn of(
        alloc: Global,
        f: &CoreFn,
        types: &TypeTable,
        spots: &[SpotRef],
    ) -> Result<ElementTable, NoMemory>
        requires limits { IsWithinLimits types.now (function_of f.now) }
        requires spots { AreSpotsOf (function_of f.now) spots.now }
        ensures { IfOk result (λ table. table ≡ table_of types.now (function_of f.now)) }
    {
        let locations = locations(alloc, f, types)?;
        let elements = elements_of(alloc, f, types, spots)?;
        let locations = number_all(alloc, &locations)?;
        let elements = number_all(alloc, &elements)?;
        Ok(ElementTable {
            locations,
            elements,
        })
    }

    /// How many locations there are.
    pub fn location_count(&self) -> u32
        ensures { result ≡ length self.now.locations }
    {
        self.locations.len() as u32
    }

    /// How many elements there are.
    pub fn element_count(&self) -> u32
        ensures { result ≡ length self.now.elements }
    {
        self.elements.len() as u32
    }

    /// The location with this number, if there is one.
    pub fn location_at(&self, number: u32) -> Option<&AbsPlace>
        ensures { option_copied result ≡ slice_get self.now.locations number }
    {
        self.locations.get_index(number as usize)
    }

    /// The element with this number, if there is one.
    pub fn element(&self, number: u32) -> Option<&Element>
        ensures { option_copied result ≡ slice_get self.now.elements number }
    {
        self.elements.get_index(number as usize)
    }

    /// The number of a location, if it is one of the function's: no other number is its.
    pub fn location(&self, place: &AbsPlace) -> Option<u32>
        ensures some { IfSome result (λ n. slice_get self.now.locations n ≡ Some place.now) }
        ensures each { (n : ℕ) → slice_get self.now.locations n ≡ Some place.now → result ≡ Some n }
    {
        narrow(self.locations.get_index_of(place))
    }

    /// The number of an element, if it is one of the function's: no other number is its.
    pub fn number(&self, element: &Element) -> Option<u32>
        ensures some { IfSome result (λ n. slice_get self.now.elements n ≡ Some element.now) }
        ensures each { (n : ℕ) → slice_get self.now.elements n ≡ Some element.now → result ≡ Some n }
    {
        narrow(self.elements.get_index_of(element))
    }
}

// Each item once, in the order in which they first stand.
fn number_all<T: Eq + Hash + Copy>(alloc: Global, list: &[T]) -> Result<IndexSet<T>, AllocError>
    ensures { IfOk result (λ set. set.keys ≡ insert_all T.eq [] list.now) }
{
    let mut set = IndexSet::new(alloc);
    set.extend(list)?;
    Ok(set)
}

// A number that fits.
fn narrow(number: Option<usize>) -> Option<u32>
    requires { IfSome number (λ n. n < 2 ^ 32) }
    ensures { result ≡ number }
{
    match number {
        Some(n) => Some(n as u32),
        None => None,
    }
}
