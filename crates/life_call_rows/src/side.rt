// A function of a row, and what its places and elements are called.
use life_contract::Signatures;
use life_core::{CoreFn, Names};
use life_pset::{AbsPlace, Element, elements, locations};
use life_row_text::Refusal;
use life_rules::{element_text, place_text};
use life_types::{NoMemory, TypeTable};
use std::alloc::Global;

/// A function of a row.
#[derive(Clone, Copy)]
pub struct Side<'a> {
    pub alloc: Global,
    pub names: &'a Names,
    pub types: &'a TypeTable,
    pub sigs: &'a Signatures,
    pub f: &'a CoreFn,
    /// The same with a name for each local.
    pub named: &'a CoreFn,
}

impl<'a> Side<'a> {
    pub fn place_text(self, place: &AbsPlace) -> Result<Vec<u8>, NoMemory> {
        place_text(self.alloc, self.names, self.named, self.types, place)
    }

    pub fn element_text(self, element: &Element) -> Result<Vec<u8>, NoMemory> {
        element_text(
            self.alloc, self.names, self.named, self.sigs, self.types, element,
        )
    }

    /// The location of the function that is printed so.
    pub fn location(self, text: &str) -> Result<AbsPlace, Refusal> {
        if self.f.locals.len() > u32::MAX as usize {
            return Err(Refusal::PastLimit);
        }
        for place in &locations(self.alloc, self.f, self.types)? {
            if self.place_text(place)?.as_slice() == text.as_bytes() {
                return Ok(*place);
            }
        }
        Err(Refusal::NoName)
    }

    /// The element of the function that is printed so.
    pub fn element(self, text: &str) -> Result<Element, Refusal> {
        if self.f.locals.len() > u32::MAX as usize {
            return Err(Refusal::PastLimit);
        }
        for element in &elements(self.alloc, self.f, self.types)? {
            if self.element_text(element)?.as_slice() == text.as_bytes() {
                return Ok(*element);
            }
        }
        Err(Refusal::NoName)
    }
}
