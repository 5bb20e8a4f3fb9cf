// The tokens behind the parts of a list.
ghost use Rattle.std.specs.Prelude.{◌≡◌, IfOk, get_or};
ghost use Rattle.life_typed.specs.Delimiters.{delimiters_view};

use life_types::{NoMemory, Place};
use std::alloc::Global;
use std::vec::Vec;

/// Where the tokens behind the parts of a list stand: the arguments of a call, or the elements in
/// braces.
#[derive(Drop)]
pub struct Delimiters {
    /// The commas, one behind each part but the last.
    pub commas: Vec<Place>,
    /// What closes the list.
    pub closing: Place,
}

impl Delimiters {
    /// These commas, and what closes the list. They lie in a box, as most expressions have none.
    pub fn of(alloc: Global, commas: &[Place], closing: Place) -> Result<Box<Delimiters>, NoMemory>
        ensures { IfOk result (λ d. delimiters_view d.value ≡ record { commas = commas.now; closing = closing }) }
    {
        let commas = commas.to_vec(alloc)?;
        Ok(Box::new(alloc, Delimiters { commas, closing })?)
    }

    /// The token behind the part with this number, counted from 0.
    pub fn behind(&self, number: usize) -> Place
        ensures { result ≡ get_or self.now.commas.items number self.now.closing }
    {
        match self.commas.get(number) {
            Some(comma) => *comma,
            None => self.closing,
        }
    }
}
