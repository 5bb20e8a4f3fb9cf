// The places where a pointer may point.
ghost use Rattle.std.specs.Prelude.{◌≡◌, ◌≤◌, ◌↔◌, ◌⊎◌, [], Contains, IsTrue, OnOk, length};
ghost use Rattle.life_pset.specs.Places.{path};
ghost use Rattle.life_contract.specs.Targets.{HasOuter, HasPart, Overlap, outer, outline};

use indexmap::IndexSet;
use life_pset::AbsPlace;
use life_types::NoMemory;
use std::alloc::Global;
use std::marker::Model;

/// The places where a pointer may point, each once, and so kept that whether some of them overlap some
/// of another pointer's is told by look-ups.
#[derive(Drop)]
pub struct Targets {
    places: IndexSet<AbsPlace>,
    // The same, without what may stand behind the steps of a place: the form in which they are looked up.
    outlines: IndexSet<AbsPlace>,
}

impl Model for Targets {
    ghost use Rattle.std.specs.Prelude.{List};
    ghost use Rattle.life_pset.specs.declared.element.AbsPlace.{AbsPlace};
    ghost use Rattle.life_contract.specs.Targets.{IsOutlined};

    ghost Value = { List AbsPlace };

    ghost view = { λ t. t.places.keys };

    ghost invariant = { λ t. IsOutlined t.places.keys t.outlines.keys };
}

impl Targets {
    /// No place yet. It takes no memory.
    pub fn new(alloc: Global) -> Targets
        ensures { result ≡ [] }
    {
        Targets {
            places: IndexSet::new(alloc),
            outlines: IndexSet::new(alloc),
        }
    }

    /// Adds a place. The only error is the want of memory.
    pub fn add(&mut self, place: &AbsPlace) -> Result<(), NoMemory>
        ensures { OnOk result ((p : AbsPlace) → Contains self.new p ↔ (Contains self.old p ⊎ (p ≡ place.now))) }
    {
        // So that no place is ever there without its outline.
        self.outlines.reserve(1)?;
        self.places.insert(*place)?;
        self.outlines.insert(outline(place))?;
        Ok(())
    }

    /// Whether the pointer may point to this place.
    pub fn contains(&self, place: &AbsPlace) -> bool
        ensures { IsTrue result ↔ Contains self.now place.now }
    {
        self.places.contains(place)
    }

    /// Whether some of the places overlaps one of the others. It takes no memory, and looks up no more
    /// than nine places for each one of both.
    pub fn overlap(&self, others: &Targets) -> bool
        ensures { IsTrue result ↔ Overlap self.now others.now }
    {
        self.has_part_in(others) || others.has_part_in(self)
    }

    // Whether some of the places is one of the others, or a part of it.
    fn has_part_in(&self, others: &Targets) -> bool
        ensures { IsTrue result ↔ HasPart self.now others.now }
    {
        for place in self.places.as_slice() {
            if has_outer(place, &others.outlines) {
                return true;
            }
        }
        false
    }
}

// Whether some place on the way to this one, itself included, is among the outlines.
fn has_outer(place: &AbsPlace, outlines: &IndexSet<AbsPlace>) -> bool
    ensures { IsTrue result ↔ HasOuter place.now outlines.now.keys }
{
    for count in 0..place.path().len() + 1 {
        if outlines.contains(&outer(place, count)) {
            return true;
        }
    }
    false
}

// The place itself, and nothing behind its steps.
fn outline(place: &AbsPlace) -> AbsPlace
    ensures { result ≡ outline place.now }
{
    outer(place, place.path().len())
}

// The place that is so many steps from the root on the way to this one, and nothing behind them.
fn outer(place: &AbsPlace, count: usize) -> AbsPlace
    requires { count ≤ length (path place.now) }
    ensures { result ≡ outer place.now count }
{
    let mut steps = [0; 8];
    steps[..count].copy_from_slice(&place.path()[..count]);
    AbsPlace {
        root: place.root,
        length: count as u8,
        steps,
    }
}
