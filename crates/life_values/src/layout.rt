// Where what owns and what points lies in the values of each type.
ghost use Rattle.std.specs.Prelude.{◌≡◌, ◌+◌, ◌++◌, ◌∷◌, [], map, OnOk};
ghost use Rattle.life_values.specs.Layouts.{leaves_at, moved, owned_word, owner_words, owners_at, width_at};

use life_types::{NoMemory, TyId};
use std::alloc::Global;

/// What begins at a word of a value, where it isn't a number or an iterator.
#[derive(Clone, Copy)]
pub enum Holds {
    /// A raw pointer or a reference.
    Raw,
    /// A view or a span.
    View,
    /// A string: what owns its characters, which are of this type.
    Characters(TyId),
    /// A vector: what owns its elements.
    Elements(TyId),
    /// A `std::unique_ptr`: what may own its target.
    Target(TyId),
}

/// A part of a value that has no parts of its own, and the word at which it begins.
#[derive(Clone, Copy)]
pub struct Leaf {
    pub word: u64,
    pub holds: Holds,
}

/// How the values of a type lie in a slot.
#[derive(Drop)]
pub struct Layout {
    /// How many words one has.
    pub width: u64,
    /// The words that own something, in their order.
    pub owners: Vec<u64>,
    /// What isn't a number or an iterator, in the order of words.
    pub leaves: Vec<Leaf>,
}

impl Layout {
    pub(crate) fn empty(alloc: Global) -> Layout
        ensures width { result.width ≡ 0 }
        ensures owners { result.owners.items ≡ [] }
        ensures leaves { result.leaves.items ≡ [] }
    {
        Layout {
            width: 0,
            owners: Vec::new(alloc),
            leaves: Vec::new(alloc),
        }
    }

    // A part behind the others, which is as wide as it says.
    pub(crate) fn push(&mut self, leaf: Leaf) -> Result<(), NoMemory>
        ensures leaves { OnOk result (self.new.leaves.items ≡ self.old.leaves.items ++ leaf ∷ []) }
        ensures owners { OnOk result (self.new.owners.items ≡ self.old.owners.items ++ owned_word leaf) }
        ensures width { self.new.width ≡ self.old.width }
    {
        self.leaves.push(leaf)?;
        match leaf.holds {
            Holds::Raw | Holds::View => Ok(()),
            Holds::Characters(_) | Holds::Elements(_) | Holds::Target(_) => {
                self.owners.push(leaf.word)?;
                Ok(())
            }
        }
    }

    /// The parts of another layout behind those of this one.
    pub(crate) fn append(&mut self, part: &Layout) -> Result<(), NoMemory>
        ensures width { OnOk result (self.new.width ≡ self.old.width + part.now.width) }
        ensures leaves { OnOk result (self.new.leaves.items ≡ self.old.leaves.items ++ map (moved self.old.width) part.now.leaves.items) }
        ensures owners { OnOk result (self.new.owners.items ≡ self.old.owners.items ++ owner_words (map (moved self.old.width) part.now.leaves.items)) }
    {
        let by = self.width;
        for leaf in &part.leaves {
            let word = by.checked_add(leaf.word).ok_or(NoMemory)?;
            self.push(Leaf {
                word,
                holds: leaf.holds,
            })?;
        }
        self.width = by.checked_add(part.width).ok_or(NoMemory)?;
        Ok(())
    }
}

/// Those of a type that own. Of one that the table doesn't have there are none.
pub fn owners_of(layouts: &[Layout], ty: TyId) -> &[u64]
    ensures { result.now ≡ owners_at layouts.now ty }
{
    match layouts.get(ty.0 as usize) {
        None => &[],
        Some(layout) => &layout.owners,
    }
}

/// The parts of a type that aren't numbers. Of one that the table doesn't have there are none.
pub fn leaves_of(layouts: &[Layout], ty: TyId) -> &[Leaf]
    ensures { result.now ≡ leaves_at layouts.now ty }
{
    match layouts.get(ty.0 as usize) {
        None => &[],
        Some(layout) => &layout.leaves,
    }
}

/// How many words a value of a type has: one, if the table doesn't have the type.
pub fn width_of(layouts: &[Layout], ty: TyId) -> u64
    ensures { result ≡ width_at layouts.now ty }
{
    match layouts.get(ty.0 as usize) {
        None => 1,
        Some(layout) => layout.width,
    }
}
