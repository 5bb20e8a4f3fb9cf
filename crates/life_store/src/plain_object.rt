// One object of the plain store.
ghost use Rattle.std.specs.Prelude.{◌≡◌, ◌≤◌, ◌+◌, ◌*◌, ◌^◌, ◌-◌, ◌++◌, true, IfOk, length, replicate, take, vec_capacity};
ghost use Rattle.life_store.specs.Content.{are_settled, cost, newborn, resized, with_word, word_at};
ghost use Rattle.life_store.specs.References.{shape_of, CanResize, HasWord};

use crate::object::Shape;
use life_types::{NoMemory, TyId};
use std::alloc::Global;
use std::marker::Model;

/// An object with its slots. All the memory that it ever needs is taken where it is made.
#[derive(Drop)]
pub(crate) struct PlainObject {
    ty: TyId,
    width: u64,
    capacity: u32,
    // Those of the first slot, then those of the second, and so on.
    words: Vec<u64>,
    stamps: Vec<u64>,
    end: u64,
}

impl Model for PlainObject {
    ghost use Rattle.life_store.specs.Content.{Object};

    ghost Value = { Object };

    ghost use Rattle.life_store.specs.Layout.{object_in, IsLaidOut};

    ghost view = { object_in };

    ghost invariant = { IsLaidOut };
}

impl PlainObject {
    /// An object without slots. `NoMemory` says that memory was wanted.
    pub(crate) fn new(
        alloc: Global,
        ty: TyId,
        width: u64,
        capacity: u32,
        end: u64,
    ) -> Result<PlainObject, NoMemory>
        requires wide { 1 ≤ width }
        requires small { 2 + width * capacity ≤ 2 ^ 32 }
        ensures { IfOk result (λ object. object ≡ newborn ty width capacity end) }
    {
        let words = Vec::with_capacity(alloc, capacity as usize * width as usize)?;
        let stamps = Vec::with_capacity(alloc, capacity as usize)?;
        Ok(PlainObject {
            ty,
            width,
            capacity,
            words,
            stamps,
            end,
        })
    }

    /// Makes it an object without slots again, which takes the memory that it has.
    pub(crate) fn renew(&mut self, ty: TyId, end: u64)
        ensures { self.new ≡ newborn ty self.old.width self.old.capacity end }
    {
        self.ty = ty;
        self.words.truncate(0);
        self.stamps.truncate(0);
        self.end = end;
    }

    /// Whether it has at most so many slots of so many words each.
    #[inline(always)]
    pub(crate) fn has_room(&self, width: u64, capacity: u32) -> bool
        ensures width { result ≡ true → self.now.width ≡ width }
        ensures capacity { result ≡ true → self.now.capacity ≡ capacity }
    {
        if self.width == width {
            self.capacity == capacity
        } else {
            false
        }
    }

    /// How many live words it takes.
    pub(crate) fn cost(&self) -> u64
        ensures cost { result ≡ cost self.now }
        ensures small { result ≤ 2 ^ 32 }
    {
        2 + self.width * self.capacity as u64
    }

    /// Its shape. Its slots are at least a word wide.
    #[inline(always)]
    pub(crate) fn shape(&self) -> Shape
        ensures shape { result ≡ shape_of self.now }
        ensures wide { 1 ≤ self.now.width }
    {
        Shape {
            ty: self.ty,
            length: self.stamps.len() as u32,
            capacity: self.capacity,
        }
    }

    /// Gives it so many slots, and stamps the positions from `since` on.
    pub(crate) fn resize(&mut self, length: u32, since: u32, moment: u64)
        requires fits { CanResize length since self.old }
        requires later { self.old.end ≤ moment }
        ensures { self.new ≡ resized moment length since self.old }
    {
        let total = length as usize * self.width as usize;
        refill(&mut self.words, total, 0);
        self.stamps.truncate(since as usize);
        refill(&mut self.stamps, length as usize, moment);
        self.end = moment;
    }

    /// A word of a slot.
    #[inline(always)]
    pub(crate) fn get(&self, slot: u32, word: u64) -> u64
        requires { HasWord slot word self.now }
        ensures { result ≡ word_at self.now slot word }
    {
        self.words[slot as usize * self.width as usize + word as usize]
    }

    /// Sets a word of a slot.
    #[inline(always)]
    pub(crate) fn put(&mut self, slot: u32, word: u64, value: u64)
        requires { HasWord slot word self.old }
        ensures { self.new ≡ with_word slot word value self.old }
    {
        let at = slot as usize * self.width as usize + word as usize;
        self.words[at] = value;
    }

    /// Whether the `count` positions from `first` on are there, the end being one, and have stood there since the moment.
    #[inline(always)]
    pub(crate) fn are_settled(&self, first: u32, count: u32, moment: u64) -> bool
        ensures { result ≡ are_settled self.now first count moment }
    {
        if count == 0 {
            return true;
        }
        // No position has an earlier stamp than one before it, so the last one tells of all.
        let last = first as usize + (count as usize - 1);
        if last == self.stamps.len() {
            self.end <= moment
        } else if last < self.stamps.len() {
            self.stamps[last] <= moment
        } else {
            false
        }
    }
}

/// Cuts the list to so many numbers, or fills it up to so many.
fn refill(numbers: &mut Vec<u64>, count: usize, value: u64)
    requires { count ≤ vec_capacity numbers.old }
    ensures items { numbers.new.items ≡ take count numbers.old.items ++ replicate (count - length numbers.old.items) value }
    ensures capacity { vec_capacity numbers.old ≤ vec_capacity numbers.new }
{
    match numbers.resize(count, value) {
        Ok(()) => {}
        Err(_) => unreachable!(),
    }
}
