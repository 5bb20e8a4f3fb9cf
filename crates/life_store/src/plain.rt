// The plain store: objects in rows, each with memory of its own.
ghost use Rattle.std.specs.Prelude.{◌≡◌, ◌≤◌, ◌<◌, ◌+◌, ◌*◌, ◌^◌, [], MatchOption};
ghost use Rattle.life_store.specs.PlainRows.{content_of, rows_of};

use crate::object::{BirthFault, Dead, ObjRef, Shape};
use crate::plain_object::PlainObject;
use crate::plain_rows::{
    Entry, entry_at, fill_row, put_entry, put_word, resize_at, take_entry, vacant_row,
};
use crate::spare::{keep, object_from};
use crate::store::Store;
use life_types::TyId;
use std::alloc::Global;
use std::marker::Model;

/// Objects in rows. A birth takes the lowest row that is vacant, and all memory that the object's
/// later calls need: what a number had that ended, where some is kept, and else new memory.
#[derive(Drop)]
pub struct PlainStore {
    alloc: Global,
    rows: Vec<Option<Entry>>,
    // Memory of objects that ended.
    spare: Vec<PlainObject>,
    // No row below this one is vacant.
    lowest: usize,
    births: u64,
    clock: u64,
    live: u64,
    limit: u32,
}

impl Model for PlainStore {
    ghost use Rattle.life_store.specs.PlainRows.{Table};

    ghost Value = { Table };

    ghost use Rattle.life_store.specs.PlainStore.{table_in, IsSound};

    ghost view = { table_in };

    ghost invariant = { IsSound };
}

impl PlainStore {
    /// A store without objects, in which at most so many words may live. It takes no memory.
    pub fn new(alloc: Global, words: u32) -> PlainStore
        ensures { result ≡ record { rows = []; births = 0; clock = 0; limit = words } }
    {
        PlainStore {
            alloc,
            rows: Vec::new(alloc),
            spare: Vec::new(alloc),
            lowest: 0,
            births: 0,
            clock: 0,
            live: 0,
            limit: words,
        }
    }
}

impl Store for PlainStore {
    ghost content = { content_of };

    ghost rows = { rows_of };

    ghost limit = { λ table. table.limit };

    fn birth(&mut self, ty: TyId, width: u64, capacity: u32) -> Result<ObjRef, BirthFault> {
        let Some(live) = live_after(self.live, width, capacity, self.limit) else {
            return Err(BirthFault::Cells);
        };
        let object = object_from(&mut self.spare, self.alloc, ty, width, capacity, self.clock)?;
        let birth = self.births;
        let row = vacant_row(&self.rows, self.lowest);
        fill_row(&mut self.rows, row, Entry { birth, object })?;
        self.lowest = row + 1;
        self.births += 1;
        self.live = live;
        Ok(ObjRef {
            row: row as u32,
            birth,
        })
    }

    fn finish(&mut self, object: ObjRef) -> Result<(), Dead> {
        let Some(entry) = take_entry(&mut self.rows, object) else {
            return Err(Dead);
        };
        self.live -= entry.object.cost();
        self.lowest = self.lowest.min(object.row as usize);
        keep(&mut self.spare, entry.object);
        Ok(())
    }

    fn rename(&mut self, object: ObjRef) -> Result<ObjRef, Dead> {
        let Some(entry) = take_entry(&mut self.rows, object) else {
            return Err(Dead);
        };
        let birth = self.births;
        put_entry(&mut self.rows, object.row, Entry { birth, ..entry });
        self.births += 1;
        Ok(ObjRef {
            row: object.row,
            birth,
        })
    }

    fn resize(&mut self, object: ObjRef, length: u32, since: u32) -> Result<(), Dead> {
        let moment = self.clock + 1;
        if !resize_at(&mut self.rows, object, length, since, moment) {
            return Err(Dead);
        }
        self.clock = moment;
        Ok(())
    }

    #[inline(always)]
    fn get(&self, object: ObjRef, slot: u32, word: u64) -> Result<u64, Dead> {
        match entry_at(&self.rows, object) {
            None => Err(Dead),
            Some(entry) => Ok(entry.object.get(slot, word)),
        }
    }

    #[inline(always)]
    fn put(&mut self, object: ObjRef, slot: u32, word: u64, value: u64) -> Result<(), Dead> {
        if !put_word(&mut self.rows, object, slot, word, value) {
            return Err(Dead);
        }
        Ok(())
    }

    #[inline(always)]
    fn shape(&self, object: ObjRef) -> Result<Shape, Dead> {
        match entry_at(&self.rows, object) {
            None => Err(Dead),
            Some(entry) => Ok(entry.object.shape()),
        }
    }

    #[inline(always)]
    fn living(&self, row: u32) -> Option<ObjRef> {
        let at = row as usize;
        if at < self.rows.len() {
            if let Some(entry) = &self.rows[at] {
                return Some(ObjRef {
                    row,
                    birth: entry.birth,
                });
            }
        }
        None
    }

    #[inline(always)]
    fn valid(&self, object: ObjRef, first: u32, count: u32, moment: u64) -> bool {
        match entry_at(&self.rows, object) {
            None => false,
            Some(entry) => entry.object.are_settled(first, count, moment),
        }
    }

    #[inline(always)]
    fn now(&self) -> u64 {
        self.clock
    }

    fn live_words(&self) -> u64 {
        self.live
    }
}

/// The live words with those of a birth, if they stay within the limit.
fn live_after(live: u64, width: u64, capacity: u32, limit: u32) -> Option<u64>
    requires { live ≤ limit }
    ensures { MatchOption result
        (limit < live + (2 + width * capacity))
        (λ after. (after ≡ live + (2 + width * capacity)) × (after ≤ limit)) }
{
    let words = width.checked_mul(capacity as u64)?;
    let cost = words.checked_add(2)?;
    let after = live.checked_add(cost)?;
    if after <= limit as u64 {
        Some(after)
    } else {
        None
    }
}
