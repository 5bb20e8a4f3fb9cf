// A store's calls in a row, with ample memory.
ghost use Rattle.std.specs.Prelude.{◌≡◌, ◌≤◌, ◌+◌, Some};
ghost use Rattle.life_store.specs.Content.{CanCount};
ghost use Rattle.life_store.specs.PlainRows.{content_of};

use life_store::{BirthFault, Dead, ObjRef, PlainStore, Store};
use life_types::TyId;
use std::test::Fail;

const TY: TyId = TyId(7);

// A birth, which counts one number at most.
fn born(store: &mut PlainStore, width: u64, capacity: u32) -> Result<ObjRef, BirthFault>
    requires wide { 1 ≤ width }
    requires countable { CanCount (content_of store.old) }
    ensures births { store.new.births ≤ store.old.births + 1 }
    ensures clock { store.new.clock ≤ store.old.clock }
{
    store.birth(TY, width, capacity)
}

fn renamed(store: &mut PlainStore, object: ObjRef) -> Result<ObjRef, Dead>
    requires countable { CanCount (content_of store.old) }
    ensures births { store.new.births ≤ store.old.births + 1 }
    ensures clock { store.new.clock ≤ store.old.clock }
{
    store.rename(object)
}

fn finished(store: &mut PlainStore, object: ObjRef) -> bool
    ensures births { store.new.births ≤ store.old.births }
    ensures clock { store.new.clock ≤ store.old.clock }
{
    store.finish(object).is_ok()
}

// A change of the length, where it fits.
fn resized(store: &mut PlainStore, object: ObjRef, length: u32, since: u32) -> bool
    requires countable { CanCount (content_of store.old) }
    ensures births { store.new.births ≤ store.old.births }
    ensures clock { store.new.clock ≤ store.old.clock + 1 }
{
    match store.shape(object) {
        Err(_) => false,
        Ok(shape) => {
            if length <= shape.capacity && since <= length && since <= shape.length {
                store.resize(object, length, since).is_ok()
            } else {
                false
            }
        }
    }
}

// The first word of a slot that is there, set.
fn set(store: &mut PlainStore, object: ObjRef, slot: u32, value: u64) -> bool
    ensures births { store.new.births ≤ store.old.births }
    ensures clock { store.new.clock ≤ store.old.clock }
{
    match store.shape(object) {
        Err(_) => false,
        Ok(shape) => {
            if slot < shape.length {
                store.put(object, slot, 0, value).is_ok()
            } else {
                false
            }
        }
    }
}

// .. and read.
fn first_word(store: &PlainStore, object: ObjRef, slot: u32) -> Option<u64> {
    match store.shape(object) {
        Err(_) => None,
        Ok(shape) => {
            if slot < shape.length {
                store.get(object, slot, 0).ok()
            } else {
                None
            }
        }
    }
}

#[test]
fn an_object_lives_until_its_end(rt: HostRuntime) -> Result<(), Fail> {
    let mut store = PlainStore::new(rt.alloc(), 20);
    let pair = born(&mut store, 2, 3)?;
    assert_eq!(rt; store.live_words(), 8);
    assert!(rt; store.valid(pair, 0, 1, 0));
    assert!(rt; resized(&mut store, pair, 2, 0));
    assert_eq!(rt; store.now(), 1);
    assert!(rt; !store.valid(pair, 0, 1, 0));
    assert!(rt; store.valid(pair, 0, 3, 1));
    assert!(rt; !store.valid(pair, 0, 4, 1));
    assert_eq!(rt; first_word(&store, pair, 1), Some(0));
    assert!(rt; set(&mut store, pair, 1, 5));
    assert_eq!(rt; first_word(&store, pair, 1), Some(5));
    assert!(rt; resized(&mut store, pair, 3, 2));
    assert!(rt; store.valid(pair, 0, 2, 1));
    assert!(rt; !store.valid(pair, 2, 1, 1));
    let again = renamed(&mut store, pair)?;
    assert_eq!(rt; first_word(&store, pair, 1), None);
    assert_eq!(rt; first_word(&store, again, 1), Some(5));
    assert_eq!(rt; store.living(again.row), Some(again));
    assert_eq!(rt; store.live_words(), 8);
    assert_eq!(rt; born(&mut store, 1, 11), Err(BirthFault::Cells));
    let single = born(&mut store, 1, 10)?;
    assert_eq!(rt; store.live_words(), 20);
    assert!(rt; finished(&mut store, again));
    assert!(rt; !finished(&mut store, again));
    assert!(rt; !store.valid(again, 0, 0, 9));
    assert_eq!(rt; store.living(again.row), None);
    assert_eq!(rt; store.living(single.row), Some(single));
    assert_eq!(rt; store.live_words(), 12);
    Ok(())
}
