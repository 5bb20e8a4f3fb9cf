// Memory that objects had, kept for those that come after them: most objects of a run are numbers that live shortly.
ghost use Rattle.std.specs.Prelude.{◌≡◌, ◌≤◌, ◌+◌, ◌*◌, ◌^◌, IfOk};
ghost use Rattle.life_store.specs.Content.{newborn};

use crate::plain_object::PlainObject;
use life_types::{NoMemory, TyId};
use std::alloc::Global;

// The most objects whose memory is kept.
const MOST_KEPT: usize = 64;

/// An object without slots. `NoMemory` says that memory was wanted: there is kept memory for an object of one word alone.
pub(crate) fn object_from(
    spare: &mut Vec<PlainObject>,
    alloc: Global,
    ty: TyId,
    width: u64,
    capacity: u32,
    end: u64,
) -> Result<PlainObject, NoMemory>
    requires wide { 1 ≤ width }
    requires small { 2 + width * capacity ≤ 2 ^ 32 }
    ensures { IfOk result (λ object. object ≡ newborn ty width capacity end) }
{
    if width == 1 {
        if let Some(mut object) = spare.pop() {
            if object.has_room(width, capacity) {
                object.renew(ty, end);
                return Ok(object);
            }
        }
    }
    PlainObject::new(alloc, ty, width, capacity, end)
}

/// Keeps the memory of an object of one word, while little is kept. Where there is no memory to note that, nothing is kept.
pub(crate) fn keep(spare: &mut Vec<PlainObject>, object: PlainObject) {
    if !object.has_room(1, 1) {
        return;
    }
    if spare.len() < MOST_KEPT {
        match spare.push(object) {
            Ok(()) => {}
            Err(_) => {}
        }
    }
}
