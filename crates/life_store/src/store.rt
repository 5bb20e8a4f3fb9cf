// The store as code sees it that is proved once for all of them.
ghost use Rattle.std.specs.Prelude.{◌≡◌, ◌≤◌, ◌<◌, ◌+◌, ◌*◌, ◌↔◌, ℕ, Err, IfOk, IfSome, IfNone, IsSome, MatchResult, None, OnErr, OnOk, Some};
ghost use Rattle.life_store.specs.Cells.{at, set, unset};
ghost use Rattle.life_store.specs.Content.{live_words_of, is_valid_in, word_at, with_birth, with_object, with_rename, with_resize, with_word, without, CanCount, Content};
ghost use Rattle.life_store.specs.References.{asked_of, object_of, shape_of, CanResize, HasWord, IsFreeRow, Rows};
ghost use Rattle.life_store.specs.declared.object.BirthFault.TheVariants as birth_fault;

use crate::object::{BirthFault, Dead, ObjRef, Shape};
use life_types::TyId;

/// Objects by references that never come back. An object has its type, at most `capacity` slots of
/// `width` words each, and stamps that say since when each of its positions stands there, the end
/// behind its last slot among them (ISO/IEC 14882:2017 [container.requirements.general]).
///
/// `Dead` comes exactly where the reference's object doesn't live, and then nothing changes.
pub trait Store {
    /// The objects that live, the births so far, and the clock.
    ghost content: { Self → Content };

    /// The row of each object that lives.
    ghost rows: { Self → Rows };

    /// The most live words. No call changes it.
    ghost limit: { Self → ℕ };

    /// A new object without slots, in a row of its own. `Cells` comes exactly where the live words
    /// would pass the limit. After an error the store is as before.
    fn birth(&mut self, ty: TyId, width: u64, capacity: u32) -> Result<ObjRef, BirthFault>
        requires wide { 1 ≤ width }
        requires countable { CanCount (content self.old) }
        ensures number { IfOk result (λ r. r.birth ≡ (content self.old).births) }
        ensures born { OnOk result (content self.new ≡ with_birth ty width capacity (content self.old)) }
        ensures free { IfOk result (λ r. IsFreeRow (rows self.old) r.row) }
        ensures row { IfOk result (λ r. rows self.new ≡ set (rows self.old) r.birth r.row) }
        ensures cells { (result ≡ Err birth_fault.Cells)
            ↔ (limit self.old < live_words_of (content self.old) + (2 + width * capacity)) }
        ensures content_stays { OnErr result (content self.new ≡ content self.old) }
        ensures rows_stay { OnErr result (rows self.new ≡ rows self.old) }
        ensures limit { limit self.new ≡ limit self.old };

    /// Ends the object.
    fn finish(&mut self, object: ObjRef) -> Result<(), Dead>
        ensures lives { MatchResult result
            (λ _. IsSome (object_of (content self.old) (rows self.old) object))
            (λ _. object_of (content self.old) (rows self.old) object ≡ None) }
        ensures ended { OnOk result (content self.new ≡ without object.birth (content self.old)) }
        ensures row { OnOk result (rows self.new ≡ unset (rows self.old) object.birth) }
        ensures content_stays { OnErr result (content self.new ≡ content self.old) }
        ensures rows_stay { OnErr result (rows self.new ≡ rows self.old) }
        ensures limit { limit self.new ≡ limit self.old };

    /// Ends the object, and gives a new one of the same type, capacity, slots and stamps.
    fn rename(&mut self, object: ObjRef) -> Result<ObjRef, Dead>
        requires countable { CanCount (content self.old) }
        ensures lives { MatchResult result
            (λ _. IsSome (object_of (content self.old) (rows self.old) object))
            (λ _. object_of (content self.old) (rows self.old) object ≡ None) }
        ensures number { IfOk result (λ r. r.birth ≡ (content self.old).births) }
        ensures renamed { OnOk result (IfSome (object_of (content self.old) (rows self.old) object)
            (λ o. content self.new ≡ with_rename object.birth o (content self.old))) }
        ensures free { IfOk result (λ r. IsFreeRow (unset (rows self.old) object.birth) r.row) }
        ensures row { IfOk result (λ r. rows self.new ≡ set (unset (rows self.old) object.birth) r.birth r.row) }
        ensures content_stays { OnErr result (content self.new ≡ content self.old) }
        ensures rows_stay { OnErr result (rows self.new ≡ rows self.old) }
        ensures limit { limit self.new ≡ limit self.old };

    /// Gives the object so many slots; the words of new ones are 0. It raises the clock, and stamps
    /// the positions from `since` on, the end among them.
    fn resize(&mut self, object: ObjRef, length: u32, since: u32) -> Result<(), Dead>
        requires countable { CanCount (content self.old) }
        requires fits { IfSome (object_of (content self.old) (rows self.old) object) (CanResize length since) }
        ensures lives { MatchResult result
            (λ _. IsSome (object_of (content self.old) (rows self.old) object))
            (λ _. object_of (content self.old) (rows self.old) object ≡ None) }
        ensures resized { OnOk result (IfSome (object_of (content self.old) (rows self.old) object)
            (λ o. content self.new ≡ with_resize object.birth length since o (content self.old))) }
        ensures content_stays { OnErr result (content self.new ≡ content self.old) }
        ensures rows_stay { rows self.new ≡ rows self.old }
        ensures limit { limit self.new ≡ limit self.old };

    /// A word of a slot.
    fn get(&self, object: ObjRef, slot: u32, word: u64) -> Result<u64, Dead>
        requires { IfSome (object_of (content self.now) (rows self.now) object) (HasWord slot word) }
        ensures { result ≡ asked_of (object_of (content self.now) (rows self.now) object) (λ o. word_at o slot word) };

    /// Sets a word of a slot. No stamp changes.
    fn put(&mut self, object: ObjRef, slot: u32, word: u64, value: u64) -> Result<(), Dead>
        requires { IfSome (object_of (content self.old) (rows self.old) object) (HasWord slot word) }
        ensures lives { MatchResult result
            (λ _. IsSome (object_of (content self.old) (rows self.old) object))
            (λ _. object_of (content self.old) (rows self.old) object ≡ None) }
        ensures written { OnOk result (IfSome (object_of (content self.old) (rows self.old) object)
            (λ o. content self.new ≡ with_object object.birth (with_word slot word value o) (content self.old))) }
        ensures content_stays { OnErr result (content self.new ≡ content self.old) }
        ensures rows_stay { rows self.new ≡ rows self.old }
        ensures limit { limit self.new ≡ limit self.old };

    /// The object's shape. Its slots are at least a word wide.
    fn shape(&self, object: ObjRef) -> Result<Shape, Dead>
        ensures shape { result ≡ asked_of (object_of (content self.now) (rows self.now) object) shape_of }
        ensures wide { IfSome (object_of (content self.now) (rows self.now) object) (λ o. 1 ≤ o.width) };

    /// The object that lies in the row. None exactly where there is none.
    fn living(&self, row: u32) -> Option<ObjRef>
        ensures found { IfSome result (λ r. (r.row ≡ row) × (at (rows self.now) r.birth ≡ Some row)) }
        ensures none { IfNone result (IsFreeRow (rows self.now) row) };

    /// Whether the object lives and each of `count` positions from `first` on is there, the end being
    /// one, and has stood there since the moment.
    fn valid(&self, object: ObjRef, first: u32, count: u32, moment: u64) -> bool
        ensures { result ≡ is_valid_in first count moment (object_of (content self.now) (rows self.now) object) };

    /// The clock.
    fn now(&self) -> u64
        ensures { result ≡ (content self.now).clock };

    /// How many words live: for each object that lives 2, and its capacity in words.
    fn live_words(&self) -> u64
        ensures { result ≡ live_words_of (content self.now) };
}
