// How a value comes to life in a slot.
ghost use Rattle.std.specs.Prelude.{◌≡◌, ◌≤◌, ◌<◌, ◌+◌, ◌^◌, ℕ, length, IfOk, OnOk, Some};
ghost use Rattle.life_core.specs.declared.instr.Form.{Form as Birth};
ghost use Rattle.life_store.specs.Cells.{at};
ghost use Rattle.life_store.specs.Content.{CanCount, Object};
ghost use Rattle.life_store.specs.Effects.{Got, Setting, then_get};
ghost use Rattle.life_store.specs.Held.{owner_word};
ghost use Rattle.life_store.specs.Kinds.{Owner};
ghost use Rattle.life_store.specs.Owners.{birth};
ghost use Rattle.life_store.specs.Parts.{parts_at, width};
ghost use Rattle.life_seen.specs.Housed.{IsHoused, Later};
ghost use Rattle.life_seen.specs.Kinds.{kinds_of, Kinds};
ghost use Rattle.life_seen.specs.Rowed.{AreRowed};
ghost use Rattle.life_seen.specs.Seen.{seen};
ghost use Rattle.life_values.specs.Fresh.{kind_of, leaf_born, leaves_wrote, raw_word, AreBlank, AreWide, CanFill, Comes, IsFirst};
ghost use Rattle.life_values.specs.Layouts.{AreLaid};

use crate::layout::{Holds, Layout, Leaf, width_of};
use crate::spot::Spot;
use life_core::Form;
use life_store::{BirthFault, Store};
use life_types::{TyId, TypeTable};
use life_words::born;

/// Writes a fresh value where the words are 0: what it owns comes to life. `Cells` comes where the live
/// words would pass the limit.
pub fn fresh<S: Store>(
    types: &TypeTable,
    layouts: &[Layout],
    store: &mut S,
    spot: Spot,
    leaves: &[Leaf],
    form: Form,
) -> Result<(), BirthFault>
    requires layouts { AreLaid types.now layouts.now }
    requires wide { AreWide types.now }
    requires can { CanFill (kinds_of types.now) spot leaves.now (S.content store.old) (S.rows store.old) }
    requires births { (S.content store.old).births + length leaves.now < 2 ^ 63 }
    requires clock { (S.content store.old).clock < 2 ^ 63 }
    ensures comes { (s : Setting) → s.given.cells ≡ S.limit store.old
        → Comes (kinds_of types.now) (leaves_wrote s types.now form spot.object.birth spot.slot spot.word leaves.now (seen (kinds_of types.now) (S.content store.old) (S.rows store.old))) result (S.content store.new) (S.rows store.new) }
    ensures later { OnOk result (Later (S.content store.old) (S.content store.new) (S.rows store.old) (S.rows store.new)) }
    ensures rowed { (o : Object) → at (seen (kinds_of types.now) (S.content store.old) (S.rows store.old)).objects spot.object.birth ≡ Some o → AreBlank leaves.now spot.slot spot.word o
        → AreRowed (kinds_of types.now) (S.content store.old) (S.rows store.old) → OnOk result (AreRowed (kinds_of types.now) (S.content store.new) (S.rows store.new)) }
    ensures limit { S.limit store.new ≡ S.limit store.old }
{
    let raw = raw_word(form);
    for leaf in leaves {
        let first = first_word(types, layouts, store, leaf.holds, raw)?;
        match store.put(spot.object, spot.slot, spot.word + leaf.word, first) {
            Ok(()) => {}
            Err(_) => unreachable!(),
        }
    }
    Ok(())
}

// The first word of a part; the others are 0.
fn first_word<S: Store>(
    types: &TypeTable,
    layouts: &[Layout],
    store: &mut S,
    holds: Holds,
    raw: u64,
) -> Result<u64, BirthFault>
    requires layouts { AreLaid types.now layouts.now }
    requires wide { AreWide types.now }
    requires countable { CanCount (S.content store.old) }
    ensures first { (kinds : Kinds) (s : Setting) (f : Birth) → IsHoused kinds (S.content store.old) (S.rows store.old) → s.given.cells ≡ S.limit store.old → raw ≡ raw_word f
        → IsFirst kinds (leaf_born s types.now f holds (seen kinds (S.content store.old) (S.rows store.old))) (kind_of holds) result (S.content store.new) (S.rows store.new) }
    ensures births { OnOk result ((S.content store.new).births ≤ (S.content store.old).births + 1) }
    ensures clock { OnOk result ((S.content store.new).clock ≡ (S.content store.old).clock) }
    ensures later { OnOk result (Later (S.content store.old) (S.content store.new) (S.rows store.old) (S.rows store.new)) }
    ensures rowed { (kinds : Kinds) → AreRowed kinds (S.content store.old) (S.rows store.old) → OnOk result (AreRowed kinds (S.content store.new) (S.rows store.new)) }
    ensures limit { S.limit store.new ≡ S.limit store.old }
{
    match holds {
        Holds::Raw => Ok(raw),
        Holds::View => Ok(2),
        Holds::Target(_) => Ok(0),
        Holds::Characters(ty) => buffer_word(store, ty, 1),
        Holds::Elements(ty) => buffer_word(store, ty, width_of(layouts, ty)),
    }
}

// A new buffer without room, by the word that owns it.
fn buffer_word<S: Store>(store: &mut S, ty: TyId, width: u64) -> Result<u64, BirthFault>
    requires wide { 1 ≤ width }
    requires countable { CanCount (S.content store.old) }
    ensures first { (kinds : Kinds) (s : Setting) → IsHoused kinds (S.content store.old) (S.rows store.old) → s.given.cells ≡ S.limit store.old
        → IsFirst kinds (then_get (birth s ty width 0 (seen kinds (S.content store.old) (S.rows store.old))) (λ b. Got (owner_word (Some b.0), b.1))) Owner result (S.content store.new) (S.rows store.new) }
    ensures births { OnOk result ((S.content store.new).births ≤ (S.content store.old).births + 1) }
    ensures clock { OnOk result ((S.content store.new).clock ≡ (S.content store.old).clock) }
    ensures later { OnOk result (Later (S.content store.old) (S.content store.new) (S.rows store.old) (S.rows store.new)) }
    ensures rowed { (kinds : Kinds) → AreRowed kinds (S.content store.old) (S.rows store.old) → OnOk result (AreRowed kinds (S.content store.new) (S.rows store.new)) }
    ensures limit { S.limit store.new ≡ S.limit store.old }
{
    match born(store, ty, width, 0) {
        Err(fault) => Err(fault),
        Ok(buffer) => Ok(buffer.row as u64 + 1),
    }
}

fn raw_word(form: Form) -> u64
    ensures { result ≡ raw_word form }
{
    match form {
        Form::Plain => 0,
        Form::Zero => 1,
    }
}
