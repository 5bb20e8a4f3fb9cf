// How a string gets other characters.
ghost use Rattle.std.specs.Prelude.{◌≡◌, ◌<◌, ◌+◌, ◌^◌, length, OnOk};
ghost use Rattle.life_store.specs.Effects.{Setting};
ghost use Rattle.life_store.specs.Kinds.{Plain};
ghost use Rattle.life_forest.specs.Kinds.{kinds_of as forest_kinds};
ghost use Rattle.life_seen.specs.Housed.{Later};
ghost use Rattle.life_seen.specs.Kinds.{kinds_of};
ghost use Rattle.life_seen.specs.Rowed.{AreRowed};
ghost use Rattle.life_seen.specs.Seen.{seen};
ghost use Rattle.life_values.specs.Ended.{ended_number};
ghost use Rattle.life_values.specs.Fresh.{Comes};
ghost use Rattle.life_values.specs.Layouts.{AreLayouts};
ghost use Rattle.life_values.specs.Rewritten.{given_characters, CanRewrite};

use crate::layout::Layout;
use crate::replacing::replace;
use crate::spot::Spot;
use crate::texts::text;
use life_store::{BirthFault, Store};
use life_types::{TyId, TypeTable};

/// Gives a string other characters: a fresh buffer of just these takes the place of the old one, which
/// ends. `Cells` comes where the live words would pass the limit.
pub fn rewrite<S: Store>(
    types: &TypeTable,
    layouts: &[Layout],
    store: &mut S,
    spot: Spot,
    owners: &[u64],
    ty: TyId,
    characters: &[u64],
    depth: u32,
) -> Result<(), BirthFault>
    requires layouts { AreLayouts (kinds_of types.now) layouts.now }
    requires plain { kinds_of types.now ty 0 ≡ Plain }
    requires can { CanRewrite (kinds_of types.now) (forest_kinds types.now) depth spot owners.now ty (S.content store.old) (S.rows store.old) }
    requires short { length characters.now < 2 ^ 32 }
    requires births { (S.content store.old).births + 1 < 2 ^ 63 }
    requires clock { (S.content store.old).clock < 2 ^ 63 }
    ensures rewritten { (s : Setting) → s.given.cells ≡ S.limit store.old
        → Comes (kinds_of types.now) (given_characters s (ended_number (forest_kinds types.now) depth) ty spot.object.birth spot.slot spot.word owners.now characters.now (seen (kinds_of types.now) (S.content store.old) (S.rows store.old))) result (S.content store.new) (S.rows store.new) }
    ensures later { OnOk result (Later (S.content store.old) (S.content store.new) (S.rows store.old) (S.rows store.new)) }
    ensures rowed { AreRowed (kinds_of types.now) (S.content store.old) (S.rows store.old) → OnOk result (AreRowed (kinds_of types.now) (S.content store.new) (S.rows store.new)) }
    ensures limit { S.limit store.new ≡ S.limit store.old }
{
    match text(types, store, ty, characters) {
        Err(fault) => Err(fault),
        Ok(fresh) => {
            replace(types, layouts, store, spot, owners, fresh, depth);
            Ok(())
        }
    }
}
