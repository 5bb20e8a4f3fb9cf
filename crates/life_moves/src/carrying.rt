// How a value is copied to another place of its type.
ghost use Rattle.std.specs.Prelude.{◌≡◌, length, IfOk, OnOk};
ghost use Rattle.life_types.specs.Trees.{IsOrdered};
ghost use Rattle.life_store.specs.Effects.{Setting};
ghost use Rattle.life_store.specs.Parts.{parts_at};
ghost use Rattle.life_forest.specs.Kinds.{kinds_of as forest_kinds};
ghost use Rattle.life_seen.specs.Housed.{Later, Shows};
ghost use Rattle.life_seen.specs.Kinds.{kinds_of};
ghost use Rattle.life_seen.specs.Rowed.{AreRowed};
ghost use Rattle.life_seen.specs.Seen.{seen};
ghost use Rattle.life_values.specs.Copied.{ComesCopied};
ghost use Rattle.life_values.specs.Ended.{ended_number};
ghost use Rattle.life_values.specs.Fresh.{AreWide};
ghost use Rattle.life_values.specs.Layouts.{owners_at, width_at, AreLaid};
ghost use Rattle.life_values.specs.Moved.{place};
ghost use Rattle.life_moves.specs.CopiedTo.{all_given, copied_over, overwritten, AreMade, CanCopyFrom, CanCopyTo, CanGive, ComeCopied, IsOver};

use life_store::{ObjRef, Store};
use life_types::{TyId, TypeTable};
use life_values::{CopyFault, Layout, Spot, copy_deep, copy_words, end_words, owners_of, width_of};
use life_words::{own, owned};
use std::alloc::Global;

/// A copy of a value comes to another place of its type. What the place had ends, with all beneath it:
/// at most so many steps of owning. `Moved` comes where the value, or a part of it, was moved from.
pub fn copy_value<S: Store>(
    alloc: Global,
    types: &TypeTable,
    layouts: &[Layout],
    store: &mut S,
    from: Spot,
    to: Spot,
    ty: TyId,
    depth: u32,
) -> Result<(), CopyFault>
    requires layouts { AreLaid types.now layouts.now }
    requires ordered { IsOrdered types.now }
    requires wide { AreWide types.now }
    requires can { CanCopyTo types.now (S.limit store.old) depth ty from to (S.content store.old) (S.rows store.old) }
    ensures copied { (s : Setting) → s.given.cells ≡ S.limit store.old
        → ComesCopied (kinds_of types.now) (copied_over s (parts_at types.now ty) (place from) (place to) (seen (kinds_of types.now) (S.content store.old) (S.rows store.old))) result (S.content store.new) (S.rows store.new) }
    ensures later { OnOk result (Later (S.content store.old) (S.content store.new) (S.rows store.old) (S.rows store.new)) }
    ensures rowed { AreRowed (kinds_of types.now) (S.content store.old) (S.rows store.old) → OnOk result (AreRowed (kinds_of types.now) (S.content store.new) (S.rows store.new)) }
    ensures limit { S.limit store.new ≡ S.limit store.old }
{
    match copies_of(alloc, types, layouts, store, from, ty, depth) {
        Err(fault) => Err(fault),
        Ok(copies) => {
            overwrite(types, layouts, store, from, to, ty, depth);
            give_all(types, store, to, owners_of(layouts, ty), &copies);
            Ok(())
        }
    }
}

// A copy of what each owner of the value owns. All are there before a word is written.
fn copies_of<S: Store>(
    alloc: Global,
    types: &TypeTable,
    layouts: &[Layout],
    store: &mut S,
    from: Spot,
    ty: TyId,
    depth: u32,
) -> Result<Vec<ObjRef>, CopyFault>
    requires layouts { AreLaid types.now layouts.now }
    requires ordered { IsOrdered types.now }
    requires can { CanCopyFrom types.now (S.limit store.old) depth ty from (S.content store.old) (S.rows store.old) }
    ensures copied { ComeCopied layouts.now (S.limit store.old) depth (owners_at layouts.now ty) (place from) (seen (kinds_of types.now) (S.content store.old) (S.rows store.old)) result (seen (kinds_of types.now) (S.content store.new) (S.rows store.new)) }
    ensures made { IfOk result (λ copies. AreMade types.now (S.limit store.old) copies.items (seen (kinds_of types.now) (S.content store.old) (S.rows store.old)) (S.content store.new) (S.rows store.new)) }
    ensures count { IfOk result (λ copies. length copies.items ≡ length (owners_at layouts.now ty)) }
    ensures later { OnOk result (Later (S.content store.old) (S.content store.new) (S.rows store.old) (S.rows store.new)) }
    ensures rowed { AreRowed (kinds_of types.now) (S.content store.old) (S.rows store.old) → OnOk result (AreRowed (kinds_of types.now) (S.content store.new) (S.rows store.new)) }
    ensures limit { S.limit store.new ≡ S.limit store.old }
{
    let owners = owners_of(layouts, ty);
    let mut copies = Vec::new(alloc);
    for word in owners {
        match owned(store, from.object, from.slot, from.word + *word) {
            None => return Err(CopyFault::Moved),
            Some(held) => match copy_deep(types, layouts, store, held, depth) {
                Err(fault) => return Err(fault),
                Ok(copy) => match copies.push(copy) {
                    Err(_) => return Err(CopyFault::NoMemory),
                    Ok(()) => {}
                },
            },
        }
    }
    Ok(copies)
}

// What a place has ends, and the words of another come there as they are.
fn overwrite<S: Store>(
    types: &TypeTable,
    layouts: &[Layout],
    store: &mut S,
    from: Spot,
    to: Spot,
    ty: TyId,
    depth: u32,
)
    requires layouts { AreLaid types.now layouts.now }
    requires ordered { IsOrdered types.now }
    requires wide { AreWide types.now }
    requires can { CanCopyTo types.now (S.limit store.old) depth ty from to (S.content store.old) (S.rows store.old) }
    ensures shows { Shows (kinds_of types.now) (S.content store.new) (S.rows store.new)
        (overwritten (ended_number (forest_kinds types.now) depth) (place from) (place to) (width_at layouts.now ty) (owners_at layouts.now ty) (seen (kinds_of types.now) (S.content store.old) (S.rows store.old))) }
    ensures over { IsOver types.now to.object.birth (seen (kinds_of types.now) (S.content store.old) (S.rows store.old)) (seen (kinds_of types.now) (S.content store.new) (S.rows store.new)) }
    ensures later { Later (S.content store.old) (S.content store.new) (S.rows store.old) (S.rows store.new) }
    ensures rowed { AreRowed (kinds_of types.now) (S.content store.old) (S.rows store.old) → AreRowed (kinds_of types.now) (S.content store.new) (S.rows store.new) }
    ensures limit { S.limit store.new ≡ S.limit store.old }
{
    let owners = owners_of(layouts, ty);
    let width = width_of(layouts, ty);
    end_words(types, layouts, store, to, owners, depth);
    copy_words(types, store, from, to, width);
}

// The words of a value own these objects from then on, each one.
fn give_all<S: Store>(types: &TypeTable, store: &mut S, to: Spot, owners: &[u64], copies: &[ObjRef])
    requires can { CanGive (kinds_of types.now) to owners.now copies.now (S.content store.old) (S.rows store.old) }
    ensures given { Shows (kinds_of types.now) (S.content store.new) (S.rows store.new)
        (all_given (place to) owners.now copies.now (seen (kinds_of types.now) (S.content store.old) (S.rows store.old))) }
    ensures later { Later (S.content store.old) (S.content store.new) (S.rows store.old) (S.rows store.new) }
    ensures rowed { AreRowed (kinds_of types.now) (S.content store.old) (S.rows store.old) → AreRowed (kinds_of types.now) (S.content store.new) (S.rows store.new) }
    ensures limit { S.limit store.new ≡ S.limit store.old }
{
    let mut left = owners.len();
    while left > 0 {
        left -= 1;
        let word = to.word + owners[left];
        own(store, to.object, to.slot, word, Some(copies[left]));
    }
}
