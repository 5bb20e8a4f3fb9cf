// What may be pointed to in an object.
ghost use Rattle.std.specs.Prelude.{◌≡◌, ◌++◌, OnOk};
ghost use Rattle.life_types.specs.Trees.{tree_at};
ghost use Rattle.life_pset.specs.Elements.{object_places, places_in};

use crate::element::AbsPlace;
use crate::shape::{members_of, ty_at};
use life_core::LocalKind;
use life_types::{NoMemory, Ty, TyId, TypeTable};

/// Adds a place of this type, its members, what it owns, and so on, depth first.
#[tactic(auto, using(std::proofs::Common::append_assoc, crate::proofs::CandidateLemmas::below_at, crate::proofs::CandidateLemmas::below_more, crate::proofs::CandidateLemmas::places_struct))]
pub fn push_places(
    types: &TypeTable,
    id: TyId,
    at: AbsPlace,
    all: &mut Vec<AbsPlace>,
) -> Result<(), NoMemory>
    ensures { OnOk result (all.new.items ≡ all.old.items ++ places_in at (tree_at types.now id)) }
{
    all.push(at)?;
    match ty_at(types, id) {
        Ty::Text => all.push(at.owned())?,
        Ty::Vector(element) => push_places(types, element, at.owned(), all)?,
        Ty::Unique(target) => push_places(types, target, at.owned(), all)?,
        Ty::Struct(number) => {
            for (m, member) in members_of(types, id, number).iter().enumerate() {
                push_places(types, *member, at.member(m), all)?;
            }
        }
        _ => {}
    }
    Ok(())
}

/// Adds the places of the local with this number, kind and type, if it is an object.
pub fn push_object_places(
    types: &TypeTable,
    kind: LocalKind,
    id: TyId,
    number: u32,
    all: &mut Vec<AbsPlace>,
) -> Result<(), NoMemory>
    ensures { OnOk result (all.new.items ≡ all.old.items ++ object_places kind (tree_at types.now id) number) }
{
    match kind {
        LocalKind::Object => push_places(types, id, AbsPlace::of_local(number), all)?,
        LocalKind::Register => {}
        LocalKind::Range => {}
    }
    Ok(())
}
