// Types that may stand: what a pointer, a vector and a unique_ptr is of is plain, and no struct has a member that is a
// reference or void.
ghost use Rattle.std.specs.Prelude.{◌≡◌};
ghost use Rattle.life_types.specs.Trees.{tree_at};
ghost use Rattle.life_proper.specs.WellFormedPrograms.{is_member, may_stand};

use life_pset::{members_at, ty_at};
use life_types::{Ty, TyId, TypeTable, is_plain};

#[tactic(auto, using(crate::proofs::StructMembers::struct_is_member))]
fn is_member(types: &TypeTable, id: TyId) -> bool
    ensures { result ≡ is_member (tree_at types.now id) }
{
    match ty_at(types, id) {
        Ty::Void => false,
        Ty::Reference { .. } => false,
        _ => true,
    }
}

/// Whether the type may stand. A struct is looked into as often as it is a part.
#[tactic(auto, using(life_pset::proofs::CandidateLemmas::below_at, life_pset::proofs::CandidateLemmas::below_more, life_pset::proofs::CandidateLemmas::members_below))]
pub(crate) fn may_stand(types: &TypeTable, id: TyId) -> bool
    ensures { result ≡ may_stand (tree_at types.now id) }
{
    match ty_at(types, id) {
        Ty::Vector(element) => is_plain(types, element) && may_stand(types, element),
        Ty::Unique(target) => is_plain(types, target) && may_stand(types, target),
        Ty::Raw { target, .. } => is_plain(types, target) && may_stand(types, target),
        Ty::Reference { target, .. } => is_plain(types, target) && may_stand(types, target),
        Ty::Iterator { target, .. } => is_plain(types, target) && may_stand(types, target),
        Ty::Span { target, .. } => is_plain(types, target) && may_stand(types, target),
        Ty::Struct(number) => {
            for member in members_at(types, number) {
                if !is_member(types, *member) || !may_stand(types, *member) {
                    return false;
                }
            }
            true
        }
        _ => true,
    }
}
