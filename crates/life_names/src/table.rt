// The table of types, as it is asked and grows.
ghost use Rattle.std.specs.Prelude.{◌≡◌, ◌<◌, ◌-◌, ◌^◌, length, nat_lt};
ghost use Rattle.life_typed.specs.BaseTypes.{type_at};
ghost use Rattle.life_names.specs.Checked.{Gives};
ghost use Rattle.life_names.specs.Table as spec;

use crate::fault::{IllFault, IllKind};
use life_types::{Place, Ty, TyId, TypeTable};

/// A table that has this type is full.
const LAST: TyId = TyId(u32::MAX - 1);

/// The type with this number; one that the table doesn't have counts as void.
pub fn type_at(types: &TypeTable, id: TyId) -> Ty
    ensures { result ≡ type_at types.now id }
{
    match types.get(id) {
        Some(ty) => ty,
        None => Ty::Void,
    }
}

#[tactic(auto, using(crate::proofs::Numbers::there))]
pub fn is_there(types: &TypeTable, id: TyId) -> bool
    ensures { result ≡ spec.is_there types.now id }
{
    types.get(id).is_some()
}

/// Whether the table has the part of this type. A struct is added where it is declared.
fn has_parts(types: &TypeTable, ty: Ty) -> bool
    ensures { result ≡ spec.has_parts types.now ty }
{
    match ty {
        Ty::Void => true,
        Ty::Bool => true,
        Ty::Char => true,
        Ty::Int => true,
        Ty::Long => true,
        Ty::Size => true,
        Ty::Text => true,
        Ty::View => true,
        Ty::Vector(element) => is_there(types, element),
        Ty::Unique(target) => is_there(types, target),
        Ty::Raw { target, .. } => is_there(types, target),
        Ty::Reference { target, .. } => is_there(types, target),
        Ty::Iterator { target, .. } => is_there(types, target),
        Ty::Span { target, .. } => is_there(types, target),
        Ty::Struct(_) => false,
    }
}

/// Whether there are numbers left.
#[tactic(auto, using(crate::proofs::Numbers::room))]
pub fn has_room(types: &TypeTable) -> bool
    ensures { result ≡ nat_lt (length types.now.types) (2 ^ 32 - 1) }
{
    types.get(LAST).is_none()
}

/// The number of the type, which is added if the table doesn't have it.
#[tactic(auto, using(crate::proofs::Numbers::added), unfolding(crate::specs::Table::type_added))]
pub fn add_type(types: &mut TypeTable, place: Place, ty: Ty) -> Result<TyId, IllFault>
    ensures { Gives (λ id. id) types.new result (spec.type_added place ty types.old) }
{
    if has_room(types) && has_parts(types, ty) {
        let id = types.add(ty)?;
        Ok(id)
    } else {
        Err(IllFault::Ill {
            kind: IllKind::Unsupported,
            place,
        })
    }
}
