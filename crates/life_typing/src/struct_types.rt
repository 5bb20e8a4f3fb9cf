// The types of structs in the table.
ghost use Rattle.std.specs.Prelude.{◌≡◌, ◌<◌, ◌-◌, ◌^◌, length, nat_lt};
ghost use Rattle.life_names.specs.Checked.{Gives};
ghost use Rattle.life_typing.specs.StructTypes as spec;

use life_names::{IllFault, IllKind, has_room, is_there};
use life_types::{Place, Ty, TyId, TypeTable};

/// Whether there are numbers left for structs.
fn has_struct_room(types: &TypeTable) -> bool
    ensures { result ≡ nat_lt (length types.now.structs) (2 ^ 32 - 1) }
{
    types.struct_count() < u32::MAX as usize
}

/// Whether the table has all these types.
fn are_there(types: &TypeTable, ids: &[TyId]) -> bool
    ensures { result ≡ spec.are_there types.now ids.now }
{
    'ids: for id in ids {
        if !is_there(types, *id) {
            return false;
        }
    }
    true
}

/// The number of a new struct with these members, of which there is one at least.
#[tactic(auto, using(crate::proofs::StructNumbers::all_there))]
fn add_members(types: &mut TypeTable, place: Place, members: Vec<TyId>) -> Result<u32, IllFault>
    requires { 0 < length members.items }
    ensures { Gives (λ n. n) types.new result (spec.members_added place members.items types.old) }
{
    if has_struct_room(types) && are_there(types, &members) {
        let number = types.add_struct(members)?;
        Ok(number)
    } else {
        Err(IllFault::Ill {
            kind: IllKind::Unsupported,
            place,
        })
    }
}

/// The number of the type of a struct that the table has.
#[tactic(auto, using(crate::proofs::StructNumbers::struct_added), unfolding(crate::specs::StructTypes::number_added))]
fn add_number(types: &mut TypeTable, place: Place, number: u32) -> Result<TyId, IllFault>
    requires { number < length types.old.structs }
    ensures { Gives (λ id. id) types.new result (spec.number_added place number types.old) }
{
    if has_room(types) {
        let id = types.add(Ty::Struct(number))?;
        Ok(id)
    } else {
        Err(IllFault::Ill {
            kind: IllKind::Unsupported,
            place,
        })
    }
}

/// The type of a new struct with these members, of which there is one at least.
pub(crate) fn add_structure(
    types: &mut TypeTable,
    place: Place,
    members: Vec<TyId>,
) -> Result<TyId, IllFault>
    requires { 0 < length members.items }
    ensures { Gives (λ id. id) types.new result (spec.structure_added place members.items types.old) }
{
    let number = add_members(types, place, members)?;
    add_number(types, place, number)
}
