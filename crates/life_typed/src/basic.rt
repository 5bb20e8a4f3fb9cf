// The types without parts, which each table begins with.
ghost use Rattle.std.specs.Prelude.{◌≡◌, IfOk};
ghost use Rattle.life_typed.specs.BaseTypes as spec;

use life_types::{NoMemory, Ty, TyId, TypeTable};
use std::alloc::Global;

/// The number of `void` in each table of types.
pub const VOID: TyId = TyId(0);
/// The number of `bool`.
pub const BOOL: TyId = TyId(1);
/// The number of `char`.
pub const CHAR: TyId = TyId(2);
/// The number of `int`.
pub const INT: TyId = TyId(3);
/// The number of `long`.
pub const LONG: TyId = TyId(4);
/// The number of `std::size_t`.
pub const SIZE: TyId = TyId(5);
/// The number of `std::string`.
pub const TEXT: TyId = TyId(6);
/// The number of `std::string_view`.
pub const VIEW: TyId = TyId(7);

/// A table with the types that have no parts, at their numbers, and without structs.
pub fn base_types(alloc: Global) -> Result<TypeTable, NoMemory>
    ensures { IfOk result (λ table. table ≡ spec.base_types) }
{
    let mut table = TypeTable::new(alloc);
    table.add(Ty::Void)?;
    table.add(Ty::Bool)?;
    table.add(Ty::Char)?;
    table.add(Ty::Int)?;
    table.add(Ty::Long)?;
    table.add(Ty::Size)?;
    table.add(Ty::Text)?;
    table.add(Ty::View)?;
    Ok(table)
}

// The type with this number. What the table doesn't have counts as void.
pub(crate) fn type_at(types: &TypeTable, id: TyId) -> Ty
    ensures { result ≡ spec.type_at types.now id }
{
    match types.get(id) {
        Some(ty) => ty,
        None => Ty::Void,
    }
}
