// What a function returns (ISO/IEC 14882:2017 [stmt.return]).
ghost use Rattle.std.specs.Prelude.{◌≡◌};
ghost use Rattle.life_typed.specs.TypedForm.{typed_view};
ghost use Rattle.life_typed.specs.TypedStatement.{optional_view};
ghost use Rattle.life_names.specs.Checked.{Gives};
ghost use Rattle.life_type_stmt.specs.Returns as spec;

use crate::conditions::unless;
use crate::given::{given_expr, value_fault};
use crate::simples::named_in;
use life_names::{Environment, IllFault, IllKind, allowed, type_at};
use life_tree::Expr;
use life_typed::{TypedExpr, TypedLocal};
use life_types::{Place, Ty, TyId, TypeTable, is_void};
use std::alloc::Global;

/// A variable or value parameter of this type that isn't const.
fn is_moved_out(result_type: TyId, local: Option<TypedLocal>) -> bool
    ensures { result ≡ spec.is_moved_out result_type local }
{
    match local {
        Some(local) => local.ty.0 == result_type.0 && !local.constant,
        None => false,
    }
}

fn named_local(environment: &Environment<'_>, number: Option<u32>) -> Option<TypedLocal>
    ensures { result ≡ spec.named_local environment.now number }
{
    match number {
        Some(number) => environment.local(number),
        None => None,
    }
}

/// A `std::unique_ptr` is moved out of what is named ([class.copy.elision]).
fn moves_out(ty: Ty, result_type: TyId, local: Option<TypedLocal>) -> bool
    ensures { result ≡ spec.moves_out ty result_type local }
{
    match ty {
        Ty::Unique(_) => is_moved_out(result_type, local),
        _ => false,
    }
}

/// The rule that a return with an expression breaks at its keyword.
#[tactic(auto, using(life_names::proofs::Views::views))]
fn result_fault(
    void: bool,
    moved: bool,
    types: &TypeTable,
    ty: Ty,
    value: &TypedExpr,
) -> Option<IllKind>
    ensures { result ≡ spec.result_fault void moved types.now ty (typed_view value.now) }
{
    if void {
        return Some(IllKind::WrongType);
    }
    if moved {
        return None;
    }
    value_fault(IllKind::WrongType, types, ty, value.ty, value.category)
}

/// What a return gives in a function that answers this; `void` too.
pub(crate) fn returned(
    alloc: Global,
    environment: &Environment<'_>,
    types: &mut TypeTable,
    result_type: TyId,
    keyword: Place,
    value: &Option<Box<Expr>>,
) -> Result<Option<TypedExpr>, IllFault>
    ensures { Gives (optional_view typed_view) types.new result (spec.returned result_type keyword value.now environment.now types.old) }
{
    let ty = type_at(types, result_type);
    match value {
        Some(value) => {
            let found = given_expr(alloc, environment, types, ty, value)?;
            let named = named_local(environment, named_in(&found));
            let moved = moves_out(ty, result_type, named);
            allowed(result_fault(is_void(ty), moved, types, ty, &found), keyword)?;
            Ok(Some(found))
        }
        None => {
            allowed(unless(is_void(ty), IllKind::WrongType), keyword)?;
            Ok(None)
        }
    }
}
