// Owners that are changed, made, copied and moved.
ghost use Rattle.std.specs.Prelude.{◌≡◌, map};
ghost use Rattle.life_types.specs.Trees.{holds_unique};
ghost use Rattle.life_types.specs.declared.ty.Ty.TheVariants as AnyTy;
ghost use Rattle.life_core.specs.Function.{function_of};
ghost use Rattle.life_core.specs.Operands.{characters_of, operand_of};
ghost use Rattle.life_core.specs.Step.{change_of, Copy, Move};
ghost use Rattle.life_pset.specs.Shapes.{operand_type, tree_if};
ghost use Rattle.life_proper.specs.WellFormed.{are_characters, is_change_of, is_itself, is_made_for, is_well_formed_step};

use crate::forms::is_whole;
use crate::placed::{
    is_const_place, is_consumed, is_number_of, is_object_at, is_result, type_at, type_in, type_of,
};
use crate::scope::Scope;
use crate::types::{is_owner, owned_target, same, walks};
use life_core::{Change, Characters, Made, Operand};
use life_pset::{operand_type, ty_at};
use life_types::{Ty, TyId, holds_unique, is_pointer, is_unique, is_view};

fn are_characters(at: &Scope, characters: &Characters) -> bool
    ensures { result ≡ are_characters at.now.types.now at.now.texts (map function_of at.now.functions.now) (function_of at.now.function.now) (characters_of characters.now) }
{
    match characters {
        Characters::View(l) => is_view(type_in(at.types, at.function, l)),
        Characters::Single(r) => is_number_of(at.types, at.function, Ty::Char, *r),
    }
}

fn is_change_of_text(at: &Scope, change: &Change) -> bool
    ensures { result ≡ is_change_of at.now.types.now at.now.texts (map function_of at.now.functions.now) (function_of at.now.function.now) AnyTy.Text (change_of change.now) }
{
    match change {
        Change::PushBack(r) => is_number_of(at.types, at.function, Ty::Char, *r),
        Change::Clear => true,
        Change::Set(characters) => are_characters(at, characters),
        Change::Append(characters) => are_characters(at, characters),
        _ => false,
    }
}

fn is_change_of_vector(at: &Scope, element: TyId, change: &Change) -> bool
    ensures { result ≡ is_change_of at.now.types.now at.now.texts (map function_of at.now.functions.now) (function_of at.now.function.now) (AnyTy.Vector element) (change_of change.now) }
{
    let item = ty_at(at.types, element);
    match change {
        Change::PushBack(x) => is_consumed(at.types, at.function, item, *x),
        Change::PopBack => true,
        Change::Clear => true,
        Change::Reserve(r) => is_number_of(at.types, at.function, Ty::Size, *r),
        Change::Erase { at: from, into } => {
            walks(at.types, type_in(at.types, at.function, from), item)
                && walks(at.types, type_in(at.types, at.function, into), item)
        }
        _ => false,
    }
}

/// Whether an owner of the type is changed so.
pub(crate) fn is_change_of(at: &Scope, ty: Ty, change: &Change) -> bool
    ensures { result ≡ is_change_of at.now.types.now at.now.texts (map function_of at.now.functions.now) (function_of at.now.function.now) ty (change_of change.now) }
{
    match ty {
        Ty::Text => is_change_of_text(at, change),
        Ty::Vector(element) => is_change_of_vector(at, element, change),
        _ => false,
    }
}

/// Whether a unique_ptr of the type is made to own this.
pub(crate) fn is_made_for(at: &Scope, ty: Ty, made: Made) -> bool
    ensures { result ≡ is_made_for at.now.types.now at.now.texts (map function_of at.now.functions.now) (function_of at.now.function.now) ty made }
{
    match made {
        Made::Null => is_unique(ty),
        Made::Zero => is_unique(ty),
        Made::Of(x) => is_consumed(at.types, at.function, owned_target(at.types, ty), x),
    }
}

fn is_unique_place(at: &Scope, o: &Operand) -> bool
    ensures { result ≡ holds_unique (tree_if at.now.types.now (operand_type at.now.types.now (function_of at.now.function.now) (operand_of o.now))) }
{
    match operand_type(at.types, at.function, o) {
        None => false,
        Some(id) => holds_unique(at.types, id),
    }
}

/// Whether the one place is given a copy of the other.
pub(crate) fn is_copy(at: &Scope, to: &Operand, from: &Operand) -> bool
    ensures { result ≡ is_well_formed_step at.now.types.now at.now.texts (map function_of at.now.functions.now) (function_of at.now.function.now) (Copy (operand_of to.now) (operand_of from.now)) }
{
    let ty = type_of(at.types, at.function, to);
    same(ty, type_of(at.types, at.function, from))
        && !is_pointer(ty)
        && !is_unique_place(at, to)
        && !is_const_place(at.types, at.function, to)
}

// Whether the place is the local.
fn is_itself(at: &Scope, y: u32, o: &Operand) -> bool
    ensures { result ≡ is_itself at.now.types.now at.now.texts (map function_of at.now.functions.now) (function_of at.now.function.now) y (operand_of o.now) }
{
    match o {
        Operand::Name(l) => is_whole(l) && l.local == y,
        Operand::Through { .. } => false,
    }
}

/// Whether the place is given what the local owns.
pub(crate) fn is_move(at: &Scope, to: &Operand, y: u32) -> bool
    ensures { result ≡ is_well_formed_step at.now.types.now at.now.texts (map function_of at.now.functions.now) (function_of at.now.function.now) (Move (operand_of to.now) y) }
{
    let ty = type_of(at.types, at.function, to);
    is_owner(ty)
        && is_object_at(at.function, y)
        && same(ty, type_at(at.types, at.function, y))
        && !is_result(at.types, at.function, y)
        && !is_itself(at, y, to)
        && !is_const_place(at.types, at.function, to)
}
