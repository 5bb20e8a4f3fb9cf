// Types of what locations name, and the words at which members begin.
ghost use Rattle.std.specs.Prelude.{◌≡◌, ◌<◌, ◌^◌, slice_get, sum_by, take};
ghost use Rattle.life_core.specs.Operands.{location_of};
ghost use Rattle.life_store.specs.Effects.{type_of};
ghost use Rattle.life_store.specs.Parts as parts;
ghost use Rattle.life_types.specs.Trees.{members_at};
ghost use Rattle.life_types.specs.Types.{is_slot_target};
ghost use Rattle.life_values.specs.Layouts.{width_at};
ghost use Rattle.life_cells.specs.Scopes.{function_in, types_in};
ghost use Rattle.life_cells.specs.Typed.{member_of};

use crate::locations::is_whole;
use crate::scope::Scope;
use life_core::Location;
use life_types::{Ty, TyId};
use life_values::Layout;

/// The type of a local as it is declared.
pub fn type_at(scope: &Scope<'_>, local: u32) -> Option<Ty>
    ensures { result ≡ type_of (types_in scope.now) (function_in scope.now) local }
{
    match scope.function.locals.get(local as usize) {
        None => None,
        Some(local) => scope.types.get(local.ty),
    }
}

/// The type of what a local is: a parameter that is a slot is like a variable of the type to which it
/// refers.
pub fn local_type(scope: &Scope<'_>, local: u32) -> Option<TyId>
    ensures { result ≡ parts.local_type (types_in scope.now) (function_in scope.now) local }
{
    match scope.function.locals.get(local as usize) {
        None => None,
        Some(local) => Some(variable_type(scope, local.ty, scope.types.get(local.ty))),
    }
}

fn variable_type(scope: &Scope<'_>, id: TyId, ty: Option<Ty>) -> TyId
    ensures { result ≡ parts.variable_type (types_in scope.now) id ty }
{
    match ty {
        Some(
            Ty::Reference {
                target,
                constant: false,
            },
        ) => {
            if is_slot_target(scope.types.get(target)) {
                target
            } else {
                id
            }
        }
        _ => id,
    }
}

fn is_slot_target(ty: Option<Ty>) -> bool
    ensures { result ≡ is_slot_target ty }
{
    matches!(
        ty,
        Some(Ty::Iterator { .. } | Ty::Span { .. } | Ty::View | Ty::Unique(_))
    )
}

/// The type of what a location names.
pub fn location_type(scope: &Scope<'_>, location: &Location) -> Option<TyId>
    ensures { result ≡ parts.location_type (types_in scope.now) (function_in scope.now) (location_of location.now) }
{
    type_within(scope, local_type(scope, location.local), &location.members)
}

/// What a pointer of the type points to. The characters of a view have no type of their own.
pub fn target_type(scope: &Scope<'_>, ty: Option<TyId>) -> Option<TyId>
    ensures { result ≡ parts.target_type (types_in scope.now) ty }
{
    match ty {
        None => None,
        Some(id) => target_in(scope.types.get(id)),
    }
}

fn target_in(ty: Option<Ty>) -> Option<TyId>
    ensures { result ≡ parts.target_in ty }
{
    match ty {
        Some(Ty::Raw { target, .. }) => Some(target),
        Some(Ty::Reference { target, .. }) => Some(target),
        Some(Ty::Iterator { target, .. }) => Some(target),
        Some(Ty::Span { target, .. }) => Some(target),
        _ => None,
    }
}

/// The type of a member, by the numbers of the members from the outermost to the innermost.
pub fn type_within(scope: &Scope<'_>, ty: Option<TyId>, members: &[u32]) -> Option<TyId>
    ensures { result ≡ parts.type_within (types_in scope.now) ty members.now }
{
    let mut within = ty;
    for member in members {
        match within {
            None => return None,
            Some(id) => within = member_type(scope, id, *member),
        }
    }
    within
}

/// The word at which a member begins in a value of the type.
#[inline(always)]
pub fn word_within(scope: &Scope<'_>, ty: Option<TyId>, members: &[u32]) -> u32
    requires { parts.word_within (types_in scope.now) ty members.now < 2 ^ 32 }
    ensures { result ≡ parts.word_within (types_in scope.now) ty members.now }
{
    let mut word = 0;
    let mut within = ty;
    for member in members {
        match within {
            None => return word,
            Some(id) => {
                word += words_before(scope, id, *member);
                within = member_type(scope, id, *member);
            }
        }
    }
    word
}

/// The word at which what a location names begins in the object of its local.
#[inline(always)]
pub fn member_word(scope: &Scope<'_>, location: &Location) -> u32
    requires { member_of (types_in scope.now) (function_in scope.now) (location_of location.now) < 2 ^ 32 }
    ensures { result ≡ member_of (types_in scope.now) (function_in scope.now) (location_of location.now) }
{
    if is_whole(location) {
        return 0;
    }
    word_within(scope, local_type(scope, location.local), &location.members)
}

// The words of the members before a member of a struct.
fn words_before(scope: &Scope<'_>, id: TyId, member: u32) -> u32
    requires { sum_by (parts.width_at (types_in scope.now)) (take member (parts.members_of (types_in scope.now) id)) < 2 ^ 32 }
    ensures { result ≡ sum_by (parts.width_at (types_in scope.now)) (take member (parts.members_of (types_in scope.now) id)) }
{
    total_width(scope, front(members_of(scope, id), member))
}

// So many members, or as many as there are.
fn front(members: &[TyId], count: u32) -> &[TyId]
    ensures { result.now ≡ take count members.now }
{
    &members[..members.len().min(count as usize)]
}

// How many words values of the types have together.
fn total_width(scope: &Scope<'_>, types: &[TyId]) -> u32
    requires { sum_by (parts.width_at (types_in scope.now)) types.now < 2 ^ 32 }
    ensures { result ≡ sum_by (parts.width_at (types_in scope.now)) types.now }
{
    let mut words = 0;
    for ty in types {
        words += width_at(scope, *ty) as u32;
    }
    words
}

fn member_type(scope: &Scope<'_>, id: TyId, member: u32) -> Option<TyId>
    ensures { result ≡ slice_get (parts.members_of (types_in scope.now) id) member }
{
    members_of(scope, id).get(member as usize).copied()
}

// The members of a struct, and none of what is no struct.
fn members_of<'a>(scope: &Scope<'a>, id: TyId) -> &'a [TyId]
    ensures { result.now ≡ parts.members_of (types_in scope.now) id }
{
    match scope.types.get(id) {
        Some(Ty::Struct(number)) => members_at(scope, number),
        _ => &[],
    }
}

fn members_at<'a>(scope: &Scope<'a>, number: u32) -> &'a [TyId]
    ensures { result.now ≡ members_at (types_in scope.now) number }
{
    if (number as usize) < scope.types.struct_count() {
        scope.types.members(number)
    } else {
        &[]
    }
}

// How many words a value of a type has. What the table doesn't have is like a number.
fn width_at(scope: &Scope<'_>, ty: TyId) -> u64
    ensures { result ≡ parts.width_at (types_in scope.now) ty }
{
    laid_width(scope.layouts, ty)
}

fn laid_width(layouts: &[Layout], ty: TyId) -> u64
    ensures { result ≡ width_at layouts.now ty }
{
    match layouts.get(ty.0 as usize) {
        None => 1,
        Some(layout) => layout.width,
    }
}
