// The types that are written.
ghost use Rattle.std.specs.Prelude.{◌≡◌, is_some};
ghost use Rattle.life_names.specs.Checked.{Gives};
ghost use Rattle.life_names.specs.WrittenTypes as spec;

use crate::environment::{Entity, Environment};
use crate::fault::{IllFault, IllKind};
use crate::table::{add_type, type_at};
use life_tree::{Base, Identifier, IteratorKind, IteratorName, Suffix, TypeArgument, TypeName};
use life_typed::{BOOL, CHAR, INT, LONG, SIZE, TEXT, VIEW};
use life_types::{Place, Ty, TyId, TypeTable, is_plain};
use std::alloc::Global;

/// The type of a variable or parameter.
#[derive(Clone, Copy)]
pub struct Written {
    /// The type, a reference type too.
    pub ty: TyId,
    /// Whether the variable may not be changed: `const` before a type that is neither a raw pointer
    /// nor a reference, where it belongs to what is pointed to.
    pub constant: bool,
}

/// The rule that is broken where what is held or pointed to isn't plain.
fn target_fault(types: &TypeTable, id: TyId) -> Option<IllKind>
    ensures { result ≡ spec.target_fault types.now id }
{
    if is_plain(types, id) {
        None
    } else {
        Some(IllKind::NotPlain)
    }
}

/// The rule that is broken where a `std::vector` or `std::unique_ptr` holds this.
fn held_fault(constant: bool, types: &TypeTable, id: TyId) -> Option<IllKind>
    ensures { result ≡ spec.held_fault constant types.now id }
{
    if constant {
        Some(IllKind::WrongType)
    } else {
        target_fault(types, id)
    }
}

/// No vector of `bool` is served.
fn element_fault_of(ty: Ty) -> Option<IllKind>
    ensures { result ≡ spec.element_fault_of ty }
{
    match ty {
        Ty::Bool => Some(IllKind::Unsupported),
        _ => None,
    }
}

/// The rule that is broken where this is the element of a `std::vector`.
fn element_fault(constant: bool, types: &TypeTable, id: TyId) -> Option<IllKind>
    ensures { result ≡ spec.element_fault constant types.now id }
{
    match held_fault(constant, types, id) {
        Some(kind) => Some(kind),
        None => element_fault_of(type_at(types, id)),
    }
}

/// The type, where no rule is broken.
fn sound(
    types: &mut TypeTable,
    fault: Option<IllKind>,
    place: Place,
    ty: Ty,
) -> Result<TyId, IllFault>
    ensures { Gives (λ id. id) types.new result (spec.sound fault place ty types.old) }
{
    match fault {
        None => add_type(types, place, ty),
        Some(kind) => Err(IllFault::Ill { kind, place }),
    }
}

/// The struct with this name.
fn named(
    environment: &Environment<'_>,
    types: &TypeTable,
    name: Identifier,
) -> Result<TyId, IllFault>
    ensures { Gives (λ id. id) types.now result (spec.named name environment.now types.now) }
{
    let place = name.place;
    match environment.meaning(name.id) {
        Entity::Unseen => Err(IllFault::Ill {
            kind: IllKind::UnknownName,
            place,
        }),
        Entity::Structure(number) => match environment.structure(number) {
            None => Err(IllFault::Ill {
                kind: IllKind::UnknownName,
                place,
            }),
            Some(structure) => Ok(structure.ty),
        },
        Entity::Function(_) => Err(IllFault::Ill {
            kind: IllKind::WrongType,
            place,
        }),
        Entity::Local(_) => Err(IllFault::Ill {
            kind: IllKind::WrongType,
            place,
        }),
    }
}

fn is_constant(kind: IteratorKind) -> bool
    ensures { result ≡ spec.is_constant kind }
{
    match kind {
        IteratorKind::Mutable => false,
        IteratorKind::Constant => true,
    }
}

fn vector_type(iterator: &Option<IteratorName>, element: TyId) -> Ty
    ensures { result ≡ spec.vector_type iterator.now element }
{
    match iterator {
        None => Ty::Vector(element),
        Some(name) => Ty::Iterator {
            target: element,
            constant: is_constant(name.kind),
        },
    }
}

/// Whether `const` stands first in an argument.
#[tactic(auto, using(crate::proofs::TypeMeanings::argument_made, crate::proofs::TypeMeanings::const_made))]
fn starts_with_const(element: &TypeArgument) -> bool
    ensures { result ≡ (spec.argument_meaning element.now).constant }
{
    element.ty.constant.is_some()
}

/// What stands between `<` and `>`.
#[cycle(written)]
#[tactic(auto, using(crate::proofs::TypeMeanings::argument_made))]
fn argument(
    environment: &Environment<'_>,
    types: &mut TypeTable,
    argument: &TypeArgument,
    place: Place,
) -> Result<TyId, IllFault>
    ensures { Gives (λ id. id) types.new result (spec.written_argument argument.now place environment.now types.old) }
{
    whole(environment, types, &argument.ty, place)
}

/// A vector, or one of its iterators.
#[cycle(written)]
fn vector(
    environment: &Environment<'_>,
    types: &mut TypeTable,
    element: &TypeArgument,
    iterator: &Option<IteratorName>,
    place: Place,
) -> Result<TyId, IllFault>
    ensures { Gives (λ id. id) types.new result (spec.vector (spec.argument_meaning element.now) iterator.now place environment.now types.old) }
{
    let id = argument(environment, types, element, place)?;
    let fault = element_fault(starts_with_const(element), types, id);
    sound(types, fault, place, vector_type(iterator, id))
}

#[cycle(written)]
fn unique(
    environment: &Environment<'_>,
    types: &mut TypeTable,
    element: &TypeArgument,
    place: Place,
) -> Result<TyId, IllFault>
    ensures { Gives (λ id. id) types.new result (spec.unique (spec.argument_meaning element.now) place environment.now types.old) }
{
    let id = argument(environment, types, element, place)?;
    let fault = held_fault(starts_with_const(element), types, id);
    sound(types, fault, place, Ty::Unique(id))
}

#[cycle(written)]
fn span(
    environment: &Environment<'_>,
    types: &mut TypeTable,
    element: &TypeArgument,
    place: Place,
) -> Result<TyId, IllFault>
    ensures { Gives (λ id. id) types.new result (spec.span (spec.argument_meaning element.now) place environment.now types.old) }
{
    let id = argument(environment, types, element, place)?;
    let fault = target_fault(types, id);
    let constant = starts_with_const(element);
    sound(
        types,
        fault,
        place,
        Ty::Span {
            target: id,
            constant,
        },
    )
}

/// A type without `const`, `*` and `&`.
#[cycle(written)]
#[tactic(auto, unfolding(crate::specs::WrittenTypes::base_meaning, crate::specs::WrittenTypes::argument_meaning))]
fn base(
    environment: &Environment<'_>,
    types: &mut TypeTable,
    base: &Base,
    place: Place,
) -> Result<TyId, IllFault>
    ensures { Gives (λ id. id) types.new result (spec.base_meaning base.now place environment.now types.old) }
{
    match base {
        Base::Bool(_) => Ok(BOOL),
        Base::Char(_) => Ok(CHAR),
        Base::Int(_) => Ok(INT),
        Base::Long(_) => Ok(LONG),
        Base::Named(name) => named(environment, types, *name),
        Base::SizeT(_) => Ok(SIZE),
        Base::Text(_) => Ok(TEXT),
        Base::View(_) => Ok(VIEW),
        Base::Vector {
            element,
            iterator,
            ..
        } => vector(environment, types, element, iterator, place),
        Base::UniquePtr { element, .. } => unique(environment, types, element, place),
        Base::Span { element, .. } => span(environment, types, element, place),
    }
}

/// A type with what stands behind it.
fn suffixed(
    types: &mut TypeTable,
    constant: bool,
    suffix: &Option<Suffix>,
    place: Place,
    id: TyId,
) -> Result<TyId, IllFault>
    ensures { Gives (λ id. id) types.new result (spec.suffixed constant suffix.now place id types.old) }
{
    match suffix {
        None => Ok(id),
        Some(Suffix::Pointer(_)) => {
            let fault = target_fault(types, id);
            sound(
                types,
                fault,
                place,
                Ty::Raw {
                    target: id,
                    constant,
                },
            )
        }
        Some(Suffix::Reference(_)) => {
            let fault = target_fault(types, id);
            sound(
                types,
                fault,
                place,
                Ty::Reference {
                    target: id,
                    constant,
                },
            )
        }
    }
}

#[cycle(written)]
#[tactic(auto, using(crate::proofs::TypeMeanings::type_made))]
fn whole(
    environment: &Environment<'_>,
    types: &mut TypeTable,
    ty: &TypeName,
    place: Place,
) -> Result<TyId, IllFault>
    ensures { Gives (λ id. id) types.new result (spec.written ty.now place environment.now types.old) }
{
    let id = base(environment, types, &ty.base, place)?;
    suffixed(types, ty.constant.is_some(), &ty.suffix, place, id)
}

/// The type that is written in the declaration of the name at this place. `const` before it belongs
/// to what is declared, unless it points or refers to something.
pub fn written_type(
    _alloc: Global,
    environment: &Environment<'_>,
    types: &mut TypeTable,
    ty: &TypeName,
    place: Place,
) -> Result<TyId, IllFault>
    ensures { Gives (λ id. id) types.new result (spec.written ty.now place environment.now types.old) }
{
    whole(environment, types, ty, place)
}

/// The type that is written there, without the `*` or `&` behind it.
#[tactic(auto, using(crate::proofs::TypeMeanings::base_made))]
pub fn written_base(
    environment: &Environment<'_>,
    types: &mut TypeTable,
    ty: &TypeName,
    place: Place,
) -> Result<TyId, IllFault>
    ensures { Gives (λ id. id) types.new result (spec.written_base ty.now place environment.now types.old) }
{
    base(environment, types, &ty.base, place)
}

/// Whether what is declared with this type may not be changed itself.
pub fn is_const_value(ty: &TypeName) -> bool
    ensures { result ≡ spec.is_const_value ty.now }
{
    ty.constant.is_some() && ty.suffix.is_none()
}

/// The type of a variable or parameter whose name stands at this place.
pub fn written_local(
    environment: &Environment<'_>,
    types: &mut TypeTable,
    ty: &TypeName,
    place: Place,
) -> Result<Written, IllFault>
    ensures { Gives (λ w. w) types.new result (spec.written_local ty.now place environment.now types.old) }
{
    let id = whole(environment, types, ty, place)?;
    Ok(Written {
        ty: id,
        constant: is_const_value(ty),
    })
}

/// What a `std::make_unique` at this place makes.
pub fn made_element(
    environment: &Environment<'_>,
    types: &mut TypeTable,
    element: &TypeArgument,
    place: Place,
) -> Result<TyId, IllFault>
    ensures { Gives (λ id. id) types.new result (spec.made_element element.now place environment.now types.old) }
{
    let id = argument(environment, types, element, place)?;
    match held_fault(starts_with_const(element), types, id) {
        None => Ok(id),
        Some(kind) => Err(IllFault::Ill { kind, place }),
    }
}
