// What stands in a function: its locals, and the types of registers, locations and places.
ghost use Rattle.std.specs.Prelude.{◌≡◌};
ghost use Rattle.life_core.specs.Function.{function_of};
ghost use Rattle.life_core.specs.Kinds.{is_object, is_object_at, is_register, is_register_at};
ghost use Rattle.life_core.specs.Operands.{base_of, location_of, operand_of};
ghost use Rattle.life_proper.specs.Placed.{element_of, is_const_base, is_const_place, is_consumed, is_given, is_number, is_number_of, is_number_of_if, is_place, result_at, slot_at, target_of, type_at, type_in, type_of, type_of_element};

use crate::types::{owned_element, owned_target, pointee, same, seen_element};
use life_core::{Base, CoreFn, LocalKind, Location, Operand, Which};
use life_pset::{local_type, location_type, operand_type, ty_at, ty_if};
use life_types::{Ty, TypeTable, is_constant, is_slot, is_value, is_void};

// ---- locals

pub(crate) fn is_object(kind: LocalKind) -> bool
    ensures { result ≡ is_object kind }
{
    match kind {
        LocalKind::Object => true,
        LocalKind::Register => false,
        LocalKind::Range => false,
    }
}

pub(crate) fn is_register(kind: LocalKind) -> bool
    ensures { result ≡ is_register kind }
{
    match kind {
        LocalKind::Object => false,
        LocalKind::Register => true,
        LocalKind::Range => false,
    }
}

pub(crate) fn is_object_at(f: &CoreFn, x: u32) -> bool
    ensures { result ≡ is_object_at (function_of f.now) x }
{
    match f.locals.get(x as usize) {
        None => false,
        Some(l) => is_object(l.kind),
    }
}

pub(crate) fn is_register_at(f: &CoreFn, x: u32) -> bool
    ensures { result ≡ is_register_at (function_of f.now) x }
{
    match f.locals.get(x as usize) {
        None => false,
        Some(l) => is_register(l.kind),
    }
}

/// Whether it is a parameter that is a slot.
pub(crate) fn is_slot_local(types: &TypeTable, f: &CoreFn, x: u32) -> bool
    ensures { result ≡ slot_at types.now (function_of f.now) x }
{
    match f.locals.get(x as usize) {
        None => false,
        Some(l) => is_slot(types, l.ty),
    }
}

/// Whether it is the local of the result.
pub(crate) fn is_result(types: &TypeTable, f: &CoreFn, x: u32) -> bool
    ensures { result ≡ result_at types.now (function_of f.now) x }
{
    !is_void(ty_at(types, f.result)) && x == f.parameters
}

// ---- types

pub(crate) fn type_at(types: &TypeTable, f: &CoreFn, x: u32) -> Ty
    ensures { result ≡ type_at types.now (function_of f.now) x }
{
    ty_if(types, local_type(types, f, x))
}

pub(crate) fn type_in(types: &TypeTable, f: &CoreFn, l: &Location) -> Ty
    ensures { result ≡ type_in types.now (function_of f.now) (location_of l.now) }
{
    ty_if(types, location_type(types, f, l))
}

fn is_place(types: &TypeTable, f: &CoreFn, o: &Operand) -> bool
    ensures { result ≡ is_place types.now (function_of f.now) (operand_of o.now) }
{
    match o {
        Operand::Name(l) => is_object_at(f, l.local),
        Operand::Through { pointer, .. } => !is_void(pointee(types, type_in(types, f, pointer))),
    }
}

pub(crate) fn type_of(types: &TypeTable, f: &CoreFn, o: &Operand) -> Ty
    ensures { result ≡ type_of types.now (function_of f.now) (operand_of o.now) }
{
    if is_place(types, f, o) {
        ty_if(types, operand_type(types, f, o))
    } else {
        Ty::Void
    }
}

/// Whether what stands there is const.
pub(crate) fn is_const_place(types: &TypeTable, f: &CoreFn, o: &Operand) -> bool
    ensures { result ≡ is_const_place types.now (function_of f.now) (operand_of o.now) }
{
    match o {
        Operand::Name(_) => false,
        Operand::Through { pointer, .. } => is_constant(type_in(types, f, pointer)),
    }
}

// ---- registers

pub(crate) fn is_number(types: &TypeTable, f: &CoreFn, r: u32) -> bool
    ensures { result ≡ is_number types.now (function_of f.now) r }
{
    is_register_at(f, r) && is_value(type_at(types, f, r))
}

pub(crate) fn is_number_of(types: &TypeTable, f: &CoreFn, ty: Ty, r: u32) -> bool
    ensures { result ≡ is_number_of types.now (function_of f.now) ty r }
{
    is_register_at(f, r) && is_value(ty) && same(ty, type_at(types, f, r))
}

/// Whether a count, if there is one, is a register of the type.
pub(crate) fn is_number_of_if(types: &TypeTable, f: &CoreFn, ty: Ty, count: Option<u32>) -> bool
    ensures { result ≡ is_number_of_if types.now (function_of f.now) ty count }
{
    match count {
        None => true,
        Some(r) => is_number_of(types, f, ty, r),
    }
}

// ---- what is consumed

/// Whether it is a temporary of the type that may be given over: neither the result nor a slot.
pub(crate) fn is_given(types: &TypeTable, f: &CoreFn, ty: Ty, x: u32) -> bool
    ensures { result ≡ is_given types.now (function_of f.now) ty x }
{
    is_object_at(f, x)
        && !is_result(types, f, x)
        && !is_slot_local(types, f, x)
        && same(ty, type_at(types, f, x))
}

/// Whether it is a value of the type, or a temporary of it that may be given over.
pub(crate) fn is_consumed(types: &TypeTable, f: &CoreFn, ty: Ty, x: u32) -> bool
    ensures { result ≡ is_consumed types.now (function_of f.now) ty x }
{
    if is_value(ty) {
        is_number_of(types, f, ty, x)
    } else {
        is_given(types, f, ty, x)
    }
}

// ---- elements

pub(crate) fn element_of(types: &TypeTable, f: &CoreFn, base: &Base) -> Ty
    ensures { result ≡ element_of types.now (function_of f.now) (base_of base.now) }
{
    match base {
        Base::Owner(o) => owned_element(types, type_of(types, f, o)),
        Base::Pointer(l) => seen_element(types, type_in(types, f, l)),
    }
}

/// Whether its elements are const.
pub(crate) fn is_const_base(types: &TypeTable, f: &CoreFn, base: &Base) -> bool
    ensures { result ≡ is_const_base types.now (function_of f.now) (base_of base.now) }
{
    match base {
        Base::Owner(o) => is_const_place(types, f, o),
        Base::Pointer(l) => is_constant(type_in(types, f, l)),
    }
}

fn target_of(types: &TypeTable, f: &CoreFn, base: &Base) -> Ty
    ensures { result ≡ target_of types.now (function_of f.now) (base_of base.now) }
{
    match base {
        Base::Owner(o) => owned_target(types, type_of(types, f, o)),
        Base::Pointer(_) => Ty::Void,
    }
}

/// The type of the element that is chosen.
pub(crate) fn type_of_element(types: &TypeTable, f: &CoreFn, base: &Base, which: Which) -> Ty
    ensures { result ≡ type_of_element types.now (function_of f.now) (base_of base.now) which }
{
    match which {
        Which::Index(r) => {
            if is_number_of(types, f, Ty::Size, r) {
                element_of(types, f, base)
            } else {
                Ty::Void
            }
        }
        Which::First => element_of(types, f, base),
        Which::Last => element_of(types, f, base),
        Which::Target => target_of(types, f, base),
    }
}
