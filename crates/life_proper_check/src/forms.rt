// Instructions and tests that are well formed.
ghost use Rattle.std.specs.Prelude.{◌≡◌, ◌&&◌, map, option_map, slice_get};
ghost use Rattle.std.specs.List.{list_all, list_any};
ghost use Rattle.life_types.specs.Pointees.{ty_of};
ghost use Rattle.life_core.specs.Function.{function_of};
ghost use Rattle.life_core.specs.Node.{node_seen};
ghost use Rattle.life_core.specs.Operands.{argument_of, location_of, source_of};
ghost use Rattle.life_core.specs.Step.{asked_of, port_of, step_of};
ghost use Rattle.life_proper.specs.WellFormed.{answer_of, are_arguments_for, are_one, can_end, can_live, goes_to, is_argument_for, is_call, is_operation_of, is_port, is_source_of, is_well_formed_node, is_well_formed_step, is_well_formed_test, is_whole, local_type, types_taken};
ghost use Rattle.life_proper_check.specs.OwnSlots.{are_own_slots, is_handed_as, is_own_slot};

use crate::owners::{is_change_of, is_copy, is_made_for, is_move};
use crate::placed::{
    element_of, is_const_base, is_const_place, is_given, is_number, is_number_of, is_number_of_if,
    is_object_at, is_register_at, is_result, is_slot_local, type_at, type_in, type_of,
    type_of_element,
};
use crate::scope::Scope;
use crate::types::{
    aims_at, are_compared, gets, is_composed, is_promoted, is_range, is_reference, keeps_const,
    owned_target, pointee, same, spans, takes, walks,
};
use life_core::{
    Argument, CoreFn, FnId, Instr, Local, Location, NodeRef, Operation, Operator, Port, Source,
    Test,
};
use life_pset::ty_at;
use life_types::{
    Ty, TyId, is_constant, is_iterator, is_pointer, is_raw, is_slot, is_unique, is_view, is_void,
};

// ---- births and ends

fn can_live(at: &Scope, x: u32) -> bool
    ensures { result ≡ can_live at.now.types.now at.now.texts (map function_of at.now.functions.now) (function_of at.now.function.now) x }
{
    let ty = type_at(at.types, at.function, x);
    is_object_at(at.function, x)
        || (is_register_at(at.function, x) && is_pointer(ty) && !is_reference(ty))
}

fn can_end(at: &Scope, x: u32) -> bool
    ensures { result ≡ can_end at.now.types.now at.now.texts (map function_of at.now.functions.now) (function_of at.now.function.now) x }
{
    (is_object_at(at.function, x) || is_pointer(type_at(at.types, at.function, x)))
        && !is_result(at.types, at.function, x)
        && !is_slot_local(at.types, at.function, x)
}

fn can_end_all(at: &Scope, xs: &[u32]) -> bool
    ensures { result ≡ list_all (can_end at.now.types.now at.now.texts (map function_of at.now.functions.now) (function_of at.now.function.now)) xs.now }
{
    for x in xs {
        if !can_end(at, *x) {
            return false;
        }
    }
    true
}

// ---- values

fn answer_of(operator: Operator, ty: Ty) -> Ty
    ensures { result ≡ answer_of operator ty }
{
    match operator {
        Operator::Add => ty,
        Operator::Subtract => ty,
        Operator::Multiply => ty,
        Operator::Divide => ty,
        Operator::Remainder => ty,
        _ => Ty::Bool,
    }
}

// Whether a register of the type is given this.
fn is_operation_of(at: &Scope, ty: Ty, operation: &Operation) -> bool
    ensures { result ≡ is_operation_of at.now.types.now at.now.texts (map function_of at.now.functions.now) (function_of at.now.function.now) ty operation.now }
{
    match operation {
        Operation::Number(_) => true,
        Operation::Convert(r) => is_number(at.types, at.function, *r),
        Operation::Negate(r) => is_promoted(ty) && is_number_of(at.types, at.function, ty, *r),
        Operation::IsZero(r) => same(ty, Ty::Bool) && is_number(at.types, at.function, *r),
        Operation::Binary {
            operator,
            left,
            right,
        } => {
            let computed = type_at(at.types, at.function, *left);
            is_promoted(computed)
                && is_number_of(at.types, at.function, computed, *left)
                && is_number_of(at.types, at.function, computed, *right)
                && same(ty, answer_of(*operator, computed))
        }
    }
}

// ---- pointers

// Whether a pointer of the type is aimed at this.
fn is_source_of(at: &Scope, ty: Ty, source: &Source) -> bool
    ensures { result ≡ is_source_of at.now.types.now at.now.texts (map function_of at.now.functions.now) (function_of at.now.function.now) ty (source_of source.now) }
{
    match source {
        Source::Null => is_raw(ty),
        Source::Text(n) => is_view(ty) && (*n as usize) < at.texts,
        Source::Empty => is_range(ty),
        Source::Place(o) => aims_at(at.types, ty, type_of(at.types, at.function, o))
            && keeps_const(is_constant(ty), is_const_place(at.types, at.function, o)),
        Source::Whole(o) => spans(at.types, ty, type_of(at.types, at.function, o))
            && keeps_const(is_constant(ty), is_const_place(at.types, at.function, o)),
        Source::Get(l) => {
            let owned = owned_target(at.types, type_in(at.types, at.function, l));
            gets(at.types, ty, owned)
        }
    }
}

fn is_port(at: &Scope, port: &Port) -> bool
    ensures { result ≡ is_port at.now.types.now at.now.texts (map function_of at.now.functions.now) (function_of at.now.function.now) (port_of port.now) }
{
    match port {
        Port::Value(r) => is_number(at.types, at.function, *r),
        Port::View(l) => is_view(type_in(at.types, at.function, l)),
        Port::Take(r) => is_number_of(at.types, at.function, Ty::Long, *r),
    }
}

// ---- calls

// Whether a parameter of the type is handed this.
fn is_argument_for(at: &Scope, id: TyId, argument: &Argument) -> bool
    ensures { result ≡ is_argument_for at.now.types.now at.now.texts (map function_of at.now.functions.now) (function_of at.now.function.now) id (argument_of argument.now) }
{
    match argument {
        Argument::Value(r) => is_number_of(at.types, at.function, ty_at(at.types, id), *r),
        Argument::Given(x) => {
            let ty = ty_at(at.types, id);
            is_composed(ty) && is_given(at.types, at.function, ty, *x)
        }
        Argument::Pointer(l) => !is_slot(at.types, id)
            && takes(
                at.types,
                ty_at(at.types, id),
                type_in(at.types, at.function, l),
            ),
        Argument::Slot(l) => is_slot(at.types, id)
            && same(
                pointee(at.types, ty_at(at.types, id)),
                type_in(at.types, at.function, l),
            ),
    }
}

// Whether as many are handed over as there are parameters.
fn are_arguments_for(at: &Scope, taken: &[Local], arguments: &[Argument]) -> bool
    ensures { result ≡ are_arguments_for at.now.types.now at.now.texts (map function_of at.now.functions.now) (function_of at.now.function.now) (map local_type taken.now) (map argument_of arguments.now) }
{
    let mut next: usize = 0;
    for argument in arguments {
        match taken.get(next) {
            None => return false,
            Some(local) => {
                if !is_argument_for(at, local.ty, argument) {
                    return false;
                }
            }
        }
        next += 1;
    }
    next == taken.len()
}

/// Whether it is a whole local.
pub(crate) fn is_whole(l: &Location) -> bool
    ensures { result ≡ is_whole (location_of l.now) }
{
    let none: &[u32] = &[];
    none.starts_with(&l.members)
}

// ---- slots

fn are_one(a: &Location, b: &Location) -> bool
    ensures { result ≡ are_one (location_of a.now) (location_of b.now) }
{
    a.local == b.local && a.members.starts_with(&b.members) && b.members.starts_with(&a.members)
}

fn is_handed_as(l: &Location, argument: &Argument) -> bool
    ensures { result ≡ is_handed_as (location_of l.now) (argument_of argument.now) }
{
    match argument {
        Argument::Slot(m) => are_one(l, m),
        _ => false,
    }
}

fn is_among(l: &Location, arguments: &[Argument]) -> bool
    ensures { result ≡ list_any (is_handed_as (location_of l.now)) (map argument_of arguments.now) }
{
    for argument in arguments {
        if is_handed_as(l, argument) {
            return true;
        }
    }
    false
}

fn is_own_slot(argument: &Argument, others: &[Argument]) -> bool
    ensures { result ≡ is_own_slot (argument_of argument.now) (map argument_of others.now) }
{
    match argument {
        Argument::Slot(l) => !is_among(l, others),
        _ => true,
    }
}

// Whether no two slots are handed one local.
fn are_own_slots(arguments: &[Argument]) -> bool
    ensures { result ≡ are_own_slots (map argument_of arguments.now) }
{
    for (number, argument) in arguments.iter().enumerate() {
        if !is_own_slot(argument, &arguments[number + 1..]) {
            return false;
        }
    }
    true
}

// ---- results

// Whether a result of the type goes there.
fn goes_to(at: &Scope, ty: Ty, target: &Option<Location>) -> bool
    ensures { result ≡ goes_to at.now.types.now at.now.texts (map function_of at.now.functions.now) (function_of at.now.function.now) ty (option_map location_of target.now) }
{
    match target {
        None => is_void(ty),
        Some(l) => {
            let into = type_in(at.types, at.function, l);
            if is_pointer(ty) {
                takes(at.types, into, ty)
            } else {
                is_whole(l)
                    && same(ty, into)
                    && (is_object_at(at.function, l.local)
                        || is_number(at.types, at.function, l.local))
            }
        }
    }
}

// The locals that are parameters.
fn parameters_of(g: &CoreFn) -> &[Local]
    ensures { map local_type result.now ≡ types_taken (function_of g.now) }
{
    let count = g.parameters as usize;
    if count < g.locals.len() {
        &g.locals[..count]
    } else {
        &g.locals
    }
}

// Whether the function is handed what it takes, and its result goes there.
fn is_call_of(at: &Scope, g: &CoreFn, target: &Option<Location>, arguments: &[Argument]) -> bool
    ensures { result ≡ (are_arguments_for at.now.types.now at.now.texts (map function_of at.now.functions.now) (function_of at.now.function.now) (types_taken (function_of g.now)) (map argument_of arguments.now)
        && (are_own_slots (map argument_of arguments.now)
        && goes_to at.now.types.now at.now.texts (map function_of at.now.functions.now) (function_of at.now.function.now) (ty_of at.now.types.now (function_of g.now).result) (option_map location_of target.now))) }
{
    are_arguments_for(at, parameters_of(g), arguments)
        && are_own_slots(arguments)
        && goes_to(at, ty_at(at.types, g.result), target)
}

#[tactic(auto, using(crate::proofs::Functions::function_at))]
fn is_call(at: &Scope, function: FnId, target: &Option<Location>, arguments: &[Argument]) -> bool
    ensures { result ≡ is_call at.now.types.now at.now.texts (map function_of at.now.functions.now) (function_of at.now.function.now) (slice_get (map function_of at.now.functions.now) function.0) (option_map location_of target.now) (map argument_of arguments.now) }
{
    match at.functions.get(function.0 as usize) {
        None => false,
        Some(g) => is_call_of(at, g, target, arguments),
    }
}

// ---- points

fn is_formed_step(at: &Scope, instr: &Instr) -> bool
    ensures { result ≡ is_well_formed_step at.now.types.now at.now.texts (map function_of at.now.functions.now) (function_of at.now.function.now) (step_of instr.now) }
{
    let types = at.types;
    let f = at.function;
    match instr {
        Instr::Live { local, .. } => can_live(at, *local),
        Instr::End { locals } => can_end_all(at, locals),
        Instr::Eval { into, operation } => is_number(types, f, *into)
            && is_operation_of(at, type_at(types, f, *into), operation),
        Instr::Load { into, from } => is_number_of(types, f, type_of(types, f, from), *into),
        Instr::Save { to, from } => is_number_of(types, f, type_of(types, f, to), *from)
            && !is_const_place(types, f, to),
        Instr::Copy { to, from } => is_copy(at, to, from),
        Instr::Move { to, from } => is_move(at, to, *from),
        Instr::Aim { pointer, source } => is_source_of(at, type_in(types, f, pointer), source),
        Instr::Repoint { pointer, from } => takes(
            types,
            type_in(types, f, pointer),
            type_in(types, f, from),
        ),
        Instr::Element {
            pointer,
            base,
            which,
        } => {
            let into = type_in(types, f, pointer);
            aims_at(types, into, type_of_element(types, f, base, *which))
                && keeps_const(is_constant(into), is_const_base(types, f, base))
        }
        Instr::Cursor { pointer, base, .. } => {
            let into = type_in(types, f, pointer);
            walks(types, into, element_of(types, f, base))
                && keeps_const(is_constant(into), is_const_base(types, f, base))
        }
        Instr::Advance {
            pointer,
            from,
            count,
            ..
        } => {
            let into = type_in(types, f, pointer);
            is_iterator(into)
                && takes(types, into, type_in(types, f, from))
                && is_number(types, f, *count)
        }
        Instr::Cut {
            pointer,
            from,
            index,
            count,
        } => {
            let into = type_in(types, f, pointer);
            is_range(into)
                && takes(types, into, type_in(types, f, from))
                && is_number_of(types, f, Ty::Size, *index)
                && is_number_of_if(types, f, Ty::Size, *count)
        }
        Instr::Size { into, base } => {
            is_number_of(types, f, Ty::Size, *into) && !is_void(element_of(types, f, base))
        }
        Instr::Same {
            into,
            left,
            right,
            ..
        } => {
            is_number_of(types, f, Ty::Bool, *into)
                && are_compared(types, type_in(types, f, left), type_in(types, f, right))
        }
        Instr::Change { place, change } => {
            is_change_of(at, type_of(types, f, place), change) && !is_const_place(types, f, place)
        }
        Instr::Make { owner, made } => is_made_for(at, type_in(types, f, owner), *made),
        Instr::Call {
            target,
            function,
            arguments,
        } => is_call(at, *function, target, arguments),
        Instr::Port(port) => is_port(at, port),
    }
}

fn is_test(at: &Scope, test: &Test) -> bool
    ensures { result ≡ is_well_formed_test at.now.types.now at.now.texts (map function_of at.now.functions.now) (function_of at.now.function.now) (asked_of test.now) }
{
    match test {
        Test::NonZero(r) => is_number(at.types, at.function, *r),
        Test::NotNull(l) => {
            is_raw(type_in(at.types, at.function, l))
                || is_unique(type_in(at.types, at.function, l))
        }
    }
}

/// Whether what stands at a point is well formed.
pub(crate) fn is_formed(at: &Scope, node: NodeRef) -> bool
    ensures { result ≡ is_well_formed_node at.now.types.now at.now.texts (map function_of at.now.functions.now) (function_of at.now.function.now) (node_seen node.entry) }
{
    match node {
        NodeRef::Action(instr) => is_formed_step(at, instr),
        NodeRef::Question(test) => is_test(at, test),
        NodeRef::Return => true,
        NodeRef::Stop => true,
    }
}
