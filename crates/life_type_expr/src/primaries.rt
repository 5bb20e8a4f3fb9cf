// Operands: prefix operators, what stands behind an operand, and what has no parts of that kind.
ghost use Rattle.std.specs.Prelude.{◌≡◌, map, option_map, None, Ok, [], true};
ghost use Rattle.life_typed.specs.TypedForm.{optional_form, typed_view};
ghost use Rattle.life_typed.specs.TypedStatement.{typed_list_view};
ghost use Rattle.life_names.specs.Checked.{Gives};
ghost use Rattle.life_names.specs.Environment.{signature_view, structure_view};
ghost use Rattle.life_type_expr.specs.Expressions as spec;
ghost use Rattle.life_names.specs.Found.{Finds};
ghost use Rattle.life_type_expr.specs.Lists as lists;
ghost use Rattle.life_type_expr.specs.Members as members;
ghost use Rattle.life_type_expr.specs.TargetViews.{targets_view};
ghost use Rattle.life_names.specs.declared.fault.IllKind.TheVariants as kinds;

use crate::chains::expr;
use crate::made::{
    bool_literal, call_made, char_literal, input_read, null_literal, number_literal, struct_made,
    text_literal,
};
use crate::members::{answered, called_of, change_fault, data_member, indexed_at};
use crate::named::{function_named, local_named, structure_named};
use crate::operands::{
    literal_allowed, moved, parenthesized, pointed_to, prefixed, text_made, value, variable,
};
use crate::targets::{Targets, is_taken, list_targets, lower_kind};
use life_names::{Environment, IllFault, IllKind, Signature, Structure, allowed, made_element};
use life_tree::{
    Arguments, Expr, Identifier, InitList, Postfix, PostfixPart, PrefixOperator, Primary, Target,
    TypeArgument, Unary,
};
use life_typed::{Delimiters, ExprForm, TypedExpr, TypedList};
use life_types::{Place, Ty, TypeTable};
use std::alloc::Global;

/// Prefix operators and their operand.
#[cycle(exprs)]
pub(crate) fn unary(
    alloc: Global,
    environment: &Environment<'_>,
    types: &mut TypeTable,
    unary: &Unary,
) -> Result<TypedExpr, IllFault>
    ensures { Gives typed_view types.new result (spec.unary_meaning unary.now environment.now types.old) }
{
    match unary {
        Unary::Prefix {
            operator,
            place,
            operand,
        } => {
            let e = self::unary(alloc, environment, types, operand)?;
            prefixed(types, *operator, *place, e)
        }
        Unary::Plain(operand) => postfix(alloc, environment, types, operand),
    }
}

/// An operand and what stands behind it.
#[cycle(exprs)]
pub fn postfix(
    alloc: Global,
    environment: &Environment<'_>,
    types: &mut TypeTable,
    postfix: &Postfix,
) -> Result<TypedExpr, IllFault>
    ensures { Gives typed_view types.new result (spec.postfix_meaning postfix.now environment.now types.old) }
{
    if postfix.parts.is_empty() {
        primary(alloc, environment, types, &postfix.primary)
    } else {
        postfix_chain(alloc, environment, types, postfix)
    }
}

/// An operand and the parts behind it, of which there is one at least.
#[cycle(exprs)]
fn postfix_chain(
    alloc: Global,
    environment: &Environment<'_>,
    types: &mut TypeTable,
    postfix: &Postfix,
) -> Result<TypedExpr, IllFault>
    ensures { Gives typed_view types.new result (spec.postfix_meaning postfix.now environment.now types.old) }
{
    let mut typed = primary(alloc, environment, types, &postfix.primary)?;
    'parts: for next in &postfix.parts {
        typed = part(alloc, environment, types, next, typed)?;
    }
    Ok(typed)
}

/// What stands behind an operand.
#[cycle(exprs)]
fn part(
    alloc: Global,
    environment: &Environment<'_>,
    types: &mut TypeTable,
    part: &PostfixPart,
    base: TypedExpr,
) -> Result<TypedExpr, IllFault>
    ensures { Gives typed_view types.new result (spec.part_meaning part.now (typed_view base) environment.now types.old) }
{
    match part {
        PostfixPart::Member {
            name,
            arguments,
            ..
        } => {
            literal_allowed(false, &base)?;
            member(alloc, environment, types, *name, arguments, base)
        }
        PostfixPart::Arrow {
            name,
            arguments,
            ..
        } => {
            literal_allowed(false, &base)?;
            let target = pointed_to(types, name.place, base)?;
            member(alloc, environment, types, *name, arguments, target)
        }
        PostfixPart::Index {
            opening,
            index,
            closing,
        } => {
            literal_allowed(false, &base)?;
            let position = expr(alloc, environment, types, index)?;
            literal_allowed(false, &position)?;
            indexed_at(alloc, types, *opening, base, position, *closing)
        }
    }
}

/// A member, or a call of one.
#[cycle(exprs)]
fn member(
    alloc: Global,
    environment: &Environment<'_>,
    types: &mut TypeTable,
    name: Identifier,
    arguments: &Option<Arguments>,
    base: TypedExpr,
) -> Result<TypedExpr, IllFault>
    ensures { Gives typed_view types.new result (members.member_part name (option_map spec.arguments_meaning arguments.now) (typed_view base) environment.now types.old) }
{
    match arguments {
        None => data_member(environment, types, base, name),
        Some(arguments) => method(alloc, environment, types, name, arguments, base),
    }
}

/// A call of a member function.
#[cycle(exprs)]
fn method(
    alloc: Global,
    environment: &Environment<'_>,
    types: &mut TypeTable,
    name: Identifier,
    arguments: &Arguments,
    base: TypedExpr,
) -> Result<TypedExpr, IllFault>
    ensures { Gives typed_view types.new result (members.method_call name (spec.arguments_meaning arguments.now) (typed_view base) environment.now types.old) }
{
    let called = called_of(environment, types, base.ty, name)?;
    let fault = change_fault(called.method, base.category);
    let targets = Targets::Method(called.parameters);
    let kind = IllKind::WrongArguments;
    let list = passed(
        alloc,
        environment,
        types,
        kind,
        fault,
        name.place,
        targets,
        &arguments.list,
    )?;
    let delimiters = Delimiters::of(alloc, &arguments.commas, arguments.closing)?;
    answered(types, &called, name.place, base, list, delimiters)
}

/// What has no operators and no parts.
#[cycle(exprs)]
fn primary(
    alloc: Global,
    environment: &Environment<'_>,
    types: &mut TypeTable,
    primary: &Primary,
) -> Result<TypedExpr, IllFault>
    ensures { Gives typed_view types.new result (spec.primary_meaning primary.now environment.now types.old) }
{
    match primary {
        Primary::Number { value: n, place } => Ok(number_literal(alloc, *place, *n)),
        Primary::Char { value: c, place } => Ok(char_literal(alloc, *place, *c)),
        Primary::Text { number, place } => Ok(text_literal(alloc, *place, *number)),
        Primary::True(place) => Ok(bool_literal(alloc, *place, true)),
        Primary::False(place) => Ok(bool_literal(alloc, *place, false)),
        Primary::Null(place) => Ok(null_literal(alloc, *place)),
        Primary::Name(name) => {
            let (number, local) = local_named(environment, *name)?;
            Ok(variable(alloc, types, name.place, number, local))
        }
        Primary::Call { name, arguments } => {
            let (number, signature) = function_named(environment, *name)?;
            call(
                alloc,
                environment,
                types,
                name.place,
                number,
                signature,
                arguments,
            )
        }
        Primary::Construct { name, list } => {
            let (number, structure) = structure_named(environment, *name)?;
            construct(alloc, environment, types, number, structure, list)
        }
        Primary::Paren { inner, closing, .. } => {
            let e = expr(alloc, environment, types, inner)?;
            parenthesized(*closing, e)
        }
        Primary::Move { name, variable, .. } => {
            let (number, local) = local_named(environment, *variable)?;
            moved(alloc, types, name.word, number, local)
        }
        Primary::MakeUnique {
            name,
            element,
            arguments,
        } => make_unique(alloc, environment, types, name.word, arguments, element),
        Primary::TextOf {
            name,
            inner,
            closing,
            ..
        } => {
            let e = expr(alloc, environment, types, inner)?;
            text_made(name.word, *closing, e)
        }
        Primary::Input { name, .. } => Ok(input_read(alloc, name.word)),
    }
}

/// A call of a function.
#[cycle(exprs)]
fn call(
    alloc: Global,
    environment: &Environment<'_>,
    types: &mut TypeTable,
    place: Place,
    function: u32,
    signature: &Signature,
    arguments: &Arguments,
) -> Result<TypedExpr, IllFault>
    ensures { Gives typed_view types.new result (spec.called place (spec.arguments_meaning arguments.now) (function, signature_view signature.now) environment.now types.old) }
{
    let targets = Targets::Parameters(&signature.parameters);
    let list = passed(
        alloc,
        environment,
        types,
        IllKind::WrongArguments,
        None,
        place,
        targets,
        &arguments.list,
    )?;
    let delimiters = Delimiters::of(alloc, &arguments.commas, arguments.closing)?;
    Ok(call_made(
        alloc,
        types,
        place,
        function,
        signature.result,
        list,
        delimiters,
    ))
}

/// A struct made of a list.
#[cycle(exprs)]
fn construct(
    alloc: Global,
    environment: &Environment<'_>,
    types: &mut TypeTable,
    number: u32,
    structure: &Structure,
    list: &InitList,
) -> Result<TypedExpr, IllFault>
    ensures { Gives typed_view types.new result (spec.constructed (spec.init_list_meaning list.now) (number, structure_view structure.now) environment.now types.old) }
{
    let targets = Targets::Members(&structure.members);
    let elements = braced(alloc, environment, types, targets, list)?;
    let delimiters = Delimiters::of(alloc, &list.commas, list.closing)?;
    Ok(struct_made(alloc, list.opening, number, elements, delimiters))
}

/// The first argument, if there is one.
#[tactic(auto, using(crate::proofs::FormLemmas::no_first, crate::proofs::FormLemmas::the_first))]
fn first_of(alloc: Global, list: Vec<TypedExpr>) -> Result<Option<Box<TypedExpr>>, IllFault>
    ensures { Finds (option_map (λ e. typed_view e.value)) result (Ok (spec.first_of (map typed_view list.items))) }
{
    match list.into_iter().next() {
        None => Ok(None),
        Some(e) => Ok(Some(Box::new(alloc, e)?)),
    }
}

/// `std::make_unique`, where that stands at this place.
#[cycle(exprs)]
fn make_unique(
    alloc: Global,
    environment: &Environment<'_>,
    types: &mut TypeTable,
    place: Place,
    arguments: &Arguments,
    element: &TypeArgument,
) -> Result<TypedExpr, IllFault>
    ensures { Gives typed_view types.new result (spec.unique_made place element.now (spec.arguments_meaning arguments.now) environment.now types.old) }
{
    let id = made_element(environment, types, element, place)?;
    let list = passed(
        alloc,
        environment,
        types,
        IllKind::WrongArguments,
        None,
        place,
        Targets::Optional(id),
        &arguments.list,
    )?;
    let form = ExprForm::MakeUnique {
        element: id,
        argument: first_of(alloc, list)?,
        closing: arguments.closing,
    };
    Ok(value(alloc, place, Ty::Unique(id), form))
}

/// Expressions, one after the other. A string literal that isn't converted is told where it stands.
#[cycle(exprs)]
fn read_list(
    alloc: Global,
    environment: &Environment<'_>,
    types: &mut TypeTable,
    targets: Targets<'_>,
    list: &[Expr],
) -> Result<Vec<TypedExpr>, IllFault>
    ensures { Gives (λ v. map typed_view v.items) types.new result (lists.read_onto (targets_view targets.entry) [] (map spec.expr_meaning list.now) environment.now types.old) }
{
    let mut read = Vec::new(alloc);
    'list: for e in list {
        let next = expr(alloc, environment, types, e)?;
        let target = targets.target_at(types, read.len());
        literal_allowed(is_taken(types, target, &next), &next)?;
        read.push(next)?;
    }
    Ok(read)
}

/// The expressions of a list. `general` is told at the place where one doesn't fit, and another rule
/// is maybe broken there too.
#[cycle(exprs)]
fn passed(
    alloc: Global,
    environment: &Environment<'_>,
    types: &mut TypeTable,
    general: IllKind,
    other: Option<IllKind>,
    place: Place,
    targets: Targets<'_>,
    list: &[Expr],
) -> Result<Vec<TypedExpr>, IllFault>
    ensures { Gives (λ v. map typed_view v.items) types.new result (lists.passed general other place (targets_view targets.entry) (map spec.expr_meaning list.now) environment.now types.old) }
{
    let read = read_list(alloc, environment, types, targets, list)?;
    let lowest = lower_kind(other, targets.count_fault(general, read.len()));
    allowed(targets.misfits(types, general, lowest, &read), place)?;
    Ok(read)
}

/// The elements of a list in braces, whose own rules are broken at its `{`.
#[cycle(exprs)]
fn braced(
    alloc: Global,
    environment: &Environment<'_>,
    types: &mut TypeTable,
    targets: Targets<'_>,
    list: &InitList,
) -> Result<Vec<TypedExpr>, IllFault>
    ensures { Gives (λ v. map typed_view v.items) types.new result (lists.braced (targets_view targets.entry) (spec.init_list_meaning list.now) environment.now types.old) }
{
    passed(
        alloc,
        environment,
        types,
        IllKind::WrongType,
        None,
        list.opening,
        targets,
        &list.list,
    )
}

/// A list that initialises an object of this type.
pub fn elements(
    alloc: Global,
    environment: &Environment<'_>,
    types: &mut TypeTable,
    target: Ty,
    list: &InitList,
) -> Result<TypedList, IllFault>
    ensures { Gives typed_list_view types.new result (spec.list_checked target list.now environment.now types.old) }
{
    let targets = list_targets(environment, types, target);
    let elements = braced(alloc, environment, types, targets, list)?;
    Ok(TypedList {
        opening: list.opening,
        elements,
        delimiters: Delimiters::of(alloc, &list.commas, list.closing)?,
    })
}

/// What is assigned to or stepped.
pub fn place_target(
    alloc: Global,
    environment: &Environment<'_>,
    types: &mut TypeTable,
    target: &Target,
) -> Result<TypedExpr, IllFault>
    ensures { Gives typed_view types.new result (spec.target_meaning target.now environment.now types.old) }
{
    match target {
        Target::Dereference { star, operand } => {
            let e = place_target(alloc, environment, types, operand)?;
            prefixed(types, PrefixOperator::Dereference, *star, e)
        }
        Target::Plain(operand) => postfix(alloc, environment, types, operand),
    }
}
