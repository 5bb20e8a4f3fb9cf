// Structs.
ghost use Rattle.std.specs.Prelude.{◌≡◌, IfOk};
ghost use Rattle.life_typing.specs.Answers.{Answers, Follows};
ghost use Rattle.life_names.specs.Checked.{Gives};
ghost use Rattle.life_names.specs.Environment.{structure_view};
ghost use Rattle.life_typing.specs.Progress.{progress_view};
ghost use Rattle.life_typing.specs.Structs as spec;

use crate::parameters::is_seen;
use crate::pointing::{Pointing, pointing_of, pointing_of_both, points_nowhere};
use crate::progress::Progress;
use crate::struct_types::add_structure;
use indexmap::IndexSet;
use life_names::{
    Environment, IllFault, IllKind, MemberType, Structure, is_const_value, written_base,
    written_type,
};
use life_tree::{Identifier, Member, StructDefinition, Suffix, TypeName};
use life_typed::TypedStruct;
use life_types::{NameId, NoMemory, Place, TyId, TypeTable};
use std::alloc::Global;

/// The rule that is broken at this place unless this holds.
fn unless(holds: bool, kind: IllKind, place: Place) -> Result<(), IllFault>
    ensures { Follows result (spec.unless holds kind place) }
{
    if holds {
        Ok(())
    } else {
        Err(IllFault::Ill { kind, place })
    }
}

/// Whether a written type is a reference ([dcl.ref]).
fn is_reference(ty: &TypeName) -> bool
    ensures { result ≡ spec.is_reference ty.now }
{
    match ty.suffix {
        Some(Suffix::Reference(_)) => true,
        Some(Suffix::Pointer(_)) => false,
        None => false,
    }
}

/// What is wrong with a member that is a reference: what it would refer to, or that it is one ([class.mem]).
fn reference_member(
    environment: &Environment<'_>,
    types: &mut TypeTable,
    member: &Member,
) -> Result<TyId, IllFault>
    ensures { Gives (λ x. x) types.new result (spec.reference_member member.now environment.now types.old) }
{
    let place = member.name.place;
    written_base(environment, types, &member.ty, place)?;
    Err(IllFault::Ill {
        kind: IllKind::WrongType,
        place,
    })
}

/// The type of a member that is no reference; it isn't `const` as a value.
fn value_member(
    alloc: Global,
    environment: &Environment<'_>,
    types: &mut TypeTable,
    member: &Member,
) -> Result<TyId, IllFault>
    ensures { Gives (λ x. x) types.new result (spec.value_member member.now environment.now types.old) }
{
    let place = member.name.place;
    let ty = written_type(alloc, environment, types, &member.ty, place)?;
    unless(!is_const_value(&member.ty), IllKind::WrongType, place)?;
    Ok(ty)
}

/// The type of a member.
fn member_type(
    alloc: Global,
    environment: &Environment<'_>,
    types: &mut TypeTable,
    member: &Member,
) -> Result<TyId, IllFault>
    ensures { Gives (λ x. x) types.new result (spec.member_type member.now environment.now types.old) }
{
    if is_reference(&member.ty) {
        reference_member(environment, types, member)
    } else {
        value_member(alloc, environment, types, member)
    }
}

/// A member's name is another one than those before it ([class.mem]).
fn add_name(names: &mut IndexSet<NameId>, name: Identifier) -> Result<(), IllFault>
    ensures { Answers (λ _. names.new.keys) result (spec.name_added names.old.keys name) }
{
    let (_, is_new) = names.insert_full(name.id)?;
    unless(is_new, IllKind::Redeclared, name.place)
}

/// The members of a struct, which isn't visible in them. Their names are their own.
#[tactic(auto, using(crate::proofs::MembersInTurn::member_found, crate::proofs::MembersInTurn::member_broken, crate::proofs::MembersInTurn::name_broken, crate::proofs::MembersInTurn::members_found))]
fn member_types(
    alloc: Global,
    environment: &Environment<'_>,
    types: &mut TypeTable,
    members: &[Member],
) -> Result<Vec<MemberType>, IllFault>
    ensures { Gives (λ x. x.items) types.new result (spec.member_types members.now environment.now types.old) }
{
    let mut names = IndexSet::new(alloc);
    let mut found = Vec::new(alloc);
    'members: for member in members {
        let ty = member_type(alloc, environment, types, member)?;
        add_name(&mut names, member.name)?;
        found.push(MemberType {
            name: member.name.id,
            ty,
        })?;
    }
    Ok(found)
}

/// The types of members.
fn types_of(alloc: Global, members: &[MemberType]) -> Result<Vec<TyId>, NoMemory>
    ensures { IfOk result (λ v. v.items ≡ spec.types_of members.now) }
{
    let mut types = Vec::new(alloc);
    'members: for member in members {
        types.push(member.ty)?;
    }
    Ok(types)
}

/// The names of members.
fn names_of(alloc: Global, members: &[MemberType]) -> Result<Vec<NameId>, NoMemory>
    ensures { IfOk result (λ v. v.items ≡ spec.names_of members.now) }
{
    let mut names = Vec::new(alloc);
    'members: for member in members {
        names.push(member.name)?;
    }
    Ok(names)
}

/// What members together hold of pointers.
fn pointing_of_members(types: &TypeTable, structs: &[Pointing], members: &[MemberType]) -> Pointing
    ensures { result ≡ spec.pointing_of_members types.now structs.now members.now }
{
    let mut all = points_nowhere();
    'members: for member in members {
        all = pointing_of_both(all, pointing_of(types, structs, member.ty));
    }
    all
}

/// A struct with these members, as the environment knows it.
fn with_members(
    alloc: Global,
    progress: &mut Progress<'_>,
    place: Place,
    members: Vec<MemberType>,
) -> Result<Structure, IllFault>
    ensures { Answers (λ s. (structure_view s, progress_view progress.new)) result (spec.structure_with place members.items (progress_view progress.old)) }
{
    let pointing = pointing_of_members(&progress.types, &progress.pointing, &members);
    progress.pointing.push(pointing)?;
    let ids = types_of(alloc, &members)?;
    if ids.is_empty() {
        return Err(IllFault::Ill {
            kind: IllKind::Unsupported,
            place,
        });
    }
    let ty = add_structure(&mut progress.types, place, ids)?;
    Ok(Structure { ty, members })
}

/// A struct and what it adds, its name aside ([class]). One without members isn't served.
fn found_structure(
    alloc: Global,
    progress: &mut Progress<'_>,
    definition: &StructDefinition,
) -> Result<Structure, IllFault>
    ensures { Answers (λ s. (structure_view s, progress_view progress.new)) result (spec.found_structure definition.now (progress_view progress.old)) }
{
    let Identifier { id, place } = definition.name;
    unless(
        !is_seen(&progress.environment, id),
        IllKind::Redeclared,
        place,
    )?;
    let members = member_types(
        alloc,
        &progress.environment,
        &mut progress.types,
        &definition.members,
    )?;
    with_members(alloc, progress, place, members)
}

/// A struct.
pub(crate) fn define_structure(
    alloc: Global,
    progress: &mut Progress<'_>,
    definition: &StructDefinition,
) -> Result<(), IllFault>
    ensures { Answers (λ _. progress_view progress.new) result (spec.with_structure definition.now (progress_view progress.old)) }
{
    let structure = found_structure(alloc, progress, definition)?;
    let Identifier { id, place } = definition.name;
    progress.structs.push(TypedStruct {
        name: id,
        place,
        members: names_of(alloc, &structure.members)?,
    })?;
    progress
        .environment
        .declare_structure(id, place, structure)?;
    Ok(())
}
