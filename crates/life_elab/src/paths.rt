// How many steps the longest paths of each type have.
ghost use Rattle.std.specs.Prelude.{◌≡◌, IfOk, max};
ghost use Rattle.life_types.specs.Trees.{members_at as members_there, struct_of, tree_at};
ghost use Rattle.life_elab.specs.KeptPaths as spec;
ghost use Rattle.life_elab.specs.Paths.{steps};

use life_pset::{STEP_LIMIT, members_at, ty_at};
use life_types::{NoMemory, Ty, TyId, TypeTable};
use std::alloc::Global;
use std::vec::Vec;

// One step more than a path may have, which stands for all longer ones too.
const TOO_LONG: u8 = STEP_LIMIT + 1;

/// How many steps the longest paths of a type have, at most `TOO_LONG`: into an object of it, and into
/// what its pointers point to.
#[derive(Clone, Copy)]
pub(crate) struct Paths {
    own: u8,
    behind: u8,
}

const NONE: Paths = Paths { own: 0, behind: 0 };

/// A table of types, with the longest paths of each.
#[derive(Clone, Copy)]
pub(crate) struct Measured<'a> {
    pub(crate) types: &'a TypeTable,
    pub(crate) paths: &'a [Paths],
}

// ---- what is made of the parts

fn one_more(steps: u8) -> u8
    ensures { result ≡ spec.one_more steps }
{
    if steps < TOO_LONG {
        steps + 1
    } else {
        TOO_LONG
    }
}

// What is kept of the type with this number; there is nothing in one that the table doesn't have.
fn kept_at(all: &[Paths], id: TyId) -> Paths
    ensures { result ≡ spec.kept_at all.now id }
{
    match all.get(id.0 as usize) {
        Some(paths) => *paths,
        None => NONE,
    }
}

fn owning(target: Paths) -> Paths
    ensures { result ≡ spec.owning target }
{
    Paths {
        own: one_more(target.own),
        behind: 0,
    }
}

fn pointing(target: Paths) -> Paths
    ensures { result ≡ spec.pointing target }
{
    Paths {
        own: 0,
        behind: target.own,
    }
}

fn with_member(others: Paths, member: Paths) -> Paths
    ensures { result ≡ spec.with_member others member }
{
    Paths {
        own: others.own.max(one_more(member.own)),
        behind: others.behind.max(member.behind),
    }
}

fn of_members(all: &[Paths], members: &[TyId]) -> Paths
    ensures { result ≡ spec.of_members all.now members.now }
{
    let mut paths = NONE;
    'members: for member in members {
        paths = with_member(paths, kept_at(all, *member));
    }
    paths
}

fn of_type(types: &TypeTable, all: &[Paths], ty: Ty) -> Paths
    ensures { result ≡ spec.of_type types.now all.now ty }
{
    match ty {
        Ty::Text => Paths { own: 1, behind: 0 },
        Ty::Vector(element) => owning(kept_at(all, element)),
        Ty::Unique(target) => owning(kept_at(all, target)),
        Ty::Raw { target, .. } => pointing(kept_at(all, target)),
        Ty::Reference { target, .. } => pointing(kept_at(all, target)),
        Ty::Iterator { target, .. } => pointing(kept_at(all, target)),
        Ty::Span { target, .. } => pointing(kept_at(all, target)),
        Ty::Struct(number) => of_members(all, members_at(types, number)),
        _ => NONE,
    }
}

// ---- a table

/// The longest paths of each type of a table, in the order of their numbers: each type comes behind its
/// parts, so none is walked through twice.
///
/// # Errors
///
/// For want of memory, which a table that is full counts as.
pub(crate) fn measure(alloc: Global, types: &TypeTable) -> Result<Vec<Paths>, NoMemory>
    ensures { IfOk result (λ all. spec.AreAllKept types.now all.items) }
{
    let mut all = Vec::new(alloc);
    'types: for number in 0..u32::MAX {
        let id = TyId(number);
        match types.get(id) {
            Some(_) => {
                let paths = of_type(types, &all, ty_at(types, id));
                all.push(paths)?;
            }
            None => return Ok(all),
        }
    }
    Err(NoMemory)
}

fn longest(paths: Paths) -> u8
    ensures { result ≡ max paths.own paths.behind }
{
    paths.own.max(paths.behind)
}

fn is_long(steps: u8) -> bool
    ensures { result ≡ spec.is_long steps }
{
    steps > STEP_LIMIT
}

/// Whether a path of this type, or of what its pointers point to, has more steps than it may.
pub(crate) fn has_long_path(measured: &Measured, id: TyId) -> bool
    requires { spec.AreAllKept measured.now.types.now measured.now.paths.now }
    ensures { result ≡ spec.is_long (steps (tree_at measured.now.types.now id)) }
{
    is_long(longest(kept_at(measured.paths, id)))
}

/// .. of the struct with this number.
pub(crate) fn has_long_member(measured: &Measured, number: u32) -> bool
    requires { spec.AreAllKept measured.now.types.now measured.now.paths.now }
    ensures { result ≡ spec.is_long (steps (struct_of (tree_at measured.now.types.now) (members_there measured.now.types.now number))) }
{
    is_long(longest(of_members(measured.paths, members_at(measured.types, number))))
}
