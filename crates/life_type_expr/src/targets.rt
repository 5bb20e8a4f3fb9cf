// What arguments and lists initialise.
ghost use Rattle.std.specs.Prelude.{◌≡◌, ◌<◌, ◌^◌, length, map};
ghost use Rattle.life_types.specs.Trees.{holds_unique, tree_at};
ghost use Rattle.life_typed.specs.BaseTypes.{type_at};
ghost use Rattle.life_typed.specs.TypedForm.{typed_view};
ghost use Rattle.life_names.specs.Environment.{structure_view};
ghost use Rattle.life_type_expr.specs.Lists as spec;
ghost use Rattle.life_type_expr.specs.TargetViews.{targets_view};

use crate::operands::misfit_kind;
use life_names::{Environment, IllKind, MemberType, type_at};
use life_typed::{Category, ExprType, MethodParameters, TypedExpr, fits};
use life_types::{Ty, TyId, TypeTable, holds_unique};

/// What is to be initialised.
#[derive(Clone, Copy)]
pub(crate) enum Targets<'a> {
    /// The parameters of a function, of these types.
    Parameters(&'a [TyId]),
    /// The parameters of a member function.
    Method(MethodParameters),
    /// The members of a struct, or none of them.
    Members(&'a [MemberType]),
    /// Elements of this type.
    Elements(TyId),
    /// One object of this type, or none.
    Optional(TyId),
    /// Nothing that a list initialises.
    Nothing,
}

impl<'a> Targets<'a> {
    /// The type that the expression with this number is to initialise.
    pub fn target_at(&self, types: &TypeTable, number: usize) -> Option<Ty>
        ensures { result ≡ spec.target_at (targets_view self.now) types.now number }
    {
        match self {
            Targets::Parameters(ids) => ids.get(number).map(|id| type_at(types, *id)),
            Targets::Method(parameters) => parameters.parameter(number),
            Targets::Members(members) => members.get(number).map(|m| type_at(types, m.ty)),
            Targets::Elements(id) => Some(type_at(types, *id)),
            Targets::Optional(id) => first_alone(number, type_at(types, *id)),
            Targets::Nothing => None,
        }
    }

    /// Whether so many expressions initialise them.
    fn takes_count(&self, count: usize) -> bool
        ensures { result ≡ spec.takes_count (targets_view self.now) count }
    {
        match self {
            Targets::Parameters(ids) => count == ids.len(),
            Targets::Method(parameters) => parameters.takes(count),
            Targets::Members(members) => count == 0 || count == members.len(),
            Targets::Elements(_) => true,
            Targets::Optional(_) => count <= 1,
            Targets::Nothing => false,
        }
    }

    /// The rule that is broken where so many expressions don't initialise them.
    pub fn count_fault(&self, general: IllKind, count: usize) -> Option<IllKind>
        ensures { result ≡ spec.count_fault general (targets_view self.now) count }
    {
        if self.takes_count(count) {
            None
        } else {
            Some(general)
        }
    }

    /// A member that is a struct which can't be copied isn't initialised by a list.
    fn copy_fault(&self, types: &TypeTable, number: usize) -> Option<IllKind>
        ensures { result ≡ spec.copy_fault (targets_view self.now) types.now number }
    {
        match self {
            Targets::Members(members) => match members.get(number) {
                None => None,
                Some(member) => copied_fault(types, member.ty),
            },
            _ => None,
        }
    }

    /// The rule that is broken where this initialises the target with that number.
    fn one_misfit(
        &self,
        types: &TypeTable,
        general: IllKind,
        number: usize,
        e: &TypedExpr,
    ) -> Option<IllKind>
        ensures { result ≡ spec.one_misfit general (targets_view self.now) types.now number (typed_view e.now) }
    {
        let target = self.target_at(types, number);
        match self.copy_fault(types, number) {
            Some(kind) => Some(kind),
            None => target_misfit(types, general, target, e.ty, e.category),
        }
    }

    /// The lowest of the rules that are broken where these initialise the targets.
    pub fn misfits(
        &self,
        types: &TypeTable,
        general: IllKind,
        other: Option<IllKind>,
        list: &[TypedExpr],
    ) -> Option<IllKind>
        ensures { result ≡ spec.misfits general (targets_view self.now) types.now other 0 (map typed_view list.now) }
    {
        let mut lowest = other;
        'list: for (number, e) in list.iter().enumerate() {
            lowest = lower_kind(lowest, self.one_misfit(types, general, number, e));
        }
        lowest
    }
}

/// A struct that holds a `std::unique_ptr` has no copy.
pub fn copied_fault(types: &TypeTable, ty: TyId) -> Option<IllKind>
    ensures { result ≡ spec.struct_fault (type_at types.now ty) (holds_unique (tree_at types.now ty)) }
{
    match type_at(types, ty) {
        Ty::Struct(_) => {
            if holds_unique(types, ty) {
                Some(IllKind::NotAssignable)
            } else {
                None
            }
        }
        _ => None,
    }
}

fn first_alone(number: usize, ty: Ty) -> Option<Ty>
    ensures { result ≡ spec.first_alone number ty }
{
    if number == 0 { Some(ty) } else { None }
}

fn kind_number(kind: IllKind) -> u32
    ensures { result ≡ spec.kind_number kind }
{
    match kind {
        IllKind::UnknownName => 1,
        IllKind::Redeclared => 2,
        IllKind::WrongType => 3,
        IllKind::NotPlain => 4,
        IllKind::NotAssignable => 5,
        IllKind::WrongArguments => 6,
        IllKind::MissingReturn => 7,
        IllKind::ConstBroken => 8,
        IllKind::BadAttribute => 9,
        IllKind::NoBody => 10,
        IllKind::Unsupported => 11,
    }
}

fn lower_of(first: IllKind, second: IllKind) -> IllKind
    ensures { result ≡ spec.lower_of first second }
{
    if kind_number(first) <= kind_number(second) {
        first
    } else {
        second
    }
}

/// Of two rules at one place that with the lower number.
pub fn lower_kind(first: Option<IllKind>, second: Option<IllKind>) -> Option<IllKind>
    ensures { result ≡ spec.lower_kind first second }
{
    match first {
        None => second,
        Some(first) => match second {
            None => Some(first),
            Some(second) => Some(lower_of(first, second)),
        },
    }
}

/// The rule that is broken where this is to initialise an object of that type.
fn target_misfit(
    types: &TypeTable,
    general: IllKind,
    target: Option<Ty>,
    ty: ExprType,
    category: Category,
) -> Option<IllKind>
    ensures { result ≡ spec.target_misfit general target types.now ty category }
{
    match target {
        None => Some(general),
        Some(target) => match fits(types, target, ty, category) {
            Ok(()) => None,
            Err(misfit) => Some(misfit_kind(general, misfit)),
        },
    }
}

/// Whether this initialises an object of that type.
pub fn is_taken(types: &TypeTable, target: Option<Ty>, e: &TypedExpr) -> bool
    ensures { result ≡ spec.is_taken types.now target (typed_view e.now) }
{
    match target {
        None => false,
        Some(target) => fits(types, target, e.ty, e.category).is_ok(),
    }
}

/// What a list in braces initialises: a vector by its elements, and a struct by its members
/// (ISO/IEC 14882:2017 [dcl.init.list]).
fn object_targets<'e>(environment: &'e Environment<'_>, ty: Ty) -> Targets<'e>
    ensures { targets_view result ≡ spec.object_targets ty environment.now }
{
    match ty {
        Ty::Vector(element) => Targets::Elements(element),
        Ty::Struct(number) => match environment.structure(number) {
            None => Targets::Nothing,
            Some(structure) => Targets::Members(&structure.members),
        },
        _ => Targets::Nothing,
    }
}

/// What a list in braces initialises in an object of this type; in a `const` reference it is what
/// that refers to.
pub(crate) fn list_targets<'e>(
    environment: &'e Environment<'_>,
    types: &TypeTable,
    ty: Ty,
) -> Targets<'e>
    ensures { targets_view result ≡ spec.list_targets ty environment.now types.now }
{
    match ty {
        Ty::Reference {
            target,
            constant: true,
        } => object_targets(environment, type_at(types, target)),
        _ => object_targets(environment, ty),
    }
}
