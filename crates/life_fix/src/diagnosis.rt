// The diagnostics of a function.
ghost use Rattle.std.specs.List.{flat_map};
ghost use Rattle.std.specs.Option.{option_copied};
ghost use Rattle.std.specs.Prelude.{◌≡◌, ◌++◌, ◌⊎◌, ◌↔◌, Contains, IfOk, IfSome, OnOk, Some, length, map};
ghost use Rattle.life_core.specs.Function.{function_of};
ghost use Rattle.life_core.specs.Linked.{points_of};
ghost use Rattle.life_core.specs.Node.{spot_seen};
ghost use Rattle.life_contract.specs.Signatures.{signature_of};
ghost use Rattle.life_pset.specs.Causes.{AreSpotsOf};
ghost use Rattle.life_pset.specs.Elements.{IsWithinLimits};
ghost use Rattle.life_rules.specs.Diagnosing.{diags_at, IsDiagnosed};
ghost use Rattle.life_rules.specs.Lines.{line_of};
ghost use Rattle.life_rules.specs.Listing.{AreDiagnostics, HaveLines, listed_diag};
ghost use Rattle.life_rules.specs.Pairs.{Adds};
ghost use Rattle.life_rules.specs.Texts.{naming_of};
ghost use Rattle.life_rules.specs.declared.diag.Diag.{Diag};
ghost use Rattle.life_fix.specs.Finding.{all_wrong, IsWrongBy, IsWrongIn};
ghost use Rattle.life_fix.specs.Solution.{IsSolution};

use crate::listing::{listed, push_candidates};
use crate::solution::Solution;
use crate::told::told_facts;
use life_contract::{Callee, Signatures, signature_of};
use life_core::{CoreFn, FnId, Names, Point, SpotRef, spots};
use life_pset::{ElementTable, Fact};
use life_rules::{Diag, ListedDiag, PointContext, push_diags, push_diags_of_pairs, tells_some};
use life_sets::{NumberSet, Rows};
use life_types::{NoMemory, TypeTable};
use std::alloc::Global;

/// The diagnostics of the function with this number: what its derived facts make wrong at its points.
/// They stand in the order of the lines that they print, which is by line, column, kind, bytes of the
/// name and bytes of the reason. Each line stands once, by the least diagnostic that prints it in the
/// order of `Diag`, and each with its line. `sigs` are the signatures of the program's functions, by their
/// numbers. The only error is the want of memory.
pub fn diagnostics<R: Rows>(
    alloc: Global,
    f: &CoreFn,
    id: FnId,
    sigs: &Signatures,
    types: &TypeTable,
    names: &Names,
    sol: &Solution<R>,
) -> Result<Vec<ListedDiag>, NoMemory>
    requires limits { IsWithinLimits types.now (function_of f.now) }
    requires solution { IsSolution R.has R.location_limit R.element_limit sigs.now types.now (function_of f.now) sol.now }
    ensures listed { IfOk result
        (λ all. AreDiagnostics (naming_of names.now sigs.now) types.now id.0 (function_of f.now) (map listed_diag all.items)) }
    ensures lines { IfOk result
        (λ all. HaveLines (line_of (naming_of names.now sigs.now) types.now (function_of f.now)) all.items) }
{
    let spots = spots(alloc, f)?;
    let found = found(alloc, f, id, sigs, types, &spots, sol)?;
    let mut candidates = Vec::new(alloc);
    push_candidates(alloc, names, f, sigs, types, &found, &mut candidates)?;
    Ok(listed(candidates))
}

/// All that is wrong, in the order of the points, and maybe more than once. `spots` are the points.
pub(crate) fn found<R: Rows>(
    alloc: Global,
    f: &CoreFn,
    id: FnId,
    sigs: &Signatures,
    types: &TypeTable,
    spots: &[SpotRef],
    sol: &Solution<R>,
) -> Result<Vec<Diag>, NoMemory>
    requires limits { IsWithinLimits types.now (function_of f.now) }
    requires spots { AreSpotsOf (function_of f.now) spots.now }
    requires count { length spots.now ≡ points_of (function_of f.now) }
    requires solution { IsSolution R.has R.location_limit R.element_limit sigs.now types.now (function_of f.now) sol.now }
    ensures { IfOk result
        (λ all. (d : Diag) → Contains all.items d ↔ IsDiagnosed sigs.now types.now id.0 (function_of f.now) d) }
{
    let sig = signature_of(alloc, f)?;
    let own = Callee::of(alloc, &sig, types)?;
    let table = sol.table();
    let mut elements = NumberSet::empty(alloc, table.element_count())?;
    let mut all = Vec::new(alloc);
    for (index, spot) in spots.iter().enumerate() {
        let point = Point(index as u32 + 1);
        push_row(
            alloc,
            sigs,
            types,
            id.0,
            f,
            &own,
            *spot,
            table,
            sol.row(point),
            &mut elements,
            &mut all,
        )?;
    }
    Ok(all)
}

// Adds what the facts of a row make wrong at its point. At most points nothing may be told.
fn push_row<R: Rows>(
    alloc: Global,
    sigs: &Signatures,
    types: &TypeTable,
    function: u32,
    f: &CoreFn,
    own: &Callee<'_>,
    spot: SpotRef,
    table: &ElementTable,
    row: Option<&R>,
    elements: &mut NumberSet,
    out: &mut Vec<Diag>,
) -> Result<(), NoMemory>
    requires own_sig { own.now.sig.now ≡ signature_of (function_of f.now) }
    requires own_types { own.now.types.now ≡ types.now }
    requires locations { IfSome row (λ row. R.location_limit row.now ≡ length table.now.locations) }
    requires elements { IfSome row (λ row. R.element_limit row.now ≡ length table.now.elements) }
    requires limit { elements.old.limit ≡ length table.now.elements }
    ensures limit { elements.new.limit ≡ elements.old.limit }
    ensures wrong { OnOk result ((d : Diag) → Contains out.new.items d
        ↔ (Contains out.old.items d ⊎ IsWrongIn sigs.now types.now function (function_of f.now) table.now R.has (spot_seen spot.entry) (option_copied row.entry) d)) }
{
    match row {
        None => {}
        Some(row) => {
            if !tells_some(types, f, spot) {
                return Ok(());
            }
            push_wrong_by(
                alloc, sigs, types, function, f, own, spot, table, row, elements, out,
            )?;
        }
    }
    Ok(())
}

fn push_wrong_by<R: Rows>(
    alloc: Global,
    sigs: &Signatures,
    types: &TypeTable,
    function: u32,
    f: &CoreFn,
    own: &Callee<'_>,
    spot: SpotRef,
    table: &ElementTable,
    row: &R,
    elements: &mut NumberSet,
    out: &mut Vec<Diag>,
) -> Result<(), NoMemory>
    requires own_sig { own.now.sig.now ≡ signature_of (function_of f.now) }
    requires own_types { own.now.types.now ≡ types.now }
    requires locations { R.location_limit row.now ≡ length table.now.locations }
    requires elements { R.element_limit row.now ≡ length table.now.elements }
    requires limit { elements.old.limit ≡ length table.now.elements }
    ensures limit { elements.new.limit ≡ elements.old.limit }
    ensures wrong { OnOk result ((d : Diag) → Contains out.new.items d
        ↔ (Contains out.old.items d ⊎ IsWrongBy sigs.now types.now function (function_of f.now) table.now (R.has row.now) (spot_seen spot.entry) d)) }
{
    let facts = told_facts(alloc, types, f, spot, table, row, elements)?;
    let at = PointContext::of(alloc, sigs, types, function, f, own, spot)?;
    push_all_wrong(&at, &facts, out)?;
    Ok(())
}

// Adds what each fact makes wrong, and each two, in any order.
fn push_all_wrong(
    at: &PointContext<'_>,
    facts: &[Fact],
    out: &mut Vec<Diag>,
) -> Result<(), NoMemory>
    ensures { OnOk result
        (Adds (Contains (all_wrong at.now.sigs.now at.now.types.now at.now.function (function_of at.now.f.now) (spot_seen at.now.spot) facts.now)) out.old.items out.new.items) }
{
    push_facts(at, facts, out)?;
    push_diags_of_pairs(at, facts, out)
}

fn push_facts(at: &PointContext<'_>, facts: &[Fact], out: &mut Vec<Diag>) -> Result<(), NoMemory>
    ensures { OnOk result
        (out.new.items
        ≡ out.old.items ++ flat_map (diags_at at.now.sigs.now at.now.types.now at.now.function (function_of at.now.f.now) (Some (spot_seen at.now.spot))) facts.now) }
{
    for fact in facts {
        push_diags(at, fact, out)?;
    }
    Ok(())
}
