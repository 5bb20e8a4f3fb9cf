// A list of diagnostics in the order of their lines.
ghost use Rattle.std.specs.Prelude.{◌≡◌, ◌++◌, List, map, Contains, OnOk};
ghost use Rattle.std.specs.List.{dedup};
ghost use Rattle.life_core.specs.Function.{function_of};
ghost use Rattle.life_rules.specs.Lines.{Line, line_of};
ghost use Rattle.life_rules.specs.Listing.{HaveLines, IsListing, listed_diag};
ghost use Rattle.life_rules.specs.Texts.{naming_of};
ghost use Rattle.life_rules.specs.declared.diag.Diag.{Diag};
ghost use Rattle.life_fix.specs.Candidates.{candidate_seen, is_same_line, lined, KeepsLines, Sorts};

use life_contract::Signatures;
use life_core::{CoreFn, Names};
use life_rules::{Diag, ListedDiag, line_of};
use life_types::{NoMemory, TypeTable};
use std::alloc::Global;

/// Adds each of these diagnostics of a function, with its line.
pub(crate) fn push_candidates(
    alloc: Global,
    names: &Names,
    f: &CoreFn,
    sigs: &Signatures,
    types: &TypeTable,
    found: &[Diag],
    out: &mut Vec<ListedDiag>,
) -> Result<(), NoMemory>
    ensures { OnOk result (map candidate_seen out.new.items ≡ map candidate_seen out.old.items
        ++ map (lined (line_of (naming_of names.now sigs.now) types.now (function_of f.now))) found.now) }
{
    for diag in found {
        let line = line_of(alloc, names, f, sigs, types, diag)?;
        out.push(ListedDiag { line, diag: *diag })?;
    }
    Ok(())
}

/// The diagnostics in the order of their lines, each line once, and by the least of those that print
/// it. Each keeps its line.
pub(crate) fn listed(candidates: Vec<ListedDiag>) -> Vec<ListedDiag>
    ensures listed { (line : Diag → Line) (found : List Diag) →
        map candidate_seen candidates.items ≡ map (lined line) found → IsListing (Contains found) line (map listed_diag result.items) }
    ensures lines { (line : Diag → Line) (found : List Diag) →
        map candidate_seen candidates.items ≡ map (lined line) found → HaveLines line result.items }
{
    let mut candidates = candidates;
    keep_lines(&mut candidates);
    candidates
}

// Puts the candidates in order, and of those that print one line keeps the first.
fn keep_lines(candidates: &mut Vec<ListedDiag>)
    ensures { KeepsLines
        (map candidate_seen candidates.old.items) (map candidate_seen candidates.new.items) }
{
    sort(candidates);
    keep_first_of_each_run(candidates);
}

fn sort(candidates: &mut Vec<ListedDiag>)
    ensures { Sorts
        (map candidate_seen candidates.old.items) (map candidate_seen candidates.new.items) }
{
    candidates.sort_unstable();
}

// Keeps the first of each run of candidates that print one line.
fn keep_first_of_each_run(candidates: &mut Vec<ListedDiag>)
    ensures { map candidate_seen candidates.new.items
        ≡ dedup is_same_line (map candidate_seen candidates.old.items) }
{
    candidates.dedup_by(|later, kept| later.line == kept.line);
}
