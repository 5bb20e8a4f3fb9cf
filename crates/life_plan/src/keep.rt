// What is kept at locations, by whole sets.
ghost use Rattle.std.specs.Prelude.{◌≡◌, ◌↔◌, ◌⊎◌, ◌||◌, ◌&&◌, not, ℕ, ◌<◌, Some, true, OnOk, IsTrue};
ghost use Rattle.life_sets.specs.NumberSets.{holds};
ghost use Rattle.life_rules.specs.FactSets.{GainsSome};
ghost use Rattle.life_plan.specs.Carried.{IsRoom};
ghost use Rattle.life_plan.specs.Noted.{Notes};
ghost use Rattle.life_plan.specs.Numbered.{IsSizedMarking, IsSizedStaying, KeepsFrom, LeadsTo, AreSized, Becomes, MovesNothing};

use crate::marking::Marking;
use crate::numbers::insert_if;
use crate::staying::{Becoming, Staying};
use crate::whole::carry_at;
use crate::workspace::Workspace;
use life_sets::{NumberSet, Rows};
use life_types::NoMemory;

/// Adds to a row what is kept of the locations of another row that are due, or of all.
pub fn keep_due<R: Rows>(
    staying: &Staying,
    marking: &Marking,
    due: &NumberSet,
    all: bool,
    from: &R,
    into: &mut R,
    gained: &mut NumberSet,
    workspace: &mut Workspace,
) -> Result<(), NoMemory>
    requires locations { R.location_limit into.old ≡ R.location_limit from.now }
    requires elements { R.element_limit into.old ≡ R.element_limit from.now }
    requires staying { IsSizedStaying (R.element_limit from.now) staying.now }
    requires marking { IsSizedMarking (R.element_limit from.now) marking.now }
    requires gained { gained.old.limit ≡ R.location_limit from.now }
    requires due { due.now.limit ≡ R.location_limit from.now }
    requires room { IsRoom (R.element_limit from.now) workspace.old }
    ensures kept { OnOk result ((l m : ℕ) → IsTrue (all || holds due.now l) → KeepsFrom staying.now marking.now (R.location_limit from.now) (R.element_limit from.now) (R.has from.now) l m → IsTrue (R.has into.new l m)) }
    ensures some { GainsSome (R.has into.old) (R.has into.new) (KeepsFrom staying.now marking.now (R.location_limit from.now) (R.element_limit from.now) (R.has from.now)) }
    ensures noted { OnOk result (Notes (R.has into.old) (R.has into.new) (holds gained.old) (holds gained.new)) }
    ensures locations { R.location_limit into.new ≡ R.location_limit into.old }
    ensures elements { R.element_limit into.new ≡ R.element_limit into.old }
    ensures gained { gained.new.limit ≡ gained.old.limit }
    ensures room { IsRoom (R.element_limit from.now) workspace.new }
{
    let still = moves_nothing(staying, marking);
    for l in 0..due.limit() {
        let is_due = all | due.contains(l);
        if is_due {
            keep_at(staying, marking, still, l, from, into, gained, workspace)?;
        }
    }
    Ok(())
}

// Whether each element stays as it is, and leads to nothing else, as at most points.
fn moves_nothing(staying: &Staying, marking: &Marking) -> bool
    ensures { result ≡ true → MovesNothing staying.now marking.now }
{
    match marking.mark {
        None => staying.becoming.is_empty() && staying.gone.is_empty(),
        Some(_) => false,
    }
}

// Adds what is kept at a location.
fn keep_at<R: Rows>(
    staying: &Staying,
    marking: &Marking,
    still: bool,
    l: u32,
    from: &R,
    into: &mut R,
    gained: &mut NumberSet,
    workspace: &mut Workspace,
) -> Result<(), NoMemory>
    requires still { still ≡ true → MovesNothing staying.now marking.now }
    requires location { l < R.location_limit from.now }
    requires locations { R.location_limit into.old ≡ R.location_limit from.now }
    requires elements { R.element_limit into.old ≡ R.element_limit from.now }
    requires staying { IsSizedStaying (R.element_limit from.now) staying.now }
    requires marking { IsSizedMarking (R.element_limit from.now) marking.now }
    requires gained { gained.old.limit ≡ R.location_limit from.now }
    requires room { IsRoom (R.element_limit from.now) workspace.old }
    ensures kept { OnOk result ((m : ℕ) → KeepsFrom staying.now marking.now (R.location_limit from.now) (R.element_limit from.now) (R.has from.now) l m → IsTrue (R.has into.new l m)) }
    ensures some { GainsSome (R.has into.old) (R.has into.new) (KeepsFrom staying.now marking.now (R.location_limit from.now) (R.element_limit from.now) (R.has from.now)) }
    ensures noted { OnOk result (Notes (R.has into.old) (R.has into.new) (holds gained.old) (holds gained.new)) }
    ensures locations { R.location_limit into.new ≡ R.location_limit into.old }
    ensures elements { R.element_limit into.new ≡ R.element_limit into.old }
    ensures gained { gained.new.limit ≡ gained.old.limit }
    ensures room { IsRoom (R.element_limit from.now) workspace.new }
{
    if staying.written.contains(l) {
        return Ok(());
    }
    if still {
        return carry_at(l, from, into, gained);
    }
    from.read(l, &mut workspace.before);
    leave(staying, marking, &workspace.before, &mut workspace.after);
    let fresh = into.join_at(l, &workspace.after)?;
    insert_if(fresh, l, gained);
    Ok(())
}

// What these elements lead to.
fn leave(staying: &Staying, marking: &Marking, before: &NumberSet, after: &mut NumberSet)
    requires staying { IsSizedStaying before.now.limit staying.now }
    requires marking { IsSizedMarking before.now.limit marking.now }
    requires limit { after.old.limit ≡ before.now.limit }
    ensures leads { (m : ℕ) → IsTrue (holds after.new m) ↔ ((e : ℕ) × (IsTrue (holds before.now e) × LeadsTo staying.now marking.now e m)) }
    ensures limit { after.new.limit ≡ after.old.limit }
{
    stay(staying, before, after);
    change(&staying.becoming, before, after);
    mark(marking, before, after);
}

// Those of these elements that stay as they are.
fn stay(staying: &Staying, before: &NumberSet, after: &mut NumberSet)
    requires gone { staying.now.gone.limit ≡ before.now.limit }
    requires limit { after.old.limit ≡ before.now.limit }
    ensures stays { (m : ℕ) → holds after.new m ≡ (holds before.now m && not (holds staying.now.gone m)) }
    ensures limit { after.new.limit ≡ after.old.limit }
{
    after.clear();
    after.add_all(before);
    after.remove_all(&staying.gone);
}

// Adds what these elements become.
fn change(changes: &[Becoming], before: &NumberSet, after: &mut NumberSet)
    requires sized { AreSized before.now.limit changes.now }
    requires limit { after.old.limit ≡ before.now.limit }
    ensures changes { (m : ℕ) → IsTrue (holds after.new m) ↔ (IsTrue (holds after.old m) ⊎ ((e : ℕ) × (IsTrue (holds before.now e) × Becomes changes.now e m))) }
    ensures limit { after.new.limit ≡ after.old.limit }
{
    for becoming in changes {
        insert_if(before.meets(&becoming.from), becoming.element, after);
    }
}

// Adds the mark, if one of these elements is marked.
fn mark(marking: &Marking, before: &NumberSet, after: &mut NumberSet)
    requires marking { IsSizedMarking before.now.limit marking.now }
    requires limit { after.old.limit ≡ before.now.limit }
    ensures marks { (m : ℕ) → IsTrue (holds after.new m) ↔ (IsTrue (holds after.old m) ⊎ ((e : ℕ) × (IsTrue (holds before.now e) × (IsTrue (holds marking.now.mask e) × (marking.now.mark ≡ Some m))))) }
    ensures limit { after.new.limit ≡ after.old.limit }
{
    match marking.mark {
        None => {}
        Some(mark) => {
            insert_if(before.meets(&marking.mask), mark, after);
        }
    }
}
