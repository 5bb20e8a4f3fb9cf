// What is carried where nothing comes of facts but each fact itself.
ghost use Rattle.std.specs.Prelude.{◌≡◌, ℕ, ◌<◌, OnOk, IsTrue};
ghost use Rattle.life_sets.specs.NumberSets.{holds};
ghost use Rattle.life_rules.specs.FactSets.{GainsSome};
ghost use Rattle.life_plan.specs.Noted.{Notes};
ghost use Rattle.life_plan.specs.Numbered.{IsAmong, IsAmongAt};

use crate::numbers::insert_if;
use life_sets::{NumberSet, Rows};
use life_types::NoMemory;

/// Adds to a row the pairs of another row at the locations that are due.
pub fn carry_whole<R: Rows>(
    due: &NumberSet,
    from: &R,
    into: &mut R,
    gained: &mut NumberSet,
) -> Result<(), NoMemory>
    requires locations { R.location_limit into.old ≡ R.location_limit from.now }
    requires elements { R.element_limit into.old ≡ R.element_limit from.now }
    requires gained { gained.old.limit ≡ R.location_limit from.now }
    requires due { due.now.limit ≡ R.location_limit from.now }
    ensures kept { OnOk result ((l m : ℕ) → IsTrue (holds due.now l) → l < R.location_limit from.now → IsTrue (R.has from.now l m) → IsTrue (R.has into.new l m)) }
    ensures some { GainsSome (R.has into.old) (R.has into.new) (IsAmong (R.location_limit from.now) (R.element_limit from.now) (R.has from.now)) }
    ensures noted { OnOk result (Notes (R.has into.old) (R.has into.new) (holds gained.old) (holds gained.new)) }
    ensures locations { R.location_limit into.new ≡ R.location_limit into.old }
    ensures elements { R.element_limit into.new ≡ R.element_limit into.old }
    ensures gained { gained.new.limit ≡ gained.old.limit }
{
    for l in 0..due.limit() {
        let is_due = due.contains(l);
        if is_due {
            carry_at(l, from, into, gained)?;
        }
    }
    Ok(())
}

/// Adds the pairs at a location.
pub(crate) fn carry_at<R: Rows>(
    l: u32,
    from: &R,
    into: &mut R,
    gained: &mut NumberSet,
) -> Result<(), NoMemory>
    requires location { l < R.location_limit from.now }
    requires locations { R.location_limit into.old ≡ R.location_limit from.now }
    requires elements { R.element_limit into.old ≡ R.element_limit from.now }
    requires gained { gained.old.limit ≡ R.location_limit from.now }
    ensures kept { OnOk result ((m : ℕ) → IsTrue (R.has from.now l m) → IsTrue (R.has into.new l m)) }
    ensures some { GainsSome (R.has into.old) (R.has into.new) (IsAmongAt l (R.location_limit from.now) (R.element_limit from.now) (R.has from.now)) }
    ensures noted { OnOk result (Notes (R.has into.old) (R.has into.new) (holds gained.old) (holds gained.new)) }
    ensures locations { R.location_limit into.new ≡ R.location_limit into.old }
    ensures elements { R.element_limit into.new ≡ R.element_limit into.old }
    ensures gained { gained.new.limit ≡ gained.old.limit }
{
    let fresh = into.join_from(from, l)?;
    insert_if(fresh, l, gained);
    Ok(())
}
