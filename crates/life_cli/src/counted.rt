// The check of a text and the sets of a program, by a command that counts no steps.
ghost use Rattle.std.specs.Prelude.{◌≡◌, ◌<◌, ◌≤◌, length, map, IfOk};
ghost use Rattle.life_check.specs.CheckedText.{ComesOnlyTo};
ghost use Rattle.life_check.specs.Findings.{Finds};
ghost use Rattle.life_core.specs.Function.{program_of};
ghost use Rattle.life_pset.specs.Limits.{IsProgramWithinLimits};
ghost use Rattle.life_psets.specs.Sets.{set_seen, AreSets};
ghost use Rattle.life_cli.specs.FileText.{most_bytes};

use life_base::Steps;
use life_check::{CheckFault, Checked, check_text};
use life_core::CoreProgram;
use life_psets::{SetLine, sets_of};
use life_types::NoMemory;
use std::alloc::Global;
use std::marker::Brand;
use std::sync::ledger::{Blank, Ledger};

/// What the check of these bytes gives.
pub fn checked(alloc: Global, bytes: &[u8]) -> Result<Checked, CheckFault>
    requires { length bytes.now ≤ most_bytes }
    ensures { Finds (ComesOnlyTo bytes.now) result }
{
    checked_with::<Brand>(alloc, bytes, Blank::new(1))
}

// .. with a counter of its own.
fn checked_with<L: Ledger>(alloc: Global, bytes: &[u8], blank: Blank) -> Result<Checked, CheckFault>
    requires short { length bytes.now ≤ most_bytes }
    requires name { blank.name ≡ L.name }
    requires parts { blank.parts ≡ L.parts }
    requires some { 0 < blank.parts }
    ensures { Finds (ComesOnlyTo bytes.now) result }
{
    let mut steps = Steps::<L>::new(blank);
    check_text(alloc, bytes, &mut steps)
}

/// The sets of this program.
pub fn sets(alloc: Global, program: &CoreProgram) -> Result<Vec<SetLine>, NoMemory>
    requires { IsProgramWithinLimits (program_of program.now) }
    ensures { IfOk result (λ lines. AreSets (program_of program.now) (map set_seen lines.items)) }
{
    sets_with::<Brand>(alloc, program, Blank::new(1))
}

// .. with a counter of its own.
fn sets_with<L: Ledger>(
    alloc: Global,
    program: &CoreProgram,
    blank: Blank,
) -> Result<Vec<SetLine>, NoMemory>
    requires within { IsProgramWithinLimits (program_of program.now) }
    requires name { blank.name ≡ L.name }
    requires parts { blank.parts ≡ L.parts }
    requires some { 0 < blank.parts }
    ensures { IfOk result (λ lines. AreSets (program_of program.now) (map set_seen lines.items)) }
{
    let mut steps = Steps::<L>::new(blank);
    sets_of(alloc, program, &mut steps)
}
