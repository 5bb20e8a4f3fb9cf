// Refusals: a line on err, and nothing on out.
ghost use Rattle.std.specs.Prelude.{◌≡◌, ◌++◌, codes, decimal};
ghost use Rattle.life_cli.specs.Ends.{Tells};
ghost use Rattle.life_cli.specs.Runs.{entry_text};
ghost use Rattle.life_cli.specs.declared.status.Status.TheVariants.{Ill, Input, NoFile};

use crate::Status;
use crate::stop::{Ending, Stop};
use std::alloc::Global;

/// A line on err, and nothing on out.
pub fn tell(alloc: Global, status: Status, text: &str) -> Result<Ending, Stop>
    ensures { Tells status text.now result }
{
    let line = format!(in alloc; "{text}\n")?;
    Ok(Ending {
        status,
        err: line.into_bytes(),
    })
}

/// The line for a name that no file has.
pub fn refuse_name(alloc: Global, name: &str) -> Result<Ending, Stop>
    ensures { Tells NoFile (codes "no file " ++ name.now) result }
{
    let text = format!(in alloc; "no file {name}")?;
    tell(alloc, Status::NoFile, text.as_str())
}

/// The line for a word of the input that is no number, or one too many, at this offset.
pub fn refuse_word(alloc: Global, offset: usize) -> Result<Ending, Stop>
    ensures { Tells Input (codes "input offset " ++ decimal offset ++ codes ": refused") result }
{
    let text = format!(in alloc; "input offset {offset}: refused")?;
    tell(alloc, Status::Input, text.as_str())
}

/// The line for a function with which no run begins.
pub fn refuse_entry(alloc: Global, name: &str, why: &str) -> Result<Ending, Stop>
    ensures { Tells Ill (entry_text name.now why.now) result }
{
    let text = format!(in alloc; "entry {name}: {why}")?;
    tell(alloc, Status::Ill, text.as_str())
}
