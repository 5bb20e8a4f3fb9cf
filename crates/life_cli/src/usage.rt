// Words that ask for nothing: help, the version, or a line on err that says what is wrong.
ghost use Rattle.std.specs.Prelude.{◌≡◌, ◌++◌, IfOk};
ghost use Rattle.life_job.specs.Refusals.{told_by};
ghost use Rattle.life_cli.specs.Answer.{answer_in, line};
ghost use Rattle.life_cli.specs.Ends.{RefusesWords, Reports, Serves, Tells};
ghost use Rattle.life_cli.specs.Usage.{usage};
ghost use Rattle.life_cli.specs.declared.status.Status.TheVariants.{Usage};

use crate::Status;
use crate::refusal::tell;
use crate::reply::{Reply, hand_out};
use crate::stop::{Ending, Stop};
use life_base::Sink;
use life_job::{Refusal, help_text, version_text};
use life_types::NoMemory;
use std::alloc::Global;

/// How the program is called.
const USAGE: &str = "usage: lifecheck COMMAND FILE [OPTIONS]";

// How the program is called, on err.
fn tell_usage(alloc: Global) -> Result<Ending, Stop>
    ensures { Tells Usage usage result }
{
    tell(alloc, Status::Usage, USAGE)
}

/// What is told of words that have no job.
#[tactic(auto, using(crate::proofs::Unasked::help_refuses, crate::proofs::Unasked::version_refuses, crate::proofs::Unasked::missing_refuses, crate::proofs::Unasked::wrong_refuses, crate::proofs::Unasked::stopped_refuses))]
pub fn refuse_words<O: Sink>(alloc: Global, refusal: Refusal, out: &mut O) -> Result<Ending, Stop>
    ensures { RefusesWords (told_by refusal)
        (record { taken = O.taken out.old; faults = O.faults out.old })
        (record { taken = O.taken out.new; faults = O.faults out.new }) result }
{
    match refusal {
        Refusal::Help => show(alloc, help_text(), out),
        Refusal::Version => show(alloc, version_text(), out),
        Refusal::Missing => tell_usage(alloc),
        Refusal::Wrong { line } => tell_wrong(alloc, line.as_str()),
        Refusal::NoMemory => Err(Stop::NoMemory),
    }
}

// A text on out, and how the program is called on err.
fn show<O: Sink>(alloc: Global, text: &str, out: &mut O) -> Result<Ending, Stop>
    ensures { Serves (λ answer. answer ≡ record { status = Usage; out = text.now; err = line usage })
        (record { taken = O.taken out.old; faults = O.faults out.old })
        (record { taken = O.taken out.new; faults = O.faults out.new }) result }
{
    let reply = usage_reply(alloc, text)?;
    hand_out(reply, out)
}

fn usage_reply(alloc: Global, text: &str) -> Result<Reply, NoMemory>
    ensures { IfOk result (λ reply. answer_in reply ≡ record { status = Usage; out = text.now; err = line usage }) }
{
    let err = format!(in alloc; "{USAGE}\n")?;
    Ok(Reply {
        status: Status::Usage,
        out: text.as_bytes().to_vec(alloc)?,
        err: err.into_bytes(),
    })
}

// How the program is called, and the line that names a wrong word.
fn tell_wrong(alloc: Global, wrong: &str) -> Result<Ending, Stop>
    ensures { Reports Usage (line usage ++ line wrong.now) result }
{
    let text = format!(in alloc; "{USAGE}\n{wrong}\n")?;
    Ok(Ending {
        status: Status::Usage,
        err: text.into_bytes(),
    })
}
