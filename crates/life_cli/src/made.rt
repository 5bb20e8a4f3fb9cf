// A file that is to be made.
ghost use Rattle.std.specs.Prelude.{Some};
ghost use Rattle.life_cli.specs.Ends.{WorksOn};
ghost use Rattle.life_cli.specs.Question as question;
ghost use Rattle.life_vectors.specs.Generated.{Generates};

use crate::Status;
use crate::fetch::MOST_BYTES;
use crate::job::{Command, Job};
use crate::refusal::tell;
use crate::stop::{Ending, Stop};
use crate::work::serve_bytes;
use life_base::{Files, Sink};
use life_vectors::{GenFault, generate};
use std::alloc::Global;

/// Makes the file of this number, with so many functions, and serves it.
#[tactic(auto, using(crate::proofs::Making::size_serves, crate::proofs::Making::size_stopped, crate::proofs::Making::size_too_large))]
pub fn serve_made<F: Files, O: Sink>(
    alloc: Global,
    number: u64,
    size: u64,
    files: &mut F,
    out: &mut O,
) -> Result<Ending, Stop>
    ensures { WorksOn (Some (question.OfMade number size)) ⊥
        (F.faults files.old) (F.faults files.new)
        (record { taken = O.taken out.old; faults = O.faults out.old })
        (record { taken = O.taken out.new; faults = O.faults out.new }) result }
{
    match make(alloc, number, size) {
        Ok(text) => serve_text(alloc, &text, files, out),
        Err(GenFault::SizeTooLarge) => tell(alloc, Status::Limit, "limit: size"),
        Err(GenFault::NoMemory) => Err(Stop::NoMemory),
    }
}

fn make(alloc: Global, number: u64, size: u64) -> Result<Vec<u8>, GenFault>
    ensures { Generates number size result }
{
    match u32::try_from(size) {
        Ok(size) => generate(alloc, number, size),
        Err(_) => Err(GenFault::SizeTooLarge),
    }
}

// Serves a file of this text, as one that is read.
#[tactic(auto, using(crate::proofs::Making::long_made))]
fn serve_text<F: Files, O: Sink>(
    alloc: Global,
    text: &[u8],
    files: &mut F,
    out: &mut O,
) -> Result<Ending, Stop>
    ensures { WorksOn (Some (question.made_asked text.now)) ⊥
        (F.faults files.old) (F.faults files.new)
        (record { taken = O.taken out.old; faults = O.faults out.old })
        (record { taken = O.taken out.new; faults = O.faults out.new }) result }
{
    if text.len() > MOST_BYTES {
        return tell(alloc, Status::Limit, "limit: file");
    }
    let job = Job {
        command: Command::Made { bytes: text.len() },
        file: "",
    };
    serve_bytes(alloc, job, text, files, out)
}
