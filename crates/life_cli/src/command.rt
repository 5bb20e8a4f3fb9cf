// The one call.
ghost use Rattle.std.specs.Prelude.{◌≡◌, ℕ, List, None, Some, map, string_bytes, IfSome};
ghost use Rattle.life_check.specs.CheckedText.{IsProgramOf};
ghost use Rattle.life_core.specs.Function.{Program};
ghost use Rattle.life_job.specs.Words.{asked_of};
ghost use Rattle.life_store.specs.NoFault.{NoFault};
ghost use Rattle.life_vectors.specs.Generated.{generated};
ghost use Rattle.life_cli.specs.Accepting.{Accepts, IsPast};
ghost use Rattle.life_cli.specs.Ends.{Closes, Ends, status_of, text_of};
ghost use Rattle.life_cli.specs.Question.{Asks};
ghost use Rattle.life_cli.specs.Words.{task_of, AsksUnchecked, Job, Make, OnFile};
ghost use Rattle.life_cli.specs.declared.status.Status.TheVariants.{Fault, Usage};

use crate::Status;
use crate::stop::{Ending, Stop};
use crate::work::work;
use life_base::{Files, Sink, write_whole};
use std::alloc::Global;

/// Does what the words ask for, with these files, and writes to out and err. `words` begin with the
/// program's own name.
pub fn run_command<F: Files, O: Sink, E: Sink>(
    alloc: Global,
    words: &[String],
    files: &mut F,
    out: &mut O,
    err: &mut E,
) -> Status
    // Whenever it accepts a file that tells its bytes, there is the program of these bytes, and no run of
    // it uses what is null, dangling or moved from.
    ensures accepted { (job : Job) → task_of (map string_bytes words.now) ≡ Some (OnFile job) → Accepts job.command result
        → (bytes : List ℕ) × (IfSome (F.held files.old) (λ held. held job.file ≡ Some bytes)
        × ((p : Program) × (IsProgramOf bytes p × NoFault p))) }
    // .. and so is it with a file that it makes, and comes to run.
    ensures made { (number size : ℕ) → task_of (map string_bytes words.now) ≡ Some (Make number size) → IsPast result
        → (p : Program) × (IsProgramOf (generated number size) p × NoFault p) }
    // It answers what is asked of the files that are held; where that isn't told, there are some bytes to
    // which this is the answer.
    ensures ends { Asks (asked_of (map string_bytes words.now)) (F.held files.old) (λ asked. Ends asked
        (F.faults files.old) (F.faults files.new)
        (record { taken = O.taken out.old; faults = O.faults out.old })
        (record { taken = O.taken out.new; faults = O.faults out.new })
        (record { taken = E.taken err.old; faults = E.faults err.old })
        (record { taken = E.taken err.new; faults = E.faults err.new }) result) }
    ensures no_job { result ≡ Usage → task_of (map string_bytes words.now) ≡ None }
    ensures faults_unchecked { result ≡ Fault → AsksUnchecked (task_of (map string_bytes words.now)) }
{
    let ended = work(alloc, words, files, out);
    close(ended, err)
}

// Writes what is left to write, and says how the command ended.
fn close<E: Sink>(ended: Result<Ending, Stop>, err: &mut E) -> Status
    ensures { Closes (record { taken = E.taken err.old; faults = E.faults err.old })
        (record { taken = E.taken err.new; faults = E.faults err.new })
        (text_of ended) (status_of ended) result }
{
    match ended {
        Ok(ending) => end_with(ending.status, &ending.err, err),
        Err(Stop::NoMemory) => end_with(Status::NoMemory, b"no memory\n", err),
        Err(Stop::ReadFault) => end_with(Status::ReadFault, b"read fault\n", err),
        Err(Stop::WriteFault) => end_with(Status::WriteFault, b"write fault\n", err),
    }
}

// The status, unless the text was not taken whole.
fn end_with<E: Sink>(status: Status, text: &[u8], err: &mut E) -> Status
    ensures { Closes (record { taken = E.taken err.old; faults = E.faults err.old })
        (record { taken = E.taken err.new; faults = E.faults err.new })
        text.now status result }
{
    match write_whole(err, text) {
        Ok(()) => status,
        Err(_) => Status::WriteFault,
    }
}
