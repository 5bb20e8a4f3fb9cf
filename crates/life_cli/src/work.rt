// The work of a command: it reads the file and serves its bytes.
ghost use Rattle.std.specs.Prelude.{◌≡◌, ◌≤◌, None, Some, IfOk, Ok, length, map, string_bytes};
ghost use Rattle.life_job.specs.Job as asked_job;
ghost use Rattle.life_job.specs.Matched as matched;
ghost use Rattle.life_job.specs.Words.{asked_of};
ghost use Rattle.life_cli.specs.Ends.{Works, WorksOn};
ghost use Rattle.life_cli.specs.FileText.{Holds, most_bytes};
ghost use Rattle.life_cli.specs.Question.{text_asked, Asks, OfFiles, OfJob};
ghost use Rattle.life_cli.specs.Words.{command_seen, job_seen, task, task_of, AsksUnchecked, HasFewSteps, IsUnchecked};
ghost use Rattle.life_cli.specs.declared.status.Status.TheVariants.{Fault, Usage};

use crate::Status;
use crate::counted::checked;
use crate::fetch::{Fetched, fetch};
use crate::job::{Job, Task, asked_task};
use crate::made::serve_made;
use crate::refusal::{refuse_name, tell};
use crate::serve::{serve_accepted, serve_rejected};
use crate::source_refusal::refuse_text;
use crate::stop::{Ending, Stop};
use crate::usage::refuse_words;
use life_base::{Files, Sink};
use life_check::Checked;
use life_job::{Job as AskedJob, read_words};
use std::alloc::Global;

/// Does what the words ask for. Nothing is written to err yet.
pub fn work<F: Files, O: Sink>(
    alloc: Global,
    words: &[String],
    files: &mut F,
    out: &mut O,
) -> Result<Ending, Stop>
    ensures works { Asks (asked_of (map string_bytes words.now)) (F.held files.old) (λ asked. Works asked
        (F.faults files.old) (F.faults files.new)
        (record { taken = O.taken out.old; faults = O.faults out.old })
        (record { taken = O.taken out.new; faults = O.faults out.new }) result) }
    ensures no_job { IfOk result (λ ending. ending.status ≡ Usage → task_of (map string_bytes words.now) ≡ None) }
    ensures faults_unchecked { IfOk result (λ ending. ending.status ≡ Fault → AsksUnchecked (task_of (map string_bytes words.now))) }
{
    match read_words(alloc, words) {
        Ok(asked) => serve_asked(alloc, asked, files, out),
        Err(refusal) => refuse_words(alloc, refusal, out),
    }
}

// Does what is asked for.
fn serve_asked<F: Files, O: Sink>(
    alloc: Global,
    asked: AskedJob,
    files: &mut F,
    out: &mut O,
) -> Result<Ending, Stop>
    requires { matched.HasFewSteps (asked_job.job_seen asked) }
    ensures works { Asks (Ok (asked_job.job_seen asked.entry)) (F.held files.old) (λ question. Works question
        (F.faults files.old) (F.faults files.new)
        (record { taken = O.taken out.old; faults = O.faults out.old })
        (record { taken = O.taken out.new; faults = O.faults out.new }) result) }
    ensures no_job { IfOk result (λ ending. ending.status ≡ Usage → ⊥) }
    ensures faults_unchecked { IfOk result (λ ending. ending.status ≡ Fault → AsksUnchecked (Some (task (asked_job.job_seen asked.entry)))) }
{
    match asked_task(asked) {
        Task::OnFile(job) => serve_job(alloc, job, files, out),
        Task::Make { number, size } => serve_made(alloc, number, size, files, out),
    }
}

// Reads the job's file and serves it.
fn serve_job<F: Files, O: Sink>(
    alloc: Global,
    job: Job,
    files: &mut F,
    out: &mut O,
) -> Result<Ending, Stop>
    requires { HasFewSteps (command_seen job.command) }
    ensures { OfJob (job_seen job.entry) (F.held files.old) (λ asked. WorksOn asked (IsUnchecked (command_seen job.entry.command))
        (F.faults files.old) (F.faults files.new)
        (record { taken = O.taken out.old; faults = O.faults out.old })
        (record { taken = O.taken out.new; faults = O.faults out.new }) result) }
{
    match fetch(alloc, job.file, files) {
        Ok(Fetched::Absent) => refuse_name(alloc, job.file),
        Ok(Fetched::TooLong) => tell(alloc, Status::Limit, "limit: file"),
        Ok(Fetched::Bytes(bytes)) => serve_bytes(alloc, job, &bytes, files, out),
        Err(stop) => Err(stop),
    }
}

/// Serves a file of these bytes: its program is accepted or has diagnostics, or it has none that is checked.
pub fn serve_bytes<F: Files, O: Sink>(
    alloc: Global,
    job: Job,
    bytes: &[u8],
    files: &mut F,
    out: &mut O,
) -> Result<Ending, Stop>
    requires short { length bytes.now ≤ most_bytes }
    requires few { HasFewSteps (command_seen job.command) }
    ensures { OfFiles (F.held files.old) (λ held. WorksOn (text_asked (job_seen job.entry) (Holds bytes.now) held)
        (IsUnchecked (command_seen job.entry.command)) (F.faults files.old) (F.faults files.new)
        (record { taken = O.taken out.old; faults = O.faults out.old })
        (record { taken = O.taken out.new; faults = O.faults out.new }) result) }
{
    match checked(alloc, bytes) {
        Ok(Checked::Accepted(accepted)) => {
            serve_accepted(alloc, job.command, accepted.program(), files, out)
        }
        Ok(
            Checked::Refused {
                program,
                diagnostics,
            },
        ) => serve_rejected(alloc, job.command, &program, &diagnostics, files, out),
        Err(fault) => refuse_text(alloc, fault),
    }
}
