// What the words ask for.
ghost use Rattle.std.specs.Prelude.{◌≡◌};
ghost use Rattle.life_job.specs.Job as words;
ghost use Rattle.life_job.specs.Matched.{HasFewSteps};
ghost use Rattle.life_cli.specs.Words as spec;

use life_job::{Job as AskedJob, RunJob};

/// What is done with a file.
#[derive(Clone, Copy, Debug)]
pub enum Command<'a> {
    /// It is checked, and the report is written, as text or as JSON.
    Check { json: bool },
    /// It is checked and run.
    Run(RunJob<'a>),
    /// What each of its pointers may point to is written, at each point.
    Psets,
    /// It was made, with so many bytes: it is checked and run, and how that went is written.
    Made { bytes: usize },
}

/// A command and the name of its file.
#[derive(Clone, Copy, Debug)]
pub struct Job<'a> {
    pub command: Command<'a>,
    pub file: &'a str,
}

/// What is to be done.
#[derive(Clone, Copy, Debug)]
pub enum Task<'a> {
    /// A job on a file.
    OnFile(Job<'a>),
    /// A file of this number is made, with so many functions.
    Make { number: u64, size: u64 },
}

/// The task that is asked for.
pub fn asked_task<'a>(asked: AskedJob<'a>) -> Task<'a>
    requires { HasFewSteps (words.job_seen asked) }
    ensures task { spec.task_seen result ≡ spec.task (words.job_seen asked.entry) }
    ensures few { spec.TakesFewSteps (spec.task_seen result) }
{
    match asked {
        AskedJob::Check { file, json } => Task::OnFile(Job {
            command: Command::Check { json },
            file,
        }),
        AskedJob::Run { file, run } => Task::OnFile(Job {
            command: Command::Run(run),
            file,
        }),
        AskedJob::Psets { file } => Task::OnFile(Job {
            command: Command::Psets,
            file,
        }),
        AskedJob::Gen { number, size } => Task::Make { number, size },
    }
}
