// What a command makes of a program and what is diagnosed in it.
ghost use Rattle.std.specs.Prelude.{◌≡◌, ◌≢◌, [], map, IfOk};
ghost use Rattle.life_core.specs.Function.{program_of};
ghost use Rattle.life_json.specs.JsonReports.{json_report};
ghost use Rattle.life_report.specs.Reports.{report_text};
ghost use Rattle.life_rules.specs.Listing.{AreProgramDiagnostics, HaveLines, listed_diag, program_line};
ghost use Rattle.life_store.specs.NoFault.{NoFault};
ghost use Rattle.life_cli.specs.Answer.{answer_in};
ghost use Rattle.life_core_served.specs.ProperPrograms.{IsProperProgram};
ghost use Rattle.life_cli.specs.Concluding.{report_by, reported, verdict};
ghost use Rattle.life_cli.specs.Ends.{Reports, Serves, WorksOn};
ghost use Rattle.life_cli.specs.Question.{program_asked, OfFiles};
ghost use Rattle.life_cli.specs.Words.{command_seen, HasFewSteps, IsUnchecked};
ghost use Rattle.life_cli.specs.declared.status.Status.TheVariants.{Diagnosed};

use crate::Status;
use crate::input::run_job;
use crate::job::Command;
use crate::reply::{Reply, hand_out};
use crate::stop::{Ending, Stop};
use crate::summary::sum_up;
use crate::table::tell_sets;
use life_base::{Files, Sink};
use life_core::CoreProgram;
use life_json::json_report;
use life_report::text_report;
use life_rules::ListedDiag;
use life_types::NoMemory;
use std::alloc::Global;

/// Serves a program of which nothing is diagnosed.
pub fn serve_accepted<F: Files, O: Sink>(
    alloc: Global,
    command: Command,
    program: &CoreProgram,
    files: &mut F,
    out: &mut O,
) -> Result<Ending, Stop>
    requires proper { IsProperProgram (program_of program.now) }
    requires listed { AreProgramDiagnostics (program_of program.now) [] }
    requires safe { NoFault (program_of program.now) }
    requires few { HasFewSteps (command_seen command) }
    ensures { OfFiles (F.held files.old) (λ held. WorksOn (program_asked (command_seen command.entry) (program_of program.now) [] held)
        (IsUnchecked (command_seen command.entry)) (F.faults files.old) (F.faults files.new)
        (record { taken = O.taken out.old; faults = O.faults out.old })
        (record { taken = O.taken out.new; faults = O.faults out.new }) result) }
{
    match command {
        Command::Check { json } => report(alloc, json, program, &[], out),
        Command::Run(run) => run_job(alloc, run, program, files, out),
        Command::Psets => tell_sets(alloc, program, out),
        Command::Made { bytes } => sum_up(alloc, bytes, program, out),
    }
}

/// Serves a program with diagnostics.
pub fn serve_rejected<F: Files, O: Sink>(
    alloc: Global,
    command: Command,
    program: &CoreProgram,
    found: &[ListedDiag],
    files: &mut F,
    out: &mut O,
) -> Result<Ending, Stop>
    requires proper { IsProperProgram (program_of program.now) }
    requires listed { AreProgramDiagnostics (program_of program.now) (map listed_diag found.now) }
    requires lines { HaveLines (program_line (program_of program.now)) found.now }
    requires some { found.now ≢ [] }
    requires few { HasFewSteps (command_seen command) }
    ensures { OfFiles (F.held files.old) (λ held. WorksOn (program_asked (command_seen command.entry) (program_of program.now) (map listed_diag found.now) held)
        (IsUnchecked (command_seen command.entry)) (F.faults files.old) (F.faults files.new)
        (record { taken = O.taken out.old; faults = O.faults out.old })
        (record { taken = O.taken out.new; faults = O.faults out.new }) result) }
{
    match command {
        Command::Check { json } => report(alloc, json, program, found, out),
        Command::Run(run) if run.options.unchecked => run_job(alloc, run, program, files, out),
        Command::Run(_) => report_instead(alloc, program, found),
        Command::Psets => tell_sets(alloc, program, out),
        Command::Made { .. } => report_instead(alloc, program, found),
    }
}

// The report on out.
fn report<O: Sink>(
    alloc: Global,
    json: bool,
    program: &CoreProgram,
    found: &[ListedDiag],
    out: &mut O,
) -> Result<Ending, Stop>
    requires { HaveLines (program_line (program_of program.now)) found.now }
    ensures { Serves (λ answer. answer ≡ reported json (program_of program.now) (map listed_diag found.now))
        (record { taken = O.taken out.old; faults = O.faults out.old })
        (record { taken = O.taken out.new; faults = O.faults out.new }) result }
{
    let reply = report_reply(alloc, json, program, found)?;
    hand_out(reply, out)
}

fn report_reply(
    alloc: Global,
    json: bool,
    program: &CoreProgram,
    found: &[ListedDiag],
) -> Result<Reply, NoMemory>
    requires { HaveLines (program_line (program_of program.now)) found.now }
    ensures { IfOk result (λ reply. answer_in reply ≡ reported json (program_of program.now) (map listed_diag found.now)) }
{
    let text = report_by(alloc, json, program, found)?;
    Ok(Reply {
        status: verdict(found),
        out: text,
        err: Vec::new(alloc),
    })
}

fn report_by(
    alloc: Global,
    json: bool,
    program: &CoreProgram,
    found: &[ListedDiag],
) -> Result<Vec<u8>, NoMemory>
    requires { HaveLines (program_line (program_of program.now)) found.now }
    ensures { IfOk result
        (λ text. text.items ≡ report_by json (program_of program.now) (map listed_diag found.now)) }
{
    if json {
        json_of(alloc, program, found)
    } else {
        report_of(alloc, program, found)
    }
}

// The report on the program as JSON, each of whose diagnostics has its line.
fn json_of(alloc: Global, program: &CoreProgram, found: &[ListedDiag]) -> Result<Vec<u8>, NoMemory>
    requires { HaveLines (program_line (program_of program.now)) found.now }
    ensures { IfOk result
        (λ text. text.items ≡ json_report (program_of program.now) (map listed_diag found.now)) }
{
    json_report(alloc, program.functions.len(), found)
}

// .. as text.
fn report_of(
    alloc: Global,
    program: &CoreProgram,
    found: &[ListedDiag],
) -> Result<Vec<u8>, NoMemory>
    requires { HaveLines (program_line (program_of program.now)) found.now }
    ensures { IfOk result
        (λ text. text.items ≡ report_text (program_of program.now) (map listed_diag found.now)) }
{
    text_report(alloc, program.functions.len(), found)
}

fn verdict(found: &[ListedDiag]) -> Status
    ensures { result ≡ verdict (map listed_diag found.now) }
{
    match found {
        [] => Status::Done,
        [_, ..] => Status::Diagnosed,
    }
}

// The report on err, in place of a run.
fn report_instead(
    alloc: Global,
    program: &CoreProgram,
    found: &[ListedDiag],
) -> Result<Ending, Stop>
    requires { HaveLines (program_line (program_of program.now)) found.now }
    ensures { Reports Diagnosed (report_text (program_of program.now) (map listed_diag found.now)) result }
{
    let err = report_of(alloc, program, found)?;
    Ok(Ending {
        status: Status::Diagnosed,
        err,
    })
}
