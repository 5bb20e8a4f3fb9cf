// The job of what clap's matches say.
ghost use Rattle.std.specs.Prelude.{◌≡◌, ◌≤◌, IfOk, option_map, ok_or, option_and_then};
ghost use Rattle.clap.specs.Words.{first_of, found_of, rows_of};
ghost use Rattle.life_job.specs.Job.{job_seen, run_seen};
ghost use Rattle.life_job.specs.Matched as spec;

use crate::fault::Wrong;
use crate::job::{CommandName, Growth, Job, RunJob, RunOptions};
use crate::number::{digits_number, number_between};
use clap::ArgMatches;

/// The most steps of a run.
const MOST_STEPS: u64 = 1_000_000_000;

/// The most live words of a run.
const MOST_CELLS: u64 = 10_000_000;

/// The most frames of a run.
const MOST_DEPTH: u64 = 10_000;

/// The job that the matches say, or the first thing that is wrong with it.
pub fn job_from<'a>(matches: &ArgMatches<'a>) -> Result<Job<'a>, Wrong>
    ensures job { spec.map_ok job_seen result ≡ spec.job_in (rows_of (found_of matches.now)) }
    ensures few { IfOk result (λ job. spec.HasFewSteps (job_seen job)) }
{
    let command = command_from(matches)?;
    let first = required(matches, "first")?;
    let run = run_from(matches)?;
    let second = value_of(matches, "second");
    job_by(command, first, second, run, flag_of(matches, "json"))
}

// The command with its words.
fn job_by<'a>(
    command: CommandName,
    first: &'a str,
    second: Option<&'a str>,
    run: RunJob<'a>,
    json: bool,
) -> Result<Job<'a>, Wrong>
    requires { run.options.steps ≤ spec.most_steps }
    ensures job { spec.map_ok job_seen result
        ≡ spec.job_by command first.entry.now (option_map (λ s. s.now) second.entry) (run_seen run.entry) json }
    ensures few { IfOk result (λ job. spec.HasFewSteps (job_seen job)) }
{
    match (command, second) {
        (CommandName::Gen, None) => Err(Wrong::Missing),
        (CommandName::Gen, Some(size)) => gen_of(first, size),
        (CommandName::Check, None) => Ok(Job::Check { file: first, json }),
        (CommandName::Run, None) => Ok(Job::Run { file: first, run }),
        (CommandName::Psets, None) => Ok(Job::Psets { file: first }),
        (_, Some(_)) => Err(Wrong::Second),
    }
}

// A file that is made: both words are numbers.
fn gen_of<'a>(first: &str, second: &str) -> Result<Job<'a>, Wrong>
    ensures job { spec.map_ok job_seen result ≡ spec.gen_of first.now second.now }
    ensures few { IfOk result (λ job. spec.HasFewSteps (job_seen job)) }
{
    let number = digits_number(first).ok_or(Wrong::Number)?;
    let size = digits_number(second).ok_or(Wrong::Size)?;
    Ok(Job::Gen { number, size })
}

fn run_from<'a>(matches: &ArgMatches<'a>) -> Result<RunJob<'a>, Wrong>
    ensures run { spec.map_ok run_seen result ≡ spec.run_in (rows_of (found_of matches.now)) }
    ensures few { IfOk result (λ run. run.options.steps ≤ spec.most_steps) }
{
    let options = options_from(matches)?;
    let function = required(matches, "entry")?;
    Ok(RunJob {
        options,
        function,
        input: value_of(matches, "input"),
    })
}

fn options_from(matches: &ArgMatches<'_>) -> Result<RunOptions, Wrong>
    ensures options { result ≡ spec.options_in (rows_of (found_of matches.now)) }
    ensures few { IfOk result (λ options. options.steps ≤ spec.most_steps) }
{
    let growth = growth_from(matches)?;
    let steps = number_from(matches, "steps", 0, MOST_STEPS, Wrong::Steps)?;
    let cells = number_from(matches, "cells", 0, MOST_CELLS, Wrong::Cells)? as u32;
    let depth = number_from(matches, "depth", 1, MOST_DEPTH, Wrong::Depth)? as u32;
    Ok(RunOptions {
        unchecked: flag_of(matches, "unchecked"),
        growth,
        steps,
        cells,
        depth,
    })
}

fn number_from(
    matches: &ArgMatches<'_>,
    id: &str,
    least: u64,
    most: u64,
    otherwise: Wrong,
) -> Result<u64, Wrong>
    ensures number { result ≡ spec.number_in id.now least most otherwise (rows_of (found_of matches.now)) }
    ensures bound { IfOk result (λ n. n ≤ most) }
{
    let Some(word) = value_of(matches, id) else {
        return Err(otherwise);
    };
    match number_between(least, most, word) {
        Some(number) => Ok(number),
        None => Err(otherwise),
    }
}

fn command_from(matches: &ArgMatches<'_>) -> Result<CommandName, Wrong>
    ensures { result ≡ spec.command_in (rows_of (found_of matches.now)) }
{
    match value_of(matches, "command") {
        Some(word) => command_named(word).ok_or(Wrong::Command),
        None => Err(Wrong::Command),
    }
}

fn command_named(word: &str) -> Option<CommandName>
    ensures { result ≡ spec.command_named word.now }
{
    match word {
        "check" => Some(CommandName::Check),
        "run" => Some(CommandName::Run),
        "psets" => Some(CommandName::Psets),
        "gen" => Some(CommandName::Gen),
        _ => None,
    }
}

fn growth_from(matches: &ArgMatches<'_>) -> Result<Growth, Wrong>
    ensures { result ≡ spec.growth_in (rows_of (found_of matches.now)) }
{
    match value_of(matches, "growth") {
        Some(word) => growth_named(word).ok_or(Wrong::Growth),
        None => Err(Wrong::Growth),
    }
}

fn growth_named(word: &str) -> Option<Growth>
    ensures { result ≡ spec.growth_named word.now }
{
    match word {
        "always" => Some(Growth::Always),
        "double" => Some(Growth::Double),
        _ => None,
    }
}

fn required<'a>(matches: &ArgMatches<'a>, id: &str) -> Result<&'a str, Wrong>
    ensures { spec.map_ok (λ s. s.now) result ≡ spec.required id.now (rows_of (found_of matches.now)) }
{
    value_of(matches, id).ok_or(Wrong::Missing)
}

/// The value of this name.
pub fn value_of<'a>(matches: &ArgMatches<'a>, id: &str) -> Option<&'a str>
    ensures { option_map (λ s. s.now) result ≡ first_of id.now (rows_of (found_of matches.now)) }
{
    matches.get_str(id)
}

fn flag_of(matches: &ArgMatches<'_>, id: &str) -> bool
    ensures { result ≡ spec.is_set id.now (rows_of (found_of matches.now)) }
{
    match value_of(matches, id) {
        Some(word) => word == "true",
        None => false,
    }
}
