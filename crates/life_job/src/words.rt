// The words of the program as a job.
ghost use Rattle.std.specs.Prelude.{◌≡◌, IfOk, IfSome, None, map, string_bytes};
ghost use Rattle.clap.specs.Values.{kind_of};
ghost use Rattle.clap.specs.Words.{found_of, rows_of};
ghost use Rattle.clap.specs.declared.error.kind.ErrorKind.TheVariants.{OutOfMemory};
ghost use Rattle.life_job.specs.Job.{job_seen};
ghost use Rattle.life_job.specs.Matched.{job_in, HasFewSteps};
ghost use Rattle.life_job.specs.Refusals as spec;
ghost use Rattle.life_job.specs.Words.{IsRead, asked_of, matched};

use crate::command::lifecheck_command;
use crate::fault::{Refusal, Wrong};
use crate::job::Job;
use crate::matched::{job_from, value_of};
use clap::ArgMatches;
use clap::error::ErrorKind;
use std::alloc::{AllocError, Global};

const COMMANDS: &str = "COMMAND: check, run, psets or gen";

const POLICIES: &str = "--growth: always or double";

const STEPS: &str = "--steps: 0 to 1000000000";

const CELLS: &str = "--cells: 0 to 10000000";

const DEPTHS: &str = "--depth: 1 to 10000";

const NUMBERS: &str = "NUMBER: 1 to 20 digits that fit 64 bits";

const SIZES: &str = "SIZE: 1 to 20 digits that fit 64 bits";

/// The job that the words ask for, of which the first is the program's own name.
pub fn read_words<'a>(alloc: Global, words: &'a [String]) -> Result<Job<'a>, Refusal>
    ensures read { IsRead (asked_of (map string_bytes words.entry.now)) result }
    ensures few { IfOk result (λ job. HasFewSteps (job_seen job)) }
{
    let command = match lifecheck_command(alloc) {
        Ok(command) => command,
        Err(_) => return Err(Refusal::NoMemory),
    };
    match command.try_get_matches_from(words) {
        Ok(matches) => read_matches(alloc, &matches),
        Err(error) => Err(refused(alloc, &error)),
    }
}

// The job that the matches say.
fn read_matches<'a>(alloc: Global, matches: &ArgMatches<'a>) -> Result<Job<'a>, Refusal>
    ensures read { IsRead (matched (rows_of (found_of matches.now)) (job_in (rows_of (found_of matches.now)))) result }
    ensures few { IfOk result (λ job. HasFewSteps (job_seen job)) }
{
    match job_from(matches) {
        Ok(job) => Ok(job),
        Err(wrong) => Err(told(alloc, wrong, matches)),
    }
}

// What is told of what clap refuses.
fn refused(alloc: Global, error: &clap::Error) -> Refusal
    ensures told { IfSome (spec.told_by result) (λ told. spec.IsToldOf (kind_of error.now) told) }
    ensures memory { kind_of error.now ≡ OutOfMemory → spec.told_by result ≡ None }
{
    match error.kind() {
        ErrorKind::OutOfMemory => Refusal::NoMemory,
        ErrorKind::DisplayHelp => Refusal::Help,
        ErrorKind::DisplayVersion => Refusal::Version,
        ErrorKind::MissingRequiredArgument => Refusal::Missing,
        _ => match first_line(alloc, error) {
            Ok(line) => Refusal::Wrong { line },
            Err(_) => Refusal::NoMemory,
        },
    }
}

// The first line of what clap says, which names the word that it refuses.
fn first_line(alloc: Global, error: &clap::Error) -> Result<String, AllocError> {
    let text = format!(in alloc; "{error}")?;
    match text.as_str().split_once('\n') {
        Some((line, _)) => line.to_string(alloc),
        None => text.as_str().to_string(alloc),
    }
}

// What is told of what is wrong among the matches.
fn told(alloc: Global, wrong: Wrong, matches: &ArgMatches<'_>) -> Refusal
    ensures { IfSome (spec.told_by result) (λ told. told ≡ spec.told_wrong wrong (rows_of (found_of matches.now))) }
{
    match wrong {
        Wrong::Missing => Refusal::Missing,
        Wrong::Second => unexpected(alloc, word_of(matches, "second")),
        Wrong::Command => invalid(alloc, word_of(matches, "command"), COMMANDS),
        Wrong::Growth => invalid(alloc, word_of(matches, "growth"), POLICIES),
        Wrong::Steps => invalid(alloc, word_of(matches, "steps"), STEPS),
        Wrong::Cells => invalid(alloc, word_of(matches, "cells"), CELLS),
        Wrong::Depth => invalid(alloc, word_of(matches, "depth"), DEPTHS),
        Wrong::Number => invalid(alloc, word_of(matches, "first"), NUMBERS),
        Wrong::Size => invalid(alloc, word_of(matches, "second"), SIZES),
    }
}

fn unexpected(alloc: Global, word: &str) -> Refusal
    ensures { IfSome (spec.told_by result) (λ told. told ≡ spec.Named (spec.unexpected word.now)) }
{
    match format!(in alloc; "error: unexpected argument '{word}' found") {
        Ok(line) => Refusal::Wrong { line },
        Err(_) => Refusal::NoMemory,
    }
}

fn invalid(alloc: Global, word: &str, wanted: &str) -> Refusal
    ensures { IfSome (spec.told_by result) (λ told. told ≡ spec.Named (spec.invalid word.now wanted.now)) }
{
    match format!(in alloc; "error: invalid value '{word}' for {wanted}") {
        Ok(line) => Refusal::Wrong { line },
        Err(_) => Refusal::NoMemory,
    }
}

// The word of this name.
fn word_of<'a>(matches: &ArgMatches<'a>, id: &str) -> &'a str
    ensures { result.now ≡ spec.value_in id.now (rows_of (found_of matches.now)) }
{
    match value_of(matches, id) {
        Some(word) => word,
        None => "",
    }
}
