// The command line as clap is told of it.
ghost use Rattle.std.specs.Prelude.{◌≡◌, codes, false, IfOk};
ghost use Rattle.clap.specs.Words.{app_of, new_app, rule_of};
ghost use Rattle.life_job.specs.Command.{default_rule, flag_rule, lifecheck, option_rule, positional_rule, with_entry, with_flags, with_limits, with_version, with_words};

use clap::{Arg, ArgAction, Command};
use std::alloc::{AllocError, Global};

/// The command with its words and options.
#[tactic(auto, unfolding(crate::specs::Command::lifecheck))]
pub fn lifecheck_command<'a>(alloc: Global) -> Result<Command<'a>, AllocError>
    ensures { IfOk result (λ command. app_of command ≡ lifecheck) }
{
    let command = add_words(alloc, new_command(alloc))?;
    let command = add_entry(alloc, command)?;
    let command = add_limits(alloc, command)?;
    add_flags(alloc, command)
}

// The command without words; it has a version.
fn new_command<'a>(alloc: Global) -> Command<'a>
    ensures { app_of result ≡ with_version (new_app (codes "lifecheck")) }
{
    Command::new(alloc, "lifecheck").version("0.1.0")
}

fn add_words<'a>(alloc: Global, command: Command<'a>) -> Result<Command<'a>, AllocError>
    ensures { IfOk result (λ added. app_of added ≡ with_words (app_of command.entry)) }
{
    command
        .arg(positional(alloc, "command", true))?
        .arg(positional(alloc, "first", true))?
        .arg(positional(alloc, "second", false))
}

fn add_entry<'a>(alloc: Global, command: Command<'a>) -> Result<Command<'a>, AllocError>
    ensures { IfOk result (λ added. app_of added ≡ with_entry (app_of command.entry)) }
{
    command
        .arg(with_default(alloc, "entry", "main"))?
        .arg(option(alloc, "input"))?
        .arg(with_default(alloc, "growth", "always"))
}

fn add_limits<'a>(alloc: Global, command: Command<'a>) -> Result<Command<'a>, AllocError>
    ensures { IfOk result (λ added. app_of added ≡ with_limits (app_of command.entry)) }
{
    command
        .arg(with_default(alloc, "steps", "1000000"))?
        .arg(with_default(alloc, "cells", "1000000"))?
        .arg(with_default(alloc, "depth", "1000"))
}

fn add_flags<'a>(alloc: Global, command: Command<'a>) -> Result<Command<'a>, AllocError>
    ensures { IfOk result (λ added. app_of added ≡ with_flags (app_of command.entry)) }
{
    let command = command.arg(flag(alloc, "unchecked"))?;
    command.arg(flag(alloc, "json"))
}

fn positional<'a>(alloc: Global, id: &'a str, required: bool) -> Arg<'a>
    ensures rule { rule_of result ≡ positional_rule id.entry.now required }
    ensures local { result.global ≡ false }
{
    Arg::new(alloc, id)
        .required(required)
        .action(ArgAction::Set)
}

fn option<'a>(alloc: Global, id: &'a str) -> Arg<'a>
    ensures rule { rule_of result ≡ option_rule id.entry.now }
    ensures local { result.global ≡ false }
{
    Arg::new(alloc, id).long(id).action(ArgAction::Set)
}

fn with_default<'a>(alloc: Global, id: &'a str, value: &'a str) -> Arg<'a>
    ensures rule { rule_of result ≡ default_rule id.entry.now value.entry.now }
    ensures local { result.global ≡ false }
{
    option(alloc, id).default_value(value)
}

fn flag<'a>(alloc: Global, id: &'a str) -> Arg<'a>
    ensures rule { rule_of result ≡ flag_rule id.entry.now }
    ensures local { result.global ≡ false }
{
    Arg::new(alloc, id).long(id).action(ArgAction::SetTrue)
}
