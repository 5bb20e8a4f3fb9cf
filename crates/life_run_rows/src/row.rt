// A row: a program as its lines come, and how its runs must end.
ghost use Rattle.life_core.specs.Function.{program_of};
ghost use Rattle.life_core_served.specs.ProperPrograms.{IsProperProgram};

use crate::ask::Asked;
use crate::run::ended;
use crate::verdict::verdict;
use life_core::CoreProgram;
use life_proper_check::{Part, unmet_part};
use life_row_text::{Refusal, Row, Written, fits, joined, say, word_at, words_from};
use std::alloc::Global;

/// A row: a program as its lines come, and how its runs must end.
pub struct RunRow {
    name: String,
    written: Written,
    runs: Vec<Asked>,
    // The part that isn't met, where the row asks for one.
    unmet: String,
    // Whether the program is accepted, where the row asks for it.
    verdict: String,
}

impl Drop for RunRow {
    fn drop(self) {
        let RunRow {
            name: _name,
            written: _written,
            runs: _runs,
            unmet: _unmet,
            verdict: _verdict,
        } = self;
    }
}

impl Row for RunRow {
    fn begin(alloc: Global, words: &[&str]) -> Result<RunRow, Refusal> {
        Ok(RunRow {
            name: joined(alloc, words)?,
            written: Written::new(alloc)?,
            runs: Vec::new(alloc),
            unmet: String::new(alloc),
            verdict: String::new(alloc),
        })
    }

    fn line(&mut self, alloc: Global, words: &[&str]) -> Result<(), Refusal> {
        if fits("run _ ..", words) {
            let entry = self.written.function_named(word_at(words, 1))?;
            let asked = Asked::new(alloc, entry, words_from(words, 1))?;
            self.runs.push(asked)?;
        } else if fits("unmet ..", words) {
            self.unmet = joined(alloc, words_from(words, 1))?;
        } else if fits("verdict ..", words) {
            self.verdict = joined(alloc, words_from(words, 1))?;
        } else {
            self.written.line(alloc, words)?;
        }
        Ok(())
    }

    fn tell(self, alloc: Global, said: &mut Vec<u8>) -> Result<bool, Refusal> {
        let RunRow {
            name,
            mut written,
            runs,
            unmet,
            verdict,
        } = self;
        written.finish()?;
        let mut differences = Vec::new(alloc);
        let part = compared(
            alloc,
            written.into_program(),
            &runs,
            &verdict,
            &mut differences,
        )?;
        let count = runs.len();
        let text = format!(in alloc; ": {part}, {count} runs")?;
        say(said, &name, text.as_bytes())?;
        if part != unmet.as_str() && (part != "proper" || !unmet.is_empty()) {
            say(&mut differences, "  unmet ", part.as_bytes())?;
        }
        said.extend_from_slice(&differences)?;
        Ok(!differences.is_empty())
    }
}

// Which part of a proper program isn't met. A proper one is run, and judged.
fn compared(
    alloc: Global,
    program: CoreProgram,
    runs: &[Asked],
    wanted: &str,
    said: &mut Vec<u8>,
) -> Result<&'static str, Refusal> {
    let mut program = program;
    match unmet_part(alloc, &mut program)? {
        Some(part) => {
            if !runs.is_empty() || wanted != "" {
                say(said, "  isn't run", b"")?;
            }
            Ok(part_name(part))
        }
        None => {
            compare_proper(alloc, program, runs, wanted, said)?;
            Ok("proper")
        }
    }
}

fn compare_proper(
    alloc: Global,
    program: CoreProgram,
    runs: &[Asked],
    wanted: &str,
    said: &mut Vec<u8>,
) -> Result<(), Refusal>
    requires { IsProperProgram (program_of program) }
{
    compare_runs(alloc, &program, runs, said)?;
    if wanted != "" {
        let found = verdict(alloc, program)?;
        if found.as_str() != wanted {
            say(said, "  verdict ", found.as_bytes())?;
        }
    }
    Ok(())
}

fn compare_runs(
    alloc: Global,
    program: &CoreProgram,
    runs: &[Asked],
    said: &mut Vec<u8>,
) -> Result<(), Refusal>
    requires { IsProperProgram (program_of program.now) }
{
    for asked in runs {
        let found = ended(alloc, program, asked)?;
        if found.as_str() != asked.outcome.as_str() {
            let question = &asked.question;
            let text = format!(in alloc; "  run {question}: ")?;
            say(said, &text, found.as_bytes())?;
        }
    }
    Ok(())
}

fn part_name(part: Part) -> &'static str {
    match part {
        Part::WellFormed => "well-formed",
        Part::Given => "given",
        Part::Breaks => "breaks",
        Part::Limits => "limits",
        Part::Ready => "ready",
        Part::Results => "results",
    }
}
