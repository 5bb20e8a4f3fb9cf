// A command as a row.
ghost use Rattle.std.specs.Prelude.{◌≤◌};

use life_base::{MemFiles, MemSink};
use life_cli::run_command;
use life_rows::{Form, Judge, Key, Row, RowFault, compare, compare_part};
use std::alloc::{AllocError, Global};

// A read gives, and a write takes, at most so many bytes where a row doesn't say how many.
const MOST: usize = 4_096;

// What a command writes is shorter, where a row doesn't say how much fits.
const ROOM: usize = 65_536;

/// Rows of whole commands.
pub struct Commands;

impl Judge for Commands {
    const KEYS: &'static [Key] = &[
        ("file", Form::Texts),
        ("reads", Form::Value),
        ("writes to out", Form::Value),
        ("writes to err", Form::Value),
        ("room on out", Form::Value),
        ("words", Form::WantedValue),
        ("status", Form::WantedValue),
        ("out", Form::Text),
        ("err", Form::Text),
    ];

    fn differences(alloc: Global, row: &Row) -> Result<String, RowFault> {
        let answer = run(alloc, row)?;
        let mut told = String::new(alloc);
        compare_all(&mut told, row, &answer)?;
        Ok(told)
    }
}

fn compare_all(told: &mut String, row: &Row, answer: &Answer) -> Result<(), RowFault> {
    let wanted = row.value("status");
    compare(told, "status", answer.status.as_bytes(), wanted.as_bytes())?;
    compare_part(told, row, "out", answer.out.held())?;
    compare_part(told, row, "err", answer.err.held())
}

// What a command comes to.
#[derive(Drop)]
struct Answer {
    status: String,
    out: MemSink,
    err: MemSink,
}

fn run(alloc: Global, row: &Row) -> Result<Answer, RowFault> {
    let mut files = files(alloc, row)?;
    let room = room(&row.numbers(alloc, "room on out")?);
    let mut out = sink(alloc, row, "writes to out", room)?;
    let mut err = sink(alloc, row, "writes to err", ROOM)?;
    let words = words(alloc, row.value("words"))?;
    let status = run_command(alloc, &words, &mut files, &mut out, &mut err);
    let code = status.code();
    let status = format!(in alloc; "{status:?} {code}")?;
    Ok(Answer { status, out, err })
}

fn words(alloc: Global, line: &str) -> Result<Vec<String>, AllocError> {
    line.split_whitespace()
        .map(|word| word.to_string(alloc))
        .try_collect(alloc)
}

fn files(alloc: Global, row: &Row) -> Result<MemFiles, RowFault> {
    let mut files = Vec::new(alloc);
    for index in 0..row.len() {
        if let Some(value) = row.value_at(index, "file") {
            files.push((value.text.to_string(alloc)?, row.text_under(alloc, value)?))?;
        }
    }
    let numbers = row.numbers(alloc, "reads")?;
    let (most, failing) = calls(&numbers);
    Ok(MemFiles::new(files, most, failing.to_vec(alloc)?))
}

// How many bytes a sink has room for.
fn room(numbers: &[u64]) -> usize {
    match numbers {
        [] => ROOM,
        [room, ..] => *room as usize,
    }
}

fn sink(alloc: Global, row: &Row, key: &str, room: usize) -> Result<MemSink, RowFault> {
    let numbers = row.numbers(alloc, key)?;
    let (most, failing) = calls(&numbers);
    match MemSink::new(alloc, room, most, failing.to_vec(alloc)?) {
        Ok(sink) => Ok(sink),
        Err(_) => Err(RowFault::from(AllocError)),
    }
}

// How many bytes a call moves at most, and the numbers of the calls that fail.
fn calls(numbers: &[u64]) -> (usize, &[u64])
    ensures { 1 ≤ result.0 }
{
    match numbers {
        [] => (MOST, numbers),
        [most, failing @ ..] => ((*most as usize).max(1), failing),
    }
}
