// What is told of each row.
use crate::fault::{RowFault, Wrong};
use crate::line::{Line, line_of};
use crate::row::{Key, Row};
use std::alloc::{AllocError, Global};

/// What rows of one form are about.
pub trait Judge {
    /// The keys of their parts.
    const KEYS: &'static [Key];

    /// The lines that tell in what a row differs from what it wants: none where it is good.
    fn differences(alloc: Global, row: &Row) -> Result<String, RowFault>;
}

/// Adds the lines that tell what was got in place of the text under the key of this word, where these
/// differ.
pub fn compare_part(told: &mut String, row: &Row, word: &str, got: &[u8]) -> Result<(), RowFault> {
    let wanted = row.text(*told.allocator(), word)?;
    compare(told, word, got, &wanted)?;
    Ok(())
}

/// Adds the lines that tell what was got in place of what was wanted, where these differ.
pub fn compare(told: &mut String, what: &str, got: &[u8], wanted: &[u8]) -> Result<(), AllocError> {
    if got == wanted {
        return Ok(());
    }
    add_shown(told, what, "got", got)?;
    add_shown(told, what, "wanted", wanted)
}

fn add_shown(told: &mut String, what: &str, which: &str, bytes: &[u8]) -> Result<(), AllocError> {
    let shown = bytes.escape_ascii().to_string(*told.allocator())?;
    writeln!(told, "  {what} {which}: {shown}")
}

/// Tells each row of the text, and last how many there are and how many differ, and answers whether none
/// does. A row that isn't well formed differs.
pub fn judge_rows<J: Judge>(told: &mut String, text: &str) -> Result<bool, AllocError> {
    let lines: Vec<&str> = text.lines().collect(*told.allocator())?;
    let mut differing = tell_stray(told, &lines)?;
    let mut count = 0u64;
    for number in 0..lines.len() {
        if let Some(row) = Row::beginning(&lines, number) {
            count = count.saturating_add(1);
            if !tell::<J>(told, &row)? {
                differing = differing.saturating_add(1);
            }
        }
    }
    writeln!(told, "{count} rows, {differing} differ")?;
    Ok(differing == 0)
}

// Tells the lines before the first row that aren't empty or comments, and answers how many they are.
fn tell_stray(told: &mut String, lines: &[&str]) -> Result<u64, AllocError> {
    let mut count = 0u64;
    for index in 0..lines.len() {
        match line_of(lines[index]) {
            Line::Nothing => {}
            Line::Part(key, _) if key == "row" => break,
            _ => {
                tell_fault(told, "no row", stray(index))?;
                count = count.saturating_add(1);
            }
        }
    }
    Ok(count)
}

fn stray(index: usize) -> RowFault {
    RowFault {
        line: index.saturating_add(1),
        wrong: Wrong::Stray,
    }
}

// Tells a row, and answers whether it is good.
fn tell<J: Judge>(told: &mut String, row: &Row) -> Result<bool, AllocError> {
    match differences::<J>(*told.allocator(), row) {
        Ok(lines) => tell_differences(told, row.name, lines.as_str()),
        Err(fault) => {
            tell_fault(told, row.name, fault)?;
            Ok(false)
        }
    }
}

fn tell_differences(told: &mut String, name: &str, lines: &str) -> Result<bool, AllocError> {
    if lines.is_empty() {
        writeln!(told, "{name}: good")?;
        Ok(true)
    } else {
        writeln!(told, "{name}: differs")?;
        told.push_str(lines)?;
        Ok(false)
    }
}

fn tell_fault(told: &mut String, name: &str, fault: RowFault) -> Result<(), AllocError> {
    let line = fault.line;
    let wrong = fault.wrong.text();
    writeln!(told, "{name}: line {line}: {wrong}")
}

fn differences<J: Judge>(alloc: Global, row: &Row) -> Result<String, RowFault> {
    row.check(J::KEYS)?;
    J::differences(alloc, row)
}
