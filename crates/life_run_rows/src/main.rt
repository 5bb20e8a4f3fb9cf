//! Reads core programs as lines, and beside each how its runs must end and whether it is accepted, and prints what
//! differs: of each row which part of a proper program isn't met, if one isn't, and how many runs there were; then each
//! line that is missing and each that nobody asked for, and last how many rows differ. The head of `stdin` says how the
//! lines are written. It stands in for tests, since a row costs no proof.
#![tactic(auto)]

mod ask;
mod entry;
mod row;
mod run;
mod verdict;

use crate::row::RunRow;
use life_row_text::Table;
use std::io::{self, Write};

fn main(rt: HostRuntime) -> io::Result<()> {
    let alloc = rt.alloc();
    let mut table = Table::<RunRow>::new(alloc);
    let mut number: usize = 0;
    for line in rt.lines(alloc) {
        number = number.saturating_add(1);
        if table.line(number, &line?).is_err() {
            println!(rt; "no memory")?;
        }
    }
    match table.finish(number) {
        Ok(said) => rt.stdout().write_all(said),
        Err(_) => println!(rt; "no memory"),
    }
}
