//! Reads core functions, and beside each what is to be derived of it, as lines, and prints where something else
//! is derived: of each row how many facts and diagnostics there are, then each line that is missing and each that
//! nobody asked for, and last how many rows differ. The head of `stdin` says how the lines are written. It stands in
//! for tests, since a row costs no proof.
#![tactic(auto)]

mod asked;
mod check;
mod derive;
mod joins;
mod row;
mod show;

use crate::row::AskedRow;
use life_row_text::Table;
use std::io::{self, Write};

fn main(rt: HostRuntime) -> io::Result<()> {
    let alloc = rt.alloc();
    let mut table = Table::<AskedRow>::new(alloc);
    let mut number: usize = 0;
    for line in rt.lines(alloc) {
        number = number.saturating_add(1);
        if table.line(number, &line?).is_err() {
            println!(rt; "no memory")?;
        }
    }
    match table.finish(number) {
        Ok(said) => rt.stdout().write_all(said),
        Err(_) => println!(rt; "no memory"),
    }
}
