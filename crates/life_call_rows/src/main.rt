//! Reads rows of two functions, of which the second calls the first, with what it gives, and prints where something
//! else comes of that than the row asks for: what holds of each parameter where the first function begins, what its
//! result may be, and what the arguments break. The head of `stdin` says how the lines are written. It stands in for
//! tests, since a row costs no proof.
#![tactic(auto)]

mod answers;
mod row;
mod side;

use crate::row::CallRow;
use life_row_text::Table;
use std::io::{self, Write};

fn main(rt: HostRuntime) -> io::Result<()> {
    let alloc = rt.alloc();
    let mut table = Table::<CallRow>::new(alloc);
    let mut number: usize = 0;
    for line in rt.lines(alloc) {
        number = number.saturating_add(1);
        if table.line(number, &line?).is_err() {
            println!(rt; "no memory")?;
        }
    }
    match table.finish(number) {
        Ok(said) => rt.stdout().write_all(said),
        Err(_) => println!(rt; "no memory"),
    }
}
