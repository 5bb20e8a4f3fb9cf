//! Whole commands as rows: each tells the files that there are, the words, and the status, out and err
//! that are wanted. The program runs each command over files and sinks in memory, and tells what
//! differs. How rows are written is said at the head of `stdin`.
#![tactic(auto)]

mod command;

use crate::command::Commands;
use life_rows::judge_rows;
use std::io;
use std::process::ExitCode;

fn main(rt: HostRuntime) -> io::Result<ExitCode> {
    let text = io::read_to_string(rt.alloc(), rt.stdin())?;
    let mut told = String::new(rt.alloc());
    let are_good = judge_rows::<Commands>(&mut told, text.as_str())?;
    print!(rt; "{told}")?;
    Ok(if are_good {
        ExitCode::SUCCESS
    } else {
        ExitCode::FAILURE
    })
}
