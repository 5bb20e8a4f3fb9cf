//! Texts as rows: each tells a text, and what is wanted of its tokens, their keys, its tree, its types or
//! its core program. The program tells what differs. How rows are written is said at the head of `stdin`.
#![tactic(auto)]

mod keys;
mod program;
mod text;
mod tokens;
mod tree;
mod types;

use crate::text::Texts;
use life_rows::judge_rows;
use std::io;
use std::process::ExitCode;

fn main(rt: HostRuntime) -> io::Result<ExitCode> {
    let text = io::read_to_string(rt.alloc(), rt.stdin())?;
    let mut told = String::new(rt.alloc());
    let are_good = judge_rows::<Texts>(&mut told, text.as_str())?;
    print!(rt; "{told}")?;
    Ok(if are_good {
        ExitCode::SUCCESS
    } else {
        ExitCode::FAILURE
    })
}
