//! Commands on the files of `data`, which stand in the repository as cases: each line of standard input has the words of
//! one command behind the program's name. The program runs each over the disk, and writes the line, what the command
//! writes on out and on err, and its status.
#![tactic(auto)]

use life_base::{DiskFiles, StreamSink};
use life_cli::run_command;
use std::alloc::{AllocError, Global};
use std::io;

fn main(rt: HostRuntime) -> io::Result<()> {
    for line in rt.lines(rt.alloc()) {
        let line = line?;
        let words = words(rt.alloc(), &line)?;
        println!(rt; "$ {line}")?;
        let mut files = DiskFiles::new(&rt);
        let mut out = StreamSink::new(rt.stdout());
        let mut err = StreamSink::new(rt.stdout());
        let status = run_command(rt.alloc(), &words, &mut files, &mut out, &mut err).code();
        println!(rt; "status {status}")?;
    }
    Ok(())
}

fn words(alloc: Global, line: &str) -> Result<Vec<String>, AllocError> {
    line.split_whitespace()
        .map(|word| word.to_string(alloc))
        .try_collect(alloc)
}
