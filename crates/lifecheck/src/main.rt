//! The program: the files of the disk, standard output and standard error under the one call.
#![tactic(auto)]

use life_base::{DiskFiles, StreamSink};
use life_cli::run_command;
use std::process::ExitCode;
use std::{env, io};

fn main(rt: HostRuntime) -> ExitCode {
    // Words that can't be had are no job.
    let words = words_of(&rt).unwrap_or(Vec::new(rt.alloc()));
    let mut files = DiskFiles::new(&rt);
    let mut out = StreamSink::new(rt.stdout());
    let mut err = StreamSink::new(rt.stderr());
    let status = run_command(rt.alloc(), &words, &mut files, &mut out, &mut err);
    ExitCode::from(status.code())
}

fn words_of(rt: &HostRuntime) -> io::Result<Vec<String>> {
    Ok(env::args(rt)?.collect(rt.alloc())?)
}
