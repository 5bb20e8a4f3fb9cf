//! What the files of a disk and streams answer, and in which pieces a text is handed over, a line each. The folder
//! `data` has the one file that there is.
#![tactic(auto)]

mod narrow;
mod told;

use crate::narrow::Narrow;
use crate::told::Told;
use life_base::{DiskFiles, Files, Sink, StreamSink, write_whole};
use std::io;

fn main(rt: HostRuntime) -> io::Result<()> {
    let mut files = DiskFiles::new(&rt);
    // There is no file of the second name, and the third is a folder, which can be opened and not read.
    for name in ["held", "no_such_folder/file", "/"] {
        tell_file(&rt, &mut files, name)?;
    }
    let mut sink = StreamSink::new(Narrow { writes: 0 });
    for piece in [b"bytes".as_slice(), b"", b"bytes", b"bytes"] {
        tell_write(&rt, &mut sink, piece)?;
    }
    tell_pieces(&rt)
}

fn tell_file(rt: &HostRuntime, files: &mut DiskFiles, name: &str) -> io::Result<()> {
    let started = files.start(name);
    println!(rt; "start {name}: {started:?}")?;
    tell_read(rt, files)?;
    tell_read(rt, files)
}

fn tell_read(rt: &HostRuntime, files: &mut DiskFiles) -> io::Result<()> {
    let mut room = [0; 8];
    match files.read(&mut room) {
        Ok(count) => {
            let bytes = room[..count].escape_ascii();
            println!(rt; "read {count}: {bytes}")
        }
        Err(_) => println!(rt; "read failed"),
    }
}

fn tell_write(rt: &HostRuntime, sink: &mut StreamSink<Narrow>, piece: &[u8]) -> io::Result<()> {
    let written = sink.write(piece);
    let bytes = piece.escape_ascii();
    println!(rt; "write {bytes}: {written:?}")
}

// A text of 10,000 bytes goes over in pieces of at most 4,096.
fn tell_pieces(rt: &HostRuntime) -> io::Result<()> {
    let mut sink = StreamSink::new(Told { rt });
    let written = write_whole(&mut sink, &[b'x'; 10_000]);
    println!(rt; "write 10000: {written:?}")
}
