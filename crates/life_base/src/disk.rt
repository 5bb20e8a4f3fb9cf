// The files of a disk and the streams of a process. They tell no bytes, so nothing is proved of which
// bytes a system gave or took.
ghost use Rattle.std.specs.Prelude.{None};

use crate::faults::FaultCount;
use crate::{Failed, Files, Sink};
use std::fs;
use std::fs::File;
use std::io::{ErrorKind, Read, Write};

/// The files of the system that runs the program.
#[derive(Drop)]
pub struct DiskFiles<'a> {
    rt: &'a HostRuntime,
    started: Option<File>,
    faults: FaultCount,
}

impl<'a> DiskFiles<'a> {
    /// The files that `rt` reaches, of which none is started.
    pub fn new(rt: &'a HostRuntime) -> DiskFiles<'a> {
        DiskFiles {
            rt,
            started: None,
            faults: FaultCount::new(),
        }
    }
}

impl Files for DiskFiles<'_> {
    ghost held = { λ _. None };

    ghost rest = { λ _. None };

    ghost faults = { λ files. files.faults };

    fn start(&mut self, name: &str) -> Result<bool, Failed> {
        self.started = None;
        match fs::open(self.rt, name) {
            Ok(file) => {
                self.started = Some(file);
                Ok(true)
            }
            Err(error) if error.kind() == ErrorKind::NotFound => Ok(false),
            Err(_) => Err(self.faults.fault()),
        }
    }

    fn read(&mut self, into: &mut [u8]) -> Result<usize, Failed> {
        match &mut self.started {
            None => Ok(0),
            Some(file) => match file.read(into) {
                Ok(count) => Ok(count),
                Err(_) => Err(self.faults.fault()),
            },
        }
    }
}

/// A stream of the process, such as its standard output.
#[derive(Drop)]
pub struct StreamSink<W: Write + Drop> {
    stream: W,
    faults: FaultCount,
}

impl<W: Write + Drop> StreamSink<W> {
    /// The stream, with no fault counted.
    pub fn new(stream: W) -> StreamSink<W> {
        StreamSink {
            stream,
            faults: FaultCount::new(),
        }
    }
}

impl<W: Write + Drop> Sink for StreamSink<W> {
    ghost taken = { λ _. None };

    ghost faults = { λ sink. sink.faults };

    fn write(&mut self, piece: &[u8]) -> Result<usize, Failed> {
        match self.stream.write(piece) {
            // A stream that takes nothing of a piece that isn't empty has failed.
            Ok(0) if !piece.is_empty() => Err(self.faults.fault()),
            Ok(count) => Ok(count),
            Err(_) => Err(self.faults.fault()),
        }
    }
}
