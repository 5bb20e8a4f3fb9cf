//! Where bytes come from and where they go: files and sinks, each with a count of its faults, the loops
//! that read a file and write a text, and the counter of steps.
#![tactic(auto)]

mod calls;
mod disk;
mod edges;
mod faults;
mod memory;
mod pieces;
mod sink;
mod steps;

pub use disk::{DiskFiles, StreamSink};
pub use edges::{Failed, Files, Sink};
pub use memory::MemFiles;
pub use pieces::{PIECE, ReadError, read_rest, write_whole};
pub use sink::MemSink;
pub use steps::Steps;
