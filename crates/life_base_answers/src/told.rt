// A stream that tells what it is handed.
use std::io;
use std::io::Write;

/// Takes each piece whole, and prints how long it is.
#[derive(Drop)]
pub struct Told<'a> {
    pub rt: &'a HostRuntime,
}

impl Write for Told<'_> {
    fn write(&mut self, piece: &[u8]) -> io::Result<usize> {
        let length = piece.len();
        println!(self.rt; "piece of {length}")?;
        Ok(length)
    }

    fn flush(&mut self) -> io::Result<()> {
        Ok(())
    }
}
