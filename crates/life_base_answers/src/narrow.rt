// A stream that comes to its end.
use std::io;
use std::io::{Error, ErrorKind, Write};

/// Takes a byte a write, and then nothing, and then fails.
#[derive(Drop)]
pub struct Narrow {
    /// How often it was written to.
    pub writes: u8,
}

impl Write for Narrow {
    fn write(&mut self, piece: &[u8]) -> io::Result<usize> {
        self.writes = self.writes.saturating_add(1);
        match self.writes {
            1 | 2 => Ok(piece.len().min(1)),
            3 => Ok(0),
            _ => Err(Error::from(ErrorKind::WriteZero)),
        }
    }

    fn flush(&mut self) -> io::Result<()> {
        Ok(())
    }
}
