// A sink for what nobody reads.
use life_base::{Failed, Sink};

/// Takes everything, and keeps nothing.
#[derive(Drop)]
pub struct Unheard;

impl Sink for Unheard {
    ghost use Rattle.std.specs.Prelude.{None};

    ghost taken = { λ _. None };

    ghost faults = { λ _. 0 };

    fn write(&mut self, piece: &[u8]) -> Result<usize, Failed> {
        Ok(piece.len())
    }
}
