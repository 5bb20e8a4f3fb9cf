// Files and sinks as code sees them that is proved once for all of them.
ghost use Rattle.std.specs.Prelude.{◌≡◌, List, ℕ, Option, MatchResult};
ghost use Rattle.std.specs.Io.{ReadsAtMost};
ghost use Rattle.std.specs.Io.KnownBytes.{IsAtEnd, ReadConsumes, WriteAppends};
ghost use Rattle.life_base.specs.Causes.{HasCause};
ghost use Rattle.life_base.specs.Edges.{Directory, Starts, TakesFront};

use thiserror::Error;

/// A call of a source or a sink failed, and its count of faults rose.
#[derive(Clone, Copy, Debug, PartialEq, Eq, Error)]
#[error("a fault of reading or writing")]
pub struct Failed;

/// Named files, of which one at a time is started and read. Of no file is anything told, where the
/// implementation can't tell it, as with the files of a disk.
pub trait Files {
    /// The bytes of each name that is held, where that is told. No call changes them.
    ghost held: { Self → Option Directory };

    /// What is left of the started file, where that is told; nothing where none is started.
    ghost rest: { Self → Option (List ℕ) };

    /// How often a call has failed. It never falls, and may stop at its type's last value.
    ghost faults: { Self → ℕ };

    /// Begins a file. False says that there is no such file, and then none is started; after `Failed`
    /// none is started either.
    fn start(&mut self, name: &str) -> Result<bool, Failed>
        ensures starts { MatchResult result
            (λ found. Starts (held self.old) name.now found (rest self.new))
            (λ _. IsAtEnd (rest self.new)) }
        ensures held { held self.new ≡ held self.old }
        ensures cause { HasCause (faults self.old) (faults self.new) result };

    /// Moves the next bytes of the started file to the front of `into`, and says how many. 0 for an
    /// `into` that has room says that the file has ended or that none is started. After `Failed` the
    /// rest is as before.
    fn read(&mut self, into: &mut [u8]) -> Result<usize, Failed>
        ensures bound { ReadsAtMost result into.new }
        ensures bytes { ReadConsumes (rest self.old) (rest self.new) result into.new }
        ensures held { held self.new ≡ held self.old }
        ensures cause { HasCause (faults self.old) (faults self.new) result };
}

/// What takes bytes.
pub trait Sink {
    /// The bytes that were taken, where that is told.
    ghost taken: { Self → Option (List ℕ) };

    /// How often a call has failed. It never falls, and may stop at its type's last value.
    ghost faults: { Self → ℕ };

    /// Takes a front of the piece, at least one byte of a piece that isn't empty, and says how many.
    /// After `Failed` the bytes taken are as before.
    fn write(&mut self, piece: &[u8]) -> Result<usize, Failed>
        ensures front { TakesFront result piece.now }
        ensures bytes { WriteAppends (taken self.old) (taken self.new) result piece.now }
        ensures cause { HasCause (faults self.old) (faults self.new) result };
}
