// The loop that reads a file and the loop that writes a text.
ghost use Rattle.std.specs.Prelude.{◌≡◌, ◌≤◌, ◌<◌, ◌++◌, length, take, MatchResult, IfOk, IfSome};
ghost use Rattle.std.specs.Io.KnownBytes.{Appends, Consumes, IsAtEnd};
ghost use Rattle.life_base.specs.Causes.{HasCause};
ghost use Rattle.life_base.specs.Edges.{AppendsFront};
ghost use Rattle.life_base.specs.Pieces.{ConsumesUpTo, GainsPiece, HasReadCause};
ghost use Rattle.life_base.specs.declared.pieces.ReadError.TheVariants as read_error;

use crate::{Failed, Files, Sink};
use life_types::NoMemory;
use std::alloc::Global;
use thiserror::Error;

/// A read or a write moves at most so many bytes.
pub const PIECE: usize = 4_096;

/// Why a file was not read.
#[derive(Clone, Copy, Debug, PartialEq, Eq, Error)]
pub enum ReadError {
    /// A read failed, and the count of faults of the files rose.
    #[error("a fault of reading")]
    Failed,
    /// Memory for the bytes was wanted and not had.
    #[error("no memory")]
    NoMemory,
}

impl From<Failed> for ReadError {
    ghost from_gives = { λ _ error. error ≡ read_error.Failed };

    fn from(_: Failed) -> Self {
        ReadError::Failed
    }
}

impl From<NoMemory> for ReadError {
    ghost from_gives = { λ _ error. error ≡ read_error.NoMemory };

    fn from(_: NoMemory) -> Self {
        ReadError::NoMemory
    }
}

/// Reads what is left of the started file until a read gives 0 or until `most` bytes were taken. It takes
/// of the file what it gives, and after an error no more than `most` bytes.
pub fn read_rest<F: Files>(alloc: Global, files: &mut F, most: usize) -> Result<Vec<u8>, ReadError>
    ensures whole { IfOk result (λ bytes. IfSome (F.rest files.old) (λ rest. bytes.items ≡ take most rest)) }
    ensures bound { IfOk result (λ bytes. length bytes.items ≤ most) }
    ensures taken { MatchResult result (λ bytes. Consumes (F.rest files.old) (F.rest files.new) bytes.items)
        (λ _. ConsumesUpTo most (F.rest files.old) (F.rest files.new)) }
    ensures held { F.held files.new ≡ F.held files.old }
    ensures cause { HasReadCause (F.faults files.old) (F.faults files.new) result }
{
    let mut bytes = Vec::new(alloc);
    while bytes.len() < most {
        let room = (most - bytes.len()).min(PIECE);
        let count = take_piece(files, &mut bytes, room)?;
        if count == 0 {
            return Ok(bytes);
        }
    }
    Ok(bytes)
}

// Adds the next bytes of the file, at most `most` of them, and says how many: 0 only at the end.
fn take_piece<F: Files>(files: &mut F, bytes: &mut Vec<u8>, most: usize) -> Result<usize, ReadError>
    requires most { most ≤ PIECE }
    requires some { 0 < most }
    ensures gained { MatchResult result (λ n. GainsPiece most (F.rest files.old) (F.rest files.new) bytes.old.items bytes.new.items n)
        (λ _. ConsumesUpTo most (F.rest files.old) (F.rest files.new)) }
    ensures held { F.held files.new ≡ F.held files.old }
    ensures cause { HasReadCause (F.faults files.old) (F.faults files.new) result }
{
    let mut piece = [0; PIECE];
    let room = &mut piece[..most];
    let count = files.read(room)?;
    match bytes.extend_from_slice(&room[..count]) {
        Ok(()) => Ok(count),
        Err(_) => Err(ReadError::NoMemory),
    }
}

/// Hands a text to a sink in pieces of at most `PIECE` bytes. What a write didn't take is handed over
/// again. After `Failed` a front of the text was taken.
pub fn write_whole<S: Sink>(sink: &mut S, text: &[u8]) -> Result<(), Failed>
    ensures bytes { MatchResult result (λ _. Appends (S.taken sink.old) (S.taken sink.new) text.now)
        (λ _. AppendsFront (S.taken sink.old) (S.taken sink.new) text.now) }
    ensures cause { HasCause (S.faults sink.old) (S.faults sink.new) result }
{
    let mut done = 0;
    while done < text.len() {
        let most = (text.len() - done).min(PIECE);
        done += sink.write(&text[done..done + most])?;
    }
    Ok(())
}
