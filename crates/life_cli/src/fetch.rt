// A file of a name, whole.
ghost use Rattle.std.specs.Prelude.{◌≡◌, option_map};
ghost use Rattle.life_cli.specs.FileText.{bytes_text, file_text, text_fetched, Fetches, IsShort};

use crate::stop::Stop;
use life_base::{Files, ReadError, read_rest};
use std::alloc::Global;

/// The most bytes of a file.
pub const MOST_BYTES: usize = 1_048_576;

/// What there is of a file.
#[derive(Drop)]
pub enum Fetched {
    /// No file has the name.
    Absent,
    /// It has more bytes than a file may have.
    TooLong,
    /// It has these bytes.
    Bytes(Vec<u8>),
}

/// Reads the file of this name.
#[tactic(auto, using(crate::proofs::Fetching::absent_fetches, crate::proofs::Fetching::started_fetches))]
pub fn fetch<F: Files>(alloc: Global, name: &str, files: &mut F) -> Result<Fetched, Stop>
    ensures held { F.held files.new ≡ F.held files.old }
    ensures fetches { Fetches (option_map (λ directory. file_text (directory name.now)) (F.held files.old))
        (F.faults files.old) (F.faults files.new) result }
{
    match files.start(name) {
        Ok(true) => read_started(alloc, files),
        Ok(false) => Ok(Fetched::Absent),
        Err(_) => Err(Stop::ReadFault),
    }
}

// Reads the file that was started, and of a file that is too long the first byte that is too many.
fn read_started<F: Files>(alloc: Global, files: &mut F) -> Result<Fetched, Stop>
    ensures held { F.held files.new ≡ F.held files.old }
    ensures fetches { Fetches (option_map bytes_text (F.rest files.old)) (F.faults files.old) (F.faults files.new) result }
{
    match read_rest(alloc, files, MOST_BYTES + 1) {
        Ok(bytes) => Ok(limited(bytes)),
        Err(ReadError::Failed) => Err(Stop::ReadFault),
        Err(ReadError::NoMemory) => Err(Stop::NoMemory),
    }
}

// The bytes, if they are no more than a file may have.
fn limited(bytes: Vec<u8>) -> Fetched
    ensures text { text_fetched result ≡ bytes_text bytes.items }
    ensures short { IsShort result }
{
    if bytes.len() > MOST_BYTES {
        Fetched::TooLong
    } else {
        Fetched::Bytes(bytes)
    }
}
