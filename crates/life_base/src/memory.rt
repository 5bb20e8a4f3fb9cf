// Files in memory, which fail at the calls that they are told to fail at.
ghost use Rattle.std.specs.Prelude.{◌≡◌, ◌+◌, ◌≤◌, ◌↔◌, [], Some, None, IfOk, IsErr, MatchOption, MatchResult, length, drop, min};
ghost use Rattle.std.specs.Io.{ReadsAtMost};
ghost use Rattle.std.specs.Io.KnownBytes.{ReadConsumes};
ghost use Rattle.life_base.specs.Calls.{no_calls, CountsCall, IsNextFailing};
ghost use Rattle.life_base.specs.Causes.{HasCause};
ghost use Rattle.life_base.specs.Edges.{Starts};
ghost use Rattle.life_base.specs.Memory.{bytes_at, directory_of, named_files};

use crate::calls::CallCount;
use crate::{Failed, Files};
use std::marker::Model;

/// Named files in memory. The first file of a name counts. Calls of `start` and `read` are numbered
/// together from 0, and exactly those that `failing` names fail.
#[derive(Drop)]
pub struct MemFiles {
    files: Vec<(String, Vec<u8>)>,
    most: usize,
    calls: CallCount,
    // The number of the started file, or the number of files, and how many of its bytes were read.
    started: usize,
    at: usize,
}

impl Model for MemFiles {
    ghost use Rattle.std.specs.Prelude.{◌≤◌, drop};
    ghost use Rattle.life_base.specs.Memory.{bytes_at, named_files, FilesInMemory};

    ghost Value = { FilesInMemory };

    ghost view = { λ files. record {
      files = named_files files.files.items;
      rest = drop files.at (bytes_at (named_files files.files.items) files.started);
      most = files.most;
      calls = files.calls;
    } };

    ghost invariant = { λ files. 1 ≤ files.most };
}

impl MemFiles {
    /// The files with these names and bytes, of which none is started. A read gives at most `most`
    /// bytes. It takes no memory.
    pub fn new(files: Vec<(String, Vec<u8>)>, most: usize, failing: Vec<u64>) -> MemFiles
        requires { 1 ≤ most }
        ensures { result ≡ record {
          files = named_files files.items;
          rest = [];
          most = most;
          calls = no_calls failing.items;
        } }
    {
        let started = files.len();
        MemFiles {
            files,
            most,
            calls: CallCount::new(failing),
            started,
            at: 0,
        }
    }
}

// The number of the first file of the name.
fn find_file(files: &[(String, Vec<u8>)], name: &str) -> Option<usize>
    ensures { MatchOption result (directory_of (named_files files.now) name.now ≡ None)
        (λ n. directory_of (named_files files.now) name.now ≡ Some (bytes_at (named_files files.now) n)) }
{
    for (number, file) in files.iter().enumerate() {
        if file.0.as_str() == name {
            return Some(number);
        }
    }
    None
}

// What is left of a file from a place on.
fn rest_of(files: &[(String, Vec<u8>)], number: usize, at: usize) -> &[u8]
    ensures rest { result.now ≡ drop at (bytes_at (named_files files.now) number) }
    ensures fits { at + length result.now ≤ usize.MAX }
{
    if number < files.len() && at < files[number].1.len() {
        &files[number].1[at..]
    } else {
        &[]
    }
}

impl Files for MemFiles {
    ghost held = { λ files. Some (directory_of files.files) };

    ghost rest = { λ files. Some files.rest };

    ghost faults = { λ files. files.calls.faults };

    fn start(&mut self, name: &str) -> Result<bool, Failed>
        ensures starts { MatchResult result
            (λ found. Starts (Some (directory_of self.old.files)) name.now found (Some self.new.rest))
            (λ _. self.new.rest ≡ []) }
        ensures files { self.new.files ≡ self.old.files }
        ensures most { self.new.most ≡ self.old.most }
        ensures cause { HasCause self.old.calls.faults self.new.calls.faults result }
        ensures fails { IsErr result ↔ IsNextFailing self.old.calls }
        ensures counts { CountsCall self.old.calls self.new.calls }
    {
        self.started = self.files.len();
        self.at = 0;
        self.calls.call()?;
        match find_file(&self.files, name) {
            Some(number) => {
                self.started = number;
                Ok(true)
            }
            None => Ok(false),
        }
    }

    fn read(&mut self, into: &mut [u8]) -> Result<usize, Failed>
        ensures bound { ReadsAtMost result into.new }
        ensures bytes { ReadConsumes (Some self.old.rest) (Some self.new.rest) result into.new }
        ensures files { self.new.files ≡ self.old.files }
        ensures most { self.new.most ≡ self.old.most }
        ensures cause { HasCause self.old.calls.faults self.new.calls.faults result }
        ensures fails { IsErr result ↔ IsNextFailing self.old.calls }
        ensures counts { CountsCall self.old.calls self.new.calls }
        ensures amount { IfOk result (λ n. n ≡ min (min (length into.old) self.old.most) (length self.old.rest)) }
    {
        self.calls.call()?;
        let rest = rest_of(&self.files, self.started, self.at);
        let count = into.len().min(self.most).min(rest.len());
        into[..count].copy_from_slice(&rest[..count]);
        self.at += count;
        Ok(count)
    }
}
