// A sink in memory, which fails at the calls that it is told to fail at.
ghost use Rattle.std.specs.Prelude.{◌≡◌, ◌+◌, ◌≤◌, ◌<◌, ◌↔◌, ◌⊎◌, [], Some, IfOk, IsErr, MatchResult, length, min};
ghost use Rattle.std.specs.Io.KnownBytes.{WriteAppends};
ghost use Rattle.life_base.specs.Calls.{no_calls, CountsCall, IsNextFailing};
ghost use Rattle.life_base.specs.Causes.{HasCause};
ghost use Rattle.life_base.specs.Edges.{TakesFront};

use crate::calls::CallCount;
use crate::{Failed, Sink};
use life_types::NoMemory;
use std::alloc::Global;
use std::marker::Model;

/// A sink in memory. Writes are numbered from 0. A write fails exactly where `failing` names it, or
/// where the sink is full and the piece isn't empty.
#[derive(Drop)]
pub struct MemSink {
    bytes: Vec<u8>,
    // How many more bytes fit.
    room: usize,
    most: usize,
    calls: CallCount,
}

impl Model for MemSink {
    ghost use Rattle.std.specs.Prelude.{◌+◌, ◌≤◌, vec_len, vec_capacity};
    ghost use Rattle.life_base.specs.Memory.{SinkInMemory};

    ghost Value = { SinkInMemory };

    ghost view = { λ sink. record {
      held = sink.bytes.items;
      room = sink.room;
      most = sink.most;
      calls = sink.calls;
    } };

    ghost invariant = { λ sink. (1 ≤ sink.most) × (vec_len sink.bytes + sink.room ≤ vec_capacity sink.bytes) };
}

impl MemSink {
    /// An empty sink with room for `capacity` bytes. A write takes at most `most` bytes. Only this
    /// call takes memory.
    pub fn new(
        alloc: Global,
        capacity: usize,
        most: usize,
        failing: Vec<u64>,
    ) -> Result<MemSink, NoMemory>
        requires { 1 ≤ most }
        ensures { IfOk result (λ sink. sink ≡ record {
          held = [];
          room = capacity;
          most = most;
          calls = no_calls failing.items;
        }) }
    {
        let bytes = Vec::with_capacity(alloc, capacity)?;
        Ok(MemSink {
            bytes,
            room: capacity,
            most,
            calls: CallCount::new(failing),
        })
    }

    /// The bytes that were taken.
    pub fn held(&self) -> &[u8]
        ensures { result.now ≡ self.now.held }
    {
        &self.bytes
    }
}

impl Sink for MemSink {
    ghost taken = { λ sink. Some sink.held };

    ghost faults = { λ sink. sink.calls.faults };

    fn write(&mut self, piece: &[u8]) -> Result<usize, Failed>
        ensures front { TakesFront result piece.now }
        ensures bytes { WriteAppends (Some self.old.held) (Some self.new.held) result piece.now }
        ensures most { self.new.most ≡ self.old.most }
        ensures cause { HasCause self.old.calls.faults self.new.calls.faults result }
        ensures fails { IsErr result ↔ (IsNextFailing self.old.calls ⊎ ((self.old.room ≡ 0) × (0 < length piece.now))) }
        ensures counts { CountsCall self.old.calls self.new.calls }
        ensures amount { IfOk result (λ n. n ≡ min (min (length piece.now) self.old.most) self.old.room) }
        ensures room { MatchResult result (λ n. self.new.room + n ≡ self.old.room) (λ _. self.new.room ≡ self.old.room) }
    {
        self.calls.call()?;
        let count = piece.len().min(self.most).min(self.room);
        if count == 0 && !piece.is_empty() {
            return Err(self.calls.fault());
        }
        match self.bytes.extend_from_slice(&piece[..count]) {
            Ok(()) => {
                self.room -= count;
                Ok(count)
            }
            Err(_) => unreachable!(),
        }
    }
}
