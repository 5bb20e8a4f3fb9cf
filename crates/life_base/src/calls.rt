// Calls that are told in advance to fail.
ghost use Rattle.std.specs.Prelude.{◌≡◌, ◌≤◌, ◌↔◌, IsErr, Result};
ghost use Rattle.life_base.specs.Calls.{no_calls, CountsCall, IsNextFailing};
ghost use Rattle.life_base.specs.Causes.{HasCause, Rose};

use crate::Failed;
use crate::faults::FaultCount;
use std::marker::Model;

/// Numbers calls from 0, and counts those that fail. The number of a call stays at the last of its type.
#[derive(Drop)]
pub struct CallCount {
    failing: Vec<u64>,
    next: u64,
    faults: FaultCount,
}

impl Model for CallCount {
    ghost use Rattle.life_base.specs.Calls.{Calls};

    ghost Value = { Calls };

    ghost view = { λ count. record { next = count.next; failing = count.failing.items; faults = count.faults } };
}

impl CallCount {
    /// No call yet. Those with the numbers in `failing` will fail.
    pub fn new(failing: Vec<u64>) -> CallCount
        ensures { result ≡ no_calls failing.items }
    {
        CallCount {
            failing,
            next: 0,
            faults: FaultCount::new(),
        }
    }

    /// Counts a call, which fails if `failing` has its number.
    pub fn call(&mut self) -> Result<(), Failed>
        ensures fails { IsErr result ↔ IsNextFailing self.old }
        ensures counts { CountsCall self.old self.new }
        ensures cause { HasCause self.old.faults self.new.faults result }
    {
        let fails = self.failing.contains(&self.next);
        self.next = self.next.saturating_add(1);
        if fails {
            Err(self.faults.fault())
        } else {
            Ok(())
        }
    }

    /// Counts a fault of the call that was counted last.
    pub fn fault(&mut self) -> Failed
        ensures next { self.new.next ≡ self.old.next }
        ensures failing { self.new.failing ≡ self.old.failing }
        ensures later { self.old.faults ≤ self.new.faults }
        ensures rose { Rose self.old.faults self.new.faults }
    {
        self.faults.fault()
    }
}
