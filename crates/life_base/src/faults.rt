// The count of faults.
ghost use Rattle.std.specs.Prelude.{◌≡◌, ◌≤◌};
ghost use Rattle.life_base.specs.Causes.{Rose};

use crate::Failed;
use std::marker::Model;

/// How often a call has failed. It stays at the last value of its type.
#[derive(Drop)]
pub struct FaultCount(u64);

impl Model for FaultCount {
    ghost use Rattle.std.specs.Prelude.{ℕ};

    ghost Value = { ℕ };

    ghost view = { λ count. count.0 };
}

impl FaultCount {
    /// No fault yet.
    pub fn new() -> FaultCount
        ensures { result ≡ 0 }
    {
        FaultCount(0)
    }

    /// Counts a fault, and gives the error that tells it.
    pub fn fault(&mut self) -> Failed
        ensures later { self.old ≤ self.new }
        ensures rose { Rose self.old self.new }
    {
        self.0 = self.0.saturating_add(1);
        Failed
    }
}
