// The breaks that were found.
ghost use Rattle.std.specs.Prelude.{◌≡◌, [], ℕ, OnErr, OnOk, take};
ghost use Rattle.life_calls.specs.Breaks.{with_break, with_breaks};

use crate::given::CallBreak;
use life_types::NoMemory;
use std::alloc::Global;
use std::marker::Model;

/// The breaks that were found, each once.
#[derive(Drop)]
pub struct Found {
    list: Vec<CallBreak>,
}

impl Model for Found {
    ghost use Rattle.std.specs.Prelude.{List};
    ghost use Rattle.life_calls.specs.declared.given.CallBreak.{CallBreak};

    ghost Value = { List CallBreak };

    ghost view = { λ found. found.list.items };
}

impl Found {
    /// Nothing was found yet. It takes no memory.
    pub fn new(alloc: Global) -> Found
        ensures { result ≡ [] }
    {
        Found {
            list: Vec::new(alloc),
        }
    }

    /// What was found, in the order in which it was.
    pub fn list(&self) -> &[CallBreak]
        ensures { result.now ≡ self.now }
    {
        &self.list
    }

    // The memory that it takes its own from.
    pub(crate) fn alloc(&self) -> Global {
        *self.list.allocator()
    }

    // Adds a break, unless it is there.
    fn add(&mut self, found: CallBreak) -> Result<(), NoMemory>
        ensures added { OnOk result (self.new ≡ with_break self.old found) }
        ensures stays { OnErr result (self.new ≡ self.old) }
    {
        if !self.list.contains(&found) {
            self.list.push(found)?;
        }
        Ok(())
    }
}

/// Adds those that aren't there.
pub(crate) fn add_all(found: &mut Found, breaks: &[CallBreak]) -> Result<(), NoMemory>
    ensures added { OnOk result (found.new ≡ with_breaks found.old breaks.now) }
    ensures front { OnErr result ((n : ℕ) × (found.new ≡ with_breaks found.old (take n breaks.now))) }
{
    for one in breaks {
        found.add(*one)?;
    }
    Ok(())
}
