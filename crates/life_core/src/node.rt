// What stands at a point, by reference.
ghost use Rattle.std.specs.Option.{option_copied};
ghost use Rattle.std.specs.Prelude.{◌≡◌, option_map, Some};
ghost use Rattle.life_core.specs.Linked.{instr_part, is_return, spot_at, test_part};
ghost use Rattle.life_core.specs.Node.{node_seen, spot_seen};
ghost use Rattle.life_core.specs.Step.{asked_of, step_of};

use crate::instr::{Instr, Test};
use life_types::Place;

/// What stands at a point.
#[derive(Clone, Copy, Debug)]
pub enum NodeRef<'a> {
    /// An instruction.
    Action(&'a Instr),
    /// A single test.
    Question(&'a Test),
    /// The end of the function.
    Return,
    /// The end of the run.
    Stop,
}

impl<'a> NodeRef<'a> {
    /// The instruction, if it is one.
    pub fn instr(self) -> Option<&'a Instr>
        ensures { option_map step_of (option_copied result) ≡ instr_part (node_seen self.entry) }
    {
        match self {
            NodeRef::Action(instr) => Some(instr),
            NodeRef::Question(_) | NodeRef::Return | NodeRef::Stop => None,
        }
    }

    /// The single test, if it is one.
    pub fn test(self) -> Option<&'a Test>
        ensures { option_map asked_of (option_copied result) ≡ test_part (node_seen self.entry) }
    {
        match self {
            NodeRef::Question(test) => Some(test),
            NodeRef::Action(_) | NodeRef::Return | NodeRef::Stop => None,
        }
    }

    /// Whether it is the end of the function.
    pub fn is_return(self) -> bool
        ensures { result ≡ is_return (Some (node_seen self.entry)) }
    {
        match self {
            NodeRef::Return => true,
            NodeRef::Action(_) | NodeRef::Question(_) | NodeRef::Stop => false,
        }
    }
}

/// What stands at a point, and its place in the file.
#[derive(Clone, Copy, Debug)]
pub struct SpotRef<'a> {
    pub node: NodeRef<'a>,
    pub place: Place,
}

impl<'a> SpotRef<'a> {
    /// What stands at this place.
    pub(crate) fn new(place: &Place, node: NodeRef<'a>) -> SpotRef<'a>
        ensures { spot_seen result ≡ spot_at place.now (node_seen node.entry) }
    {
        SpotRef {
            node,
            place: *place,
        }
    }
}
