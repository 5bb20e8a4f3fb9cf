// What is known at the exits of a part of a function.
ghost use Rattle.std.specs.Prelude.{◌≡◌};
ghost use Rattle.life_proper.specs.Checking.{before_false, before_next, before_true, is_over, joined, nowhere, of_body, of_step, of_test, turned};
ghost use Rattle.life_proper.specs.Knowing.{met};
ghost use Rattle.life_proper.specs.Seen.{flow_seen, state_seen};

use crate::knowing::{State, comes_back, met};

/// Whether all points of a part are ready, and what is known at each of its exits: past its end, at a
/// Break, at a Continue, and from a condition where it holds and where it doesn't.
#[derive(Debug, Drop)]
pub(crate) struct Flow {
    pub(crate) fine: bool,
    pub(crate) next: State,
    pub(crate) on_break: State,
    pub(crate) on_continue: State,
    pub(crate) on_true: State,
    pub(crate) on_false: State,
}

impl Flow {
    /// No way leads out.
    #[tactic(auto, unfolding(crate::specs::Seen::flow_seen))]
    pub(crate) fn stopping(fine: bool) -> Flow
        ensures { flow_seen result ≡ record nowhere { fine = fine } }
    {
        Flow {
            fine,
            next: None,
            on_break: None,
            on_continue: None,
            on_true: None,
            on_false: None,
        }
    }

    /// The only way leads past the end.
    #[tactic(auto, unfolding(crate::specs::Seen::flow_seen))]
    pub(crate) fn ending(fine: bool, next: State) -> Flow
        ensures { flow_seen result ≡ record nowhere { fine = fine; next = state_seen next } }
    {
        Flow {
            fine,
            next,
            on_break: None,
            on_continue: None,
            on_true: None,
            on_false: None,
        }
    }

    /// .. leads out of the loop.
    #[tactic(auto, unfolding(crate::specs::Seen::flow_seen))]
    pub(crate) fn breaking(here: State) -> Flow
        ensures { flow_seen result ≡ record nowhere { on_break = state_seen here } }
    {
        Flow {
            fine: true,
            next: None,
            on_break: here,
            on_continue: None,
            on_true: None,
            on_false: None,
        }
    }

    /// .. leads to the step of the loop.
    #[tactic(auto, unfolding(crate::specs::Seen::flow_seen))]
    pub(crate) fn continuing(here: State) -> Flow
        ensures { flow_seen result ≡ record nowhere { on_continue = state_seen here } }
    {
        Flow {
            fine: true,
            next: None,
            on_break: None,
            on_continue: here,
            on_true: None,
            on_false: None,
        }
    }

    /// A single test.
    #[tactic(auto, unfolding(crate::specs::Seen::flow_seen))]
    pub(crate) fn asking(fine: bool, held: State, failed: State) -> Flow
        ensures { flow_seen result
            ≡ record nowhere { fine = fine; on_true = state_seen held; on_false = state_seen failed } }
    {
        Flow {
            fine,
            next: None,
            on_break: None,
            on_continue: None,
            on_true: held,
            on_false: failed,
        }
    }

    /// Takes out what is known past the end, where another part begins.
    #[tactic(auto, unfolding(crate::specs::Seen::flow_seen))]
    pub(crate) fn take_next(&mut self) -> State
        ensures next { state_seen result ≡ (flow_seen self.old).next }
        ensures left { flow_seen self.new ≡ before_next (flow_seen self.old) }
    {
        self.next.take()
    }

    /// .. where a condition holds,
    #[tactic(auto, unfolding(crate::specs::Seen::flow_seen))]
    pub(crate) fn take_true(&mut self) -> State
        ensures held { state_seen result ≡ (flow_seen self.old).on_true }
        ensures left { flow_seen self.new ≡ before_true (flow_seen self.old) }
    {
        self.on_true.take()
    }

    /// .. and where it doesn't.
    #[tactic(auto, unfolding(crate::specs::Seen::flow_seen))]
    pub(crate) fn take_false(&mut self) -> State
        ensures failed { state_seen result ≡ (flow_seen self.old).on_false }
        ensures left { flow_seen self.new ≡ before_false (flow_seen self.old) }
    {
        self.on_false.take()
    }

    /// Takes out what is known where the step of a loop begins, behind its body.
    #[tactic(auto, unfolding(crate::specs::Seen::flow_seen))]
    pub(crate) fn take_turn(&mut self) -> State
        ensures turn { state_seen result ≡ met (flow_seen self.old).next (flow_seen self.old).on_continue }
        ensures left { of_body (flow_seen self.new) ≡ of_body (flow_seen self.old) }
    {
        met(self.next.take(), self.on_continue.take())
    }

    /// The ways of two parts.
    #[tactic(auto, unfolding(crate::specs::Seen::flow_seen))]
    pub(crate) fn joined(self, other: Flow) -> Flow
        ensures { flow_seen result ≡ joined (flow_seen self) (flow_seen other) }
    {
        Flow {
            fine: self.fine && other.fine,
            next: met(self.next, other.next),
            on_break: met(self.on_break, other.on_break),
            on_continue: met(self.on_continue, other.on_continue),
            on_true: met(self.on_true, other.on_true),
            on_false: met(self.on_false, other.on_false),
        }
    }

    /// Those of what a Not turns.
    #[tactic(auto, unfolding(crate::specs::Seen::flow_seen))]
    pub(crate) fn turned(self) -> Flow
        ensures { flow_seen result ≡ turned (flow_seen self) }
    {
        Flow {
            fine: self.fine,
            next: self.next,
            on_break: self.on_break,
            on_continue: self.on_continue,
            on_true: self.on_false,
            on_false: self.on_true,
        }
    }

    /// Those out of a loop from its test.
    #[tactic(auto, unfolding(crate::specs::Seen::flow_seen))]
    pub(crate) fn of_test(self) -> Flow
        ensures { flow_seen result ≡ of_test (flow_seen self) }
    {
        Flow {
            fine: self.fine,
            next: met(self.next, self.on_false),
            on_break: self.on_break,
            on_continue: self.on_continue,
            on_true: None,
            on_false: None,
        }
    }

    /// .. from its body.
    #[tactic(auto, unfolding(crate::specs::Seen::flow_seen))]
    pub(crate) fn of_body(self) -> Flow
        ensures { flow_seen result ≡ of_body (flow_seen self) }
    {
        Flow {
            fine: self.fine,
            next: self.on_break,
            on_break: None,
            on_continue: None,
            on_true: self.on_true,
            on_false: self.on_false,
        }
    }

    /// .. and from its step, which comes back to the head.
    #[tactic(auto, unfolding(crate::specs::Seen::flow_seen))]
    pub(crate) fn of_step(self, head: &State) -> Flow
        ensures { flow_seen result ≡ of_step (state_seen head.now) (flow_seen self) }
    {
        Flow {
            fine: self.fine && comes_back(head, &self.next),
            next: None,
            on_break: self.on_break,
            on_continue: self.on_continue,
            on_true: self.on_true,
            on_false: self.on_false,
        }
    }

    /// Whether all points are ready and no way leads out.
    #[tactic(auto, unfolding(crate::specs::Seen::flow_seen))]
    pub(crate) fn is_over(&self) -> bool
        ensures { result ≡ is_over (flow_seen self.now) }
    {
        self.fine
            && self.next.is_none()
            && self.on_break.is_none()
            && self.on_continue.is_none()
            && self.on_true.is_none()
            && self.on_false.is_none()
    }
}
