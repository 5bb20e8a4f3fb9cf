// Where control goes from a statement, and to it.
ghost use Rattle.std.specs.Prelude.{◌≡◌};
ghost use Rattle.life_core.specs.Linked.{body_exits, target_of, turned, with_false, with_next, with_true};

/// Where control goes from a part of a function: past its end, at a Break, at a Continue, and from
/// a condition where it holds and where it doesn't. None is past the end of the function.
#[derive(Clone, Copy, Debug)]
pub struct Exits {
    pub next: Option<u32>,
    pub on_break: Option<u32>,
    pub on_continue: Option<u32>,
    pub on_true: Option<u32>,
    pub on_false: Option<u32>,
}

impl Exits {
    /// Those of a function's body: control goes nowhere past its end.
    pub(crate) const NONE: Exits = Exits {
        next: None,
        on_break: None,
        on_continue: None,
        on_true: None,
        on_false: None,
    };

    /// These with another way on past the end.
    pub(crate) fn with_next(self, next: Option<u32>) -> Exits
        ensures { result ≡ with_next next self }
    {
        Exits { next, ..self }
    }

    /// These with another way on where the condition holds.
    pub(crate) fn with_true(self, on_true: Option<u32>) -> Exits
        ensures { result ≡ with_true on_true self }
    {
        Exits { on_true, ..self }
    }

    /// These with another way on where the condition doesn't hold.
    pub(crate) fn with_false(self, on_false: Option<u32>) -> Exits
        ensures { result ≡ with_false on_false self }
    {
        Exits { on_false, ..self }
    }

    /// Those of what a Not turns.
    pub(crate) fn turned(self) -> Exits
        ensures { result ≡ turned self }
    {
        Exits {
            on_true: self.on_false,
            on_false: self.on_true,
            ..self
        }
    }

    /// Those of the body of a loop with these exits: it goes on with the step.
    pub(crate) fn of_body(self, step: Option<u32>) -> Exits
        ensures { result ≡ body_exits step self }
    {
        Exits {
            next: step,
            on_break: self.next,
            on_continue: step,
            ..self
        }
    }
}

/// Where control goes to a part of a function: to its first point, or, where it has none before,
/// straight to one of its exits.
#[derive(Clone, Copy, Debug, PartialEq, Eq)]
pub enum Entry {
    First,
    Next,
    Break,
    Continue,
}

impl Entry {
    /// The point that control comes to, in a part whose first point has the number `at`.
    pub(crate) fn target(self, at: u32, exits: Exits) -> Option<u32>
        ensures { result ≡ target_of self at exits }
    {
        match self {
            Entry::First => Some(at),
            Entry::Next => exits.next,
            Entry::Break => exits.on_break,
            Entry::Continue => exits.on_continue,
        }
    }
}
