// What is known of a local where a point is reached.
ghost use Rattle.std.specs.Prelude.{◌≡◌};
ghost use Rattle.life_proper.specs.Knowing.{agreed, is_implied, same};

/// What is known of a local, on whichever way control came.
#[derive(Clone, Copy, Debug)]
pub enum Known {
    /// Nothing is known.
    Unknown,
    /// It isn't alive, or was never written.
    Blank,
    /// It is alive, or was written.
    Ready,
}

impl Known {
    /// Whether both are known, and the same.
    pub(crate) fn same(self, other: Known) -> bool
        ensures { result ≡ same self other }
    {
        match (self, other) {
            (Known::Blank, Known::Blank) => true,
            (Known::Ready, Known::Ready) => true,
            _ => false,
        }
    }

    /// What is known where two ways meet.
    pub(crate) fn agreed(self, other: Known) -> Known
        ensures { result ≡ agreed self other }
    {
        if self.same(other) {
            self
        } else {
            Known::Unknown
        }
    }

    /// Whether what is known by this is known by the other one too.
    pub(crate) fn is_implied(self, other: Known) -> bool
        ensures { result ≡ is_implied self other }
    {
        match self {
            Known::Unknown => true,
            _ => self.same(other),
        }
    }
}
