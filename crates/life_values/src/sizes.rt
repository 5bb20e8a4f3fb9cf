// The bounds of numbers that come out of other types.
ghost use Rattle.std.specs.Prelude.{◌≡◌, ◌≤◌, ◌<◌, ◌^◌, MatchOption};

/// A width is a number of 64 bits.
pub(crate) fn is_width(width: u64)
    ensures { width < 2 ^ 64 }
{}

/// A count of slots is a number of 32 bits.
pub(crate) fn is_count(count: u32)
    ensures { count < 2 ^ 32 }
{}

/// A count of slots by its 64 bits. None comes where it has more than 32.
pub(crate) fn as_count(count: u64) -> Option<u32>
    ensures { MatchOption result (2 ^ 32 ≤ count) (λ narrow. narrow ≡ count) }
{
    u32::try_from(count).ok()
}
