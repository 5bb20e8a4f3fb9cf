// Which element of how many.
ghost use Rattle.std.specs.Prelude.{◌≡◌, ◌<◌, IfOk};
ghost use Rattle.life_store.specs.Iterators as spec;
ghost use Rattle.life_pointers.specs.Attempts.{itself, tried};
ghost use Rattle.life_pointers.specs.Choices.{chosen_by};

use crate::stop::Stop;
use life_store::TrapKind;

/// Which element.
#[derive(Clone, Copy)]
pub enum Choice {
    /// By an index that was read from a register, and is taken without a sign.
    At(i64),
    /// The first.
    First,
    /// The last.
    Last,
}

// The index of the element, of so many.
#[inline(always)]
pub(crate) fn chosen(choice: Choice, size: u64) -> Result<u64, Stop>
    ensures is { tried itself result ≡ chosen_by choice size }
    ensures within { IfOk result (λ index. index < size) }
{
    match choice {
        Choice::At(number) => below(number.cast_unsigned(), size),
        Choice::First => below(0, size),
        Choice::Last => last_of(size),
    }
}

#[inline(always)]
fn below(index: u64, size: u64) -> Result<u64, Stop>
    ensures is { tried itself result ≡ spec.below index size }
    ensures within { IfOk result (λ index. index < size) }
{
    if index < size {
        Ok(index)
    } else {
        Err(Stop::Trap(TrapKind::Bounds))
    }
}

fn last_of(size: u64) -> Result<u64, Stop>
    ensures is { tried itself result ≡ spec.last_of size }
    ensures within { IfOk result (λ index. index < size) }
{
    if size == 0 {
        Err(Stop::Trap(TrapKind::Bounds))
    } else {
        Ok(size - 1)
    }
}
