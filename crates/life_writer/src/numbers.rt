// Numbers of what is counted.
ghost use Rattle.std.specs.Prelude.{◌≡◌, IfOk};

use life_types::NoMemory;

/// A count as a number of 32 bits.
///
/// # Errors
///
/// For want of memory, which more than 32 bits number counts as.
pub fn number(count: usize) -> Result<u32, NoMemory>
    ensures { IfOk result (λ n. n ≡ count) }
{
    if count > u32::MAX as usize {
        return Err(NoMemory);
    }
    Ok(count as u32)
}
