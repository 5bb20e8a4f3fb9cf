// Copies of what an instruction names.
ghost use Rattle.std.specs.Prelude.{◌≡◌, IfOk};
ghost use Rattle.life_core.specs.Operands.{location_of, operand_of};

use life_core::{Location, Operand};
use life_types::NoMemory;

/// The same location.
///
/// # Errors
///
/// For want of memory.
pub fn copied_location(location: &Location) -> Result<Location, NoMemory>
    ensures { IfOk result (λ copy. location_of copy ≡ location_of location.now) }
{
    Ok(Location {
        local: location.local,
        members: location.members.clone()?,
    })
}

/// The same place, to be named by another instruction.
///
/// # Errors
///
/// For want of memory.
pub fn copied_operand(operand: &Operand) -> Result<Operand, NoMemory>
    ensures { IfOk result (λ copy. operand_of copy ≡ operand_of operand.now) }
{
    match operand {
        Operand::Name(location) => Ok(Operand::Name(copied_location(location)?)),
        Operand::Through { pointer, members } => Ok(Operand::Through {
            pointer: copied_location(pointer)?,
            members: members.clone()?,
        }),
    }
}
