// Rules that are broken, and where.
ghost use Rattle.std.specs.Prelude.{◌≡◌};
ghost use Rattle.life_names.specs.Found as spec;
ghost use Rattle.life_names.specs.declared.fault.IllFault.TheVariants as faults;

use crate::fault::{IllFault, IllKind};
use life_types::Place;

/// This rule is broken at this place.
pub fn ill(kind: IllKind, place: Place) -> IllFault
    ensures { result ≡ faults.Ill kind place }
{
    IllFault::Ill { kind, place }
}

/// Nothing, where no rule is broken at this place.
pub fn allowed(fault: Option<IllKind>, place: Place) -> Result<(), IllFault>
    ensures { spec.Finds (λ x. x) result (spec.allowed fault place) }
{
    match fault {
        None => Ok(()),
        Some(kind) => Err(ill(kind, place)),
    }
}
