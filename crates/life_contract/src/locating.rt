// Which place a location names, and which places lie in a local.
ghost use Rattle.std.specs.Prelude.{◌≡◌};
ghost use Rattle.life_core.specs.Operands.{location_of};
ghost use Rattle.life_contract.specs.Located.{is_location, is_root, is_rooted, located};

use life_core::Location;
use life_pset::{AbsPlace, Root};

/// The place that a location names.
pub fn located(location: &Location) -> AbsPlace
    ensures { result ≡ located (location_of location.now) }
{
    AbsPlace::of_local(location.local).members(&location.members)
}

/// Whether the place is that of the location.
pub fn is_location(location: &Location, place: &AbsPlace) -> bool
    ensures { result ≡ is_location (location_of location.now) place.now }
{
    *place == located(location)
}

/// Whether the place is the local with this number, or lies in it.
pub fn is_rooted(local: u32, place: &AbsPlace) -> bool
    ensures { result ≡ is_rooted local place.now }
{
    is_root(local, &place.root)
}

fn is_root(local: u32, root: &Root) -> bool
    ensures { result ≡ is_root local root.now }
{
    match root {
        Root::Local(number) => local == *number,
        Root::Input { .. } => false,
    }
}
