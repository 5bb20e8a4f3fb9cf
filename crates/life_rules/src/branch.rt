// What a test says of facts.
ghost use Rattle.std.specs.Prelude.{◌≡◌};
ghost use Rattle.life_core.specs.Step.{asked_of};
ghost use Rattle.life_rules.specs.Carrying.{stops_at};

use crate::matching::{is_held, is_location, is_null};
use life_core::Test;
use life_pset::Fact;

/// Whether a branch of a test stops a fact: a pointer that was found to be null points nowhere on
/// that branch, and on the other one it isn't null.
pub fn stops_at(test: &Test, branch: Option<bool>, fact: Fact) -> bool
    ensures { result ≡ stops_at (asked_of test.now) branch fact }
{
    match test {
        Test::NonZero(_) => false,
        Test::NotNull(pointer) => match branch {
            None => false,
            Some(holds) => {
                is_location(pointer, &fact.location)
                    && (if holds {
                        is_null(&fact.element)
                    } else {
                        is_held(&fact.element)
                    })
            }
        },
    }
}
