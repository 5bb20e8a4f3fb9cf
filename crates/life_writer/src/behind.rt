// What stands behind an expression that may be tested.
ghost use Rattle.std.specs.Prelude.{◌≡◌};
ghost use Rattle.life_writer.specs.Behind as spec;

use life_types::Place;

/// What stands behind an expression that may be tested.
#[derive(Clone, Copy)]
pub struct Behind {
    /// The token that follows.
    pub token: Place,
    /// Where the temporaries end that are made for it, if they don't last past its test.
    pub ends: Option<Place>,
}

impl Behind {
    /// A part of a full expression: what is made for it lasts as long as that.
    pub fn lasting(token: Place) -> Behind
        ensures { result ≡ spec.lasting token }
    {
        Behind { token, ends: None }
    }

    /// A condition, or an operand of `&&` or `||`: what is made for it ends before it is tested.
    pub fn ending(token: Place) -> Behind
        ensures { result ≡ spec.ending token }
    {
        Behind {
            token,
            ends: Some(token),
        }
    }

    /// What stands in parentheses.
    pub(crate) fn closed_by(self, closing: Place) -> Behind
        ensures { result ≡ spec.closed_by closing self }
    {
        Behind {
            token: closing,
            ends: self.ends,
        }
    }
}
