// What stands at a point, in a list of the points.
ghost use Rattle.std.specs.Prelude.{◌≡◌, map, option_map};
ghost use Rattle.life_core.specs.Function.{Function};
ghost use Rattle.life_core.specs.Linked.{code_of, spot_of, spot_of_linked};
ghost use Rattle.life_core.specs.Node.{spot_seen};

use life_core::{Point, SpotRef};

/// What stands at the point of the function whose points, in their order, are these; None if it has
/// no such point.
pub fn spot_in<'a>(spots: &[SpotRef<'a>], point: Point) -> Option<SpotRef<'a>>
    ensures { (f : Function) → map spot_seen spots.now ≡ map spot_of_linked (code_of f) → option_map spot_seen result ≡ spot_of f point }
{
    if point.0 == 0 {
        return None;
    }
    spots.get(point.0 as usize - 1).copied()
}
