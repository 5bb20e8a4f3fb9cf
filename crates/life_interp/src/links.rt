// What stands at a point, by its number.
ghost use Rattle.std.specs.Prelude.{◌≡◌, map, option_and_then, option_map, slice_get};
ghost use Rattle.life_core.specs.Link.{link_seen};
ghost use Rattle.life_core.specs.Linked.{numbered};

use life_core::LinkRef;

/// What stands at the point with this number, if there is one.
#[inline(always)]
pub(crate) fn link_at<'a>(code: &[LinkRef<'a>], point: Option<u32>) -> Option<LinkRef<'a>>
    ensures { option_map link_seen result ≡ option_and_then (numbered (map link_seen code.now)) point }
{
    match point {
        None => None,
        Some(number) => {
            if number == 0 {
                None
            } else {
                nth(code, number - 1)
            }
        }
    }
}

#[inline(always)]
fn nth<'a>(code: &[LinkRef<'a>], index: u32) -> Option<LinkRef<'a>>
    ensures { result ≡ slice_get code.now index }
{
    code.get(index as usize).copied()
}
