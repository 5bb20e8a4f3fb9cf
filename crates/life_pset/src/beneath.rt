// How abstract places lie to each other.
ghost use Rattle.std.specs.List.{list_any};
ghost use Rattle.std.specs.Prelude.{◌≡◌, drop, nat_eq};
ghost use Rattle.life_pset.specs.Places.{begins, goes_under, is_within, overlap, owned_step, under};

use crate::element::{AbsPlace, OWNED_STEP};

/// Whether the second place is owned by the first, or by a part of it: it has the same root, and its
/// steps are those of the first and then some, with an owned step among them. It takes no memory, as
/// the questions below.
pub fn under(first: &AbsPlace, second: &AbsPlace) -> bool
    ensures { result ≡ under first.now second.now }
{
    first.root == second.root && goes_under(first.path(), second.path())
}

/// Whether one of the places is a part of the other, or they are one.
pub fn overlap(first: &AbsPlace, second: &AbsPlace) -> bool
    ensures { result ≡ overlap first.now second.now }
{
    first.root == second.root
        && (begins(first.path(), second.path()) || begins(second.path(), first.path()))
}

/// Whether the second place is the first, or a part of it.
pub fn is_within(first: &AbsPlace, second: &AbsPlace) -> bool
    ensures { result ≡ is_within first.now second.now }
{
    first.root == second.root && begins(first.path(), second.path())
}

// Whether the second path begins with the first.
fn begins(first: &[u8], second: &[u8]) -> bool
    ensures { result ≡ begins first.now second.now }
{
    second.starts_with(first)
}

fn goes_under(first: &[u8], second: &[u8]) -> bool
    ensures { result ≡ goes_under first.now second.now }
{
    begins(first, second) && has_owned(rest_of(second, first.len()))
}

fn has_owned(steps: &[u8]) -> bool
    ensures { result ≡ list_any (λ step. nat_eq step owned_step) steps.now }
{
    let owned = OWNED_STEP;
    steps.contains(&owned)
}

/// The path without its first steps.
pub fn rest_of(path: &[u8], count: usize) -> &[u8]
    ensures { result.now ≡ drop count path.now }
{
    if count <= path.len() {
        &path[count..]
    } else {
        &[]
    }
}
