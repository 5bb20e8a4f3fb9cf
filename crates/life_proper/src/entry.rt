// What is known at the entry of a function.
ghost use Rattle.std.specs.Prelude.{◌≡◌, IfOk};
ghost use Rattle.life_core.specs.Function.{function_of};
ghost use Rattle.life_proper.specs.Knowing.{entry_known, known_as};
ghost use Rattle.life_proper.specs.Turns.{given_first};

use crate::known::Known;
use life_core::CoreFn;
use life_types::NoMemory;
use std::alloc::Global;

/// What is known at the entry: the parameters are there, and nothing else is.
#[tactic(auto, using(crate::proofs::Loops::given_step))]
pub(crate) fn entry_known(alloc: Global, f: &CoreFn) -> Result<Vec<Known>, NoMemory>
    ensures { IfOk result (λ known. known.items ≡ entry_known (function_of f.now)) }
{
    let mut known = Vec::with_capacity(alloc, f.locals.len())?;
    let mut left = f.parameters;
    for _local in &f.locals {
        known.push(given_first(left))?;
        left = left.saturating_sub(1);
    }
    Ok(known)
}

// What is known of a local at the entry, where so many parameters are left.
fn given_first(left: u32) -> Known
    ensures { result ≡ known_as (given_first left) }
{
    if left == 0 {
        Known::Blank
    } else {
        Known::Ready
    }
}
