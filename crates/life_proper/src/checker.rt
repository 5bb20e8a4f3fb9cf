// The checker.
ghost use Rattle.std.specs.Prelude.{◌≡◌, IfOk};
ghost use Rattle.life_core.specs.Function.{function_of, program_of};
ghost use Rattle.life_proper.specs.Checking.{checked, is_checked};

use crate::entry::entry_known;
use crate::scope::Scope;
use crate::shape::tests_straight;
use crate::walk::stmt_flow;
use life_core::CoreProgram;
use life_types::NoMemory;
use std::alloc::Global;

/// Whether the program is ready, as a proper one is: on every way through its functions what an
/// instruction uses was written before and is alive, what comes to life isn't alive, what goes is alive, and
/// no way runs past the end. Of what else is asked of a proper program it says nothing. It goes
/// once over the text. A false answer is no proof that the program isn't ready: what is known of a local is
/// what all ways agree on. It is for programs that are made by hand, as those of tests: a translation is
/// proper by a law, and isn't asked. `NoMemory` says that memory was wanted.
pub fn is_proper(alloc: Global, p: &CoreProgram) -> Result<bool, NoMemory>
    ensures { IfOk result (λ answer. answer ≡ checked (program_of p.now)) }
{
    for f in &p.functions {
        let at = Scope {
            types: &p.types,
            function: f,
        };
        if !is_checked(alloc, &at)? {
            return Ok(false);
        }
    }
    Ok(true)
}

#[tactic(auto, using(crate::proofs::Joining::body_is))]
fn is_checked(alloc: Global, at: &Scope) -> Result<bool, NoMemory>
    ensures { IfOk result (λ answer. answer ≡ is_checked at.now.types.now (function_of at.now.function.now)) }
{
    if !tests_straight(&at.function.body) {
        return Ok(false);
    }
    let known = entry_known(alloc, at.function)?;
    let ways = stmt_flow(alloc, &at.function.body, Some(known), at)?;
    Ok(ways.is_over())
}
