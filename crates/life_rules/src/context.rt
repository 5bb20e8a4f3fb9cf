// A point of a function, where it is asked what is wrong.
ghost use Rattle.std.specs.Prelude.{◌≡◌, IfOk};
ghost use Rattle.life_core.specs.Function.{function_of};
ghost use Rattle.life_core.specs.Node.{node_seen};
ghost use Rattle.life_contract.specs.Signatures.{signature_of};
ghost use Rattle.life_rules.specs.Callees.{callee_at, IsCallee};

use crate::callees::callee_at;
use life_contract::{Callee, Signatures};
use life_core::{CoreFn, SpotRef};
use life_types::{NoMemory, TypeTable};
use std::alloc::Global;

/// A point of a function, and what the rules say what is wrong there by: the signatures of the program's
/// functions, its types, the function with its number and as its own callers see it, what stands at the
/// point, and the function that is called there, if one is.
#[derive(Drop)]
pub struct PointContext<'a> {
    pub sigs: &'a Signatures,
    pub types: &'a TypeTable,
    pub function: u32,
    pub f: &'a CoreFn,
    pub spot: SpotRef<'a>,
    pub(crate) alloc: Global,
    pub(crate) own: &'a Callee<'a>,
    pub(crate) callee: Option<Callee<'a>>,
    ghost own_sig: { own.now.sig.now ≡ signature_of (function_of f.now) },
    ghost own_types: { own.now.types.now ≡ types.now },
    ghost called: { IsCallee types.now (callee_at sigs.now (node_seen spot.node)) callee },
}

impl<'a> PointContext<'a> {
    /// The point where this stands, in the function with this number, which its callers see as `own`. The
    /// only error is the want of memory.
    pub fn of(
        alloc: Global,
        sigs: &'a Signatures,
        types: &'a TypeTable,
        function: u32,
        f: &'a CoreFn,
        own: &'a Callee<'a>,
        spot: SpotRef<'a>,
    ) -> Result<PointContext<'a>, NoMemory>
        requires own_sig { own.now.sig.now ≡ signature_of (function_of f.now) }
        requires own_types { own.now.types.now ≡ types.now }
        ensures sigs { IfOk result (λ at. at.sigs.now ≡ sigs.now) }
        ensures types { IfOk result (λ at. at.types.now ≡ types.now) }
        ensures function { IfOk result (λ at. at.function ≡ function) }
        ensures f { IfOk result (λ at. at.f.now ≡ f.now) }
        ensures spot { IfOk result (λ at. at.spot ≡ spot.entry) }
    {
        let callee = callee_at(alloc, sigs, types, spot.node)?;
        Ok(PointContext {
            sigs,
            types,
            function,
            f,
            spot,
            alloc,
            own,
            callee,
        })
    }
}
