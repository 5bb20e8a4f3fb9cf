// The functions that are called at points: their inputs are made once for each point.
ghost use Rattle.std.specs.Option.{option_copied};
ghost use Rattle.std.specs.Prelude.{◌≡◌, map, IfOk, List};
ghost use Rattle.life_types.specs.Types.{Types};
ghost use Rattle.life_core.specs.Function.{Function};
ghost use Rattle.life_core.specs.Linked.{code_of, spot_of, spot_of_linked};
ghost use Rattle.life_core.specs.Node.{node_seen, spot_seen};
ghost use Rattle.life_core.specs.Step.{step_of};
ghost use Rattle.life_contract.specs.Signatures.{Signature};
ghost use Rattle.life_rules.specs.Callees.{callee_at, callee_in, callee_of, joined, AreCallees, IsCallee};

use life_contract::{Callee, Signature, Signatures};
use life_core::{Instr, NodeRef, Point, SpotRef};
use life_types::{NoMemory, TypeTable};
use std::alloc::Global;

/// The function that is called at each of these points, if one is. The only error is the want of
/// memory.
pub fn callees_of<'a>(
    alloc: Global,
    sigs: &'a Signatures,
    types: &'a TypeTable,
    spots: &[SpotRef<'_>],
) -> Result<Vec<Option<Callee<'a>>>, NoMemory>
    ensures { IfOk result (λ all. AreCallees types.now sigs.now (map spot_seen spots.now) all.items) }
{
    let mut all = Vec::with_capacity(alloc, spots.len())?;
    for spot in spots {
        all.push(callee_at(alloc, sigs, types, spot.node)?)?;
    }
    Ok(all)
}

/// The function that is called at the point, where these are those of all points of a function in their
/// order; None if nothing is called there, or the function has no such point.
pub fn callee_in<'a>(callees: &'a [Option<Callee<'a>>], point: Point) -> Option<&'a Callee<'a>>
    ensures { (types : Types) (sigs : List Signature) (f : Function) → AreCallees types sigs (map spot_of_linked (code_of f)) callees.now
        → IsCallee types (callee_in sigs (spot_of f point)) (option_copied result) }
{
    if point.0 == 0 {
        return None;
    }
    joined(callees.get(point.0 as usize - 1))
}

fn joined<'a>(callee: Option<&'a Option<Callee<'a>>>) -> Option<&'a Callee<'a>>
    ensures { option_copied result ≡ joined (option_copied callee.entry) }
{
    match callee {
        None => None,
        Some(callee) => callee.as_ref(),
    }
}

/// The function that is called where this stands, if one is. The only error is the want of memory.
pub(crate) fn callee_at<'a>(
    alloc: Global,
    sigs: &'a Signatures,
    types: &'a TypeTable,
    node: NodeRef<'_>,
) -> Result<Option<Callee<'a>>, NoMemory>
    ensures { IfOk result (λ callee. IsCallee types.now (callee_at sigs.now (node_seen node.entry)) callee) }
{
    match node {
        NodeRef::Action(instr) => callee_of(alloc, sigs, types, instr),
        NodeRef::Question(_) => Ok(None),
        NodeRef::Return => Ok(None),
        NodeRef::Stop => Ok(None),
    }
}

fn callee_of<'a>(
    alloc: Global,
    sigs: &'a Signatures,
    types: &'a TypeTable,
    instr: &Instr,
) -> Result<Option<Callee<'a>>, NoMemory>
    ensures { IfOk result (λ callee. IsCallee types.now (callee_of sigs.now (step_of instr.now)) callee) }
{
    match instr {
        Instr::Call { function, .. } => known_callee(alloc, types, sigs.get(*function)),
        _ => Ok(None),
    }
}

fn known_callee<'a>(
    alloc: Global,
    types: &'a TypeTable,
    sig: Option<&'a Signature>,
) -> Result<Option<Callee<'a>>, NoMemory>
    ensures { IfOk result (λ callee. IsCallee types.now (option_copied sig.entry) callee) }
{
    match sig {
        None => Ok(None),
        Some(sig) => {
            let callee = Callee::of(alloc, sig, types)?;
            Ok(Some(callee))
        }
    }
}
