// What the rules of an edge look at.
ghost use Rattle.std.specs.Option.{option_copied};
ghost use Rattle.std.specs.Prelude.{option_map};
ghost use Rattle.life_core.specs.Node.{spot_seen};
ghost use Rattle.life_rules.specs.Callees.{callee_in, IsCallee};

use life_contract::{Callee, Signatures};
use life_core::{CoreFn, Edge, SpotRef};
use life_pset::ElementTable;
use life_types::TypeTable;

/// An edge of a function, and what the rules say what it carries by: the signatures of the program's
/// functions, its types, the table of the function, what stands at the edge's first point, and the
/// function that is called there, if one is.
#[derive(Drop)]
pub struct EdgeContext<'a> {
    pub f: &'a CoreFn,
    pub sigs: &'a Signatures,
    pub types: &'a TypeTable,
    pub table: &'a ElementTable,
    pub edge: Edge,
    pub spot: Option<SpotRef<'a>>,
    pub callee: Option<&'a Callee<'a>>,
    ghost called: { IsCallee types.now (callee_in sigs.now (option_map spot_seen spot)) (option_copied callee) },
}
