// How something is told that is wrong.
ghost use Rattle.std.specs.Prelude.{◌≡◌, ◌++◌, OnOk};
ghost use Rattle.life_rules.specs.Telling.{told, told_of};

use crate::diag::{Diag, DiagKind, Why};
use life_pset::AbsPlace;
use life_types::{NoMemory, Place};

/// Adds that something is wrong with a location of the function.
pub fn push_told(
    function: u32,
    place: Place,
    kind: DiagKind,
    name: AbsPlace,
    why: Why,
    out: &mut Vec<Diag>,
) -> Result<(), NoMemory>
    ensures { OnOk result (out.new.items ≡ out.old.items ++ told function place kind name why) }
{
    out.push(Diag {
        function,
        place,
        kind,
        name,
        called: None,
        why,
    })?;
    Ok(())
}

/// .. with what is given for a location of a parameter of the called function.
pub fn push_told_of(
    function: u32,
    place: Place,
    called: u32,
    kind: DiagKind,
    name: AbsPlace,
    why: Why,
    out: &mut Vec<Diag>,
) -> Result<(), NoMemory>
    ensures { OnOk result
        (out.new.items ≡ out.old.items ++ told_of function place called kind name why) }
{
    out.push(Diag {
        function,
        place,
        kind,
        name,
        called: Some(called),
        why,
    })?;
    Ok(())
}
