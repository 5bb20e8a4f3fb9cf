// Bodies of functions.
ghost use Rattle.std.specs.Prelude.{◌≡◌};
ghost use Rattle.life_typed.specs.TypedStatement.{block_view};
ghost use Rattle.life_type_stmt.specs.Bodies as spec;
ghost use Rattle.life_names.specs.Checked.{Gives};

use crate::around::Around;
use crate::ends::block_ends;
use crate::statements::block;
use life_names::{Environment, IllFault, IllKind, allowed, type_at};
use life_tree::Block;
use life_typed::TypedBlock;
use life_types::{TyId, TypeTable, is_void};
use std::alloc::Global;

/// `main`, what answers nothing, and what ends need no return at their end.
fn return_fault(is_main: bool, void: bool, ends: bool) -> Option<IllKind>
    ensures { result ≡ spec.return_fault is_main void ends }
{
    if is_main {
        return None;
    }
    if void {
        return None;
    }
    if ends {
        return None;
    }
    Some(IllKind::MissingReturn)
}

/// The body of a function that answers `result_type`; `void` too. Its parameters are declared.
#[tactic(auto, unfolding(crate::specs::Bodies::body))]
pub fn body(
    alloc: Global,
    environment: &mut Environment<'_>,
    types: &mut TypeTable,
    result_type: TyId,
    is_main: bool,
    body: &Block,
) -> Result<TypedBlock, IllFault>
    ensures { Gives (λ b. (block_view b, environment.new)) types.new result (spec.body result_type is_main body.now environment.old types.old) }
{
    let around = Around {
        result: result_type,
        in_loop: false,
    };
    let found = block(alloc, environment, types, around, body)?;
    let void = is_void(type_at(types, result_type));
    allowed(return_fault(is_main, void, block_ends(body)), body.closing)?;
    Ok(found)
}
