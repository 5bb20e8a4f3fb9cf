// The parser of a file's tokens.
ghost use Rattle.std.specs.Prelude.{IfOk, IfErr};
ghost use Rattle.life_parse.specs.ParsesTokens.{FaultOf, IsTheTree, definitions_tree};

use life_expr::Stop;
use life_stmt::program;
use life_tree::{Definition, TreeToken};
use std::alloc::Global;

/// How many constructs may be open at once.
const MOST_OPEN: usize = 64;

/// Why tokens have no tree.
#[derive(Clone, Copy, Debug)]
pub(crate) enum TokensFault {
    /// The token with this number is refused.
    Refused(usize),
    /// The token with this number opens too much.
    Deep(usize),
    /// Memory was wanted and not had.
    NoMemory,
}

/// The definitions that these tokens spell.
///
/// # Errors
///
/// The first token at which no program goes on or that opens the 65th construct, or for want of
/// memory.
#[tactic(auto, unfolding(life_expr::specs::Readers::rule_with))]
pub(crate) fn definitions(
    alloc: Global,
    tokens: &[TreeToken],
) -> Result<Vec<Definition>, TokensFault>
    ensures tree { IfOk result (λ ds. IsTheTree tokens.now (definitions_tree ds.items)) }
    ensures fault { IfErr result (λ fault. FaultOf tokens.now fault) }
{
    let (definitions, rest) = match program(alloc, MOST_OPEN, tokens) {
        Ok(read) => read,
        Err(Stop::Refused(rest)) => {
            return Err(TokensFault::Refused(tokens.len().saturating_sub(rest.len())));
        }
        Err(Stop::Deep(rest)) => {
            return Err(TokensFault::Deep(tokens.len().saturating_sub(rest.len())));
        }
        Err(Stop::Memory) => return Err(TokensFault::NoMemory),
    };
    match rest {
        [] => Ok(definitions),
        [_, ..] => Err(TokensFault::Refused(tokens.len().saturating_sub(rest.len()))),
    }
}
