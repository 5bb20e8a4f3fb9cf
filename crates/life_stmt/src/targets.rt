// The parser of what is assigned to, and what may stand behind it.
ghost use Rattle.std.specs.Prelude.{◌<◌};
ghost use Rattle.life_expr.specs.Gives.{Gives};
ghost use Rattle.life_expr.specs.Readers as readers;
ghost use Rattle.life_tree.specs.Rules as rules;
ghost use Rattle.life_tree.specs.Views.{target_tree};

use life_expr::{Read, opener, postfix, starts};
use life_tree::{Target, TreeToken, fixed};
use std::alloc::Global;

/// `{ "*" } postfix`.
#[cycle(targets)]
#[tactic(auto, unfolding(life_expr::specs::Readers::target_with))]
pub fn target<'a>(alloc: Global, left: usize, tokens: &'a [TreeToken]) -> Read<'a, Target>
    ensures { Gives (λ x. (target_tree x.0, x.1.now)) result (readers.target_with left (readers.below left) tokens.now) }
{
    if starts(tokens, fixed::STAR) {
        let (star, rest) = opener(left, tokens, fixed::STAR)?;
        let (operand, rest) = target_below(alloc, left, rest)?;
        let operand = Box::new(alloc, operand)?;
        return Ok((Target::Dereference { star, operand }, rest));
    }
    let (operand, rest) = postfix(alloc, left, tokens)?;
    Ok((Target::Plain(operand), rest))
}

/// A target inside a construct, where `left` more may be open outside.
#[cycle(targets)]
pub fn target_below<'a>(alloc: Global, left: usize, tokens: &'a [TreeToken]) -> Read<'a, Target>
    requires { 0 < left }
    ensures { Gives (λ x. (target_tree x.0, x.1.now)) result (readers.below left rules.target tokens.now) }
{
    target(alloc, left - 1, tokens)
}
