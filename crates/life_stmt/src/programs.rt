// The parser of structs and whole programs: each function mirrors the reader of its name.
ghost use Rattle.std.specs.Prelude.{◌<◌, length, map};
ghost use Rattle.life_stmt.specs.Definitions as spec;
ghost use Rattle.life_stmt.specs.Fronts as fronts;
ghost use Rattle.life_stmt.specs.Fronts.{mapped};
ghost use Rattle.life_expr.specs.Gives.{Gives};
ghost use Rattle.life_expr.specs.Heads as heads;
ghost use Rattle.life_expr.specs.Read.{as_many};
ghost use Rattle.life_expr.specs.Readers as readers;
ghost use Rattle.life_tree.specs.Rules as rules;
ghost use Rattle.life_tree.specs.Tree.{node};
ghost use Rattle.life_tree.specs.Views.{definition_tree, list_tree, member_tree, struct_tree};

use crate::fronts::{starts_definition, starts_member};
use crate::functions::function;
use life_expr::{Read, mark, name, opener, starts, type_name};
use life_tree::{Definition, Member, StructDefinition, TreeToken, fixed};
use std::alloc::Global;

/// A member of a struct.
#[tactic(auto, unfolding(life_expr::specs::Readers::member_with))]
fn member<'a>(alloc: Global, left: usize, tokens: &'a [TreeToken]) -> Read<'a, Member>
    ensures { Gives (λ x. (member_tree x.0, x.1.now)) result (readers.member_with left (readers.below left) tokens.now) }
{
    let (ty, rest) = type_name(alloc, left, tokens)?;
    let (name, rest) = name(rest)?;
    let (semicolon, rest) = mark(rest, fixed::SEMICOLON)?;
    Ok((
        Member {
            ty,
            name,
            semicolon,
        },
        rest,
    ))
}

/// A member inside a construct, where `left` more may be open outside.
fn member_below<'a>(alloc: Global, left: usize, tokens: &'a [TreeToken]) -> Read<'a, Member>
    requires { 0 < left }
    ensures { Gives (λ x. (member_tree x.0, x.1.now)) result (readers.below left rules.member tokens.now) }
{
    member(alloc, left - 1, tokens)
}

/// Members behind these.
fn more_members<'a>(
    alloc: Global,
    left: usize,
    before: Vec<Member>,
    tokens: &'a [TreeToken],
) -> Read<'a, Vec<Member>>
    requires depth { 0 < left }
    requires some { 0 < length before.items }
    ensures { Gives (λ x. (list_tree (map member_tree x.0.items), x.1.now)) result (mapped (fronts.before (map member_tree before.items)) (as_many (heads.heads_of rules.member) (readers.below left rules.member) tokens.now)) }
{
    let mut rest = tokens;
    let mut list = before;
    'list: while starts_member(rest) {
        let (next, after) = member_below(alloc, left, rest)?;
        list.push(next)?;
        rest = after;
    }
    Ok((list, rest))
}

/// Members, at least one.
fn members<'a>(alloc: Global, left: usize, tokens: &'a [TreeToken]) -> Read<'a, Vec<Member>>
    requires { 0 < left }
    ensures { Gives (λ x. (list_tree (map member_tree x.0.items), x.1.now)) result (spec.some_with (readers.below left) rules.member tokens.now) }
{
    let (first, rest) = member_below(alloc, left, tokens)?;
    let mut list = Vec::new(alloc);
    list.push(first)?;
    more_members(alloc, left, list, rest)
}

/// A struct.
#[tactic(auto, unfolding(life_expr::specs::Readers::structure_with))]
fn structure<'a>(alloc: Global, left: usize, tokens: &'a [TreeToken]) -> Read<'a, StructDefinition>
    ensures { Gives (λ x. (struct_tree x.0, x.1.now)) result (readers.structure_with left (readers.below left) tokens.now) }
{
    let (keyword, rest) = mark(tokens, fixed::STRUCT)?;
    let (name, rest) = name(rest)?;
    let (opening, rest) = opener(left, rest, fixed::LEFT_BRACE)?;
    let (members, rest) = members(alloc, left, rest)?;
    let (closing, rest) = mark(rest, fixed::RIGHT_BRACE)?;
    let (semicolon, rest) = mark(rest, fixed::SEMICOLON)?;
    Ok((
        StructDefinition {
            keyword,
            name,
            opening,
            members,
            closing,
            semicolon,
        },
        rest,
    ))
}

/// A struct or a function.
#[tactic(auto, unfolding(life_expr::specs::Readers::definition_with))]
fn definition<'a>(alloc: Global, left: usize, tokens: &'a [TreeToken]) -> Read<'a, Definition>
    ensures { Gives (λ x. (definition_tree x.0, x.1.now)) result (readers.definition_with left (readers.below left) tokens.now) }
{
    if starts(tokens, fixed::STRUCT) {
        let (found, rest) = structure(alloc, left, tokens)?;
        return Ok((Definition::Struct(found), rest));
    }
    let (found, rest) = function(alloc, left, tokens)?;
    Ok((Definition::Function(found), rest))
}

/// Structs and functions, as many as there are.
fn definitions<'a>(alloc: Global, left: usize, tokens: &'a [TreeToken]) -> Read<'a, Vec<Definition>>
    ensures { Gives (λ x. (list_tree (map definition_tree x.0.items), x.1.now)) result (as_many (heads.heads_of rules.definition) (readers.definition_with left (readers.below left)) tokens.now) }
{
    let mut rest = tokens;
    let mut list = Vec::new(alloc);
    'list: while starts_definition(rest) {
        let (next, after) = definition(alloc, left, rest)?;
        list.push(next)?;
        rest = after;
    }
    Ok((list, rest))
}

/// The structs and functions of a program.
#[tactic(auto, unfolding(life_expr::specs::Readers::program_with))]
pub fn program<'a>(alloc: Global, left: usize, tokens: &'a [TreeToken]) -> Read<'a, Vec<Definition>>
    ensures { Gives (λ x. (node rules.program (list_tree (map definition_tree x.0.items)), x.1.now)) result (readers.program_with left (readers.below left) tokens.now) }
{
    let (found, rest) = definitions(alloc, left, tokens)?;
    Ok((found, rest))
}
