// The tokens of expressions.
ghost use Rattle.std.specs.Prelude.{◌≡◌, ◌++◌, OnOk, map};
ghost use Rattle.life_tree.specs.Tree.{keys_of};
ghost use Rattle.life_tree.specs.Views.{additive_tree, arguments_tree, equality_tree, expr_tree, init_list_tree, logical_and_tree, multiplicative_tree, postfix_part_tree, postfix_tree, primary_tree, relational_tree, separated_tree, unary_tree};

use crate::token::{write_comma, write_commas, write_fixed, write_name, write_qualified};
use crate::type_name::write_argument;
use life_tree::{
    Additive, Arguments, Equality, Expr, InitList, LogicalAnd, Multiplicative, Postfix,
    PostfixPart, Primary, Relational, TokenKey, Unary, fixed,
};
use life_types::{NoMemory, Place};

/// Adds the tokens of an expression.
#[cycle(exprs)]
pub(crate) fn write_expr(expr: &Expr, keys: &mut Vec<TokenKey>) -> Result<(), NoMemory>
    ensures { OnOk result (keys.new.items ≡ keys.old.items ++ keys_of (expr_tree expr.now)) }
{
    write_logical_and(&expr.first, keys)?;
    'parts: for part in &expr.more {
        write_fixed(fixed::OR_OR, keys)?;
        write_logical_and(&part.operand, keys)?;
    }
    Ok(())
}

#[cycle(exprs)]
fn write_logical_and(expr: &LogicalAnd, keys: &mut Vec<TokenKey>) -> Result<(), NoMemory>
    ensures { OnOk result (keys.new.items ≡ keys.old.items ++ keys_of (logical_and_tree expr.now)) }
{
    write_equality(&expr.first, keys)?;
    'parts: for part in &expr.more {
        write_fixed(fixed::AND_AND, keys)?;
        write_equality(&part.operand, keys)?;
    }
    Ok(())
}

#[cycle(exprs)]
fn write_equality(expr: &Equality, keys: &mut Vec<TokenKey>) -> Result<(), NoMemory>
    ensures { OnOk result (keys.new.items ≡ keys.old.items ++ keys_of (equality_tree expr.now)) }
{
    write_relational(&expr.first, keys)?;
    'parts: for part in &expr.more {
        write_fixed(part.operator.number(), keys)?;
        write_relational(&part.operand, keys)?;
    }
    Ok(())
}

#[cycle(exprs)]
fn write_relational(expr: &Relational, keys: &mut Vec<TokenKey>) -> Result<(), NoMemory>
    ensures { OnOk result (keys.new.items ≡ keys.old.items ++ keys_of (relational_tree expr.now)) }
{
    write_additive(&expr.first, keys)?;
    'parts: for part in &expr.more {
        write_fixed(part.operator.number(), keys)?;
        write_additive(&part.operand, keys)?;
    }
    Ok(())
}

/// Adds the tokens of a sum.
#[cycle(exprs)]
pub(crate) fn write_additive(expr: &Additive, keys: &mut Vec<TokenKey>) -> Result<(), NoMemory>
    ensures { OnOk result (keys.new.items ≡ keys.old.items ++ keys_of (additive_tree expr.now)) }
{
    write_multiplicative(&expr.first, keys)?;
    'parts: for part in &expr.more {
        write_fixed(part.operator.number(), keys)?;
        write_multiplicative(&part.operand, keys)?;
    }
    Ok(())
}

#[cycle(exprs)]
fn write_multiplicative(expr: &Multiplicative, keys: &mut Vec<TokenKey>) -> Result<(), NoMemory>
    ensures { OnOk result (keys.new.items ≡ keys.old.items ++ keys_of (multiplicative_tree expr.now)) }
{
    write_unary(&expr.first, keys)?;
    'parts: for part in &expr.more {
        write_fixed(part.operator.number(), keys)?;
        write_unary(&part.operand, keys)?;
    }
    Ok(())
}

#[cycle(exprs)]
fn write_unary(unary: &Unary, keys: &mut Vec<TokenKey>) -> Result<(), NoMemory>
    ensures { OnOk result (keys.new.items ≡ keys.old.items ++ keys_of (unary_tree unary.now)) }
{
    match unary {
        Unary::Prefix {
            operator,
            operand,
            ..
        } => {
            write_fixed(operator.number(), keys)?;
            write_unary(operand, keys)
        }
        Unary::Plain(postfix) => write_postfix(postfix, keys),
    }
}

/// Adds the tokens of an operand and what stands behind it.
#[cycle(exprs)]
pub(crate) fn write_postfix(postfix: &Postfix, keys: &mut Vec<TokenKey>) -> Result<(), NoMemory>
    ensures { OnOk result (keys.new.items ≡ keys.old.items ++ keys_of (postfix_tree postfix.now)) }
{
    write_primary(&postfix.primary, keys)?;
    'parts: for part in &postfix.parts {
        write_part(part, keys)?;
    }
    Ok(())
}

#[cycle(exprs)]
fn write_part(part: &PostfixPart, keys: &mut Vec<TokenKey>) -> Result<(), NoMemory>
    ensures { OnOk result (keys.new.items ≡ keys.old.items ++ keys_of (postfix_part_tree part.now)) }
{
    match part {
        PostfixPart::Member {
            name,
            arguments,
            ..
        } => {
            write_fixed(fixed::DOT, keys)?;
            write_name(*name, keys)?;
            match arguments {
                Some(arguments) => write_arguments(arguments, keys),
                None => Ok(()),
            }
        }
        PostfixPart::Arrow {
            name,
            arguments,
            ..
        } => {
            write_fixed(fixed::ARROW, keys)?;
            write_name(*name, keys)?;
            match arguments {
                Some(arguments) => write_arguments(arguments, keys),
                None => Ok(()),
            }
        }
        PostfixPart::Index { index, .. } => {
            write_fixed(fixed::LEFT_BRACKET, keys)?;
            write_expr(index, keys)?;
            write_fixed(fixed::RIGHT_BRACKET, keys)
        }
    }
}

#[cycle(exprs)]
fn write_primary(primary: &Primary, keys: &mut Vec<TokenKey>) -> Result<(), NoMemory>
    ensures { OnOk result (keys.new.items ≡ keys.old.items ++ keys_of (primary_tree primary.now)) }
{
    match primary {
        Primary::Number { value, .. } => keys.push(TokenKey::Number(*value))?,
        Primary::Char { value, .. } => keys.push(TokenKey::Char(*value))?,
        Primary::Text { number, .. } => keys.push(TokenKey::Text(*number))?,
        Primary::True(_) => write_fixed(fixed::TRUE, keys)?,
        Primary::False(_) => write_fixed(fixed::FALSE, keys)?,
        Primary::Null(_) => write_fixed(fixed::NULLPTR, keys)?,
        Primary::Name(name) => write_name(*name, keys)?,
        Primary::Call { name, arguments } => {
            write_name(*name, keys)?;
            write_arguments(arguments, keys)?;
        }
        Primary::Construct { name, list } => {
            write_name(*name, keys)?;
            write_init_list(list, keys)?;
        }
        Primary::Paren { inner, .. } => {
            write_fixed(fixed::LEFT_PAREN, keys)?;
            write_expr(inner, keys)?;
            write_fixed(fixed::RIGHT_PAREN, keys)?;
        }
        Primary::Move { variable, .. } => {
            write_qualified(fixed::STD, fixed::MOVE, keys)?;
            write_fixed(fixed::LEFT_PAREN, keys)?;
            write_name(*variable, keys)?;
            write_fixed(fixed::RIGHT_PAREN, keys)?;
        }
        Primary::MakeUnique {
            element,
            arguments,
            ..
        } => {
            write_qualified(fixed::STD, fixed::MAKE_UNIQUE, keys)?;
            write_argument(element, keys)?;
            write_arguments(arguments, keys)?;
        }
        Primary::TextOf { inner, .. } => {
            write_qualified(fixed::STD, fixed::STRING, keys)?;
            write_fixed(fixed::LEFT_PAREN, keys)?;
            write_expr(inner, keys)?;
            write_fixed(fixed::RIGHT_PAREN, keys)?;
        }
        Primary::Input { .. } => {
            write_qualified(fixed::LIFE, fixed::INPUT, keys)?;
            write_fixed(fixed::LEFT_PAREN, keys)?;
            write_fixed(fixed::RIGHT_PAREN, keys)?;
        }
    }
    Ok(())
}

/// Adds the tokens of expressions with commas between.
#[cycle(exprs)]
#[tactic(auto, using(crate::proofs::SeparatedKeys::first_keys))]
fn write_separated(
    exprs: &[Expr],
    commas: &Vec<Place>,
    keys: &mut Vec<TokenKey>,
) -> Result<(), NoMemory>
    ensures { OnOk result (keys.new.items ≡ keys.old.items ++ keys_of (separated_tree commas.now.items (map expr_tree exprs.now))) }
{
    let mut started = false;
    let mut rest = commas.as_slice();
    'list: for expr in exprs {
        rest = write_comma(started, rest, keys)?;
        write_expr(expr, keys)?;
        started = true;
    }
    write_commas(rest, keys)
}

#[cycle(exprs)]
fn write_arguments(arguments: &Arguments, keys: &mut Vec<TokenKey>) -> Result<(), NoMemory>
    ensures { OnOk result (keys.new.items ≡ keys.old.items ++ keys_of (arguments_tree arguments.now)) }
{
    write_fixed(fixed::LEFT_PAREN, keys)?;
    write_separated(&arguments.list, &arguments.commas, keys)?;
    write_fixed(fixed::RIGHT_PAREN, keys)
}

/// Adds the tokens of a list in braces.
#[cycle(exprs)]
pub(crate) fn write_init_list(list: &InitList, keys: &mut Vec<TokenKey>) -> Result<(), NoMemory>
    ensures { OnOk result (keys.new.items ≡ keys.old.items ++ keys_of (init_list_tree list.now)) }
{
    write_fixed(fixed::LEFT_BRACE, keys)?;
    write_separated(&list.list, &list.commas, keys)?;
    write_fixed(fixed::RIGHT_BRACE, keys)
}
