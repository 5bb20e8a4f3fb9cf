// The tokens of declarations, assignments, steps and calls.
ghost use Rattle.std.specs.Prelude.{◌≡◌, ◌++◌, OnOk};
ghost use Rattle.life_tree.specs.Tree.{keys_of};
ghost use Rattle.life_tree.specs.Views.{declaration_tree, declared_type_tree, initial_tree, initializer_tree, simple_tree, target_tree};

use crate::expr::{write_expr, write_init_list, write_postfix};
use crate::token::{write_fixed, write_name, write_optional};
use crate::type_name::write_type;
use life_tree::{
    Declaration, DeclaredType, InitialValue, Initializer, Simple, Target, TokenKey, fixed,
};
use life_types::NoMemory;

/// Adds the tokens of a type, or of `auto`.
pub(crate) fn write_declared_type(
    ty: &DeclaredType,
    keys: &mut Vec<TokenKey>,
) -> Result<(), NoMemory>
    ensures { OnOk result (keys.new.items ≡ keys.old.items ++ keys_of (declared_type_tree ty.now)) }
{
    match ty {
        DeclaredType::Written(ty) => write_type(ty, keys),
        DeclaredType::Auto(ty) => {
            write_optional(fixed::CONST, &ty.constant, keys)?;
            write_fixed(fixed::AUTO, keys)?;
            write_optional(fixed::AMPERSAND, &ty.reference, keys)
        }
    }
}

fn write_initial(value: &InitialValue, keys: &mut Vec<TokenKey>) -> Result<(), NoMemory>
    ensures { OnOk result (keys.new.items ≡ keys.old.items ++ keys_of (initial_tree value.now)) }
{
    match value {
        InitialValue::Expr(value) => write_expr(value, keys),
        InitialValue::List(list) => write_init_list(list, keys),
    }
}

fn write_initializer(
    initializer: &Option<Initializer>,
    keys: &mut Vec<TokenKey>,
) -> Result<(), NoMemory>
    ensures { OnOk result (keys.new.items ≡ keys.old.items ++ keys_of (initializer_tree initializer.now)) }
{
    match initializer {
        Some(Initializer::Equals { value, .. }) => {
            write_fixed(fixed::ASSIGN, keys)?;
            write_initial(value, keys)
        }
        Some(Initializer::List(list)) => write_init_list(list, keys),
        None => Ok(()),
    }
}

/// Adds the tokens of a declaration.
pub(crate) fn write_declaration(
    declaration: &Declaration,
    keys: &mut Vec<TokenKey>,
) -> Result<(), NoMemory>
    ensures { OnOk result (keys.new.items ≡ keys.old.items ++ keys_of (declaration_tree declaration.now)) }
{
    write_declared_type(&declaration.ty, keys)?;
    write_name(declaration.name, keys)?;
    write_initializer(&declaration.initializer, keys)
}

fn write_target(target: &Target, keys: &mut Vec<TokenKey>) -> Result<(), NoMemory>
    ensures { OnOk result (keys.new.items ≡ keys.old.items ++ keys_of (target_tree target.now)) }
{
    match target {
        Target::Dereference { operand, .. } => {
            write_fixed(fixed::STAR, keys)?;
            write_target(operand, keys)
        }
        Target::Plain(postfix) => write_postfix(postfix, keys),
    }
}

/// Adds the tokens of an assignment, a step or a call.
pub(crate) fn write_simple(simple: &Simple, keys: &mut Vec<TokenKey>) -> Result<(), NoMemory>
    ensures { OnOk result (keys.new.items ≡ keys.old.items ++ keys_of (simple_tree simple.now)) }
{
    match simple {
        Simple::Assign { target, value, .. } => {
            write_target(target, keys)?;
            write_fixed(fixed::ASSIGN, keys)?;
            write_initial(value, keys)
        }
        Simple::Compound {
            target,
            operator,
            value,
            ..
        } => {
            write_target(target, keys)?;
            write_fixed(operator.number(), keys)?;
            write_expr(value, keys)
        }
        Simple::PrefixStep {
            operator,
            target,
            ..
        } => {
            write_fixed(operator.number(), keys)?;
            write_target(target, keys)
        }
        Simple::PostfixStep {
            target,
            operator,
            ..
        } => {
            write_postfix(target, keys)?;
            write_fixed(operator.number(), keys)
        }
        Simple::Call(call) => write_postfix(call, keys),
    }
}
