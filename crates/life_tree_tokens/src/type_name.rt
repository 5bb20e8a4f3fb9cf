// The tokens of types.
ghost use Rattle.std.specs.Prelude.{◌≡◌, ◌++◌, OnOk};
ghost use Rattle.life_tree.specs.Tree.{keys_of};
ghost use Rattle.life_tree.specs.Views.{argument_tree, base_tree, type_tree};

use crate::token::{
    write_fixed, write_iterator, write_name, write_optional, write_qualified, write_suffix,
};
use life_tree::{Base, TokenKey, TypeArgument, TypeName, fixed};
use life_types::NoMemory;

/// Adds the tokens of a type.
#[cycle(types)]
pub(crate) fn write_type(ty: &TypeName, keys: &mut Vec<TokenKey>) -> Result<(), NoMemory>
    ensures { OnOk result (keys.new.items ≡ keys.old.items ++ keys_of (type_tree ty.now)) }
{
    write_optional(fixed::CONST, &ty.constant, keys)?;
    write_base(&ty.base, keys)?;
    write_suffix(&ty.suffix, keys)
}

/// Adds the tokens of a type without `const`, `*` and `&`.
#[cycle(types)]
fn write_base(base: &Base, keys: &mut Vec<TokenKey>) -> Result<(), NoMemory>
    ensures { OnOk result (keys.new.items ≡ keys.old.items ++ keys_of (base_tree base.now)) }
{
    match base {
        Base::Bool(_) => write_fixed(fixed::BOOL, keys)?,
        Base::Char(_) => write_fixed(fixed::CHAR, keys)?,
        Base::Int(_) => write_fixed(fixed::INT, keys)?,
        Base::Long(_) => write_fixed(fixed::LONG, keys)?,
        Base::Named(name) => write_name(*name, keys)?,
        Base::SizeT(_) => write_qualified(fixed::STD, fixed::SIZE_T, keys)?,
        Base::Text(_) => write_qualified(fixed::STD, fixed::STRING, keys)?,
        Base::View(_) => write_qualified(fixed::STD, fixed::STRING_VIEW, keys)?,
        Base::Vector {
            element,
            iterator,
            ..
        } => {
            write_qualified(fixed::STD, fixed::VECTOR, keys)?;
            write_argument(element, keys)?;
            write_iterator(iterator, keys)?;
        }
        Base::UniquePtr { element, .. } => {
            write_qualified(fixed::STD, fixed::UNIQUE_PTR, keys)?;
            write_argument(element, keys)?;
        }
        Base::Span { element, .. } => {
            write_qualified(fixed::GSL, fixed::SPAN, keys)?;
            write_argument(element, keys)?;
        }
    }
    Ok(())
}

/// Adds the tokens of a type between `<` and `>`.
#[cycle(types)]
pub(crate) fn write_argument(
    argument: &TypeArgument,
    keys: &mut Vec<TokenKey>,
) -> Result<(), NoMemory>
    ensures { OnOk result (keys.new.items ≡ keys.old.items ++ keys_of (argument_tree argument.now)) }
{
    write_fixed(fixed::LESS, keys)?;
    write_type(&argument.ty, keys)?;
    write_fixed(fixed::GREATER, keys)
}
