// Single tokens, added to a list.
ghost use Rattle.std.specs.Prelude.{◌≡◌, ◌++◌, ◌∷◌, [], IfOk, OnOk};
ghost use Rattle.life_tree.specs.Separated.{comma_keys, commas_behind, separator};
ghost use Rattle.life_tree.specs.Tree.{keys_of};
ghost use Rattle.life_tree.specs.Views.{iterator_tree, name_tree, optional_tree, at, suffix_tree};
ghost use Rattle.life_tree.specs.declared.fixed.TheConstants.{SCOPE};
ghost use Rattle.life_tree.specs.declared.key.TokenKey.TheVariants.{Fixed};

use life_tree::{Identifier, IteratorKind, IteratorName, Suffix, TokenKey, fixed};
use life_types::{NoMemory, Place};

/// Adds the token that a rule quotes.
pub(crate) fn write_fixed(number: u16, keys: &mut Vec<TokenKey>) -> Result<(), NoMemory>
    ensures { OnOk result (keys.new.items ≡ keys.old.items ++ Fixed number ∷ []) }
{
    keys.push(TokenKey::Fixed(number))?;
    Ok(())
}

/// Adds the token that a rule quotes, where it stands.
pub(crate) fn write_optional(
    number: u16,
    place: &Option<Place>,
    keys: &mut Vec<TokenKey>,
) -> Result<(), NoMemory>
    ensures { OnOk result (keys.new.items ≡ keys.old.items ++ keys_of (optional_tree (at number) place.now)) }
{
    match place {
        Some(_) => write_fixed(number, keys),
        None => Ok(()),
    }
}

/// Adds a word of a namespace.
pub(crate) fn write_qualified(
    namespace: u16,
    word: u16,
    keys: &mut Vec<TokenKey>,
) -> Result<(), NoMemory>
    ensures { OnOk result (keys.new.items ≡ keys.old.items ++ Fixed namespace ∷ Fixed SCOPE ∷ Fixed word ∷ []) }
{
    write_fixed(namespace, keys)?;
    write_fixed(fixed::SCOPE, keys)?;
    write_fixed(word, keys)
}

/// Adds a name.
pub(crate) fn write_name(name: Identifier, keys: &mut Vec<TokenKey>) -> Result<(), NoMemory>
    ensures { OnOk result (keys.new.items ≡ keys.old.items ++ keys_of (name_tree name)) }
{
    keys.push(TokenKey::Name(name.id))?;
    Ok(())
}

/// Adds the next of these commas, but none before the first part, and gives those behind it.
pub(crate) fn write_comma<'a>(
    started: bool,
    commas: &'a [Place],
    keys: &mut Vec<TokenKey>,
) -> Result<&'a [Place], NoMemory>
    ensures written { OnOk result (keys.new.items ≡ keys.old.items ++ separator started commas.now) }
    ensures rest { IfOk result (λ rest. rest.now ≡ commas_behind started commas.now) }
{
    if !started {
        return Ok(commas);
    }
    match commas {
        [_, rest @ ..] => {
            write_fixed(fixed::COMMA, keys)?;
            Ok(rest)
        }
        [] => Ok(commas),
    }
}

/// Adds as many commas.
pub(crate) fn write_commas(commas: &[Place], keys: &mut Vec<TokenKey>) -> Result<(), NoMemory>
    ensures { OnOk result (keys.new.items ≡ keys.old.items ++ comma_keys commas.now) }
{
    'commas: for _comma in commas {
        write_fixed(fixed::COMMA, keys)?;
    }
    Ok(())
}

/// Adds `*` or `&`, where it stands.
pub(crate) fn write_suffix(
    suffix: &Option<Suffix>,
    keys: &mut Vec<TokenKey>,
) -> Result<(), NoMemory>
    ensures { OnOk result (keys.new.items ≡ keys.old.items ++ keys_of (optional_tree suffix_tree suffix.now)) }
{
    match suffix {
        Some(Suffix::Pointer(_)) => write_fixed(fixed::STAR, keys),
        Some(Suffix::Reference(_)) => write_fixed(fixed::AMPERSAND, keys),
        None => Ok(()),
    }
}

/// Adds the name of an iterator, where it stands.
pub(crate) fn write_iterator(
    iterator: &Option<IteratorName>,
    keys: &mut Vec<TokenKey>,
) -> Result<(), NoMemory>
    ensures { OnOk result (keys.new.items ≡ keys.old.items ++ keys_of (optional_tree iterator_tree iterator.now)) }
{
    let Some(iterator) = iterator else {
        return Ok(());
    };
    write_fixed(fixed::SCOPE, keys)?;
    match iterator.kind {
        IteratorKind::Mutable => write_fixed(fixed::ITERATOR, keys),
        IteratorKind::Constant => write_fixed(fixed::CONST_ITERATOR, keys),
    }
}
