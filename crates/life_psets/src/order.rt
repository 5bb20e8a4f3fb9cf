// The texts of elements in the order in which the table has them.
ghost use Rattle.std.specs.List.{prefix_len};
ghost use Rattle.std.specs.Prelude.{◌≡◌, [], insert, map, IfOk, OnOk};
ghost use Rattle.life_core.specs.Function.{function_of};
ghost use Rattle.life_rules.specs.Texts.{naming_of};
ghost use Rattle.life_psets.specs.SetTexts.{is_earlier, kind_number, ordered, place_for, shown_seen, stands_before, text_of};

use life_contract::Signatures;
use life_core::{CoreFn, Names};
use life_pset::Element;
use life_rules::element_text;
use life_types::{NoMemory, TypeTable};
use std::alloc::Global;

/// The text of an element, with the number of its kind.
#[derive(Drop)]
pub(crate) struct ElementText {
    pub(crate) kind: u8,
    pub(crate) text: Vec<u8>,
}

/// The texts of elements: by their kinds, and by their bytes within one kind.
pub(crate) fn ordered_texts(
    alloc: Global,
    names: &Names,
    f: &CoreFn,
    sigs: &Signatures,
    types: &TypeTable,
    elements: &[Element],
) -> Result<Vec<ElementText>, NoMemory>
    ensures { IfOk result (λ texts. map shown_seen texts.items
        ≡ ordered [] (map (text_of (naming_of names.now sigs.now) types.now (function_of f.now)) elements.now)) }
{
    let mut texts = Vec::with_capacity(alloc, elements.len())?;
    for element in elements {
        let text = shown_text(alloc, names, f, sigs, types, element)?;
        put_in_order(text, &mut texts)?;
    }
    Ok(texts)
}

fn shown_text(
    alloc: Global,
    names: &Names,
    f: &CoreFn,
    sigs: &Signatures,
    types: &TypeTable,
    element: &Element,
) -> Result<ElementText, NoMemory>
    ensures { IfOk result (λ text. shown_seen text
        ≡ text_of (naming_of names.now sigs.now) types.now (function_of f.now) element.now) }
{
    let text = element_text(alloc, names, f, sigs, types, element)?;
    Ok(ElementText {
        kind: kind_number(element),
        text,
    })
}

fn kind_number(element: &Element) -> u8
    ensures { result ≡ kind_number element.now }
{
    match element {
        Element::Null => 0,
        Element::Invalid(_) => 1,
        Element::Moved(_) => 2,
        Element::Own => 3,
        Element::Static => 4,
        Element::At(_) => 5,
    }
}

fn put_in_order(text: ElementText, texts: &mut Vec<ElementText>) -> Result<(), NoMemory>
    ensures { OnOk result (map shown_seen texts.new.items
        ≡ insert (map shown_seen texts.old.items) (place_for (shown_seen text) (map shown_seen texts.old.items)) (shown_seen text)) }
{
    let index = place_for(&text, texts);
    texts.insert(index, text)?;
    Ok(())
}

fn place_for(text: &ElementText, texts: &[ElementText]) -> usize
    ensures { result ≡ prefix_len (is_earlier (shown_seen text.now)) texts.now }
{
    for (index, other) in texts.iter().enumerate() {
        if !stands_before(other, text) {
            return index;
        }
    }
    texts.len()
}

fn stands_before(first: &ElementText, second: &ElementText) -> bool
    ensures { result ≡ stands_before (shown_seen first.now) (shown_seen second.now) }
{
    let by_kind = first.kind.cmp(&second.kind);
    let by_text = first.text.as_slice().cmp(second.text.as_slice());
    by_kind.then(by_text).is_lt()
}
