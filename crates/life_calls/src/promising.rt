// What a result may be.
ghost use Rattle.std.specs.List.{flat_map};
ghost use Rattle.std.specs.Prelude.{◌≡◌, ◌++◌, map, IfOk, OnOk};
ghost use Rattle.life_contract.specs.Promises.{post_of, promised_elements, promised_facts};
ghost use Rattle.life_pset.specs.declared.element.Element.TheVariants as element;
ghost use Rattle.life_calls.specs.Facts.{fact_of, found_at};

use life_contract::{
    Callee, Signature, fixed_elements, promised_places, result_locations, result_type,
};
use life_pset::{AbsPlace, Element};
use life_types::{NoMemory, Ty, TypeTable};
use std::alloc::Global;

/// What a function with this signature promises of each location of its result, as those of the local behind the parameters.
/// The only error is the want of memory.
pub fn post_of(
    alloc: Global,
    sig: &Signature,
    types: &TypeTable,
) -> Result<Vec<(AbsPlace, Element)>, NoMemory>
    ensures { IfOk result (λ all. map fact_of all.items ≡ post_of types.now sig.now) }
{
    let callee = Callee::of(alloc, sig, types)?;
    let locations = result_locations(alloc, sig, types)?;
    let mut all = Vec::new(alloc);
    push_promised_at_all(alloc, &callee, &locations, &mut all)?;
    Ok(all)
}

fn push_promised_at_all(
    alloc: Global,
    callee: &Callee<'_>,
    locations: &[AbsPlace],
    out: &mut Vec<(AbsPlace, Element)>,
) -> Result<(), NoMemory>
    ensures { OnOk result
        (map fact_of out.new.items
        ≡ map fact_of out.old.items ++ flat_map (promised_facts callee.now.types.now callee.now.sig.now) locations.now) }
{
    for location in locations {
        push_promised_at(alloc, callee, location, out)?;
    }
    Ok(())
}

fn push_promised_at(
    alloc: Global,
    callee: &Callee<'_>,
    location: &AbsPlace,
    out: &mut Vec<(AbsPlace, Element)>,
) -> Result<(), NoMemory>
    ensures { OnOk result
        (map fact_of out.new.items
        ≡ map fact_of out.old.items ++ promised_facts callee.now.types.now callee.now.sig.now location.now) }
{
    let ty = result_type(callee.sig, callee.types, location);
    let elements = promised_elements(alloc, callee, ty)?;
    push_elements(*location, &elements, out)
}

// What a location of this type may hold.
fn promised_elements(alloc: Global, callee: &Callee<'_>, ty: Ty) -> Result<Vec<Element>, NoMemory>
    ensures { IfOk result (λ all. all.items ≡ promised_elements callee.now.types.now callee.now.sig.now ty) }
{
    let mut all = fixed_elements(alloc, callee, ty)?;
    let places = promised_places(alloc, callee, ty)?;
    push_places(&places, &mut all)?;
    Ok(all)
}

fn push_places(places: &[AbsPlace], out: &mut Vec<Element>) -> Result<(), NoMemory>
    ensures { OnOk result (out.new.items ≡ out.old.items ++ map element.At places.now) }
{
    for place in places {
        out.push(Element::At(*place))?;
    }
    Ok(())
}

fn push_elements(
    location: AbsPlace,
    elements: &[Element],
    out: &mut Vec<(AbsPlace, Element)>,
) -> Result<(), NoMemory>
    ensures { OnOk result
        (map fact_of out.new.items ≡ map fact_of out.old.items ++ map (found_at location) elements.now) }
{
    for element in elements {
        out.push((location, *element))?;
    }
    Ok(())
}
