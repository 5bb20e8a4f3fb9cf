// Facts added to a list, under a condition.
ghost use Rattle.std.specs.Prelude.{◌≡◌, ◌++◌, OnOk};
ghost use Rattle.life_rules.specs.Carrying.{facts_at, facts_if, given_if, unless};

use life_pset::{AbsPlace, Element, Fact};
use life_types::NoMemory;

/// Adds the fact, unless it is gone.
pub fn push_unless(gone: bool, fact: Fact, out: &mut Vec<Fact>) -> Result<(), NoMemory>
    ensures { OnOk result (out.new.items ≡ out.old.items ++ unless gone fact) }
{
    if !gone {
        out.push(fact)?;
    }
    Ok(())
}

/// Adds the fact, if it is given.
pub fn push_if(given: bool, fact: Fact, out: &mut Vec<Fact>) -> Result<(), NoMemory>
    ensures { OnOk result (out.new.items ≡ out.old.items ++ given_if given fact) }
{
    if given {
        out.push(fact)?;
    }
    Ok(())
}

/// Adds the element, if there is one, as that of a location.
pub fn push_at(
    location: AbsPlace,
    element: Option<Element>,
    out: &mut Vec<Fact>,
) -> Result<(), NoMemory>
    ensures { OnOk result (out.new.items ≡ out.old.items ++ facts_at location element) }
{
    match element {
        None => {}
        Some(element) => out.push(Fact { location, element })?,
    }
    Ok(())
}

/// .. if it is given.
pub fn push_at_if(
    given: bool,
    location: AbsPlace,
    element: Option<Element>,
    out: &mut Vec<Fact>,
) -> Result<(), NoMemory>
    ensures { OnOk result (out.new.items ≡ out.old.items ++ facts_if given location element) }
{
    if given {
        push_at(location, element, out)?;
    }
    Ok(())
}
