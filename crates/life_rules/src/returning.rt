// What is wrong with a result.
ghost use Rattle.std.specs.Prelude.{◌≡◌, ◌++◌, IfOk, OnOk};
ghost use Rattle.life_core.specs.Function.{function_of};
ghost use Rattle.life_contract.specs.Signatures.{signature_of};
ghost use Rattle.life_rules.specs.Returning.{dangling_result, is_wide, return_diags, widened_as, widened_result};

use crate::context::PointContext;
use crate::diag::{Diag, DiagKind, Why};
use crate::matching::is_rooted;
use crate::telling::push_told;
use crate::texts::is_result;
use life_contract::{Callee, admits_static, lists_null, promised_places, result_type};
use life_pset::{Element, Fact};
use life_types::{NoMemory, Ty, is_pointer, is_raw};
use std::alloc::Global;

/// Adds what is wrong with a result that may be as the fact says: it is invalid, or a pointer that its
/// function doesn't promise.
pub fn push_return_diags(
    at: &PointContext<'_>,
    fact: &Fact,
    out: &mut Vec<Diag>,
) -> Result<(), NoMemory>
    ensures { OnOk result
        (out.new.items
        ≡ out.old.items ++ return_diags at.now.types.now at.now.function (function_of at.now.f.now) at.now.spot.place fact.now) }
{
    let f = at.f;
    if is_result(f, at.types, f.parameters) && is_rooted(f.parameters, &fact.location) {
        push_result_diags(at, fact, out)?;
    }
    Ok(())
}

#[tactic(auto, using(std::proofs::Common::append_assoc))]
fn push_result_diags(
    at: &PointContext<'_>,
    fact: &Fact,
    out: &mut Vec<Diag>,
) -> Result<(), NoMemory>
    ensures { OnOk result
        (out.new.items
        ≡ out.old.items ++ (dangling_result at.now.function at.now.spot.place fact.now.location fact.now.element ++ widened_result at.now.types.now (signature_of (function_of at.now.f.now)) at.now.function at.now.spot.place fact.now.location fact.now.element)) }
{
    push_dangling_result(at, fact, out)?;
    push_widened_result(at, fact, out)
}

fn push_dangling_result(
    at: &PointContext<'_>,
    fact: &Fact,
    out: &mut Vec<Diag>,
) -> Result<(), NoMemory>
    ensures { OnOk result
        (out.new.items
        ≡ out.old.items ++ dangling_result at.now.function at.now.spot.place fact.now.location fact.now.element) }
{
    match fact.element {
        Element::Invalid(cause) => push_told(
            at.function,
            at.spot.place,
            DiagKind::ReturnDangling,
            fact.location,
            Why::Cause(cause),
            out,
        )?,
        _ => {}
    }
    Ok(())
}

fn push_widened_result(
    at: &PointContext<'_>,
    fact: &Fact,
    out: &mut Vec<Diag>,
) -> Result<(), NoMemory>
    ensures { OnOk result
        (out.new.items
        ≡ out.old.items ++ widened_result at.now.types.now (signature_of (function_of at.now.f.now)) at.now.function at.now.spot.place fact.now.location fact.now.element) }
{
    let own = at.own;
    let ty = result_type(own.sig, own.types, &fact.location);
    push_widened_as(at, ty, fact, out)
}

fn push_widened_as(
    at: &PointContext<'_>,
    ty: Ty,
    fact: &Fact,
    out: &mut Vec<Diag>,
) -> Result<(), NoMemory>
    ensures { OnOk result
        (out.new.items
        ≡ out.old.items ++ widened_as at.now.own.now.types.now at.now.own.now.sig.now at.now.function at.now.spot.place fact.now.location ty fact.now.element) }
{
    if is_pointer(ty) && is_wide(at.alloc, at.own, ty, fact.element)? {
        push_told(
            at.function,
            at.spot.place,
            DiagKind::ReturnWidens,
            fact.location,
            Why::Points(fact.element),
            out,
        )?;
    }
    Ok(())
}

// Whether a pointer of this type may not be this by the promise.
fn is_wide(alloc: Global, own: &Callee<'_>, ty: Ty, element: Element) -> Result<bool, NoMemory>
    ensures { IfOk result (λ wide. wide ≡ is_wide own.now.types.now own.now.sig.now ty element) }
{
    match element {
        Element::Null => Ok(is_raw(ty) && !lists_null(own.sig)),
        Element::Static => Ok(!admits_static(alloc, own, ty)?),
        Element::At(place) => {
            let promised = promised_places(alloc, own, ty)?;
            Ok(!promised.contains(&place))
        }
        _ => Ok(false),
    }
}
