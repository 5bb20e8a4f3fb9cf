// Signatures.
ghost use Rattle.std.specs.Option.{option_copied};
ghost use Rattle.std.specs.Prelude.{◌≡◌, ◌<◌, ◌^◌, length, map, slice_get, take, IfOk};
ghost use Rattle.life_core.specs.Function.{function_of, program_of, promise_of};
ghost use Rattle.life_contract.specs.Signatures.{parameter_of, signature_of, signatures_of};

use crate::param::Param;
use life_core::{CoreFn, CoreProgram, FnId, Local, Promise};
use life_types::{NameId, NoMemory, Place, TyId};
use std::alloc::Global;
use std::marker::Model;

/// What a function's head says: all that its callers know of it.
#[derive(Debug, Drop)]
pub struct Signature {
    pub name: NameId,
    /// Where its name stands.
    pub place: Place,
    pub parameters: Vec<Param>,
    pub result: TyId,
    /// What its result may be.
    pub promise: Promise,
}

impl Model for Signature {
    ghost use Rattle.std.specs.Prelude.{◌<◌, ◌^◌, length};
    ghost use Rattle.life_core.specs.Function.{promise_of};
    ghost use Rattle.life_contract.specs.Signatures.{Signature};

    ghost Value = { Signature };

    ghost view = { λ s. record {
      name = s.name;
      place = s.place;
      parameters = s.parameters.items;
      result = s.result;
      promise = promise_of s.promise;
    } };

    ghost invariant = { λ s. length s.parameters.items < 2 ^ 32 };
}

/// The signatures of a program's functions, in their order.
#[derive(Drop)]
pub struct Signatures {
    list: Vec<Signature>,
}

impl Model for Signatures {
    ghost use Rattle.std.specs.Prelude.{List};
    ghost use Rattle.life_contract.specs.Signatures.{Signature};

    ghost Value = { List Signature };

    ghost view = { λ s. s.list.items };
}

impl Signatures {
    /// The signature of each function of a program. The only error is the want of memory.
    pub fn of(alloc: Global, p: &CoreProgram) -> Result<Signatures, NoMemory>
        ensures { IfOk result (λ all. all ≡ signatures_of (program_of p.now).functions) }
    {
        let list = all_of(alloc, &p.functions)?;
        Ok(Signatures { list })
    }

    /// The signature of a function: None exactly where the program has no such function. It takes no
    /// memory.
    pub fn get(&self, f: FnId) -> Option<&Signature>
        ensures { option_copied result ≡ slice_get self.now f.0 }
    {
        self.list.get(f.0 as usize)
    }
}

fn all_of(alloc: Global, functions: &[CoreFn]) -> Result<Vec<Signature>, NoMemory>
    ensures { IfOk result (λ all. all.items ≡ signatures_of (map function_of functions.now)) }
{
    let mut all = Vec::new(alloc);
    for f in functions {
        all.push(signature_of(alloc, f)?)?;
    }
    Ok(all)
}

/// The signature of a function. The only error is the want of memory.
pub fn signature_of(alloc: Global, f: &CoreFn) -> Result<Signature, NoMemory>
    ensures { IfOk result (λ s. s ≡ signature_of (function_of f.now)) }
{
    let parameters = parameters_of(alloc, first_of(&f.locals, f.parameters as usize))?;
    let promise = copied_promise(&f.promise)?;
    Ok(Signature {
        name: f.name,
        place: f.place,
        parameters,
        result: f.result,
        promise,
    })
}

// The first so many locals, or all where there are fewer.
fn first_of(locals: &[Local], count: usize) -> &[Local]
    ensures { result.now ≡ take count locals.now }
{
    if count <= locals.len() {
        &locals[..count]
    } else {
        locals
    }
}

fn parameters_of(alloc: Global, locals: &[Local]) -> Result<Vec<Param>, NoMemory>
    ensures { IfOk result (λ all. all.items ≡ map parameter_of locals.now) }
{
    let mut all = Vec::new(alloc);
    for local in locals {
        all.push(parameter_of(local))?;
    }
    Ok(all)
}

fn parameter_of(local: &Local) -> Param
    ensures { result ≡ parameter_of local.now }
{
    Param {
        name: local.name,
        ty: local.ty,
        nonnull: local.nonnull,
        keeps: local.keeps,
    }
}

fn copied_promise(promise: &Promise) -> Result<Promise, NoMemory>
    ensures { IfOk result (λ copy. promise_of copy ≡ promise_of promise.now) }
{
    match promise {
        Promise::Default => Ok(Promise::Default),
        Promise::Listed {
            inputs,
            fixed,
            null,
        } => {
            let inputs = inputs.clone()?;
            Ok(Promise::Listed {
                inputs,
                fixed: *fixed,
                null: *null,
            })
        }
    }
}
