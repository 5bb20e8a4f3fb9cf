// A function that is called.
ghost use Rattle.std.specs.Prelude.{◌≡◌, map, IfOk};
ghost use Rattle.life_core.specs.Operands.{argument_of};
ghost use Rattle.life_pset.specs.Inputs.{input_seen};
ghost use Rattle.life_contract.specs.Arguments.{is_mutating_argument};
ghost use Rattle.life_contract.specs.Inputs.{inputs_of_signature};

use crate::arguments::is_argument_of_some;
use crate::inputs::inputs_of;
use crate::signature::Signature;
use life_core::Argument;
use life_pset::{AbsPlace, InputPointer};
use life_types::{NoMemory, TypeTable};
use std::alloc::Global;

/// A function that is called: its signature, the program's types, and the pointers that a caller hands
/// over, which are made once.
#[derive(Drop)]
pub struct Callee<'a> {
    pub sig: &'a Signature,
    pub types: &'a TypeTable,
    inputs: Vec<InputPointer>,
    ghost made: { map input_seen inputs.items ≡ inputs_of_signature types.now sig.now },
}

impl<'a> Callee<'a> {
    /// The function with this signature. The only error is the want of memory.
    pub fn of(
        alloc: Global,
        sig: &'a Signature,
        types: &'a TypeTable,
    ) -> Result<Callee<'a>, NoMemory>
        ensures sig { IfOk result (λ callee. callee.sig.now ≡ sig.now) }
        ensures types { IfOk result (λ callee. callee.types.now ≡ types.now) }
    {
        let inputs = inputs_of(alloc, sig, types)?;
        Ok(Callee { sig, types, inputs })
    }

    /// The pointers that a caller hands over, in the order of the parameters and then of their members,
    /// depth first.
    pub fn inputs(&self) -> &[InputPointer]
        ensures { map input_seen result.now ≡ inputs_of_signature self.now.types.now self.now.sig.now }
    {
        &self.inputs
    }

    /// Whether the location is the argument that is given for some mutating input. It takes no memory.
    pub fn is_mutating_argument(&self, arguments: &[Argument], location: &AbsPlace) -> bool
        ensures { result ≡ is_mutating_argument self.now.types.now self.now.sig.now (map argument_of arguments.now) location.now }
    {
        is_argument_of_some(self.sig, self.types, arguments, location, &self.inputs)
    }
}
