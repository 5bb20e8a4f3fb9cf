// Registers, and what is written to them.
ghost use Rattle.std.specs.Prelude.{◌≡◌, OnOk};
ghost use Rattle.life_core.specs.Operands.{operand_of};
ghost use Rattle.life_core.specs.Step.{Eval};
ghost use Rattle.life_writer.specs.Answers.{Answers};
ghost use Rattle.life_writer.specs.Registers as spec;
ghost use Rattle.life_writer.specs.Views.{state_of};
ghost use Rattle.life_writer.specs.Writing.{gives};

use crate::numbers::number;
use crate::types::add_type;
use crate::writer::Writer;
use life_core::{Instr, Local, LocalKind, Operand, Operation};
use life_types::{NoMemory, Place, Ty, TyId};

impl Writer {
    /// The next local is this one. Locals that 32 bits can't number count as want of memory.
    #[tactic(auto, unfolding(crate::specs::Views::state_of))]
    pub fn add_local(&mut self, local: Local) -> Result<u32, NoMemory>
        ensures { Answers (λ x. x) result (spec.with_local local (state_of self.old)) (state_of self.new) }
    {
        let number = number(self.locals.len())?;
        self.locals.push(local)?;
        Ok(number)
    }

    /// The number of a type, which the table gains if it is new.
    #[tactic(auto, unfolding(crate::specs::Views::state_of))]
    pub fn type_number(&mut self, ty: Ty) -> Result<TyId, NoMemory>
        ensures state { OnOk result (state_of self.new ≡ spec.typed_with ty (state_of self.old)) }
        ensures number { Answers (λ x. x) result (gives (spec.type_number ty (spec.typed_with ty (state_of self.old))) (spec.typed_with ty (state_of self.old))) (state_of self.new) }
    {
        add_type(&mut self.types, ty)
    }

    /// A new register, where the first point that writes it stands here.
    pub fn new_register(&mut self, place: Place, ty: Ty) -> Result<u32, NoMemory>
        ensures { Answers (λ x. x) result (spec.new_register place ty (state_of self.old)) (state_of self.new) }
    {
        let ty = self.type_number(ty)?;
        self.add_local(nameless(place, ty))
    }

    /// The register that a value goes to: the one that is wanted, or a new one, which the point that
    /// stands here writes first.
    pub(crate) fn target(
        &mut self,
        place: Place,
        into: Option<u32>,
        ty: Ty,
    ) -> Result<u32, NoMemory>
        ensures { Answers (λ x. x) result (spec.target place into ty (state_of self.old)) (state_of self.new) }
    {
        match into {
            Some(register) => Ok(register),
            None => self.new_register(place, ty),
        }
    }

    /// A register that is given a value.
    pub fn eval(
        &mut self,
        into: Option<u32>,
        ty: Ty,
        place: Place,
        operation: Operation,
    ) -> Result<u32, NoMemory>
        ensures { Answers (λ x. x) result (spec.computed into ty place (λ r. Eval r operation) (state_of self.old)) (state_of self.new) }
    {
        let into = self.target(place, into, ty)?;
        self.emit(place, Instr::Eval { into, operation })?;
        Ok(into)
    }

    /// A register into which a place is read.
    pub fn load(
        &mut self,
        into: Option<u32>,
        ty: Ty,
        place: Place,
        from: Operand,
    ) -> Result<u32, NoMemory>
        ensures { Answers (λ x. x) result (spec.computed into ty place (spec.load (operand_of from)) (state_of self.old)) (state_of self.new) }
    {
        let into = self.target(place, into, ty)?;
        self.emit(place, Instr::Load { into, from })?;
        Ok(into)
    }

    /// A register's value as one of another type (ISO/IEC 14882:2017 [conv.integral], [conv.bool]).
    pub fn converted(
        &mut self,
        from: Ty,
        to: Ty,
        place: Place,
        register: u32,
    ) -> Result<u32, NoMemory>
        ensures { Answers (λ x. x) result (spec.converted from to place register (state_of self.old)) (state_of self.new) }
    {
        if from == to {
            Ok(register)
        } else {
            self.eval(None, to, place, Operation::Convert(register))
        }
    }
}

/// A local without a name.
pub(crate) fn nameless(place: Place, ty: TyId) -> Local
    ensures { result ≡ spec.nameless place ty }
{
    Local {
        name: None,
        ty,
        kind: LocalKind::Register,
        place,
        nonnull: false,
        keeps: false,
    }
}
