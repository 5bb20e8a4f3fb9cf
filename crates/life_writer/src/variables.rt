// Parameters and variables: their locals, and where they end.
ghost use Rattle.std.specs.Prelude.{◌≡◌, IfOk, OnOk, drop, length, reverse, slice_get};
ghost use Rattle.life_core.specs.Operands.{operand_of};
ghost use Rattle.life_writer.specs.Answers.{Answers};
ghost use Rattle.life_writer.specs.Variables as spec;
ghost use Rattle.life_writer.specs.Views.{around_of, state_of};

use crate::around::Around;
use crate::writer::Writer;
use life_core::{Instr, Local, LocalKind, Operand};
use life_typed::TypedLocal;
use life_types::{Class, NoMemory, Place, class_of};
use std::alloc::Global;

/// The local of a variable: a pointer is a register, and anything else an object.
pub fn variable_local(a: &Around, variable: &TypedLocal) -> Local
    ensures { result ≡ spec.variable_local (around_of a.now) variable.now }
{
    Local {
        name: Some(variable.name),
        ty: variable.ty,
        kind: kind(class_of(&a.program.types, variable.ty)),
        place: variable.place,
        nonnull: false,
        keeps: false,
    }
}

fn kind(class: Class) -> LocalKind
    ensures { result ≡ spec.kind class }
{
    match class {
        Class::Pointer => LocalKind::Register,
        Class::Value => LocalKind::Object,
        Class::Owner => LocalKind::Object,
        Class::Aggregate => LocalKind::Object,
    }
}

// The object that a local of a kind is.
fn object_of_kind(kind: LocalKind, local: u32) -> Option<u32>
    ensures { result ≡ spec.object_of_kind kind local }
{
    match kind {
        LocalKind::Object => Some(local),
        LocalKind::Register => None,
        LocalKind::Range => None,
    }
}

// The last first.
fn reversed(alloc: Global, locals: &[u32]) -> Result<Vec<u32>, NoMemory>
    ensures { IfOk result (λ reversed. reversed.items ≡ reverse locals.now) }
{
    let reversed = locals.iter().rev().copied().collect(alloc)?;
    Ok(reversed)
}

impl Writer {
    /// The next local is a parameter's or a variable's, which lives from here on.
    #[tactic(auto, unfolding(crate::specs::Views::state_of))]
    pub fn add_variable(&mut self, local: Local) -> Result<u32, NoMemory>
        ensures { Answers (λ x. x) result (spec.with_variable local (state_of self.old)) (state_of self.new) }
    {
        let number = self.add_local(local)?;
        self.variables.push(number)?;
        self.living.push(number)?;
        Ok(number)
    }

    /// The local of the parameter or variable with this number.
    #[tactic(auto, unfolding(crate::specs::Views::state_of))]
    pub(crate) fn variable(&self, number: u32) -> u32
        ensures { result ≡ spec.variable (state_of self.now) number }
    {
        match self.variables.get(number as usize) {
            Some(local) => *local,
            None => 0,
        }
    }

    // What kind of local this is, if there is one with this number.
    #[tactic(auto, unfolding(crate::specs::Views::state_of))]
    fn place_of(&self, local: u32) -> Operand
        ensures { operand_of result ≡ spec.place_of (slice_get (state_of self.now).locals local) local }
    {
        match self.locals.get(local as usize) {
            Some(found) => self.place_of_kind(found.kind, local),
            None => Operand::name(self.alloc, local),
        }
    }

    // An object is a place itself, and a reference stands for what it refers to.
    fn place_of_kind(&self, kind: LocalKind, local: u32) -> Operand
        ensures { operand_of result ≡ spec.place_of_kind kind local }
    {
        match kind {
            LocalKind::Object => Operand::name(self.alloc, local),
            LocalKind::Register => Operand::through(self.alloc, local),
            LocalKind::Range => Operand::through(self.alloc, local),
        }
    }

    /// The place that a variable is.
    pub(crate) fn variable_place(&self, number: u32) -> Operand
        ensures { operand_of result ≡ spec.variable_place (state_of self.now) number }
    {
        self.place_of(self.variable(number))
    }

    /// The local of a variable, where it is an object and doesn't refer to one.
    #[tactic(auto, unfolding(crate::specs::Views::state_of))]
    pub fn object_of(&self, number: u32) -> Option<u32>
        ensures { result ≡ spec.object_at (slice_get (state_of self.now).locals (spec.variable (state_of self.now) number)) (spec.variable (state_of self.now) number) }
    {
        let local = self.variable(number);
        match self.locals.get(local as usize) {
            Some(found) => object_of_kind(found.kind, local),
            None => None,
        }
    }

    /// How many parameters and variables live.
    #[tactic(auto, unfolding(crate::specs::Views::state_of))]
    pub fn living_count(&self) -> usize
        ensures { result ≡ length (state_of self.now).living }
    {
        self.living.len()
    }

    /// How many of them stay where the innermost loop is left.
    #[tactic(auto, unfolding(crate::specs::Views::state_of))]
    pub fn stays(&self) -> usize
        ensures { result ≡ (state_of self.now).outside }
    {
        self.outside
    }

    /// Begins a loop, which is left with what is declared in it, and says how many stay where the
    /// one around it is left.
    #[tactic(auto, unfolding(crate::specs::Views::state_of))]
    pub fn begin_loop(&mut self) -> usize
        ensures around { result ≡ (state_of self.old).outside }
        ensures state { state_of self.new ≡ spec.with_outside (length (state_of self.old).living) (state_of self.old) }
    {
        let around = self.outside;
        self.outside = self.living.len();
        around
    }

    /// Ends a loop, and goes on in the one around it.
    #[tactic(auto, unfolding(crate::specs::Views::state_of))]
    pub fn end_loop(&mut self, around: usize)
        ensures { state_of self.new ≡ spec.with_outside around (state_of self.old) }
    {
        self.outside = around;
    }

    // The variables past so many.
    #[tactic(auto, unfolding(crate::specs::Views::state_of))]
    fn past(&self, outside: usize) -> &[u32]
        ensures { result.now ≡ drop outside (state_of self.now).living }
    {
        match self.living.get(outside..) {
            Some(locals) => locals,
            None => &[],
        }
    }

    // Ends these, if there are any.
    fn end(&mut self, locals: Vec<u32>, place: Place) -> Result<(), NoMemory>
        ensures { OnOk result (state_of self.new ≡ spec.end locals.items place (state_of self.old)) }
    {
        if locals.is_empty() {
            return Ok(());
        }
        self.emit(place, Instr::End { locals })
    }

    /// All that have been declared past so many end, the last first
    /// (ISO/IEC 14882:2017 [stmt.jump]/2).
    pub fn end_past(&mut self, outside: usize, place: Place) -> Result<(), NoMemory>
        ensures { OnOk result (state_of self.new ≡ spec.end_past outside place (state_of self.old)) }
    {
        if self.living.len() <= outside {
            return Ok(());
        }
        let locals = reversed(self.alloc, self.past(outside))?;
        self.end(locals, place)
    }

    /// How many temporaries are pending.
    #[tactic(auto, unfolding(crate::specs::Views::state_of))]
    pub fn pending_count(&self) -> usize
        ensures { result ≡ length (state_of self.now).pending }
    {
        self.pending.len()
    }

    // The temporaries past so many.
    #[tactic(auto, unfolding(crate::specs::Views::state_of))]
    fn pending_past(&self, before: usize) -> &[u32]
        ensures { result.now ≡ drop before (state_of self.now).pending }
    {
        match self.pending.get(before..) {
            Some(locals) => locals,
            None => &[],
        }
    }

    /// The temporaries that were made past so many end, the last first
    /// ([class.temporary]/4).
    #[tactic(auto, unfolding(crate::specs::Views::state_of))]
    pub fn end_pending(&mut self, before: usize, place: Place) -> Result<(), NoMemory>
        ensures { OnOk result (state_of self.new ≡ spec.end_pending before place (state_of self.old)) }
    {
        if self.pending.len() <= before {
            return Ok(());
        }
        let locals = reversed(self.alloc, self.pending_past(before))?;
        self.end(locals, place)?;
        self.pending.truncate(before);
        Ok(())
    }

    /// What was declared past so many ends and is left.
    #[tactic(auto, unfolding(crate::specs::Views::state_of))]
    pub fn end_since(&mut self, outside: usize, place: Place) -> Result<(), NoMemory>
        ensures { OnOk result (state_of self.new ≡ spec.end_since place outside (state_of self.old)) }
    {
        self.end_past(outside, place)?;
        self.living.truncate(outside);
        Ok(())
    }
}
