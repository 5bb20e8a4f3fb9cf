// Conditions: tests, and what is decided by them.
ghost use Rattle.std.specs.Prelude.{◌≡◌, [], IfOk, OnOk, length, map};
ghost use Rattle.life_core.specs.Step.{asked_of};
ghost use Rattle.life_core.specs.Tree.{Negated, condition_tree, tree_of};
ghost use Rattle.life_writer.specs.Answers.{Answers};
ghost use Rattle.life_writer.specs.Conditions as spec;
ghost use Rattle.life_writer.specs.Views.{state_of};
ghost use Rattle.life_writer.specs.Writing.{gives, taken, with_code};

use crate::rows::Join;
use crate::writer::Writer;
use life_core::{Condition, Instr, Operation, Stmt, Test};
use life_types::{NoMemory, Place, Ty};
use std::alloc::Global;

/// It doesn't hold (ISO/IEC 14882:2017 [expr.unary.op]/9).
pub(crate) fn negation(alloc: Global, condition: Condition) -> Result<Condition, NoMemory>
    ensures { IfOk result (λ c. condition_tree c ≡ Negated (condition_tree condition)) }
{
    Ok(Condition::Not(Box::new(alloc, condition)?))
}

/// Both hold, or one of them.
pub(crate) fn join(
    alloc: Global,
    by: Join,
    left: Condition,
    right: Condition,
) -> Result<Condition, NoMemory>
    ensures { IfOk result (λ c. condition_tree c ≡ spec.joined_by by (condition_tree left) (condition_tree right)) }
{
    let left = Box::new(alloc, left)?;
    let right = Box::new(alloc, right)?;
    match by {
        Join::Both => Ok(Condition::And(left, right)),
        Join::Either => Ok(Condition::Or(left, right)),
    }
}

// An answer in a register.
fn answer(alloc: Global, place: Place, number: i64, into: u32) -> Result<Stmt, NoMemory>
    ensures { IfOk result (λ s. tree_of s ≡ spec.answer place number into) }
{
    let mut code = Vec::new(alloc);
    let operation = Operation::Number(number);
    code.push(Stmt::Do(place, Instr::Eval { into, operation }))?;
    Ok(Stmt::List(code))
}

/// What stands before a test.
#[derive(Drop)]
pub struct Before {
    /// The list of statements that goes on behind it.
    pub code: Vec<Stmt>,
    /// How many temporaries were pending.
    pub pending: usize,
}

impl Writer {
    /// Begins what computes a test, in a list of its own.
    pub fn begin_test(&mut self) -> Before
        ensures before { map tree_of result.code.items ≡ (state_of self.old).code }
        ensures pending { result.pending ≡ length (state_of self.old).pending }
        ensures state { state_of self.new ≡ with_code [] (state_of self.old) }
    {
        let pending = self.pending_count();
        let code = self.begin_list();
        Before { code, pending }
    }

    // What was made for a test ends right before it, where it doesn't last.
    fn end_tested(&mut self, pending: usize, ends: Option<Place>) -> Result<(), NoMemory>
        ensures { OnOk result (state_of self.new ≡ spec.end_tested pending ends (state_of self.old)) }
    {
        match ends {
            Some(place) => self.end_pending(pending, place),
            None => Ok(()),
        }
    }

    /// A test behind the statements that compute what is tested, which stand in a list of their own;
    /// the list from before goes on.
    pub fn behind_code(
        &mut self,
        before: Before,
        place: Place,
        ends: Option<Place>,
        test: Test,
    ) -> Result<Condition, NoMemory>
        ensures { Answers condition_tree result (spec.behind_code place (asked_of test) (taken (with_code (map tree_of before.code.items) (state_of self.old)) (spec.end_tested before.pending ends (state_of self.old)))) (state_of self.new) }
    {
        let Before { code, pending } = before;
        self.end_tested(pending, ends)?;
        let code = self.end_list(code);
        let test = Box::new(self.alloc, Condition::Single(place, test))?;
        Ok(Condition::After(Box::new(self.alloc, code)?, test))
    }

    // An answer in a register: 1 where the condition holds, else 0.
    fn branch(&mut self, place: Place, condition: Condition, into: u32) -> Result<u32, NoMemory>
        ensures { Answers (λ x. x) result (spec.branched place (condition_tree condition) into (state_of self.old)) (state_of self.new) }
    {
        let holds = Box::new(self.alloc, answer(self.alloc, place, 1, into)?)?;
        let fails = Box::new(self.alloc, answer(self.alloc, place, 0, into)?)?;
        self.write(Stmt::Branch(condition, holds, fails))?;
        Ok(into)
    }

    /// A condition as a value.
    pub(crate) fn by_branch(
        &mut self,
        into: Option<u32>,
        ty: Ty,
        place: Place,
        condition: Condition,
    ) -> Result<u32, NoMemory>
        ensures { Answers (λ x. x) result (spec.by_branch into ty place (gives (condition_tree condition)) (state_of self.old)) (state_of self.new) }
    {
        let into = self.target(place, into, ty)?;
        self.branch(place, condition, into)
    }
}
