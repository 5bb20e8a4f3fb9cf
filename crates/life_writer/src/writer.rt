// What has been written of a function.
ghost use Rattle.std.specs.Prelude.{◌≡◌, OnOk, [], map};
ghost use Rattle.life_core.specs.Step.{step_of};
ghost use Rattle.life_core.specs.Tree.{tree_of, trees};
ghost use Rattle.life_writer.specs.Writing.{nothing_written};
ghost use Rattle.life_writer.specs.Views.{state_of};
ghost use Rattle.life_writer.specs.Writing as spec;

use life_core::{Instr, Local, Stmt};
use life_types::{NoMemory, Place, TypeTable};
use std::alloc::Global;

/// What has been written of a function.
#[derive(Drop)]
pub struct Writer {
    pub alloc: Global,
    /// The types so far: a register may need one that the program doesn't name.
    pub types: TypeTable,
    /// The locals in the order of their numbers, which is the order in which the text first names
    /// them.
    pub locals: Vec<Local>,
    /// The local of each parameter and variable so far, in the order of their declarations.
    pub variables: Vec<u32>,
    /// Those of them that haven't ended.
    pub living: Vec<u32>,
    /// The temporaries that end with the full expression that is being written.
    pub pending: Vec<u32>,
    /// How many of those that live stay where the innermost loop is left.
    pub outside: usize,
    /// The list of statements that is being written.
    pub code: Vec<Stmt>,
}

impl Writer {
    /// Nothing has been written yet.
    #[tactic(auto, unfolding(crate::specs::Views::state_of))]
    pub fn new(alloc: Global, types: TypeTable) -> Writer
        ensures { state_of result ≡ nothing_written types }
    {
        Writer {
            alloc,
            types,
            locals: Vec::new(alloc),
            variables: Vec::new(alloc),
            living: Vec::new(alloc),
            pending: Vec::new(alloc),
            outside: 0,
            code: Vec::new(alloc),
        }
    }

    /// A statement at the end of the list.
    #[tactic(auto, unfolding(crate::specs::Views::state_of))]
    pub fn write(&mut self, statement: Stmt) -> Result<(), NoMemory>
        ensures { OnOk result (state_of self.new ≡ spec.write (tree_of statement) (state_of self.old)) }
    {
        self.code.push(statement)?;
        Ok(())
    }

    /// An instruction.
    pub fn emit(&mut self, place: Place, instr: Instr) -> Result<(), NoMemory>
        ensures { OnOk result (state_of self.new ≡ spec.emit place (step_of instr) (state_of self.old)) }
    {
        self.write(Stmt::Do(place, instr))
    }

    /// Begins a list of its own, and gives what has been written of the other one.
    #[tactic(auto, unfolding(crate::specs::Views::state_of))]
    pub fn begin_list(&mut self) -> Vec<Stmt>
        ensures before { map tree_of result.items ≡ (state_of self.old).code }
        ensures state { state_of self.new ≡ spec.with_code [] (state_of self.old) }
    {
        std::mem::replace(&mut self.code, Vec::new(self.alloc))
    }

    /// Ends a list of its own, and goes on with the other one.
    #[tactic(auto, unfolding(crate::specs::Views::state_of))]
    pub fn end_list(&mut self, before: Vec<Stmt>) -> Stmt
        ensures list { tree_of result ≡ trees (state_of self.old).code }
        ensures state { state_of self.new ≡ spec.with_code (map tree_of before.items) (state_of self.old) }
    {
        Stmt::List(std::mem::replace(&mut self.code, before))
    }
}
