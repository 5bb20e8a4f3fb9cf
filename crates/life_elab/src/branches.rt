// Branches of an `if` that are being written.
ghost use Rattle.std.specs.Prelude.{◌≡◌, OnOk, map};
ghost use Rattle.life_core.specs.Tree.{Choice, Skip, condition_tree, tree_of};
ghost use Rattle.life_writer.specs.Views.{state_of};
ghost use Rattle.life_writer.specs.Writing.{write};
ghost use Rattle.life_elab.specs.OpenedViews.{opened_of};
ghost use Rattle.life_elab.specs.Statements as spec;

use life_core::{Condition, Stmt};
use life_types::NoMemory;
use life_writer::Writer;
use std::alloc::Global;

/// A branch that is written up to the list of what is done where its condition doesn't hold.
#[derive(Drop)]
pub(crate) struct Opened {
    pub condition: Condition,
    /// What is done where it holds.
    pub first: Stmt,
    /// What was written before the branch.
    pub before: Vec<Stmt>,
}

/// An empty list of statements.
pub(crate) fn nothing(alloc: Global) -> Stmt
    ensures { tree_of result ≡ Skip }
{
    Stmt::List(Vec::new(alloc))
}

/// The first statement where the condition holds, and else the second.
pub(crate) fn write_branch(
    writer: &mut Writer,
    condition: Condition,
    first: Stmt,
    second: Stmt,
) -> Result<(), NoMemory>
    ensures { OnOk result (state_of writer.new ≡ write (Choice (condition_tree condition) (tree_of first) (tree_of second)) (state_of writer.old)) }
{
    let first = Box::new(writer.alloc, first)?;
    let second = Box::new(writer.alloc, second)?;
    writer.write(Stmt::Branch(condition, first, second))
}

// The list of what is done where the condition doesn't hold ends, and with it the branch.
fn close_branch(writer: &mut Writer, opened: Opened) -> Result<(), NoMemory>
    ensures { OnOk result (state_of writer.new ≡ spec.closed_one (opened_of opened) (state_of writer.old)) }
{
    let Opened {
        condition,
        first,
        before,
    } = opened;
    let second = writer.end_list(before);
    write_branch(writer, condition, first, second)
}

/// All branches end, the innermost first.
pub(crate) fn close_branches(writer: &mut Writer, opened: Vec<Opened>) -> Result<(), NoMemory>
    ensures { OnOk result (state_of writer.new ≡ spec.closed (map opened_of opened.items) (state_of writer.old)) }
{
    let mut open = opened;
    'open: while let Some(innermost) = open.pop() {
        close_branch(writer, innermost)?;
    }
    Ok(())
}
