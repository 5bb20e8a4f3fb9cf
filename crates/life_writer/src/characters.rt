// Characters: of strings, views, literals and single ones, as they are joined, appended, compared and
// printed (ISO/IEC 14882:2017 [basic.string], [string.view]).
ghost use Rattle.std.specs.Prelude.{◌≡◌, OnOk};
ghost use Rattle.life_core.specs.Operands.{characters_of, location_of, operand_of};
ghost use Rattle.life_core.specs.Step.{Append, Set};
ghost use Rattle.life_writer.specs.Answers.{Answers};
ghost use Rattle.life_writer.specs.Characters as spec;
ghost use Rattle.life_writer.specs.Views.{seen_of, state_of};

use crate::operands::copied_operand;
use crate::pointers::Pointing;
use crate::writer::Writer;
use life_core::{Change, Characters, Instr, Location, Operand, Source};
use life_types::{NoMemory, Place, Ty};

/// Where characters are found, once all that stands before is written.
#[derive(Drop)]
pub enum SeenCharacters {
    /// In a string at a place, with its own place in the file.
    InString(Place, Operand),
    /// In what a view sees.
    InView(Location),
    /// A single one, in a register.
    InRegister(u32),
}

impl Writer {
    /// The view that sees them. A string is read through a view of the whole of it, which is made right
    /// before the instruction that reads it.
    pub fn viewed(&mut self, seen: SeenCharacters) -> Result<Location, NoMemory>
        ensures { Answers location_of result (spec.viewed (seen_of seen) (state_of self.old)) (state_of self.new) }
    {
        match seen {
            SeenCharacters::InString(place, string) => {
                self.located(place, Ty::View, Pointing::At(Source::Whole(string)))
            }
            SeenCharacters::InView(view) => Ok(view),
            SeenCharacters::InRegister(register) => Ok(Location::whole(self.alloc, register)),
        }
    }

    fn characters(&mut self, seen: SeenCharacters) -> Result<Characters, NoMemory>
        ensures { Answers characters_of result (spec.characters (seen_of seen) (state_of self.old)) (state_of self.new) }
    {
        match seen {
            SeenCharacters::InString(place, string) => {
                let view = self.viewed(SeenCharacters::InString(place, string))?;
                Ok(Characters::View(view))
            }
            SeenCharacters::InView(view) => Ok(Characters::View(view)),
            SeenCharacters::InRegister(register) => Ok(Characters::Single(register)),
        }
    }

    /// A string takes them ..
    pub(crate) fn set(
        &mut self,
        at: Place,
        seen: SeenCharacters,
        to: Operand,
    ) -> Result<(), NoMemory>
        ensures { OnOk result (state_of self.new ≡ spec.changed_by Set at (seen_of seen) (operand_of to) (state_of self.old)) }
    {
        let characters = self.characters(seen)?;
        self.emit(
            at,
            Instr::Change {
                place: to,
                change: Change::Set(characters),
            },
        )
    }

    /// .. or gains them at its end.
    pub fn append(&mut self, at: Place, seen: SeenCharacters, to: Operand) -> Result<(), NoMemory>
        ensures { OnOk result (state_of self.new ≡ spec.changed_by Append at (seen_of seen) (operand_of to) (state_of self.old)) }
    {
        let characters = self.characters(seen)?;
        self.emit(
            at,
            Instr::Change {
                place: to,
                change: Change::Append(characters),
            },
        )
    }

    /// A string takes two texts, one behind the other ([string.op+]).
    pub(crate) fn joined_texts(
        &mut self,
        at: Place,
        left: SeenCharacters,
        right: SeenCharacters,
        to: Operand,
    ) -> Result<(), NoMemory>
        ensures { OnOk result (state_of self.new ≡ spec.changed_by Append at (seen_of right) (operand_of to) (spec.changed_by Set at (seen_of left) (operand_of to) (state_of self.old))) }
    {
        let first = copied_operand(&to)?;
        self.set(at, left, first)?;
        self.append(at, right, to)
    }
}
