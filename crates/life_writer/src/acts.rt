// What is done to an owner or a struct at a place, where it comes to life or is assigned.
ghost use Rattle.std.specs.Prelude.{◌≡◌, OnOk};
ghost use Rattle.life_core.specs.Operands.{location_of, operand_of};
ghost use Rattle.life_writer.specs.Using as spec;
ghost use Rattle.life_writer.specs.Views.{act_of, state_of};

use crate::characters::SeenCharacters;
use crate::writer::Writer;
use life_core::{Instr, Location, Made, Operand};
use life_types::{NoMemory, Place};

/// What is done to an owner or a struct at a place.
#[derive(Drop)]
pub enum Act {
    /// It becomes a copy of what stands at another one ..
    Copied(Operand),
    /// .. where this token says so.
    CopiedAt(Place, Operand),
    /// It is moved out of this temporary ..
    Moved(u32),
    /// .. or out of the variable with this number, where this token says so.
    MovedFrom(Place, u32),
    /// A `std::unique_ptr` is made to own this, where this token says so ..
    Made(Place, Made),
    /// .. or to own nothing.
    Null,
    /// A string takes what a view sees ..
    Set(Location),
    /// .. where this token says so.
    SetAt(Place, Location),
    /// A string takes two texts, one behind the other, where this operator stands.
    Joined(Place, SeenCharacters, SeenCharacters),
}

/// Where a pointer or a `std::unique_ptr` lies: both lie in the function's own locals.
pub(crate) fn location_in(place: Operand) -> Location
    ensures { location_of result ≡ spec.location_in (operand_of place) }
{
    match place {
        Operand::Name(location) => location,
        Operand::Through { pointer, .. } => pointer,
    }
}

impl Writer {
    /// It is done to what stands at a place.
    pub(crate) fn act(&mut self, act: Act, place: Place, to: Operand) -> Result<(), NoMemory>
        ensures { OnOk result (state_of self.new ≡ act_of act place (operand_of to) (state_of self.old)) }
    {
        match act {
            Act::Copied(from) => self.emit(place, Instr::Copy { to, from }),
            Act::CopiedAt(at, from) => self.emit(at, Instr::Copy { to, from }),
            Act::Moved(from) => self.emit(place, Instr::Move { to, from }),
            Act::MovedFrom(at, number) => {
                let from = self.variable(number);
                self.emit(at, Instr::Move { to, from })
            }
            Act::Made(at, made) => {
                let owner = location_in(to);
                self.emit(at, Instr::Make { owner, made })
            }
            Act::Null => {
                let owner = location_in(to);
                self.emit(
                    place,
                    Instr::Make {
                        owner,
                        made: Made::Null,
                    },
                )
            }
            Act::Set(view) => self.set(place, SeenCharacters::InView(view), to),
            Act::SetAt(at, view) => self.set(at, SeenCharacters::InView(view), to),
            Act::Joined(at, left, right) => self.joined_texts(at, left, right, to),
        }
    }
}
