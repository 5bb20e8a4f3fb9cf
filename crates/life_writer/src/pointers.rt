// Pointers: what they are given, and where they lie.
ghost use Rattle.std.specs.Prelude.{◌≡◌, OnOk};
ghost use Rattle.life_core.specs.Operands.{location_of};
ghost use Rattle.life_core.specs.Step.{step_of};
ghost use Rattle.life_writer.specs.Answers.{Answers};
ghost use Rattle.life_writer.specs.Pointers as spec;
ghost use Rattle.life_writer.specs.Views.{pointing_of, state_of};
ghost use Rattle.life_writer.specs.Writing.{emit};

use crate::writer::Writer;
use life_core::{
    Argument, Base, Change, Direction, FnId, Instr, Location, Operand, RangeEnd, Source, Which,
};
use life_types::{NoMemory, Place, Ty};

/// What an expression gives a pointer.
#[derive(Drop)]
pub enum Pointing {
    /// It is aimed at this.
    At(Source),
    /// It points to what another pointer points to.
    As(Location),
    /// It points to an element.
    Element(Base, Which),
    /// It points to an end of a range.
    Cursor(Base, RangeEnd),
    /// It points so many elements further than another one.
    Advanced(Location, u32, Direction),
    /// It sees a part of what another one sees: from this index on, and so many elements.
    Cut(Location, u32, Option<u32>),
    /// It points to where the element was that goes.
    Erased(Operand, Location),
    /// A function gives it.
    Call(u32, Vec<Argument>),
}

/// The instruction that makes a pointer point there.
pub(crate) fn pointed(pointing: Pointing, pointer: Location) -> Instr
    ensures { step_of result ≡ spec.pointed (pointing_of pointing) (location_of pointer) }
{
    match pointing {
        Pointing::At(source) => Instr::Aim { pointer, source },
        Pointing::As(from) => Instr::Repoint { pointer, from },
        Pointing::Element(base, which) => Instr::Element {
            pointer,
            base,
            which,
        },
        Pointing::Cursor(base, end) => Instr::Cursor { pointer, base, end },
        Pointing::Advanced(from, count, direction) => Instr::Advance {
            pointer,
            from,
            count,
            direction,
        },
        Pointing::Cut(from, index, count) => Instr::Cut {
            pointer,
            from,
            index,
            count,
        },
        Pointing::Erased(place, at) => Instr::Change {
            place,
            change: Change::Erase { at, into: pointer },
        },
        Pointing::Call(function, arguments) => Instr::Call {
            target: Some(pointer),
            function: FnId(function),
            arguments,
        },
    }
}

impl Writer {
    /// Makes a pointer point there.
    pub fn point(
        &mut self,
        place: Place,
        pointer: Location,
        pointing: Pointing,
    ) -> Result<(), NoMemory>
        ensures { OnOk result (state_of self.new ≡ emit place (spec.pointed (pointing_of pointing) (location_of pointer)) (state_of self.old)) }
    {
        self.emit(place, pointed(pointing, pointer))
    }

    // A new register that points there.
    fn pointed_at(&mut self, place: Place, ty: Ty, pointing: Pointing) -> Result<Location, NoMemory>
        ensures { Answers location_of result (spec.written place ty (spec.pointed (pointing_of pointing)) (state_of self.old)) (state_of self.new) }
    {
        let register = self.new_register(place, ty)?;
        let pointer = Location::whole(self.alloc, register);
        self.emit(place, pointed(pointing, pointer))?;
        Ok(Location::whole(self.alloc, register))
    }

    /// The location of a pointer: a variable is its own, and anything else goes to a register.
    pub(crate) fn located(
        &mut self,
        place: Place,
        ty: Ty,
        pointing: Pointing,
    ) -> Result<Location, NoMemory>
        ensures { Answers location_of result (spec.located place ty (pointing_of pointing) (state_of self.old)) (state_of self.new) }
    {
        match pointing {
            Pointing::As(location) => Ok(location),
            Pointing::At(source) => self.pointed_at(place, ty, Pointing::At(source)),
            Pointing::Element(base, which) => {
                self.pointed_at(place, ty, Pointing::Element(base, which))
            }
            Pointing::Cursor(base, end) => self.pointed_at(place, ty, Pointing::Cursor(base, end)),
            Pointing::Advanced(from, count, direction) => {
                self.pointed_at(place, ty, Pointing::Advanced(from, count, direction))
            }
            Pointing::Cut(from, index, count) => {
                self.pointed_at(place, ty, Pointing::Cut(from, index, count))
            }
            Pointing::Erased(owner, at) => self.pointed_at(place, ty, Pointing::Erased(owner, at)),
            Pointing::Call(function, arguments) => {
                self.pointed_at(place, ty, Pointing::Call(function, arguments))
            }
        }
    }
}
