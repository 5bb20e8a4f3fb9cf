// How something is initialised: all but the last is written, and then it is built where it goes.
ghost use Rattle.std.specs.Prelude.{◌≡◌};
ghost use Rattle.life_writer.specs.Answers.{Answers};
ghost use Rattle.life_core.specs.declared.instr.Form.TheVariants.{Plain, Zero};
ghost use Rattle.life_writer.specs.Building as spec;
ghost use Rattle.life_writer.specs.Uses.{lived};
ghost use Rattle.life_writer.specs.Views.{act_of, destination_of, keeps_of, last_of, state_of};

use crate::acts::Act;
use crate::pointers::{Pointing, pointed};
use crate::writer::Writer;
use life_core::{Argument, FnId, Form, Instr, Local, LocalKind, Location, Operand};
use life_types::{NoMemory, Place, Ty};

/// What is left to do.
#[derive(Drop)]
pub enum Last {
    /// A pointer is given what it points to.
    Point(Place, Pointing),
    /// A call gives its result there.
    Call(Place, u32, Vec<Argument>),
    /// It comes to life, and the value in this register is saved there.
    Saved(u32),
    /// It comes to life, and this is done to it.
    Lived(Act),
}

/// Where it goes.
#[derive(Clone, Copy)]
pub enum Destination {
    /// The register that is wanted, or a new one of a type, which stands where it is written first.
    Register(Place, Option<u32>, Ty),
    /// A variable, which comes to life where its name stands.
    Variable(Local, Place),
    /// A temporary of a type, which ends with the full expression (ISO/IEC 14882:2017
    /// [class.temporary]) ..
    Temporary(Place, Ty),
    /// .. or with the scope of the reference that is declared right behind it ..
    Scoped(Place, Ty),
    /// .. or gives its value over.
    Consumed(Place, Ty),
    /// What a loop over a range hides ([stmt.ranged]).
    Hidden(Place, Ty),
}

/// How long a temporary is kept that a reference is bound to.
#[derive(Clone, Copy)]
pub enum Keeping {
    /// As long as the full expression.
    Full,
    /// As long as the reference.
    Scope,
}

impl Keeping {
    /// Where the temporary goes.
    pub(crate) fn goal(self, place: Place, ty: Ty) -> Destination
        ensures { destination_of result ≡ keeps_of self place ty }
    {
        match self {
            Keeping::Full => Destination::Temporary(place, ty),
            Keeping::Scope => Destination::Scoped(place, ty),
        }
    }
}

fn place_of(destination: Destination) -> Place
    ensures { result ≡ (destination_of destination).place }
{
    match destination {
        Destination::Register(place, _into, _ty) => place,
        Destination::Variable(_local, place) => place,
        Destination::Temporary(place, _ty) => place,
        Destination::Scoped(place, _ty) => place,
        Destination::Consumed(place, _ty) => place,
        Destination::Hidden(place, _ty) => place,
    }
}

impl Writer {
    // Its local begins.
    fn begin(&mut self, destination: Destination) -> Result<u32, NoMemory>
        ensures { Answers (λ x. x) result ((destination_of destination).begins (state_of self.old)) (state_of self.new) }
    {
        match destination {
            Destination::Register(place, into, ty) => self.target(place, into, ty),
            Destination::Variable(local, _place) => self.add_variable(local),
            Destination::Temporary(place, ty) => self.new_temporary(place, ty),
            Destination::Scoped(place, ty) => self.new_scoped(place, ty),
            Destination::Consumed(place, ty) => self.new_nameless(LocalKind::Object, place, ty),
            Destination::Hidden(place, ty) => self.new_nameless(LocalKind::Range, place, ty),
        }
    }

    // It comes to life in a form.
    fn live_in(&mut self, form: Form, destination: Destination) -> Result<u32, NoMemory>
        ensures { Answers (λ x. x) result (spec.live_in form (destination_of destination) (state_of self.old)) (state_of self.new) }
    {
        let local = self.begin(destination)?;
        self.emit(place_of(destination), Instr::Live { local, form })?;
        Ok(local)
    }

    /// It comes to life by itself.
    pub fn live(&mut self, destination: Destination) -> Result<u32, NoMemory>
        ensures { Answers (λ x. x) result (spec.live (destination_of destination) (state_of self.old)) (state_of self.new) }
    {
        self.live_in(Form::Plain, destination)
    }

    /// .. as an empty list leaves it.
    pub(crate) fn live_zero(&mut self, destination: Destination) -> Result<u32, NoMemory>
        ensures { Answers (λ x. x) result (spec.live_in Zero (destination_of destination) (state_of self.old)) (state_of self.new) }
    {
        self.live_in(Form::Zero, destination)
    }

    // It comes to life, and something is done to it.
    fn lived(&mut self, act: Act, destination: Destination) -> Result<u32, NoMemory>
        ensures { Answers (λ x. x) result (lived Plain (act_of act) (destination_of destination) (state_of self.old)) (state_of self.new) }
    {
        let local = self.live(destination)?;
        let to = Operand::name(self.alloc, local);
        self.act(act, place_of(destination), to)?;
        Ok(local)
    }

    /// The last is done.
    pub fn built(&mut self, last: Last, destination: Destination) -> Result<u32, NoMemory>
        ensures { Answers (λ x. x) result (last_of last (destination_of destination) (state_of self.old)) (state_of self.new) }
    {
        match last {
            Last::Point(place, pointing) => {
                let local = self.begin(destination)?;
                let pointer = Location::whole(self.alloc, local);
                self.emit(place, pointed(pointing, pointer))?;
                Ok(local)
            }
            Last::Call(place, function, arguments) => {
                let local = self.begin(destination)?;
                let target = Some(Location::whole(self.alloc, local));
                self.emit(
                    place,
                    Instr::Call {
                        target,
                        function: FnId(function),
                        arguments,
                    },
                )?;
                Ok(local)
            }
            Last::Saved(from) => {
                let local = self.live(destination)?;
                let to = Operand::name(self.alloc, local);
                self.emit(place_of(destination), Instr::Save { to, from })?;
                Ok(local)
            }
            Last::Lived(act) => self.lived(act, destination),
        }
    }
}
