// The instructions and the single tests of core functions.
use crate::operand::{Argument, Base, Characters, Location, Operand, RangeEnd, Source, Which};
use crate::operation::Operation;
use crate::program::FnId;

/// How a local comes to life.
#[derive(Clone, Copy, Debug, PartialEq, Eq)]
pub enum Form {
    /// As a declaration without initialiser leaves it: a value is 0, a raw pointer points nowhere
    /// and may not be used (ISO/IEC 14882:2017 [dcl.init] leaves both indeterminate).
    Plain,
    /// As an empty list leaves it: a raw pointer is null.
    Zero,
}

/// Which way an iterator is moved.
#[derive(Clone, Copy, Debug, PartialEq, Eq)]
pub enum Direction {
    /// Towards the end.
    Forward,
    /// Towards the begin.
    Backward,
}

/// How an owner is changed ([vector.modifiers], [vector.capacity], [string.modifiers]).
#[derive(Debug, Drop)]
pub enum Change {
    /// The value of the register, or the temporary with this number, which is given over, is added at
    /// the end.
    PushBack(u32),
    /// The last element goes.
    PopBack,
    /// All elements go.
    Clear,
    /// There is to be room for as many elements as the register says.
    Reserve(u32),
    /// The element at an iterator goes, and a pointer is given its position.
    Erase { at: Location, into: Location },
    /// A string takes other characters.
    Set(Characters),
    /// A string gains characters at its end.
    Append(Characters),
}

/// What a `std::unique_ptr` is made to own.
#[derive(Clone, Copy, Debug, PartialEq, Eq)]
pub enum Made {
    /// Nothing.
    Null,
    /// A new object, as an empty list leaves it.
    Zero,
    /// A new object with the value of the register, or of the temporary with this number, which is
    /// given over.
    Of(u32),
}

/// What goes in or out of the program ([ostream.inserters.arithmetic], [ostream.inserters.character],
/// [string.io]).
#[derive(Debug, Drop)]
pub enum Port {
    /// The value of a register is written to the output, as `std::cout <<` does.
    Value(u32),
    /// The characters that a view sees are written.
    View(Location),
    /// The next number of the input is taken into a register.
    Take(u32),
}

/// One step of a core function.
#[derive(Debug, Drop)]
pub enum Instr {
    /// Brings a local to life.
    Live {
        local: u32,
        form: Form,
    },
    /// Ends the locals, in the order of the list.
    End {
        locals: Vec<u32>,
    },
    /// Gives a register a value.
    Eval {
        into: u32,
        operation: Operation,
    },
    /// Reads a value into a register.
    Load {
        into: u32,
        from: Operand,
    },
    /// Writes a register's value to a place.
    Save {
        to: Operand,
        from: u32,
    },
    /// Writes a copy of a value, an owner or a struct to a place.
    Copy {
        to: Operand,
        from: Operand,
    },
    /// Writes an owner to a place, and leaves the local from which it is taken moved-from.
    Move {
        to: Operand,
        from: u32,
    },
    /// Makes a pointer point to something.
    Aim {
        pointer: Location,
        source: Source,
    },
    /// Makes a pointer point to what another one points to.
    Repoint {
        pointer: Location,
        from: Location,
    },
    /// Makes a pointer point to an element.
    Element {
        pointer: Location,
        base: Base,
        which: Which,
    },
    /// Makes an iterator of an end of a range.
    Cursor {
        pointer: Location,
        base: Base,
        end: RangeEnd,
    },
    /// Makes an iterator of another one, moved by as many elements as the register says.
    Advance {
        pointer: Location,
        from: Location,
        count: u32,
        direction: Direction,
    },
    /// Makes a span or a view of a part of another one: from the index in the first register on, as
    /// many elements as the second says, or all ([string.view.ops]).
    Cut {
        pointer: Location,
        from: Location,
        index: u32,
        count: Option<u32>,
    },
    /// Reads the number of elements into a register.
    Size {
        into: u32,
        base: Base,
    },
    /// Compares two iterators or views: the register is given whether they are equal, or whether
    /// they aren't.
    Same {
        into: u32,
        left: Location,
        right: Location,
        equal: bool,
    },
    /// Changes an owner.
    Change {
        place: Operand,
        change: Change,
    },
    /// Gives a `std::unique_ptr` something to own, or nothing; what it owned before ends.
    Make {
        owner: Location,
        made: Made,
    },
    /// Calls a function, and gives its result to the target.
    Call {
        target: Option<Location>,
        function: FnId,
        arguments: Vec<Argument>,
    },
    /// Writes to the program's output, or takes from its input.
    Port(Port),
}

/// A single test, at a point of its own.
#[derive(Debug, Drop)]
pub enum Test {
    /// Holds where the register's value isn't 0.
    NonZero(u32),
    /// Holds where the pointer or the `std::unique_ptr` isn't null.
    NotNull(Location),
}
