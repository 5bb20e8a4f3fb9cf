// What instructions name: locals, places and what has elements. A register is meant by the number of
// its local.
ghost use Rattle.std.specs.Prelude.{◌≡◌};
ghost use Rattle.life_core.specs.Operands.{behind, location_of, object_named, operand_of, whole};

use std::alloc::Global;

/// A local, or a member of one: the numbers of the members from the outermost to the innermost.
#[derive(Debug, Drop)]
pub struct Location {
    /// The number of the local.
    pub local: u32,
    /// The members, none for the local itself.
    pub members: Vec<u32>,
}

impl Location {
    /// A local itself.
    pub fn whole(alloc: Global, local: u32) -> Location
        ensures { location_of result ≡ whole local }
    {
        Location {
            local,
            members: Vec::new(alloc),
        }
    }
}

/// A place that an instruction reads or writes.
#[derive(Debug, Drop)]
pub enum Operand {
    /// An object of the function, or a member of it.
    Name(Location),
    /// What a pointer points to, or a member of that.
    Through {
        pointer: Location,
        members: Vec<u32>,
    },
}

impl Operand {
    /// An object itself.
    pub fn name(alloc: Global, local: u32) -> Operand
        ensures { operand_of result ≡ object_named local }
    {
        Operand::Name(Location::whole(alloc, local))
    }

    /// What a pointer that is a local of its own points to.
    pub fn through(alloc: Global, pointer: u32) -> Operand
        ensures { operand_of result ≡ behind pointer }
    {
        Operand::Through {
            pointer: Location::whole(alloc, pointer),
            members: Vec::new(alloc),
        }
    }
}

/// What a pointer is aimed at.
#[derive(Debug, Drop)]
pub enum Source {
    /// Nothing: the pointer is null.
    Null,
    /// The string literal with this number.
    Text(u32),
    /// The empty view.
    Empty,
    /// The object at a place.
    Place(Operand),
    /// All that the vector or the string at a place holds.
    Whole(Operand),
    /// What a `std::unique_ptr` owns ([unique.ptr.single.observers]).
    Get(Location),
}

/// What has elements.
#[derive(Debug, Drop)]
pub enum Base {
    /// A vector, a string or a `std::unique_ptr`.
    Owner(Operand),
    /// A span or a view.
    Pointer(Location),
}

/// Which element of a base.
#[derive(Clone, Copy, Debug, PartialEq, Eq)]
pub enum Which {
    /// The one at the index that the register holds.
    Index(u32),
    /// The first.
    First,
    /// The last.
    Last,
    /// What a `std::unique_ptr` owns.
    Target,
}

/// An end of a range.
#[derive(Clone, Copy, Debug, PartialEq, Eq)]
pub enum RangeEnd {
    /// Its first element.
    Begin,
    /// The position behind its last element.
    End,
}

/// What a string is given.
#[derive(Debug, Drop)]
pub enum Characters {
    /// Those that a view sees.
    View(Location),
    /// The one that a register holds.
    Single(u32),
}

/// What a call hands over.
#[derive(Debug, Drop)]
pub enum Argument {
    /// The value of a register.
    Value(u32),
    /// A temporary, which is given over.
    Given(u32),
    /// What a pointer points to.
    Pointer(Location),
    /// The local itself, which the called function may change.
    Slot(Location),
}
