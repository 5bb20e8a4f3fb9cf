// Core programs and their functions.
ghost use Rattle.std.specs.Prelude.{◌≡◌, ◌<◌, length, map, slice_get};
ghost use Rattle.life_core.specs.Function.{HasMember, member_name, member_names, name_bytes};

use crate::stmt::Stmt;
use life_types::{NameId, Place, TyId, TypeTable};

/// The number of a function in its program.
#[derive(Clone, Copy, Debug, PartialEq, Eq, PartialOrd, Ord, Hash)]
pub struct FnId(pub u32);

/// What a local is.
#[derive(Clone, Copy, Debug, PartialEq, Eq)]
pub enum LocalKind {
    /// It lies in memory and may be pointed to.
    Object,
    /// It holds one value or pointer and can't be pointed to.
    Register,
    /// A register that holds the hidden range, or a hidden iterator, of a loop over a range (ISO/IEC
    /// 14882:2017 [stmt.ranged]).
    Range,
}

/// A local of a function. One without a name holds an intermediate value or the result.
#[derive(Clone, Copy, Debug, PartialEq, Eq)]
pub struct Local {
    pub name: Option<NameId>,
    pub ty: TyId,
    pub kind: LocalKind,
    /// Where its name stands where it is declared; for the result where the function's name does, and for
    /// any other local without a name where the first point stands that brings it to life or writes it.
    pub place: Place,
    /// Whether it is a parameter that bears `[[life::nonnull]]`: a raw pointer that is never null.
    pub nonnull: bool,
    /// Whether it is a parameter that bears `[[life::keeps]]`: what it points to keeps its owners as
    /// they are.
    pub keeps: bool,
}

/// What a result that is a pointer, or has members that are, may point to (P1179R1 section 2.5).
#[derive(Debug, Drop)]
pub enum Promise {
    /// What fits the types of the parameters.
    Default,
    /// What `[[life::ret(..)]]` lists.
    Listed {
        /// The numbers of parameters, ascending, each once.
        inputs: Vec<u32>,
        /// Whether what never ends is listed (`static`).
        fixed: bool,
        /// Whether null is listed.
        null: bool,
    },
}

/// A function. Its locals are numbered from 0: the parameters, then the result where it isn't void,
/// then the others in the order in which the body first names them.
#[derive(Debug, Drop)]
pub struct CoreFn {
    pub name: NameId,
    /// Where its name stands.
    pub place: Place,
    /// How many of the locals are parameters.
    pub parameters: u32,
    pub result: TyId,
    pub promise: Promise,
    pub locals: Vec<Local>,
    pub body: Stmt,
}

/// A whole program. Its functions stand in the order of their first declarations.
#[derive(Drop)]
pub struct CoreProgram {
    pub names: Names,
    pub types: TypeTable,
    /// The contents of the string literals, by their numbers, and last the one byte 10 that
    /// `std::endl` writes.
    pub texts: Vec<Vec<u8>>,
    pub functions: Vec<CoreFn>,
}

/// The names of a program, numbered from 0 in the order in which they first stand in the file.
#[derive(Debug, Drop)]
pub struct Names {
    pub texts: Vec<Vec<u8>>,
    /// The names of the members of each struct, by the number of the struct.
    pub members: Vec<Vec<NameId>>,
}

impl Names {
    /// The text of the name.
    pub fn text(&self, name: NameId) -> &[u8]
        requires { name.0 < length self.now.texts.items }
        ensures { slice_get (map name_bytes self.now.texts.items) name.0 ≡ Some result.now }
    {
        &self.texts[name.0 as usize]
    }

    /// The name of the member with this number, counted from 0, of the struct with this number.
    pub fn member(&self, number: u32, member: u32) -> NameId
        requires { HasMember (map member_names self.now.members.items) number member }
        ensures { member_name (map member_names self.now.members.items) number member ≡ Some result }
    {
        let names = &self.members[number as usize];
        names[member as usize]
    }
}
