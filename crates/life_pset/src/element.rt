// Abstract places, and what a pointer may be.
ghost use Rattle.std.proofs.Common.{rules};
ghost use Rattle.std.specs.Prelude.{◌≡◌, ◌<◌};
ghost use Rattle.std.specs.Cmp.Rules.{hashing};
ghost use Rattle.life_pset.specs.Hashing.{cause_fed, element_fed, place_fed, root_number};

use life_types::Place;
use std::hash::{Hash, Hasher};

/// Where an abstract place begins. `member` numbers the pointers of a struct parameter from 0.
#[derive(Clone, Copy, Debug, PartialEq, Eq, PartialOrd, Ord, Hash)]
pub enum Root {
    /// The local with this number.
    Local(u32),
    /// What the caller passed for a parameter, or for the pointer of this number, depth first,
    /// among the members of a struct parameter.
    Input { parameter: u32, member: Option<u8> },
}

impl Root {
    // Its number among those of its kind.
    fn number(self) -> u32
        ensures { result ≡ root_number self }
    {
        match self {
            Root::Local(local) => local,
            Root::Input { parameter, .. } => parameter,
        }
    }
}

/// An abstract place (WG21 P1179R1, 2.3): a root, and from there at most 8 steps. A step is a member's
/// number, or 255 for a step from an owner to what it owns; steps past the length are 0.
#[derive(Clone, Copy, Debug, PartialEq, Eq, PartialOrd, Ord)]
pub struct AbsPlace {
    pub root: Root,
    pub length: u8,
    pub steps: [u8; 8],
}

// Places are looked up often, so no more is fed than tells most of them apart.
impl Hash for AbsPlace {
    ghost hash_input = { place_fed };

    ghost respects_eq = { Prim.search (hashing, rules) };

    fn hash<H: Hasher>(&self, state: &mut H) {
        state.write_u32(self.root.number());
        state.write(&self.steps);
    }
}

/// The step from an owner to what it owns.
pub const OWNED_STEP: u8 = 255;

// How many steps a place of a function has at most.
const MOST_STEPS: u8 = 8;

// The length of what has more steps.
const TOO_LONG: u8 = 9;

impl AbsPlace {
    ghost use Rattle.life_pset.specs.Elements.{local_place};
    ghost use Rattle.life_pset.specs.Places.{longer, member_place, members_place, owned_place, path, root_place, stepped, too_long};

    /// The place of a root itself.
    pub fn of_root(root: Root) -> AbsPlace
        ensures { result ≡ root_place root }
    {
        AbsPlace {
            root,
            length: 0,
            steps: [0; 8],
        }
    }

    /// The place of the whole local with this number.
    pub fn of_local(local: u32) -> AbsPlace
        ensures { result ≡ local_place local }
    {
        AbsPlace::of_root(Root::Local(local))
    }

    /// What the owner at this place owns. What would have more than eight steps is no place of a
    /// function: its length is 9.
    pub fn owned(self) -> AbsPlace
        ensures { result ≡ owned_place self }
    {
        self.stepped(OWNED_STEP)
    }

    /// The member with this number, counted from 0. What would have more than eight steps, or a member
    /// with a number past 254, is no place of a function: its length is 9.
    pub fn member(self, member: usize) -> AbsPlace
        ensures { result ≡ member_place self member }
    {
        if member < OWNED_STEP as usize {
            self.stepped(member as u8)
        } else {
            self.too_long()
        }
    }

    /// A member of a member, and so on: their numbers from the outermost to the innermost.
    pub fn members(self, members: &[u32]) -> AbsPlace
        ensures { result ≡ members_place self members.now }
    {
        let mut place = self;
        for member in members {
            place = place.member(*member as usize);
        }
        place
    }

    /// A member of a member, and so on, by the steps of a place.
    pub fn further(self, steps: &[u8]) -> AbsPlace
        ensures { result ≡ members_place self steps.now }
    {
        let mut place = self;
        for step in steps {
            place = place.member(*step as usize);
        }
        place
    }

    /// The steps from the root.
    pub fn path(&self) -> &[u8]
        ensures { result.now ≡ path self.now }
    {
        if self.length < MOST_STEPS {
            &self.steps[..self.length as usize]
        } else {
            &self.steps
        }
    }

    // One step further.
    fn stepped(self, step: u8) -> AbsPlace
        ensures { result ≡ stepped self step }
    {
        if self.length < MOST_STEPS {
            self.longer(step)
        } else {
            self.too_long()
        }
    }

    fn longer(self, step: u8) -> AbsPlace
        requires { self.length < 8 }
        ensures { result ≡ longer self step }
    {
        let mut steps = self.steps;
        steps[self.length as usize] = step;
        AbsPlace {
            root: self.root,
            length: self.length + 1,
            steps,
        }
    }

    fn too_long(self) -> AbsPlace
        ensures { result ≡ too_long self }
    {
        let steps = self.steps;
        AbsPlace {
            root: self.root,
            length: TOO_LONG,
            steps,
        }
    }
}

/// What made a pointer invalid.
#[derive(Clone, Copy, Debug, PartialEq, Eq, PartialOrd, Ord, Hash)]
pub enum CauseKind {
    /// It came to life without a value.
    Uninitialised,
    /// The variable that it points to ended.
    Ended,
    /// The temporary that it points to ended.
    TemporaryEnded,
    /// The owner that it points into was changed by its name.
    Changed,
    /// The owner that it points into was changed through a pointer.
    OwnerChanged,
    /// The owner that it points into was moved from.
    Moved,
    /// A function was called that may have changed the owner that it points into.
    Called,
}

/// Why a pointer is invalid, or an owner moved from, and where that came about. `root` is the local that
/// it is about, for a call the number of the function, and 0 for a change through a pointer.
#[derive(Clone, Copy, Debug, PartialEq, Eq, PartialOrd, Ord)]
pub struct Cause {
    pub kind: CauseKind,
    pub place: Place,
    pub root: u32,
}

// As for places: what made a pointer invalid follows from where that was, and of which local, nearly
// always.
impl Hash for Cause {
    ghost hash_input = { cause_fed };

    ghost respects_eq = { Prim.search (hashing, rules) };

    fn hash<H: Hasher>(&self, state: &mut H) {
        state.write_u64(self.place.line as u64 * (1 << 32) + self.place.column as u64);
        state.write_u32(self.root);
    }
}

/// An element of a points-to set (WG21 P1179R1, 2.3).
#[derive(Clone, Copy, Debug, PartialEq, Eq, PartialOrd, Ord)]
pub enum Element {
    /// It may be null.
    Null,
    /// It may be invalid.
    Invalid(Cause),
    /// Its owner may be moved from.
    Moved(Cause),
    /// An owner that owns something.
    Own,
    /// It may point to what never ends and never changes.
    Static,
    /// It may point to this place.
    At(AbsPlace),
}

impl Hash for Element {
    ghost hash_input = { element_fed };

    ghost respects_eq = { Prim.search (hashing, rules) };

    fn hash<H: Hasher>(&self, state: &mut H) {
        match self {
            Element::Null => state.write_u8(0),
            Element::Invalid(cause) | Element::Moved(cause) => cause.hash(state),
            Element::Own => state.write_u8(1),
            Element::Static => state.write_u8(2),
            Element::At(place) => place.hash(state),
        }
    }
}

/// One element of one location's set.
#[derive(Clone, Copy, Debug, PartialEq, Eq, PartialOrd, Ord, Hash)]
pub struct Fact {
    pub location: AbsPlace,
    pub element: Element,
}
