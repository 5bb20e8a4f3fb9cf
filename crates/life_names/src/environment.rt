// What is visible where a construct stands.
ghost use Rattle.std.specs.Prelude.{◌≡◌, map, option_map, slice_set, IfOk};
ghost use Rattle.life_names.specs.Environment as spec;

use crate::fault::{IllFault, IllKind};
use life_typed::TypedLocal;
use life_types::{NameId, NoMemory, Place, TyId};
use std::alloc::Global;
use std::marker::Model;

/// What a name means.
#[derive(Clone, Copy)]
pub enum Entity {
    /// Nothing that is visible.
    Unseen,
    /// A struct, by its number.
    Structure(u32),
    /// A function, by its number.
    Function(u32),
    /// A variable or parameter of the function at hand, by its number there.
    Local(u32),
}

/// What a call of a function needs to know.
#[derive(Drop)]
pub struct Signature {
    /// The type of what is answered; `void` too.
    pub result: TyId,
    /// The types of the parameters as declared.
    pub parameters: Vec<TyId>,
}

/// A member of a struct.
#[derive(Clone, Copy)]
pub struct MemberType {
    pub name: NameId,
    pub ty: TyId,
}

/// What a struct is.
#[derive(Drop)]
pub struct Structure {
    /// Its type.
    pub ty: TyId,
    /// Its members, in their order.
    pub members: Vec<MemberType>,
}

/// What is declared so far, and what each name means. No name hides another, so each has one
/// meaning at most. Numbers that aren't there mean nothing.
#[derive(Drop)]
pub struct Environment<'a> {
    /// The texts of the names, by their numbers.
    names: &'a [Vec<u8>],
    /// What each name means, by the names' numbers.
    visible: Vec<Entity>,
    /// The structs, by their numbers.
    structs: Vec<Structure>,
    /// The functions, by their numbers.
    functions: Vec<Signature>,
    /// The variables and parameters of the function at hand, by their numbers.
    locals: Vec<TypedLocal>,
}

impl<'a> Model for Environment<'a> {
    ghost use Rattle.std.specs.Prelude.{map};
    ghost use Rattle.life_names.specs.Environment.{signature_view, structure_view, text_items, Scope};

    ghost Value = { Scope };

    ghost view = { λ e. record {
      names = map text_items e.names.now;
      visible = e.visible.items;
      structs = map structure_view e.structs.items;
      functions = map signature_view e.functions.items;
      locals = e.locals.items;
    } };
}

/// Numbers are of 32 bits; the last is left free.
const MOST: usize = u32::MAX as usize;

impl<'a> Environment<'a> {
    /// Nothing is declared yet, in a program with these names.
    pub fn new(alloc: Global, names: &'a [Vec<u8>]) -> Result<Environment<'a>, NoMemory>
        ensures { IfOk result (λ e. e ≡ spec.nothing_seen (map spec.text_items names.now)) }
    {
        Ok(Environment {
            names,
            visible: all_unseen(alloc, names)?,
            structs: Vec::new(alloc),
            functions: Vec::new(alloc),
            locals: Vec::new(alloc),
        })
    }

    /// What the name means here.
    pub fn meaning(&self, name: NameId) -> Entity
        ensures { result ≡ spec.meaning self.now name }
    {
        match self.visible.get(name.0 as usize) {
            Some(entity) => *entity,
            None => Entity::Unseen,
        }
    }

    /// The name's bytes; none of one that there isn't.
    pub fn text(&self, name: NameId) -> &[u8]
        ensures { result.now ≡ spec.text self.now name }
    {
        match self.names.get(name.0 as usize) {
            Some(text) => text,
            None => &[],
        }
    }

    /// The function with this number.
    pub fn function(&self, number: u32) -> Option<&Signature>
        ensures { option_map (λ f. spec.signature_view f.now) result ≡ spec.function self.now number }
    {
        self.functions.get(number as usize)
    }

    /// The struct with this number.
    pub fn structure(&self, number: u32) -> Option<&Structure>
        ensures { option_map (λ s. spec.structure_view s.now) result ≡ spec.structure self.now number }
    {
        self.structs.get(number as usize)
    }

    /// The variable or parameter with this number.
    pub fn local(&self, number: u32) -> Option<TypedLocal>
        ensures { result ≡ spec.local self.now number }
    {
        self.locals.get(number as usize).copied()
    }

    /// The name means this from here on.
    pub fn see_as(&mut self, name: NameId, entity: Entity)
        ensures { self.new ≡ spec.seen_as name entity self.old }
    {
        see_as(&mut self.visible, name, entity);
    }

    /// These names mean nothing from here on.
    pub fn forget(&mut self, names: &[NameId])
        ensures { self.new ≡ spec.forgotten names.now self.old }
    {
        'names: for name in names {
            self.see_as(*name, Entity::Unseen);
        }
    }

    /// Declares a variable or parameter of the function at hand: it gets the next number, and its
    /// name means it from here on.
    pub fn declare(&mut self, local: TypedLocal) -> Result<u32, IllFault>
        ensures { spec.Declares self.new result (spec.declared local self.old) }
    {
        let number = next_number(self.locals.len(), local.place)?;
        self.locals.push(local)?;
        self.see_as(local.name, Entity::Local(number));
        Ok(number)
    }

    /// Declares a struct: it gets the next number, and the name means it from here on.
    pub fn declare_structure(
        &mut self,
        name: NameId,
        place: Place,
        structure: Structure,
    ) -> Result<u32, IllFault>
        ensures { spec.Declares self.new result (spec.structure_declared name place (spec.structure_view structure) self.old) }
    {
        let number = next_number(self.structs.len(), place)?;
        self.structs.push(structure)?;
        self.see_as(name, Entity::Structure(number));
        Ok(number)
    }

    /// Declares a function: it gets the next number, and the name means it from here on.
    pub fn declare_function(
        &mut self,
        name: NameId,
        place: Place,
        signature: Signature,
    ) -> Result<u32, IllFault>
        ensures { spec.Declares self.new result (spec.function_declared name place (spec.signature_view signature) self.old) }
    {
        let number = next_number(self.functions.len(), place)?;
        self.functions.push(signature)?;
        self.see_as(name, Entity::Function(number));
        Ok(number)
    }

    /// Ends the function at hand, and hands out its variables and parameters.
    pub fn end_function(&mut self, alloc: Global) -> Vec<TypedLocal>
        ensures locals { result.items ≡ self.old.locals }
        ensures scope { self.new ≡ spec.without_locals self.old }
    {
        std::mem::replace(&mut self.locals, Vec::new(alloc))
    }
}

/// The next number where there are so many.
fn next_number(count: usize, place: Place) -> Result<u32, IllFault>
    ensures { (after : spec.Scope) → spec.Declares after result (spec.numbered count place after) }
{
    if count < MOST {
        Ok(count as u32)
    } else {
        Err(IllFault::Ill {
            kind: IllKind::Unsupported,
            place,
        })
    }
}

/// No name means anything.
fn all_unseen(alloc: Global, names: &[Vec<u8>]) -> Result<Vec<Entity>, NoMemory>
    ensures { IfOk result (λ v. v.items ≡ spec.unseen_names (map spec.text_items names.now)) }
{
    let mut visible = Vec::new(alloc);
    'names: for _name in names {
        visible.push(Entity::Unseen)?;
    }
    Ok(visible)
}

/// A name that there is means this.
fn see_as(visible: &mut Vec<Entity>, name: NameId, entity: Entity)
    ensures { visible.new.items ≡ slice_set visible.old.items name.0 entity }
{
    if let Some(seen) = visible.get_mut(name.0 as usize) {
        *seen = entity;
    }
}
