// The table that numbers the types of a program.
ghost use Rattle.std.specs.Prelude.{◌≡◌, ℕ, ◌<◌, ◌-◌, ◌^◌, ◌∷◌, ◌++◌, [], false, length, map, min, IfOk, OnErr, OnOk, Some, slice_get};
ghost use Rattle.std.specs.List.{list_any};
ghost use Rattle.life_types.specs.declared.ty.TyId.{TyId};
ghost use Rattle.life_types.specs.contracts.ty.TyPartialEq.TheImpl.{ghosts as compared};
ghost use Rattle.life_types.specs.Facts.{facts, ids_of};
ghost use Rattle.life_types.specs.Trees.{holds_owner, holds_unique, is_plain, members_at, struct_of, tree_at, tree_of, words, IsOrdered};
ghost use Rattle.life_types.specs.Types.{class_at, is_slot_at, is_slot_target, with_type, HasEachOnce, HasParts, HasTypes};

use crate::facts::{Facts, NO_MEMBERS, POINTER, TEXT, UNIQUE, VALUE, together};
use crate::memory::NoMemory;
use crate::ty::{Class, Ty, TyId};
use indexmap::IndexMap;
use std::alloc::Global;
use std::marker::Model;

/// The types of a program, each once, numbered from 0 in the order in which they were added, and
/// the members of its structs, numbered in the same way. The parts of a type have smaller numbers
/// than the type.
#[derive(Drop)]
pub struct TypeTable {
    types: IndexMap<Ty, Facts>,
    structs: Vec<Vec<TyId>>,
}

impl Model for TypeTable {
    ghost use Rattle.life_types.specs.Types.{Types};
    ghost use Rattle.life_types.specs.Facts.{table_in, IsKept};

    ghost Value = { Types };

    ghost view = { λ table. table_in table.types.entries table.structs.items };

    ghost invariant = { λ table. IsKept table.types.entries table.structs.items };
}

impl TypeTable {
    /// A table without types. It takes no memory.
    pub fn new(alloc: Global) -> TypeTable
        ensures { result ≡ record { types = []; structs = [] } }
    {
        TypeTable {
            types: IndexMap::new(alloc),
            structs: Vec::new(alloc),
        }
    }

    /// A table with the same types and structs. It takes memory for both.
    pub fn copied(&self, alloc: Global) -> Result<TypeTable, NoMemory>
        ensures { IfOk result (λ copy. copy ≡ self.now) }
    {
        let types = self.types.clone()?;
        let structs = copied_structs(alloc, &self.structs)?;
        Ok(TypeTable { types, structs })
    }

    /// The number of the type: that of an equal type if the table has one, else the next number.
    /// Numbers that were given before keep their types and the parts of these. After `NoMemory` the
    /// table is as before.
    pub fn add(&mut self, ty: Ty) -> Result<TyId, NoMemory>
        requires room { length self.old.types < 2 ^ 32 - 1 }
        requires parts { HasParts self.old ty }
        ensures number { IfOk result (λ id. slice_get self.new.types id.0 ≡ Some ty) }
        ensures grown { OnOk result (self.new ≡ record self.old { types = with_type self.old.types ty }) }
        ensures made { IfOk result (λ id. tree_at self.new id ≡ tree_of self.old (tree_at self.old) (Some ty)) }
        ensures trees { (id : TyId) → id.0 < length self.old.types → tree_at self.new id ≡ tree_at self.old id }
        ensures once { HasEachOnce self.new }
        ensures err { OnErr result (self.new ≡ self.old) }
    {
        match self.types.get_index_of(&ty) {
            Some(number) => Ok(TyId(number as u32)),
            None => self.push(ty),
        }
    }

    // The next number, for a type that the table doesn't have.
    fn push(&mut self, ty: Ty) -> Result<TyId, NoMemory>
        requires room { length self.old.types < 2 ^ 32 - 1 }
        requires parts { HasParts self.old ty }
        requires absent { list_any (compared.eq ty) self.old.types ≡ false }
        ensures number { IfOk result (λ id. slice_get self.new.types id.0 ≡ Some ty) }
        ensures grown { OnOk result (self.new ≡ record self.old { types = with_type self.old.types ty }) }
        ensures made { IfOk result (λ id. tree_at self.new id ≡ tree_of self.old (tree_at self.old) (Some ty)) }
        ensures trees { (id : TyId) → id.0 < length self.old.types → tree_at self.new id ≡ tree_at self.old id }
        ensures once { HasEachOnce self.new }
        ensures err { OnErr result (self.new ≡ self.old) }
    {
        let facts = self.facts_of(ty);
        let next = self.types.len();
        self.types.insert(ty, facts)?;
        Ok(TyId(next as u32))
    }

    /// The next number of a struct, for one with these members, in their order. Numbers that were
    /// given before keep their members, and types their parts. After `NoMemory` the table is as
    /// before.
    pub fn add_struct(&mut self, members: Vec<TyId>) -> Result<u32, NoMemory>
        requires room { length self.old.structs < 2 ^ 32 - 1 }
        requires parts { HasTypes self.old members.items }
        requires some { 0 < length members.items }
        ensures number { IfOk result (λ number. number ≡ length self.old.structs) }
        ensures grown { OnOk result (self.new ≡ record self.old { structs = self.old.structs ++ members.items ∷ [] }) }
        ensures trees { (id : TyId) → id.0 < length self.old.types → tree_at self.new id ≡ tree_at self.old id }
        ensures err { OnErr result (self.new ≡ self.old) }
    {
        let number = self.structs.len();
        self.structs.push(members)?;
        Ok(number as u32)
    }

    /// The type with this number, if the table has it.
    pub fn get(&self, id: TyId) -> Option<Ty>
        ensures { result ≡ slice_get self.now.types id.0 }
    {
        match self.types.get_index(id.0 as usize) {
            Some((ty, _)) => Some(*ty),
            None => None,
        }
    }

    /// The type with this number.
    pub fn ty(&self, id: TyId) -> Ty
        requires { id.0 < length self.now.types }
        ensures ty { slice_get self.now.types id.0 ≡ Some result }
        ensures made { tree_at self.now id ≡ tree_of self.now (tree_at self.now) (Some result) }
        ensures ordered { IsOrdered self.now }
    {
        let index = id.0 as usize;
        match self.types.get_index(index) {
            Some((ty, _)) => *ty,
            None => unreachable!(),
        }
    }

    /// How many structs have members here: their numbers are those below. It takes no memory.
    pub fn struct_count(&self) -> usize
        ensures { result ≡ length self.now.structs }
    {
        self.structs.len()
    }

    /// The members of the struct with this number.
    pub fn members(&self, number: u32) -> &[TyId]
        requires { number < length self.now.structs }
        ensures { slice_get self.now.structs number ≡ Some result.now }
    {
        &self.structs[number as usize]
    }

    // What was kept with the type with this number; a number that the table doesn't have counts as
    // void.
    fn facts_at(&self, id: TyId) -> Facts
        ensures { result ≡ facts (tree_at self.now id) }
    {
        match self.types.get_index(id.0 as usize) {
            Some((_, facts)) => *facts,
            None => VALUE,
        }
    }

    // What follows for a type from what was kept with its parts.
    fn facts_of(&self, ty: Ty) -> Facts
        requires { HasParts self.now ty }
        ensures { result ≡ facts (tree_of self.now (tree_at self.now) (Some ty)) }
    {
        match ty {
            Ty::Void | Ty::Bool | Ty::Char | Ty::Int | Ty::Long | Ty::Size => VALUE,
            Ty::Text => TEXT,
            Ty::Vector(element) => Facts {
                plain: self.facts_at(element).plain,
                owner: true,
                unique: false,
                words: 1,
            },
            Ty::Unique(_) => UNIQUE,
            Ty::View
            | Ty::Raw { .. }
            | Ty::Reference { .. }
            | Ty::Iterator { .. }
            | Ty::Span { .. } => POINTER,
            Ty::Struct(number) => self.facts_of_members(self.members(number)),
        }
    }

    fn facts_of_members(&self, members: &[TyId]) -> Facts
        ensures { result ≡ facts (struct_of (tree_at self.now) members.now) }
    {
        let mut all = NO_MEMBERS;
        for member in members {
            all = together(all, self.facts_at(*member));
        }
        all
    }
}

fn copied_members(members: &Vec<TyId>) -> Result<Vec<TyId>, NoMemory>
    ensures { IfOk result (λ copy. copy.items ≡ members.now.items) }
{
    Ok(members.clone()?)
}

fn copied_structs(alloc: Global, structs: &[Vec<TyId>]) -> Result<Vec<Vec<TyId>>, NoMemory>
    ensures { IfOk result (λ copies. map ids_of copies.items ≡ map ids_of structs.now) }
{
    let mut copies = Vec::new(alloc);
    'structs: for members in structs {
        copies.push(copied_members(members)?)?;
    }
    Ok(copies)
}

/// The class of the type with this number. `void`, and a number that the table doesn't have, count
/// as values.
pub fn class_of(table: &TypeTable, ty: TyId) -> Class
    ensures { result ≡ class_at table.now ty }
{
    match table.get(ty) {
        Some(Ty::Text) => Class::Owner,
        Some(Ty::Vector(_)) => Class::Owner,
        Some(Ty::Unique(_)) => Class::Owner,
        Some(Ty::View) => Class::Pointer,
        Some(Ty::Raw { .. }) => Class::Pointer,
        Some(Ty::Reference { .. }) => Class::Pointer,
        Some(Ty::Iterator { .. }) => Class::Pointer,
        Some(Ty::Span { .. }) => Class::Pointer,
        Some(Ty::Struct(_)) => Class::Aggregate,
        _ => Class::Value,
    }
}

/// Whether the type with this number is plain: through members and elements it holds nothing of
/// class Pointer and no `std::unique_ptr`. It takes constant time, as the questions below.
pub fn is_plain(table: &TypeTable, ty: TyId) -> bool
    ensures { result ≡ is_plain (tree_at table.now ty) }
{
    table.facts_at(ty).plain
}

/// Whether the type with this number holds an owner: it is one, or has a member that holds one.
pub fn holds_owner(table: &TypeTable, ty: TyId) -> bool
    ensures { result ≡ holds_owner (tree_at table.now ty) }
{
    table.facts_at(ty).owner
}

/// Whether the type with this number is a `std::unique_ptr`, or has a member that holds one, so that
/// it can't be copied (ISO/IEC 14882:2017 [class.copy.ctor]).
pub fn holds_unique(table: &TypeTable, ty: TyId) -> bool
    ensures { result ≡ holds_unique (tree_at table.now ty) }
{
    table.facts_at(ty).unique
}

/// The words that an object of the type with this number takes, at most 2^48: one for a value or an
/// owner, five for a pointer, and for a struct those of its members.
pub fn words_of(table: &TypeTable, ty: TyId) -> u64
    ensures { result ≡ min (words (tree_at table.now ty)) (2 ^ 48) }
{
    table.facts_at(ty).words
}

/// Whether a parameter of the type with this number is a slot: a reference without const to an
/// iterator, a span, a `std::string_view` or a `std::unique_ptr`.
pub fn is_slot(table: &TypeTable, ty: TyId) -> bool
    ensures { result ≡ is_slot_at table.now ty }
{
    match table.get(ty) {
        Some(
            Ty::Reference {
                target,
                constant: false,
            },
        ) => is_slot_target(table.get(target)),
        _ => false,
    }
}

fn is_slot_target(ty: Option<Ty>) -> bool
    ensures { result ≡ is_slot_target ty }
{
    matches!(
        ty,
        Some(Ty::Iterator { .. } | Ty::Span { .. } | Ty::View | Ty::Unique(_))
    )
}
