// The rows of the plain store: where each object lies while it lives.
ghost use Rattle.std.specs.Option.{option_copied};
ghost use Rattle.std.specs.Prelude.{◌≡◌, ◌≤◌, ◌<◌, ◌++◌, ◌∷◌, [], length, slice_get, slice_set, false, is_some, IfSome, MatchOption, None, OnErr, OnOk, Some};
ghost use Rattle.life_store.specs.PlainRows.{entry_at, entry_resized, entry_with, AreTaken};
ghost use Rattle.life_store.specs.References.{CanResize, HasWord};

use crate::object::ObjRef;
use crate::plain_object::PlainObject;
use life_types::NoMemory;

/// An object, and the number of its birth.
#[derive(Drop)]
pub(crate) struct Entry {
    pub(crate) birth: u64,
    pub(crate) object: PlainObject,
}

/// The object to which the reference refers, if that lives.
#[inline(always)]
pub(crate) fn entry_at(rows: &[Option<Entry>], object: ObjRef) -> Option<&Entry>
    ensures { option_copied result ≡ entry_at rows.now object }
{
    let row = object.row as usize;
    if row < rows.len() {
        if let Some(entry) = &rows[row] {
            if entry.birth == object.birth {
                return Some(entry);
            }
        }
    }
    None
}

/// The same, taken out of its row.
pub(crate) fn take_entry(rows: &mut Vec<Option<Entry>>, object: ObjRef) -> Option<Entry>
    ensures { MatchOption result
        ((entry_at rows.old.items object ≡ None) × (rows.new.items ≡ rows.old.items))
        (λ e. (entry_at rows.old.items object ≡ Some e) × (rows.new.items ≡ slice_set rows.old.items object.row None)) }
{
    let row = object.row as usize;
    if row < rows.len() {
        if let Some(entry) = &rows[row] {
            if entry.birth == object.birth {
                return rows[row].take();
            }
        }
    }
    None
}

/// Puts what lies in a row.
pub(crate) fn put_entry(rows: &mut Vec<Option<Entry>>, row: u32, entry: Entry)
    requires { row < length rows.old.items }
    ensures { rows.new.items ≡ slice_set rows.old.items row (Some entry) }
{
    rows[row as usize] = Some(entry);
}

/// Sets a word of the object to which the reference refers, where that lies, if it lives.
#[inline(always)]
pub(crate) fn put_word(
    rows: &mut Vec<Option<Entry>>,
    object: ObjRef,
    slot: u32,
    word: u64,
    value: u64,
) -> bool
    requires { IfSome (entry_at rows.old.items object) (λ e. HasWord slot word e.object) }
    ensures lives { result ≡ is_some (entry_at rows.old.items object) }
    ensures put { IfSome (entry_at rows.old.items object) (λ e. rows.new.items ≡ slice_set rows.old.items object.row (Some (entry_with slot word value e))) }
    ensures stays { result ≡ false → rows.new.items ≡ rows.old.items }
{
    let row = object.row as usize;
    if row < rows.len() {
        if let Some(entry) = &rows[row] {
            if entry.birth == object.birth {
                put_in_row(&mut rows[row], slot, word, value);
                return true;
            }
        }
    }
    false
}

// The same in its row.
#[inline(always)]
fn put_in_row(row: &mut Option<Entry>, slot: u32, word: u64, value: u64)
    requires { IfSome row.old (λ e. HasWord slot word e.object) }
    ensures { IfSome row.old (λ e. row.new ≡ Some (entry_with slot word value e)) }
{
    if let Some(entry) = row {
        entry.object.put(slot, word, value);
    }
}

/// Gives the object to which the reference refers so many slots, where that lies, if it lives.
pub(crate) fn resize_at(
    rows: &mut Vec<Option<Entry>>,
    object: ObjRef,
    length: u32,
    since: u32,
    moment: u64,
) -> bool
    requires fits { IfSome (entry_at rows.old.items object) (λ e. CanResize length since e.object) }
    requires later { IfSome (entry_at rows.old.items object) (λ e. e.object.end ≤ moment) }
    ensures lives { result ≡ is_some (entry_at rows.old.items object) }
    ensures resized { IfSome (entry_at rows.old.items object) (λ e. rows.new.items ≡ slice_set rows.old.items object.row (Some (entry_resized moment length since e))) }
    ensures stays { result ≡ false → rows.new.items ≡ rows.old.items }
{
    let row = object.row as usize;
    if row < rows.len() {
        if let Some(entry) = &rows[row] {
            if entry.birth == object.birth {
                resize_in_row(&mut rows[row], length, since, moment);
                return true;
            }
        }
    }
    false
}

// The same in its row.
fn resize_in_row(row: &mut Option<Entry>, length: u32, since: u32, moment: u64)
    requires fits { IfSome row.old (λ e. CanResize length since e.object) }
    requires later { IfSome row.old (λ e. e.object.end ≤ moment) }
    ensures { IfSome row.old (λ e. row.new ≡ Some (entry_resized moment length since e)) }
{
    if let Some(entry) = row {
        entry.object.resize(length, since, moment);
    }
}

/// The lowest row from this one on that is vacant, which may be the first behind all rows.
pub(crate) fn vacant_row(rows: &[Option<Entry>], from: usize) -> usize
    requires { AreTaken from rows.now }
    ensures taken { AreTaken result rows.now }
    ensures within { result ≤ length rows.now }
    ensures vacant { result < length rows.now → slice_get rows.now result ≡ Some None }
{
    let mut row = from;
    while row < rows.len() {
        match &rows[row] {
            None => return row,
            Some(_) => row += 1,
        }
    }
    row
}

/// Puts an object into a vacant row, or into a new one behind all rows. After `NoMemory` the rows are
/// as before.
pub(crate) fn fill_row(
    rows: &mut Vec<Option<Entry>>,
    row: usize,
    entry: Entry,
) -> Result<(), NoMemory>
    requires { row ≤ length rows.old.items }
    ensures filled { OnOk result (row < length rows.old.items → rows.new.items ≡ slice_set rows.old.items row (Some entry)) }
    ensures grown { OnOk result (row ≡ length rows.old.items → rows.new.items ≡ rows.old.items ++ Some entry ∷ []) }
    ensures err { OnErr result (rows.new.items ≡ rows.old.items) }
{
    if row < rows.len() {
        rows[row] = Some(entry);
    } else {
        rows.push(Some(entry))?;
    }
    Ok(())
}
