//! Fields with their values.

ghost use Rattle.std.specs.Prelude.{◌≡◌, ◌<◌, length, IfOk, OnOk, IfSome, option_copied};
ghost use Rattle.std.specs.Prelude.{option_map};
ghost use Rattle.std.specs.List.{position_from};
ghost use Rattle.std.specs.List as list;
ghost use Rattle.je_machine.specs.Classes.{is_same_key};
ghost use Rattle.je_heap.specs.Stored.{put_at};
ghost use Rattle.std.specs.FinMap.{get, insert, empty, from_entries};
ghost use Rattle.je_machine.specs.Heap.{key_cmp};

use crate::discard::discard;
use crate::field_key::FieldKey;
use je_base::Memory;
use je_value::Value;
use std::alloc::Global;
use std::marker::Model;

/// Fields with their values, which contracts see as the definition's `Fields`.
#[derive(Debug, Drop)]
pub struct Fields {
    entries: Vec<(FieldKey, Value)>,
}

impl Model for Fields {
    ghost use Rattle.std.specs.FinMap.{from_entries};
    ghost use Rattle.je_machine.specs.Heap.{Fields as Map, key_cmp};
    ghost use Rattle.je_heap.specs.Codes.{fields_code};

    ghost Value = { Map };

    ghost coded = { fields_code };

    ghost view = { λ f. from_entries f.entries.items };
}

/// The first entry of a key.
fn first_of<'a>(entries: &'a [(FieldKey, Value)], key: &FieldKey) -> Option<&'a Value>
    ensures { option_copied result ≡
        option_map (λ e. e.1) (list.find (λ e. is_same_key key.now e.0) entries.now) }
{
    entries.iter().find(|e| key.is_same(&e.0)).map(|e| &e.1)
}

/// What the map has at a key.
fn entry_of<'a>(entries: &'a [(FieldKey, Value)], key: &FieldKey) -> Option<&'a Value>
    ensures { option_copied result ≡ get {R = key_cmp} (from_entries entries.now) key.now }
{
    first_of(entries, key)
}

/// Where the first entry of a key stands.
fn position_of(entries: &[(FieldKey, Value)], key: &FieldKey) -> Option<usize>
    ensures place { result ≡ position_from (λ e. is_same_key key.now e.0) 0 entries.now }
    ensures bound { IfSome result (λ i. i < length entries.now) }
{
    entries.iter().position(|e| key.is_same(&e.0))
}

/// Writes a value behind the key at an index, and answers the one before.
#[tactic(auto, using(crate::proofs::KeyLemmas::set_is))]
fn put_at(entries: &mut [(FieldKey, Value)], i: usize, value: Value) -> Value
    requires { i < length entries.old }
    ensures { entries.new ≡ put_at entries.old i value }
{
    std::mem::replace(&mut entries[i].1, value)
}

/// Writes a value behind the key at an index.
fn put_in(entries: &mut Vec<(FieldKey, Value)>, i: usize, value: Value)
    requires { i < length entries.old.items }
    ensures { entries.new.items ≡ put_at entries.old.items i value }
{
    discard(put_at(entries, i, value));
}

/// Writes a value.
fn put(entries: &mut Vec<(FieldKey, Value)>, key: FieldKey, value: Value) -> Result<(), Memory>
    ensures { OnOk result (from_entries {R = key_cmp} entries.new.items
        ≡ insert (from_entries entries.old.items) key value) }
{
    match position_of(entries, &key) {
        Some(i) => {
            put_in(entries, i, value);
            Ok(())
        }
        None => {
            entries.push((key, value))?;
            Ok(())
        }
    }
}

/// The same entry once more.
fn copy_entry(entry: &(FieldKey, Value)) -> Result<(FieldKey, Value), Memory>
    ensures { IfOk result (λ e. e ≡ entry.now) }
{
    let key = entry.0.copy()?;
    let value = entry.1.copy()?;
    Ok((key, value))
}

/// The same entries once more.
fn copy_entries(
    alloc: Global,
    entries: &[(FieldKey, Value)],
) -> Result<Vec<(FieldKey, Value)>, Memory>
    ensures { IfOk result (λ v. v.items ≡ entries.now) }
{
    let mut copies = Vec::with_capacity(alloc, entries.len())?;
    for entry in entries {
        copies.push(copy_entry(entry)?)?;
    }
    Ok(copies)
}

impl Fields {
    /// No fields.
    pub fn new(alloc: Global) -> Fields
        ensures { result ≡ empty }
    {
        Fields {
            entries: Vec::new(alloc),
        }
    }

    /// The value of a field.
    pub fn get(&self, key: &FieldKey) -> Option<&Value>
        ensures { option_copied result ≡ get self.now key.now }
    {
        entry_of(&self.entries, key)
    }

    /// Writes a field.
    ///
    /// # Errors
    ///
    /// `Memory` where memory runs out.
    pub fn put(&mut self, key: FieldKey, value: Value) -> Result<(), Memory>
        ensures { OnOk result (self.new ≡ insert self.old key value) }
    {
        put(&mut self.entries, key, value)
    }

    /// The same fields once more.
    ///
    /// # Errors
    ///
    /// `Memory` where memory runs out.
    pub fn copy(&self, alloc: Global) -> Result<Fields, Memory>
        ensures { IfOk result (λ fields. fields ≡ self.now) }
    {
        let entries = copy_entries(alloc, &self.entries)?;
        Ok(Fields { entries })
    }
}
