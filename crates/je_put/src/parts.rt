//! What is put at each index of a program.

ghost use Rattle.std.specs.Prelude.{◌≡◌, [], length, IfOk, OnOk};
ghost use Rattle.je_put.specs.Parts.{here_of, nothing_here, with_place, with_entry, with_places};
ghost use Rattle.je_put.specs.Parts.{with_entries, HasParts, RowsBecome};

use crate::block::{Block, EntryBlock, PlaceBlock};
use je_base::Memory;
use std::alloc::Global;

/// What is put at one index.
#[derive(Drop)]
pub(crate) struct Parts<'a> {
    /// What stands in the way of handlers that lead there.
    pub entries: Vec<&'a EntryBlock>,
    /// What stands before the instruction, and jumps pass by.
    pub passed: Vec<&'a Block>,
    /// What stands before it, and jumps meet.
    pub met: Vec<&'a Block>,
    /// What stands in its place.
    pub instead: Option<&'a Block>,
}

impl<'a> Parts<'a> {
    fn new(alloc: Global) -> Parts<'a>
        ensures { here_of result ≡ nothing_here }
    {
        Parts {
            entries: Vec::new(alloc),
            passed: Vec::new(alloc),
            met: Vec::new(alloc),
            instead: None,
        }
    }

    fn add_place(&mut self, place: &'a PlaceBlock) -> Result<(), Memory>
        ensures { OnOk result (here_of self.new ≡ with_place place.now (here_of self.old)) }
    {
        if !place.jumps {
            self.passed.push(&place.block)?;
        } else if !place.removed {
            self.met.push(&place.block)?;
        }
        if place.removed && self.instead.is_none() {
            self.instead = Some(&place.block);
        }
        Ok(())
    }

    fn add_entry(&mut self, entry: &'a EntryBlock) -> Result<(), Memory>
        ensures { OnOk result (here_of self.new ≡ with_entry entry.now (here_of self.old)) }
    {
        self.entries.push(entry)?;
        Ok(())
    }
}

/// A table of so many indexes at which nothing is put.
fn empty_parts<'a>(alloc: Global, count: usize) -> Result<Vec<Parts<'a>>, Memory>
    ensures { IfOk result (λ table. HasParts [] [] count table.items) }
{
    let mut table = Vec::with_capacity(alloc, count)?;
    for _ in 0..count {
        table.push(Parts::new(alloc))?;
    }
    Ok(table)
}

/// Adds the blocks at indexes of the table.
fn add_places<'a>(table: &mut Vec<Parts<'a>>, places: &'a [PlaceBlock]) -> Result<(), Memory>
    ensures rows { OnOk result (RowsBecome (λ i h. h) (λ i. with_places i places.now)
        table.old.items table.new.items) }
    ensures long { OnOk result (length table.new.items ≡ length table.old.items) }
{
    let mut rest = places;
    while let Some((place, tail)) = rest.split_first() {
        let at = place.at as usize;
        if at < table.len() {
            table[at].add_place(place)?;
        }
        rest = tail;
    }
    Ok(())
}

/// Adds the blocks in the way of handlers that lead to indexes of the table.
fn add_entries<'a>(table: &mut Vec<Parts<'a>>, entries: &'a [EntryBlock]) -> Result<(), Memory>
    ensures rows { OnOk result (RowsBecome (λ i h. h) (λ i. with_entries i entries.now)
        table.old.items table.new.items) }
    ensures long { OnOk result (length table.new.items ≡ length table.old.items) }
{
    let mut rest = entries;
    while let Some((entry, tail)) = rest.split_first() {
        let at = entry.target as usize;
        if at < table.len() {
            table[at].add_entry(entry)?;
        }
        rest = tail;
    }
    Ok(())
}

/// What is put at each of so many indexes.
///
/// # Errors
///
/// `Memory`: there was no memory for the table.
pub(crate) fn parts_of<'a>(
    alloc: Global,
    count: usize,
    places: &'a [PlaceBlock],
    entries: &'a [EntryBlock],
) -> Result<Vec<Parts<'a>>, Memory>
    ensures { IfOk result (λ table. HasParts places.now entries.now count table.items) }
{
    let mut table = empty_parts(alloc, count)?;
    add_places(&mut table, places)?;
    add_entries(&mut table, entries)?;
    Ok(table)
}
