//! The new exception table.

ghost use Rattle.std.specs.Prelude.{◌≡◌, ◌<◌, ◌+◌, ◌-◌, suc, List, [], ◌∷◌, ◌++◌, length, map};
ghost use Rattle.std.specs.Prelude.{filter, position, slice_get, OnOk, IfOk};
ghost use Rattle.std.specs.List.{AllByRecursion};
ghost use Rattle.je_instr.specs.Assembling.{IsWithinProgram};
ghost use Rattle.je_splice.specs.InstrCodes.{instr_codes, moved_entry_of, covers_some};
ghost use Rattle.je_splice.specs.Layout.{own_from, own_handlers, laid_handlers, shut};
ghost use Rattle.je_splice.specs.Layout.{body_width, width_there};
ghost use Rattle.je_splice.specs.Marks.{Marks, first_of, marked_handlers};
ghost use Rattle.je_instr.specs.declared.program.Handler.{Handler};
ghost use Rattle.je_put.specs.declared.block.Block.{Block};
ghost use Rattle.je_put.specs.declared.block.EntryBlock.{EntryBlock};
ghost use Rattle.je_put.specs.declared.block.PlaceBlock.{PlaceBlock};
ghost use Rattle.je_put.specs.Placing.{put_before, block_marks};
ghost use Rattle.je_put.specs.Result.{Lists, with_piece, pieces};
ghost use Rattle.je_put.specs.Parts.{HasParts};
ghost use Rattle.je_put.specs.Items.{item_seen, items_seen};
ghost use Rattle.je_put.specs.Tables.{begins_from, AreTables, entry_place, moved_handler};

use crate::block::EntryBlock;
use crate::items::Item;
use crate::parts::Parts;
use crate::sums::{index_behind, sum};
use crate::tables::{Tables, begin_of, width_of};
use je_base::Memory;
use je_instr::{Handler, InstrIndex};
use std::alloc::Global;

/// Appends an entry that covers something.
fn push_entry(out: &mut Vec<Handler>, handler: Handler) -> Result<(), Memory>
    ensures { OnOk result
        (out.new.items ≡ out.old.items ++ filter covers_some (handler ∷ [])) }
{
    if handler.start < handler.end {
        out.push(handler)?;
    }
    Ok(())
}

/// Appends the entries of a block that stands at an index.
fn push_own(out: &mut Vec<Handler>, handlers: &[Handler], at: InstrIndex) -> Result<(), Memory>
    ensures { OnOk result (out.new.items ≡ out.old.items ++ filter covers_some
        (map (moved_entry_of (λ start. at + start) (λ end. at + end) (λ target. at + target))
        handlers.now)) }
{
    let mut rest = handlers;
    while let Some((handler, tail)) = rest.split_first() {
        let moved = Handler {
            start: index_behind(at, handler.start as usize)?,
            end: index_behind(at, handler.end as usize)?,
            target: index_behind(at, handler.target as usize)?,
            catch_const: handler.catch_const,
        };
        push_entry(out, moved)?;
        rest = tail;
    }
    Ok(())
}

/// Appends the entries of what stands at a place.
fn push_item(out: &mut Vec<Handler>, item: Item<'_>, at: InstrIndex) -> Result<(), Memory>
    ensures { OnOk result ((m : Marks Block Handler) → out.new.items ≡ out.old.items
        ++ filter covers_some
        (own_handlers instr_codes at (with_piece (item_seen m item.entry)))) }
{
    match item {
        Item::Jumps(_) => {}
        Item::Keeps(_, _) => {}
        Item::Puts(_, block) => push_own(out, block.handlers.as_slice(), at)?,
    }
    Ok(())
}

/// The entries of all blocks.
fn own_of(alloc: Global, items: &[Item<'_>]) -> Result<Vec<Handler>, Memory>
    ensures { IfOk result (λ own. (m : Marks Block Handler) → own.items
        ≡ filter covers_some (own_from instr_codes 0 (pieces (items_seen m items.now)))) }
{
    let mut own = Vec::new(alloc);
    let mut at = 0;
    for item in items {
        push_item(&mut own, *item, at)?;
        at = index_behind(at, width_of(*item)?)?;
    }
    Ok(own)
}

/// How many instructions what stands at a place takes itself.
fn body_of(item: Item<'_>) -> usize
    ensures { (m : Marks Block Handler) →
        result ≡ body_width (with_piece (item_seen m item.entry)) }
{
    match item {
        Item::Jumps(_) => 1,
        Item::Keeps(_, _) => 1,
        Item::Puts(_, block) => block.instrs.len(),
    }
}

fn body_at(items: &[Item<'_>], place: usize) -> usize
    ensures { (m : Marks Block Handler) →
        result ≡ width_there (slice_get (pieces (items_seen m items.now)) place) }
{
    if place < items.len() {
        body_of(items[place])
    } else {
        0
    }
}

/// Where a range ends: behind the last place's own code.
fn shut_of(items: &[Item<'_>], begins: &[InstrIndex], place: usize) -> Result<InstrIndex, Memory>
    requires { 0 < length begins.now }
    ensures { IfOk result (λ n. (m : Marks Block Handler) →
        begins.now ≡ begins_from 0 (pieces (items_seen m items.now))
        → n ≡ shut (pieces (items_seen m items.now)) place) }
{
    if place == 0 {
        return Ok(0);
    }
    let last = place - 1;
    let end = index_behind(begin_of(begins, last), body_at(items, last))?;
    Ok(end)
}

/// Which of the blocks in the way of a handler's target it meets.
fn entry_met(entries: &[&EntryBlock], handler: &Handler) -> Option<usize>
    ensures { result ≡ position (λ put. put.meets handler.now)
        (map (λ e. put_before e.now) entries.now) }
{
    for (k, entry) in entries.iter().enumerate() {
        if handler.catch_const == entry.catch_const {
            return Some(k);
        }
    }
    None
}

/// The place to which a handler leads.
fn place_of(table: &[Parts<'_>], firsts: &[usize], handler: &Handler) -> Result<usize, Memory>
    requires table { handler.now.target < length table.now }
    requires firsts { handler.now.target < length firsts.now }
    ensures { IfOk result (λ place. (places : List PlaceBlock) (entries : List EntryBlock) →
        HasParts places entries (length table.now) table.now
        → Lists (first_of (block_marks places entries)) (length firsts.now) firsts.now
        → place ≡ entry_place (block_marks places entries) handler.now) }
{
    let target = handler.target as usize;
    let parts = &table[target];
    let place = match entry_met(&parts.entries, handler) {
        Some(k) => sum(firsts[target], k)?,
        None => sum(
            firsts[target],
            sum(parts.entries.len(), parts.passed.len())?,
        )?,
    };
    Ok(place)
}

/// The entry of the program with its indexes in the new code.
fn moved(
    handler: &Handler,
    items: &[Item<'_>],
    table: &[Parts<'_>],
    tables: &Tables,
    begins: &[InstrIndex],
) -> Result<Handler, Memory>
    requires some { 0 < length begins.now }
    requires within { IsWithinProgram (length table.now - 1) handler.now }
    requires table { length tables.now.firsts.items ≡ length table.now }
    ensures { IfOk result (λ h. (places : List PlaceBlock) (entries : List EntryBlock) →
        HasParts places entries (length table.now) table.now
        → begins.now ≡ begins_from 0 (pieces (items_seen (block_marks places entries) items.now))
        → AreTables (block_marks places entries)
        (pieces (items_seen (block_marks places entries) items.now)) (length table.now) tables.now
        → h ≡ moved_handler (block_marks places entries)
        (pieces (items_seen (block_marks places entries) items.now)) handler.now) }
{
    let start = begin_of(begins, tables.firsts[handler.start as usize]);
    let end = shut_of(items, begins, tables.firsts[handler.end as usize])?;
    let place = place_of(table, &tables.firsts, handler)?;
    Ok(Handler {
        start,
        end,
        target: begin_of(begins, place),
        catch_const: handler.catch_const,
    })
}

/// The new exception table: the entries of the blocks, and then those of the program.
///
/// # Errors
///
/// `Memory`: there was no memory for the table.
pub(crate) fn handlers_of(
    alloc: Global,
    handlers: &[Handler],
    items: &[Item<'_>],
    table: &[Parts<'_>],
    tables: &Tables,
    begins: &[InstrIndex],
) -> Result<Vec<Handler>, Memory>
    requires some { 0 < length begins.now }
    requires within { AllByRecursion (IsWithinProgram (length table.now - 1)) handlers.now }
    requires table { length tables.now.firsts.items ≡ length table.now }
    ensures { IfOk result (λ all. (places : List PlaceBlock) (entries : List EntryBlock) →
        HasParts places entries (length table.now) table.now
        → begins.now ≡ begins_from 0 (pieces (items_seen (block_marks places entries) items.now))
        → AreTables (block_marks places entries)
        (pieces (items_seen (block_marks places entries) items.now)) (length table.now) tables.now
        → all.items ≡ laid_handlers instr_codes
        (pieces (items_seen (block_marks places entries) items.now))
        (marked_handlers instr_codes (block_marks places entries) handlers.now)) }
{
    let mut all = own_of(alloc, items)?;
    let mut rest = handlers;
    while let Some((handler, tail)) = rest.split_first() {
        push_entry(&mut all, moved(handler, items, table, tables, begins)?)?;
        rest = tail;
    }
    Ok(all)
}
