//! The instructions of a program and the blocks at their indexes, in a row.

ghost use Rattle.std.specs.Prelude.{◌≡◌, ℕ, suc, List, [], ◌∷◌, ◌++◌, length, map, IfOk, OnOk};
ghost use Rattle.std.specs.List.{AllByRecursion};
ghost use Rattle.std.specs.Option.{option_map};
ghost use Rattle.je_instr.specs.CodeProgram.{HasTargets};
ghost use Rattle.je_instr.specs.declared.program.Handler.{Handler};
ghost use Rattle.je_splice.specs.InstrCodes.{instr_codes};
ghost use Rattle.je_splice.specs.Layout as layout;
ghost use Rattle.je_splice.specs.Marks.{Marks, entry_items, last_item, index_items, lead_items};
ghost use Rattle.je_splice.specs.Marks.{marked_items, over_if};
ghost use Rattle.je_put.specs.declared.block.Block.{Block};
ghost use Rattle.je_put.specs.declared.block.EntryBlock.{EntryBlock};
ghost use Rattle.je_put.specs.declared.block.PlaceBlock.{PlaceBlock};
ghost use Rattle.je_put.specs.Placing.{completes, block_marks};
ghost use Rattle.je_put.specs.Parts.{here_of, HasParts};
ghost use Rattle.je_put.specs.Items.{item_seen, items_seen, IsHere};
ghost use Rattle.je_put.specs.Tables.{HasTargetsBelow};

use crate::block::{Block, EntryBlock};
use crate::parts::Parts;
use crate::redirect::may_lead_on;
use crate::sums::sum;
use je_base::Memory;
use je_instr::Instr;
use std::alloc::Global;

/// What stands at a place.
#[derive(Clone, Copy)]
pub(crate) enum Item<'a> {
    /// A jump to a place.
    Jumps(usize),
    /// An instruction of the program, behind which so many places are passed.
    Keeps(usize, &'a Instr),
    /// A block, behind which so many places are passed.
    Puts(usize, &'a Block),
}

/// Whether the place behind a block can be reached.
fn may_complete(block: &Block) -> bool
    ensures { result ≡ completes block.now }
{
    let behind = block.instrs.len();
    let mut rest = block.shapes.as_slice();
    while let Some((known, tail)) = rest.split_first() {
        if known.0 as usize == behind {
            return true;
        }
        rest = tail;
    }
    false
}

/// The places that a block passes where it completes.
fn passed_by(block: &Block, places: usize) -> usize
    ensures { result ≡ over_if (completes block.now) places }
{
    if may_complete(block) { places } else { 0 }
}

/// Appends the blocks in the way of handlers, which lead past those behind them and so many places.
fn push_entries<'a>(
    items: &mut Vec<Item<'a>>,
    entries: &[&'a EntryBlock],
    passed: usize,
) -> Result<(), Memory>
    ensures seen { OnOk result ((m : Marks Block Handler) → m.completes ≡ completes
        → items_seen m items.new.items ≡ items_seen m items.old.items
        ++ entry_items m passed (map (λ e. e.now.block) entries.now)) }
    ensures kept { OnOk result ((count : ℕ) →
        AllByRecursion (HasTargetsBelow count) items.old.items
        → AllByRecursion (HasTargetsBelow count) items.new.items) }
{
    for (k, entry) in entries.iter().enumerate() {
        let behind = entries.len() - k - 1;
        let over = passed_by(&entry.block, sum(behind, passed)?);
        items.push(Item::Puts(over, &entry.block))?;
    }
    Ok(())
}

/// Appends blocks that lead to the next place.
fn push_blocks<'a>(items: &mut Vec<Item<'a>>, blocks: &[&'a Block]) -> Result<(), Memory>
    ensures seen { OnOk result ((m : Marks Block Handler) → items_seen m items.new.items
        ≡ items_seen m items.old.items ++ map (λ b. layout.Puts 0 b.now) blocks.now) }
    ensures kept { OnOk result ((count : ℕ) →
        AllByRecursion (HasTargetsBelow count) items.old.items
        → AllByRecursion (HasTargetsBelow count) items.new.items) }
{
    for block in blocks {
        items.push(Item::Puts(0, *block))?;
    }
    Ok(())
}

/// The instruction, or what stands in its place. So many places behind it are passed.
fn last_of<'a>(instr: &'a Instr, instead: Option<&'a Block>, next: usize) -> Item<'a>
    ensures seen { (m : Marks Block Handler) (i : ℕ) → m.completes ≡ completes
        → length (m.entries (suc i)) ≡ next
        → item_seen m result
        ≡ last_item instr_codes m i instr.now (option_map (λ b. b.now) instead.entry) }
    ensures kept { (count : ℕ) → HasTargets count instr.now → HasTargetsBelow count result }
{
    match instead {
        Some(block) => Item::Puts(passed_by(block, next), block),
        None => {
            let over = if may_lead_on(instr) { next } else { 0 };
            Item::Keeps(over, instr)
        }
    }
}

/// Appends what stands at an index. So many blocks are in the way of handlers at the next one.
fn push_index<'a>(
    items: &mut Vec<Item<'a>>,
    parts: &Parts<'a>,
    instr: &'a Instr,
    next: usize,
) -> Result<(), Memory>
    ensures seen { OnOk result ((m : Marks Block Handler) (i : ℕ) →
        IsHere m i (here_of parts.now) next → items_seen m items.new.items
        ≡ items_seen m items.old.items ++ index_items instr_codes m i instr.now) }
    ensures kept { OnOk result ((count : ℕ) → HasTargets count instr.now
        → AllByRecursion (HasTargetsBelow count) items.old.items
        → AllByRecursion (HasTargetsBelow count) items.new.items) }
{
    push_entries(items, &parts.entries, parts.passed.len())?;
    push_blocks(items, &parts.passed)?;
    push_blocks(items, &parts.met)?;
    items.push(last_of(instr, parts.instead, next))?;
    Ok(())
}

/// The instructions and the blocks in a row.
///
/// # Errors
///
/// `Memory`: there was no memory for the row.
pub(crate) fn items_of<'a>(
    alloc: Global,
    instrs: &'a [Instr],
    table: &[Parts<'a>],
) -> Result<Vec<Item<'a>>, Memory>
    requires { length table.now ≡ suc (length instrs.now) }
    ensures seen { IfOk result (λ items. (places : List PlaceBlock) (entries : List EntryBlock)
        → HasParts places entries (suc (length instrs.now)) table.now
        → items_seen (block_marks places entries) items.items
        ≡ marked_items instr_codes (block_marks places entries) instrs.now) }
    ensures kept { IfOk result (λ items. (count : ℕ) →
        AllByRecursion (HasTargets count) instrs.now
        → AllByRecursion (HasTargetsBelow count) items.items) }
{
    let mut items = Vec::new(alloc);
    let first = table[0].entries.len();
    if first > 0 {
        items.push(Item::Jumps(sum(first, 1)?))?;
    }
    let mut rest = instrs;
    let mut i = 0;
    while let Some((instr, tail)) = rest.split_first() {
        push_index(&mut items, &table[i], instr, table[i + 1].entries.len())?;
        rest = tail;
        i += 1;
    }
    Ok(items)
}
