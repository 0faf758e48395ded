//! Where places begin in the new code, and what is found there by an old index.

ghost use Rattle.std.specs.Prelude.{◌≡◌, ◌<◌, List, length, IfOk};
ghost use Rattle.je_instr.specs.declared.program.Handler.{Handler};
ghost use Rattle.je_splice.specs.Layout.{width, moved_to};
ghost use Rattle.je_splice.specs.Marks.{Marks};
ghost use Rattle.je_put.specs.declared.block.Block.{Block};
ghost use Rattle.je_put.specs.declared.block.EntryBlock.{EntryBlock};
ghost use Rattle.je_put.specs.declared.block.PlaceBlock.{PlaceBlock};
ghost use Rattle.je_put.specs.Placing.{block_marks};
ghost use Rattle.je_put.specs.Result.{with_piece, pieces};
ghost use Rattle.je_put.specs.Parts.{HasParts};
ghost use Rattle.je_put.specs.Items.{item_seen, items_seen};
ghost use Rattle.je_put.specs.Tables.{Row, begins_from, AreTables, HaveLength};

use crate::items::Item;
use crate::parts::Parts;
use crate::sums::{index_behind, sum};
use je_base::Memory;
use je_instr::InstrIndex;
use std::alloc::Global;

/// What is found by the index of an instruction, or that of the end.
#[derive(Drop)]
pub(crate) struct Tables {
    /// Its first place.
    pub firsts: Vec<usize>,
    /// Where jumps to it arrive in the new code.
    pub landing: Vec<InstrIndex>,
    /// Where what stands there begins.
    pub new_of: Vec<InstrIndex>,
}

/// How many instructions what stands at a place takes, with the jump behind it.
///
/// # Errors
///
/// `Memory`: they are more than a length can be.
pub(crate) fn width_of(item: Item<'_>) -> Result<usize, Memory>
    ensures { IfOk result (λ n. (m : Marks Block Handler) →
        n ≡ width (with_piece (item_seen m item.entry))) }
{
    let (body, over) = match item {
        Item::Jumps(_) => (1, 0),
        Item::Keeps(over, _) => (1, over),
        Item::Puts(over, block) => (block.instrs.len(), over),
    };
    let jump = if over == 0 { 0 } else { 1 };
    sum(body, jump)
}

/// Where each place begins, and where the last one ends.
///
/// # Errors
///
/// `Memory`: there are more instructions than indexes, or there was no memory for the list.
pub(crate) fn begins_of(alloc: Global, items: &[Item<'_>]) -> Result<Vec<InstrIndex>, Memory>
    ensures { IfOk result (λ begins. (m : Marks Block Handler) →
        begins.items ≡ begins_from 0 (pieces (items_seen m items.now))) }
{
    let mut begins = Vec::new(alloc);
    let mut at = 0;
    for item in items {
        begins.push(at)?;
        at = index_behind(at, width_of(*item)?)?;
    }
    begins.push(at)?;
    Ok(begins)
}

/// Where a place begins. Those behind the last one begin where it ends.
pub(crate) fn begin_of(begins: &[InstrIndex], place: usize) -> InstrIndex
    requires { 0 < length begins.now }
    ensures { (items : Row) → begins.now ≡ begins_from 0 items → result ≡ moved_to items place }
{
    if place < begins.len() {
        begins[place]
    } else {
        begins[begins.len() - 1]
    }
}

/// The tables of all indexes at which something is put, the last one of which is the end.
///
/// # Errors
///
/// `Memory`: there was no memory for the tables.
pub(crate) fn tables_of(
    alloc: Global,
    table: &[Parts<'_>],
    begins: &[InstrIndex],
) -> Result<Tables, Memory>
    requires some { 0 < length table.now }
    requires begins { 0 < length begins.now }
    ensures long { IfOk result (HaveLength (length table.now)) }
    ensures found { IfOk result (λ tables. (places : List PlaceBlock) (entries : List EntryBlock)
        (items : Row) → HasParts places entries (length table.now) table.now
        → begins.now ≡ begins_from 0 items
        → AreTables (block_marks places entries) items (length table.now) tables) }
{
    let mut firsts = Vec::new(alloc);
    let mut landing = Vec::new(alloc);
    let mut new_of = Vec::new(alloc);
    let mut first = if table[0].entries.is_empty() { 0 } else { 1 };
    for i in 0..table.len() {
        let parts = &table[i];
        let arrive = sum(first, sum(parts.entries.len(), parts.passed.len())?)?;
        let stand = sum(arrive, parts.met.len())?;
        firsts.push(first)?;
        landing.push(begin_of(begins, arrive))?;
        new_of.push(begin_of(begins, stand))?;
        first = sum(stand, 1)?;
    }
    Ok(Tables {
        firsts,
        landing,
        new_of,
    })
}
