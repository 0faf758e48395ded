//! The new code.

ghost use Rattle.std.specs.Prelude.{◌≡◌, ◌<◌, ◌+◌, ◌-◌, suc, ◌++◌, length, map, OnOk, IfOk};
ghost use Rattle.std.specs.List.{AllByRecursion};
ghost use Rattle.je_instr.specs.declared.program.Handler.{Handler};
ghost use Rattle.je_splice.specs.InstrCodes.{instr_codes, redirected};
ghost use Rattle.je_splice.specs.Layout.{body_code, jump_code, item_code, laid_code, moved_to};
ghost use Rattle.je_splice.specs.Layout.{over_of};
ghost use Rattle.je_splice.specs.Marks.{Marks};
ghost use Rattle.je_put.specs.declared.block.Block.{Block};
ghost use Rattle.je_put.specs.Result.{with_piece, pieces};
ghost use Rattle.je_put.specs.Items.{item_seen, items_seen};
ghost use Rattle.je_put.specs.Tables.{Row, begins_from, HasTargetsBelow, Lands};

use crate::items::Item;
use crate::redirect::{To, redirect};
use crate::sums::{index_behind, sum};
use crate::tables::{begin_of, width_of};
use je_base::Memory;
use je_instr::{Instr, InstrIndex};
use std::alloc::Global;

/// Appends the instructions of a block that stands at an index.
fn push_block(
    alloc: Global,
    out: &mut Vec<Instr>,
    instrs: &[Instr],
    at: InstrIndex,
) -> Result<(), Memory>
    ensures { OnOk result (out.new.items
        ≡ out.old.items ++ map (redirected (λ target. at + target)) instrs.now) }
{
    let mut rest = instrs;
    while let Some((instr, tail)) = rest.split_first() {
        out.push(redirect(alloc, instr, To::Behind(at))?)?;
        rest = tail;
    }
    Ok(())
}

/// Appends the own code of what stands at a place, which begins at an index.
fn push_body(
    alloc: Global,
    out: &mut Vec<Instr>,
    item: Item<'_>,
    at: InstrIndex,
    begins: &[InstrIndex],
    landing: &[InstrIndex],
) -> Result<(), Memory>
    requires some { 0 < length begins.now }
    requires targets { HasTargetsBelow (length landing.now - 1) item }
    ensures { OnOk result ((m : Marks Block Handler) (items : Row) →
        begins.now ≡ begins_from 0 items → Lands m items landing.now → out.new.items
        ≡ out.old.items
        ++ body_code instr_codes (moved_to items) at (with_piece (item_seen m item.entry))) }
{
    match item {
        Item::Jumps(place) => out.push(Instr::Goto(begin_of(begins, place)))?,
        Item::Keeps(_, instr) => out.push(redirect(alloc, instr, To::Table(landing))?)?,
        Item::Puts(_, block) => push_block(alloc, out, block.instrs.as_slice(), at)?,
    }
    Ok(())
}

/// How many places are passed behind what stands at a place.
fn over_behind(item: Item<'_>) -> usize
    ensures { (m : Marks Block Handler) → result ≡ over_of (with_piece (item_seen m item.entry)) }
{
    match item {
        Item::Jumps(_) => 0,
        Item::Keeps(over, _) => over,
        Item::Puts(over, _) => over,
    }
}

/// Appends the jump behind a place, where places are passed.
fn push_jump(
    out: &mut Vec<Instr>,
    place: usize,
    over: usize,
    begins: &[InstrIndex],
) -> Result<(), Memory>
    requires some { 0 < length begins.now }
    ensures { OnOk result ((items : Row) → begins.now ≡ begins_from 0 items → out.new.items
        ≡ out.old.items
        ++ jump_code instr_codes place (moved_to items (suc place + over)) over) }
{
    if over > 0 {
        let next = sum(sum(place, 1)?, over)?;
        out.push(Instr::Goto(begin_of(begins, next)))?;
    }
    Ok(())
}

/// The code of all places.
///
/// # Errors
///
/// `Memory`: there was no memory for the code.
pub(crate) fn code_of(
    alloc: Global,
    items: &[Item<'_>],
    begins: &[InstrIndex],
    landing: &[InstrIndex],
) -> Result<Vec<Instr>, Memory>
    requires some { 0 < length begins.now }
    requires targets { AllByRecursion (HasTargetsBelow (length landing.now - 1)) items.now }
    ensures { IfOk result (λ code. (m : Marks Block Handler) →
        begins.now ≡ begins_from 0 (pieces (items_seen m items.now))
        → Lands m (pieces (items_seen m items.now)) landing.now
        → code.items ≡ laid_code instr_codes (pieces (items_seen m items.now))) }
{
    let mut code = Vec::new(alloc);
    let mut at = 0;
    for (place, item) in items.iter().enumerate() {
        push_body(alloc, &mut code, *item, at, begins, landing)?;
        push_jump(&mut code, place, over_behind(*item), begins)?;
        at = index_behind(at, width_of(*item)?)?;
    }
    Ok(code)
}
