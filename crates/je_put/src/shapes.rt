//! What is known at the blocks' instructions, in the new code.

ghost use Rattle.std.specs.Prelude.{◌≡◌, ◌+◌, ◌-◌, ◌++◌, ◌<◌, length, map, slice_index};
ghost use Rattle.std.specs.Prelude.{OnOk, IfOk};
ghost use Rattle.std.specs.List.{AllByRecursion};
ghost use Rattle.je_instr.specs.declared.program.Handler.{Handler};
ghost use Rattle.je_splice.specs.Marks.{Marks};
ghost use Rattle.je_put.specs.declared.block.Block.{Block};
ghost use Rattle.je_put.specs.Placing.{IsMadeWithin, KnowsMade};
ghost use Rattle.je_put.specs.Result.{moved_new, moved_slot, moved_shape, item_shapes};
ghost use Rattle.je_put.specs.Result.{shapes_from};
ghost use Rattle.je_put.specs.Items.{item_seen, items_seen};
ghost use Rattle.je_put.specs.Tables.{BelongBelow};

use crate::items::Item;
use crate::sums::index_behind;
use crate::tables::width_of;
use je_base::Memory;
use je_instr::InstrIndex;
use je_shape::{Shape, Slot};
use sqlite_items::Items;
use std::alloc::Global;

/// Where what a `new` made is made in the new code.
fn new_moved(
    new_of: &[InstrIndex],
    at: InstrIndex,
    size: usize,
    new: u32,
) -> Result<InstrIndex, Memory>
    requires { new < size + (length new_of.now - 1) }
    ensures { IfOk result (λ n. n ≡ moved_new (slice_index new_of.now) at size new) }
{
    let new = new as usize;
    if new < size {
        index_behind(at, new)
    } else {
        Ok(new_of[new - size])
    }
}

fn slot_moved(
    new_of: &[InstrIndex],
    at: InstrIndex,
    size: usize,
    slot: &Slot,
) -> Result<Slot, Memory>
    requires { IsMadeWithin size (length new_of.now - 1) slot.now }
    ensures { IfOk result (λ s. s ≡ moved_slot (slice_index new_of.now) at size slot.now) }
{
    match slot {
        Slot::Uninit(new) => {
            let new = new_moved(new_of, at, size, *new)?;
            Ok(Slot::Uninit(new))
        }
        _ => Ok(slot.copy()?),
    }
}

fn slots_moved(
    alloc: Global,
    new_of: &[InstrIndex],
    at: InstrIndex,
    size: usize,
    slots: &[Slot],
) -> Result<Items<Slot>, Memory>
    requires { AllByRecursion (IsMadeWithin size (length new_of.now - 1)) slots.now }
    ensures { IfOk result (λ v. v
        ≡ map (moved_slot (slice_index new_of.now) at size) slots.now) }
{
    let mut out = Vec::new(alloc);
    let mut rest = slots;
    while let Some((slot, tail)) = rest.split_first() {
        out.push(slot_moved(new_of, at, size, slot)?)?;
        rest = tail;
    }
    Ok(Items::from_vec(out))
}

/// A shape of a block of so many instructions that stands at an index.
fn shape_moved(
    alloc: Global,
    new_of: &[InstrIndex],
    at: InstrIndex,
    size: usize,
    known: &(InstrIndex, Shape),
) -> Result<(InstrIndex, Shape), Memory>
    requires { KnowsMade size (length new_of.now - 1) known.now }
    ensures { IfOk result (λ k. k
        ≡ moved_shape (slice_index new_of.now) at size known.now) }
{
    let index = index_behind(at, known.0 as usize)?;
    let stack = slots_moved(alloc, new_of, at, size, known.1.stack.as_slice())?;
    let locals = slots_moved(alloc, new_of, at, size, known.1.locals.as_slice())?;
    Ok((index, Shape { stack, locals }))
}

/// Appends the shapes of a block of so many instructions that stands at an index.
fn push_shapes(
    alloc: Global,
    out: &mut Vec<(InstrIndex, Shape)>,
    new_of: &[InstrIndex],
    at: InstrIndex,
    size: usize,
    shapes: &[(InstrIndex, Shape)],
) -> Result<(), Memory>
    requires { AllByRecursion (KnowsMade size (length new_of.now - 1)) shapes.now }
    ensures { OnOk result (out.new.items ≡ out.old.items
        ++ map (moved_shape (slice_index new_of.now) at size) shapes.now) }
{
    let mut rest = shapes;
    while let Some((known, tail)) = rest.split_first() {
        out.push(shape_moved(alloc, new_of, at, size, known)?)?;
        rest = tail;
    }
    Ok(())
}

/// Appends the shapes of what stands at a place.
fn push_item(
    alloc: Global,
    out: &mut Vec<(InstrIndex, Shape)>,
    new_of: &[InstrIndex],
    at: InstrIndex,
    item: Item<'_>,
) -> Result<(), Memory>
    requires { BelongBelow (length new_of.now - 1) item }
    ensures { OnOk result ((m : Marks Block Handler) → out.new.items ≡ out.old.items
        ++ item_shapes (slice_index new_of.now) at (item_seen m item.entry)) }
{
    match item {
        Item::Jumps(_) => {}
        Item::Keeps(_, _) => {}
        Item::Puts(_, block) => {
            let size = block.instrs.len();
            push_shapes(alloc, out, new_of, at, size, block.shapes.as_slice())?;
        }
    }
    Ok(())
}

/// The shapes of all blocks, in order.
///
/// # Errors
///
/// `Memory`: there was no memory for the shapes.
pub(crate) fn shapes_of(
    alloc: Global,
    items: &[Item<'_>],
    new_of: &[InstrIndex],
) -> Result<Vec<(InstrIndex, Shape)>, Memory>
    requires { AllByRecursion (BelongBelow (length new_of.now - 1)) items.now }
    ensures { IfOk result (λ shapes. (m : Marks Block Handler) → shapes.items
        ≡ shapes_from (slice_index new_of.now) 0 (items_seen m items.now)) }
{
    let mut shapes = Vec::new(alloc);
    let mut at = 0;
    for item in items {
        push_item(alloc, &mut shapes, new_of, at, *item)?;
        at = index_behind(at, width_of(*item)?)?;
    }
    Ok(shapes)
}
