//! The stack of a shape, whose top comes first. It is total: what is not there is `Top`.

ghost use Rattle.std.specs.Prelude.{◌≡◌, ◌∷◌, ◌++◌, IfOk, map, option_map};
ghost use Rattle.std.specs.Option.{option_copied};
ghost use Rattle.je_shape.specs.Flow.{width, top_item, below_top, under_items, top_places};
ghost use Rattle.je_shape.specs.Flow.{under_places, copied, pushed};
ghost use Rattle.je_shape.specs.Views.{slot_seen};
ghost use Rattle.je_flow.specs.Seen.{seen_or_top};

use je_base::Memory;
use je_shape::{Slot, copy_slots};
use sqlite_items::Items;
use std::alloc::Global;

/// The places that an item takes (JVMS 2.6.2).
pub(crate) fn width(slot: &Slot) -> usize
    ensures { result ≡ width (slot_seen slot.now) }
{
    match slot {
        Slot::Long | Slot::Double => 2,
        Slot::Top
        | Slot::Int
        | Slot::Float
        | Slot::Null
        | Slot::UninitThis
        | Slot::Uninit(_)
        | Slot::Ref(_) => 1,
    }
}

/// The item at the top, if there is one.
pub(crate) fn top_item(stack: &[Slot]) -> Option<&Slot>
    ensures { seen_or_top (option_copied result) ≡ top_item (map slot_seen stack.now) }
{
    match stack.split_first() {
        Some((slot, _)) => Some(slot),
        None => None,
    }
}

/// What is below the top.
pub(crate) fn below_top(stack: &[Slot]) -> &[Slot]
    ensures { map slot_seen result.now ≡ below_top (map slot_seen stack.now) }
{
    match stack.split_first() {
        Some((_, rest)) => rest,
        None => stack,
    }
}

/// What is under so many items.
pub(crate) fn under_items(count: usize, stack: &[Slot]) -> &[Slot]
    ensures { map slot_seen result.now ≡ under_items count (map slot_seen stack.now) }
{
    if count == 0 {
        return stack;
    }
    under_items(count - 1, below_top(stack))
}

/// The items in so many places from the top, the top first.
///
/// # Errors
///
/// `Memory` where memory runs out.
fn top_places(alloc: Global, places: usize, stack: &[Slot]) -> Result<Items<Slot>, Memory>
    ensures { IfOk result (λ s. map slot_seen s ≡ top_places places (map slot_seen stack.now)) }
{
    if places == 0 {
        return Ok(Items::new(alloc));
    }
    let Some((slot, rest)) = stack.split_first() else {
        return Ok(Items::new(alloc));
    };
    let more = top_places(alloc, places.saturating_sub(width(slot)), rest)?;
    above(alloc, slot.copy()?, more)
}

/// What is under so many places from the top.
pub(crate) fn under_places(places: usize, stack: &[Slot]) -> &[Slot]
    ensures { map slot_seen result.now ≡ under_places places (map slot_seen stack.now) }
{
    if places == 0 {
        return stack;
    }
    match stack.split_first() {
        Some((slot, rest)) => under_places(places.saturating_sub(width(slot)), rest),
        None => stack,
    }
}

/// A slot above a stack.
fn above(alloc: Global, slot: Slot, stack: Items<Slot>) -> Result<Items<Slot>, Memory>
    ensures { IfOk result (λ s. s ≡ slot ∷ stack) }
{
    let mut all = Items::new(alloc);
    all.push(slot)?;
    all.append(stack)?;
    Ok(all)
}

/// One stack above another.
#[tactic(auto, using(crate::proofs::SlotLemmas::parts_are))]
fn joined(above: Items<Slot>, stack: Items<Slot>) -> Result<Items<Slot>, Memory>
    ensures { IfOk result (λ s. map slot_seen s ≡ map slot_seen above ++ map slot_seen stack) }
{
    let mut all = above;
    all.append(stack)?;
    Ok(all)
}

/// The stack with the top so many places once more, under the next so many.
///
/// # Errors
///
/// `Memory` where memory runs out.
pub(crate) fn copied(
    alloc: Global,
    places: usize,
    deep: usize,
    stack: &[Slot],
) -> Result<Items<Slot>, Memory>
    ensures { IfOk result (λ s.
        map slot_seen s ≡ copied places deep (map slot_seen stack.now)) }
{
    let rest = under_places(places, stack);
    let deepest = copy_slots(alloc, under_places(deep, rest))?;
    let again = joined(top_places(alloc, places, stack)?, deepest)?;
    let next = joined(top_places(alloc, deep, rest)?, again)?;
    joined(top_places(alloc, places, stack)?, next)
}

/// A copy of the stack with a slot above it, if there is one.
///
/// # Errors
///
/// `Memory` where memory runs out.
pub(crate) fn pushed(
    alloc: Global,
    slot: Option<Slot>,
    stack: &[Slot],
) -> Result<Items<Slot>, Memory>
    ensures { IfOk result (λ s.
        map slot_seen s ≡ pushed (option_map slot_seen slot) (map slot_seen stack.now)) }
{
    let rest = copy_slots(alloc, stack)?;
    match slot {
        Some(slot) => above(alloc, slot, rest),
        None => Ok(rest),
    }
}
