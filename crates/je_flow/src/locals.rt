//! The local variables of a shape, by their indexes. Behind the last one all are `Top`.

ghost use Rattle.std.specs.Prelude.{◌≡◌, ◌<◌, IfOk, length, map};
ghost use Rattle.std.specs.Option.{option_copied};
ghost use Rattle.je_shape.specs.Slot as known;
ghost use Rattle.je_shape.specs.Shape.{local_at};
ghost use Rattle.je_shape.specs.Flow.{with_slot, cut, cut_before, with_second, stored};
ghost use Rattle.je_shape.specs.Flow.{width};
ghost use Rattle.je_shape.specs.Views.{slot_seen};
ghost use Rattle.je_flow.specs.Seen.{seen_or_top};

use crate::stack::width;
use je_base::Memory;
use je_shape::Slot;
use sqlite_items::{Items, at};

/// The local variable of an index, if it is there.
#[tactic(auto, using(crate::proofs::SlotLemmas::local_is))]
pub(crate) fn local_at(locals: &[Slot], slot: usize) -> Option<&Slot>
    ensures { seen_or_top (option_copied result) ≡ local_at (map slot_seen locals.now) slot }
{
    at(locals, slot)
}

/// The local variables with so many more, each `Top`, that the slot is one.
fn with_room(locals: Items<Slot>, slot: usize) -> Result<Items<Slot>, Memory>
    ensures enough { IfOk result (λ all. slot < length all) }
    ensures same { IfOk result (λ all. (s : known.Slot)
        → with_slot (map slot_seen all) slot s ≡ with_slot (map slot_seen locals) slot s) }
{
    let mut all = locals;
    while all.len() <= slot {
        all.push(Slot::Top)?;
    }
    Ok(all)
}

/// Writes a slot that is there.
#[tactic(auto, using(crate::proofs::SlotLemmas::slot_written))]
fn put_slot(locals: Items<Slot>, slot: usize, s: Slot) -> Items<Slot>
    requires { slot < length locals }
    ensures { map slot_seen result ≡ with_slot (map slot_seen locals) slot (slot_seen s) }
{
    let mut all = locals;
    all.set(slot, s);
    all
}

/// The local variables with one written, and `Top` up to it where there was none.
fn with_slot(locals: Items<Slot>, slot: usize, s: Slot) -> Result<Items<Slot>, Memory>
    ensures { IfOk result (λ all.
        map slot_seen all ≡ with_slot (map slot_seen locals) slot (slot_seen s)) }
{
    let all = with_room(locals, slot)?;
    Ok(put_slot(all, slot, s))
}

/// What is left of a local variable whose second place is written: nothing of a long or double.
fn cut(slot: &Slot) -> Result<Slot, Memory>
    ensures { IfOk result (λ s. slot_seen s ≡ cut (slot_seen slot.now)) }
{
    let left = match slot {
        Slot::Top | Slot::Long | Slot::Double => Slot::Top,
        Slot::Int => Slot::Int,
        Slot::Float => Slot::Float,
        Slot::Null => Slot::Null,
        Slot::UninitThis => Slot::UninitThis,
        Slot::Uninit(new) => Slot::Uninit(*new),
        Slot::Ref(names) => Slot::Ref(names.copy()?),
    };
    Ok(left)
}

/// What is left of the local variable of an index whose second place is written.
fn cut_at(locals: &[Slot], slot: usize) -> Result<Slot, Memory>
    ensures { IfOk result (λ s.
        slot_seen s ≡ cut (local_at (map slot_seen locals.now) slot)) }
{
    match local_at(locals, slot) {
        Some(s) => cut(s),
        None => Ok(Slot::Top),
    }
}

/// The local variables with the one before a slot that is written.
fn cut_before(slot: usize, locals: Items<Slot>) -> Result<Items<Slot>, Memory>
    ensures { IfOk result (λ all. map slot_seen all ≡ cut_before slot (map slot_seen locals)) }
{
    if slot == 0 {
        return Ok(locals);
    }
    let left = cut_at(locals.as_slice(), slot - 1)?;
    with_slot(locals, slot - 1, left)
}

/// The local variables with the second place of what was written in so many places.
#[tactic(auto, using(crate::proofs::SlotLemmas::second_is))]
fn with_second(places: usize, slot: usize, locals: Items<Slot>) -> Result<Items<Slot>, Memory>
    ensures { IfOk result (λ all. (s : known.Slot) → width s ≡ places
        → map slot_seen all ≡ with_second s slot (map slot_seen locals)) }
{
    if places == 1 {
        return Ok(locals);
    }
    let next = slot.checked_add(1).ok_or(Memory)?;
    with_slot(locals, next, Slot::Top)
}

/// The local variables with a slot written (JVMS 4.10.1.7).
///
/// # Errors
///
/// `Memory` where memory runs out.
pub(crate) fn stored(slot: usize, s: Slot, locals: Items<Slot>) -> Result<Items<Slot>, Memory>
    ensures { IfOk result (λ all.
        map slot_seen all ≡ stored slot (slot_seen s) (map slot_seen locals)) }
{
    let places = width(&s);
    let cut = cut_before(slot, locals)?;
    let written = with_slot(cut, slot, s)?;
    with_second(places, slot, written)
}
