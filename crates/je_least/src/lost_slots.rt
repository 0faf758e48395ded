//! Slots that are used as of a kind that they do not have everywhere.

ghost use Rattle.std.specs.Prelude.{◌≡◌, ◌↔◌, ◌⊎◌, ℕ, Some, [], IsTrue, MatchOption, map};
ghost use Rattle.std.specs.Prelude.{slice_get};
ghost use Rattle.je_shape.specs.Shape.{Has};
ghost use Rattle.je_shape.specs.Flow.{shape_of};
ghost use Rattle.je_least.specs.Answer.{known_of};
ghost use Rattle.je_least.specs.Lost.{Differs, IsBefore, IsLost, IsFirstLost};
ghost use Rattle.je_least.specs.Losing.{IsNotBefore, Improves};
ghost use Rattle.je_shape.specs.Views.{slot_seen, shapes_seen, uses_seen};

use crate::agree::is_alike;
use crate::answer::Shapes;
use je_shape::Slot;

/// Whether the local variable of a slot is of another kind, which one behind the last is not.
fn differs_in(locals: &[Slot], slot: u32, kind: &Slot) -> bool
    ensures { IsTrue result ↔ Differs (Has (shape_of [] (map slot_seen locals.now))) slot
        (slot_seen kind.now) }
{
    match locals.get(slot as usize) {
        Some(local) => !is_alike(local, kind),
        None => !is_alike(&Slot::Top, kind),
    }
}

/// Whether a slot is of another kind at an index, which it is not where there is no shape.
fn differs(s: &Shapes, slot: u32, kind: &Slot, at: u32) -> bool
    ensures { IsTrue result ↔ Differs (known_of (slice_get (shapes_seen s.now.list) at)) slot
        (slot_seen kind.now) }
{
    match s.list.get(at as usize) {
        Some(Some(shape)) => differs_in(shape.locals.as_slice(), slot, kind),
        _ => false,
    }
}

/// Whether a slot and an index come before a pair.
fn is_before(slot: u32, at: u32, other: (u32, u32)) -> bool
    ensures { IsTrue result ↔ IsBefore slot at other.0 other.1 }
{
    slot < other.0 || slot == other.0 && at < other.1
}

/// The earlier of a pair and one more.
fn earlier(first: Option<(u32, u32)>, slot: u32, at: u32) -> Option<(u32, u32)>
    ensures from { (result ≡ first) ⊎ (result ≡ Some (slot, at)) }
    ensures old { (s a : ℕ) → IsNotBefore first s a → IsNotBefore result s a }
    ensures each { IsNotBefore result slot at }
{
    match first {
        Some(pair) => {
            if is_before(slot, at, pair) {
                Some((slot, at))
            } else {
                Some(pair)
            }
        }
        None => Some((slot, at)),
    }
}

/// The first pair by one slot more.
fn improved(
    s: &Shapes,
    slot: u32,
    kind: &Slot,
    at: &[u32],
    first: Option<(u32, u32)>,
) -> Option<(u32, u32)>
    ensures { Improves (shapes_seen s.now.list) slot (slot_seen kind.now) at.now first result }
{
    let mut best = first;
    for index in at {
        if differs(s, slot, kind, *index) {
            best = earlier(best, slot, *index);
        }
    }
    best
}

/// The first slot of these, each with the kind in which it is used, and the first index of `at`
/// for it, where the slot's kind is another one; null is of the kind of references. An index
/// without a shape loses nothing.
pub fn lost(s: &Shapes, used: &[(u32, Slot)], at: &[u32]) -> Option<(u32, u32)>
    ensures { MatchOption result
        ((slot index : ℕ) →
        IsLost (shapes_seen s.now.list) (uses_seen used.now) at.now slot index → ⊥)
        (λ p. IsFirstLost (shapes_seen s.now.list) (uses_seen used.now) at.now p.0 p.1) }
{
    let mut first = None;
    for pair in used {
        first = improved(s, pair.0, &pair.1, at, first);
    }
    first
}
