//! A constant pool, read from its bytes (JVMS 4.1 and 4.4).

ghost use Rattle.std.specs.Prelude.{◌≡◌, ℕ, ◌-◌, ◌≤◌, ◌⊎◌, List, length, false, IfOk, IfErr};
ghost use Rattle.std.specs.Prelude.{MatchResult};
ghost use Rattle.je_consts.specs.declared.fault.ConstFault.{ConstFault};
ghost use Rattle.je_consts.specs.declared.place.Place.{Place};
ghost use Rattle.je_consts.specs.Faults.{FirstFault};
ghost use Rattle.je_consts.specs.Layout.{IsPoolAt};
ghost use Rattle.je_consts.specs.Pool.{is_wide, leads_second};
ghost use Rattle.je_consts.specs.Reading.{Gives, place_at, places_at, spelled_at};

use crate::check::misfit;
use crate::constant::Const;
use crate::entries::entry_of;
use crate::fault::ConstFault;
use crate::laws::one_entry_way;
use crate::place::Place;
use je_base::{Run, u16_at};
use std::alloc::Global;

/// Whether the place is that of a Long or Double.
pub(crate) fn leads_second(place: &Place) -> bool
    ensures { result ≡ leads_second place.now }
{
    match place {
        Place::Entry(entry) => is_wide(entry),
        Place::Second => false,
    }
}

/// Whether the entry takes two indexes (JVMS 4.4.5).
pub(crate) fn is_wide(entry: &Const) -> bool
    ensures { result ≡ is_wide entry.now }
{
    matches!(entry, Const::Long(_) | Const::Double(_))
}

/// What stands at an index; `wide` says that a Long or Double stands at the index before.
#[tactic(auto, unfolding(crate::specs::Reading::place_at))]
fn place_of(wide: bool, index: u16, bytes: &Run, at: usize) -> Result<(Place, usize), ConstFault>
    ensures { Gives (λ x. x) result (place_at wide index bytes.now at) }
{
    if wide {
        return Ok((Place::Second, at));
    }
    let (entry, at) = entry_of(index, bytes, at)?;
    Ok((Place::Entry(entry), at))
}

/// The places of the indexes below the count.
fn places_of(
    alloc: Global,
    count: u16,
    bytes: &Run,
    at: usize,
) -> Result<(Vec<Place>, usize), ConstFault>
    requires { 1 ≤ count }
    ensures { Gives (λ x. (x.0.items, x.1)) result (places_at false (count - 1) 1 bytes.now at) }
{
    let mut places = Vec::with_capacity(alloc, count as usize - 1)?;
    let mut next = at;
    let mut wide = false;
    for index in 1..count {
        let (place, after) = place_of(wide, index, bytes, next)?;
        wide = leads_second(&place);
        places.push(place)?;
        next = after;
    }
    if wide {
        return Err(ConstFault::BadConst(count - 1));
    }
    Ok((places, next))
}

/// The places that the bytes spell, whatever their indexes name.
#[tactic(auto, unfolding(crate::specs::Reading::spelled_at))]
fn spelled_of(alloc: Global, bytes: &Run, at: usize) -> Result<(Vec<Place>, usize), ConstFault>
    ensures { Gives (λ x. (x.0.items, x.1)) result (spelled_at bytes.now at) }
{
    let (count, at) = u16_at(bytes.as_slice(), at)?;
    if count == 0 {
        return Err(ConstFault::BadConst(0));
    }
    places_of(alloc, count, bytes, at)
}

/// The places of the pool that stands at an offset, and the offset after it.
pub(crate) fn pool_of(
    alloc: Global,
    bytes: &Run,
    at: usize,
) -> Result<(Vec<Place>, usize), ConstFault>
    requires { at ≤ length bytes.now }
    ensures found { IfOk result (λ x. IsPoolAt bytes.now at x.1 x.0.items) }
    ensures only { (places : List Place) (end : ℕ) → IsPoolAt bytes.now at end places →
        MatchResult result (λ x. (x.0.items ≡ places) × (x.1 ≡ end)) (λ e. e ≡ ConstFault.Memory) }
    ensures fault { IfErr result (λ e. (e ≡ ConstFault.Memory) ⊎ FirstFault bytes.now at e) }
    ensures exact { (d : ConstFault) → FirstFault bytes.now at d →
        MatchResult result (λ _. ⊥) (λ e. (e ≡ ConstFault.Memory) ⊎ (e ≡ d)) }
{
    // The laws that the proof stands on.
    bytes.sound();
    one_entry_way();

    let (places, end) = match spelled_of(alloc, bytes, at) {
        Ok(spelled) => spelled,
        Err(fault) => return Err(fault),
    };
    match misfit(&places) {
        Some(index) => Err(ConstFault::BadConst(index)),
        None => Ok((places, end)),
    }
}
