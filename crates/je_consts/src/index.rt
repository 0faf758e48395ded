//! The index by which an add finds the entries that are there.

ghost use Rattle.std.specs.Prelude.{◌≡◌, ℕ, ◌+◌, ◌^◌, ◌<◌, ◌≤◌, List, [], ◌∷◌, ◌++◌, length, take};
ghost use Rattle.std.specs.Prelude.{IfOk, IfSome, IfNone};
ghost use Rattle.je_consts.specs.declared.place.Place.{Place};
ghost use Rattle.je_consts.specs.Adding.{IsMissing, IsLeastIndex};
ghost use Rattle.je_consts.specs.Indexed.{answer, IsIndexOf};

use crate::adding::{index_of, index_of_text};
use crate::constant::{Const, ConstIndex};
use crate::copying::copy_const;
use crate::place::Place;
use indexmap::IndexMap;
use je_base::{Memory, Text};
use std::alloc::{AllocError, Global};
use std::rc::Rc;

/// The least index of each entry of some places.
#[derive(Debug, Drop)]
pub(crate) struct Index {
    least: IndexMap<Const, u16>,
}

impl Index {
    /// The index of no places, with room for so many entries.
    fn with_room(alloc: Global, room: usize) -> Result<Index, AllocError>
        ensures { IfOk result (IsIndexOf []) }
    {
        let least = IndexMap::with_capacity(alloc, room)?;
        Ok(Index { least })
    }

    /// The least index of an entry.
    fn get(&self, entry: &Const) -> Option<ConstIndex>
        ensures { result ≡ answer self.now entry.now }
    {
        self.least.get(entry).copied()
    }

    /// Takes in what stands at the next index.
    fn note(&mut self, place: &Place, index: ConstIndex) -> Result<(), Memory>
        ensures { (places : List Place) → length places + 1 ≡ index → IsIndexOf places self.old →
            IfOk result (λ _. IsIndexOf (places ++ place.now ∷ []) self.new) }
    {
        if let Place::Entry(entry) = place {
            if self.get(entry).is_none() {
                let copy = copy_const(entry)?;
                self.least.insert(copy, index)?;
            }
        }
        Ok(())
    }

    /// Takes in the places from the one behind so many on.
    fn note_from(&mut self, places: &[Place], from: usize) -> Result<(), Memory>
        requires from { from ≤ length places.now }
        requires count { length places.now + 1 < 2 ^ 16 }
        requires index { IsIndexOf (take from places.now) self.old }
        ensures { IfOk result (λ _. IsIndexOf places.now self.new) }
    {
        for i in from..places.len() {
            self.note(&places[i], i as u16 + 1)?;
        }
        Ok(())
    }

    /// The index of these places, where there is memory for it.
    pub(crate) fn of(alloc: Global, places: &[Place]) -> Option<Index>
        requires { length places.now + 1 < 2 ^ 16 }
        ensures { IfSome result (IsIndexOf places.now) }
    {
        let Ok(index) = Index::with_room(alloc, places.len()) else {
            return None;
        };
        Index::noted(index, places, 0)
    }

    /// The index of these places, of which the first so many are in it, where there is memory for
    /// it.
    pub(crate) fn noted(mut self, places: &[Place], from: usize) -> Option<Index>
        requires from { from ≤ length places.now }
        requires count { length places.now + 1 < 2 ^ 16 }
        requires index { IsIndexOf (take from places.now) self }
        ensures { IfSome result (IsIndexOf places.now) }
    {
        match self.note_from(places, from) {
            Ok(()) => Some(self),
            Err(_) => None,
        }
    }
}

/// The least index of an entry among these places, by their index where there is one.
pub(crate) fn find(places: &[Place], index: Option<&Index>, entry: &Const) -> Option<ConstIndex>
    requires count { length places.now + 1 < 2 ^ 16 }
    requires index { IfSome index (λ x. IsIndexOf places.now x.now) }
    ensures some { IfSome result (IsLeastIndex places.now entry.now) }
    ensures none { IfNone result (IsMissing places.now entry.now) }
{
    match index {
        Some(index) => index.get(entry),
        None => index_of(places, entry),
    }
}

/// The index of these places to share, where there is memory for it.
pub(crate) fn shared_index(alloc: Global, places: &[Place]) -> Option<Rc<Index>>
    requires { length places.now + 1 < 2 ^ 16 }
    ensures { IfSome result (λ x. IsIndexOf places.now x.value) }
{
    let index = Index::of(alloc, places)?;
    match Rc::new(alloc, index) {
        Ok(shared) => Some(shared),
        Err(_) => None,
    }
}

/// The index that is shared.
pub(crate) fn shared(index: &Option<Rc<Index>>) -> Option<&Index>
    ensures { (places : List Place) → IfSome index.now (λ x. IsIndexOf places x.value) →
        IfSome result (λ x. IsIndexOf places x.now) }
{
    match index {
        Some(index) => Some(index.as_ref()),
        None => None,
    }
}

/// The least index of an entry among these places one after the other.
pub(crate) fn find_in(
    base: &[Place],
    base_index: Option<&Index>,
    tail: &[Place],
    tail_index: Option<&Index>,
    entry: &Const,
) -> Option<u16>
    requires count { length (base.now ++ tail.now) + 1 < 2 ^ 16 }
    requires base_index { IfSome base_index (λ x. IsIndexOf base.now x.now) }
    requires tail_index { IfSome tail_index (λ x. IsIndexOf tail.now x.now) }
    ensures some { IfSome result (IsLeastIndex (base.now ++ tail.now) entry.now) }
    ensures none { IfNone result (IsMissing (base.now ++ tail.now) entry.now) }
{
    if let Some(index) = find(base, base_index, entry) {
        return Some(index);
    }
    let index = find(tail, tail_index, entry)?;
    Some(base.len() as u16 + index)
}

/// The least index of a text's Utf8 among these places one after the other.
pub(crate) fn find_text_in(base: &[Place], tail: &[Place], text: &Text) -> Option<ConstIndex>
    requires { length (base.now ++ tail.now) + 1 < 2 ^ 16 }
    ensures some { IfSome result (IsLeastIndex (base.now ++ tail.now) (Const.Utf8 text.now)) }
    ensures none { IfNone result (IsMissing (base.now ++ tail.now) (Const.Utf8 text.now)) }
{
    if let Some(index) = index_of_text(base, text) {
        return Some(index);
    }
    let index = index_of_text(tail, text)?;
    Some(base.len() as u16 + index)
}
