//! A constant pool in memory.

ghost use Rattle.std.specs.Prelude.{◌≡◌, ℕ, ◌+◌, ◌^◌, ◌<◌, ◌≤◌, ◌⊎◌, ◌++◌, List, Some, Err, length};
ghost use Rattle.std.specs.Prelude.{vec_len, slice_range, IfOk, IfErr, IfSome, IfNone, OnOk, OnErr};
ghost use Rattle.std.specs.Prelude.{MatchResult};
ghost use Rattle.std.specs.Option.{option_copied};
ghost use Rattle.je_consts.specs.declared.fault.ConstFault.{ConstFault};
ghost use Rattle.je_consts.specs.declared.place.Place.{Place};
ghost use Rattle.je_consts.specs.Adding.{IsLawful, IsMissing, IsLeastIndex, IsFull, Adds, Keeps};
ghost use Rattle.je_consts.specs.Faults.{FirstFault};
ghost use Rattle.je_consts.specs.Layout.{pool_layout, IsPoolAt};
ghost use Rattle.je_consts.specs.Pool.{places_of, const_at, Names, Fits, IsPool};

use crate::adding::{MOST, fits, grow, indexes_of};
use crate::constant::{Const, ConstIndex};
use crate::copying::copy_places;
use crate::fault::{ConstFault, PoolStop};
use crate::index::{Index, find_in, find_text_in, shared, shared_index};
use crate::lookup::{const_in, count_of};
use crate::place::Place;
use crate::reading::pool_of;
use crate::writing::put_pool;
use je_base::{Memory, Run, Text};
use std::alloc::Global;
use std::marker::Model;
use std::rc::Rc;

/// A constant pool (JVMS 4.4) whose indexes name what they have to.
///
/// Contracts see it as the list of its places: what stands at index 1 first.
///
/// What was read, the places and their bytes, is shared with each copy, and only what was added
/// after that is a pool's own. So a copy costs what was added.
#[derive(Debug, Drop)]
pub struct Consts {
    spelled: Run,
    base: Rc<Vec<Place>>,
    base_index: Option<Rc<Index>>,
    tail: Vec<Place>,
    tail_index: Option<Index>,
}

impl Model for Consts {
    ghost use Rattle.std.specs.Prelude.{List, ◌≡◌, ◌++◌, IfSome};
    ghost use Rattle.je_consts.specs.declared.place.Place.{Place};
    ghost use Rattle.je_consts.specs.Layout.{pool_layout};
    ghost use Rattle.je_consts.specs.Pool.{IsPool};
    ghost use Rattle.je_consts.specs.Indexed.{IsIndexOf};

    ghost Value = { List Place };

    ghost view = { λ c. c.base.value.items ++ c.tail.items };

    ghost invariant = { λ c. (c.spelled ≡ pool_layout c.base.value.items)
        × IsPool (c.base.value.items ++ c.tail.items)
        × IfSome c.base_index (λ index. IsIndexOf c.base.value.items index.value)
        × IfSome c.tail_index (IsIndexOf c.tail.items) };
}

impl Consts {
    /// The constant pool whose count stands at this offset, and the offset after its last entry.
    ///
    /// Its texts are parts of the run, and so are its bytes, which are put in one copy when it is
    /// written. So the block of the run stays in memory until the last of them is dropped.
    ///
    /// # Errors
    ///
    /// The first test that fails, of those at the count, at each entry in order, and at last of
    /// what the indexes name. `Truncated` has the offset at which the number begins that is cut
    /// off, or the run of a Utf8's bytes. `BadConst` has the index of the entry, or 0 where the
    /// count is 0. It comes for an unknown tag, for a Utf8 that is no modified UTF-8, for a handle
    /// of a kind outside 1 to 9, for a Long or Double at the last index, once its number is read,
    /// and for an entry that names one of a tag that does not fit. `Memory` comes where memory runs
    /// out.
    pub fn read(alloc: Global, bytes: &Run, at: usize) -> Result<(Consts, usize), ConstFault>
        requires { at ≤ length bytes.now }

        // What is read is spelled there.
        ensures found { IfOk result (λ x. IsPoolAt bytes.now at x.1 x.0) }

        // What is spelled there is read, unless memory runs out.
        ensures only { (places : List Place) (end : ℕ) → IsPoolAt bytes.now at end places →
            MatchResult result (λ x. (x.0 ≡ places) × (x.1 ≡ end)) (λ e. e ≡ ConstFault.Memory) }

        // Each other fault is the first one, and where there is a first one, no other answer comes.
        ensures fault { IfErr result (λ e. (e ≡ ConstFault.Memory) ⊎ FirstFault bytes.now at e) }
        ensures exact { (d : ConstFault) → FirstFault bytes.now at d →
            MatchResult result (λ _. ⊥) (λ e. (e ≡ ConstFault.Memory) ⊎ (e ≡ d)) }
    {
        match pool_of(alloc, bytes, at) {
            Ok((places, end)) => {
                let spelled = bytes.part(at, end)?;
                Ok((Consts::of_places(alloc, spelled, places)?, end))
            }
            Err(fault) => Err(fault),
        }
    }

    /// The pool of these places.
    fn of_places(alloc: Global, spelled: Run, places: Vec<Place>) -> Result<Consts, ConstFault>
        requires pool { IsPool places.items }
        requires spelled { spelled ≡ pool_layout places.items }
        ensures { MatchResult result (λ c. c ≡ places.items) (λ e. e ≡ ConstFault.Memory) }
    {
        let base = Rc::new(alloc, places)?;
        Ok(Consts {
            spelled,
            base,
            base_index: None,
            tail: Vec::new(alloc),
            tail_index: None,
        })
    }

    /// The entry at an index.
    ///
    /// `None` exactly for 0, for an index not below the count, and for the second index of a Long
    /// or Double.
    pub fn get(&self, index: ConstIndex) -> Option<&Const>
        ensures { option_copied result ≡ const_at self.now index }
    {
        const_in(&self.base, &self.tail, index)
    }

    /// The count as the file has it: one more than the number of indexes, and at most 65,535.
    pub fn count(&self) -> u32
        ensures count { result ≡ length self.now + 1 }
        ensures pool { IsPool self.now }
    {
        count_of(&self.base, &self.tail)
    }

    /// Adds an entry whose indexes name entries of the fitting tags, and answers its index.
    ///
    /// It is the least index with this content where there is one, and then nothing changes. Else
    /// the entry goes to the end, where a Long or Double takes two indexes. No index that is there
    /// changes.
    ///
    /// # Errors
    ///
    /// `Full` with the new count, where the entry is not there and that count would pass 65,535,
    /// and `Memory` where memory runs out. A refusal changes nothing.
    pub fn add(&mut self, c: Const) -> Result<ConstIndex, PoolStop>
        requires lawful { IsLawful c }
        requires names { Names self.old c }
        ensures adds { Adds c self.old result self.new }
        ensures full { (n : ℕ) → IsFull self.old c n → result ≡ Err (PoolStop.Full n) }
        ensures there { IfOk result (λ index. const_at self.new index ≡ Some c) }
        ensures keeps { Keeps self.old self.new }
    {
        self.build_index();
        if let Some(index) = self.find(&c) {
            return Ok(index);
        }
        fits(&c);
        let old_count = self.count();
        let count = old_count + indexes_of(&c);
        if count > MOST {
            return Err(PoolStop::Full(count));
        }
        self.append(c)?;
        Ok(old_count as u16)
    }

    /// Builds the index by which `add` finds entries, where it is not built, so that later copies
    /// share it.
    ///
    /// The first `add` does so too. The pool stays as it is. Where there is no memory for an index,
    /// `add` searches.
    pub fn build_index(&mut self)
        ensures { self.new ≡ self.old }
    {
        let alloc = *self.tail.allocator();
        if self.base_index.is_none() {
            self.base_index = shared_index(alloc, &self.base);
        }
        if self.tail_index.is_none() {
            self.tail_index = Index::of(alloc, &self.tail);
        }
    }

    /// The least index that holds this entry.
    fn find(&self, entry: &Const) -> Option<ConstIndex>
        ensures some { IfSome result (IsLeastIndex self.now entry.now) }
        ensures none { IfNone result (IsMissing self.now entry.now) }
    {
        find_in(
            &self.base,
            shared(&self.base_index),
            &self.tail,
            self.tail_index.as_ref(),
            entry,
        )
    }

    /// Puts an entry at the end, where there is room.
    fn append(&mut self, entry: Const) -> Result<(), Memory>
        requires fits { Fits entry }
        requires names { Names self.old entry }
        requires room { length self.old + length (places_of entry) + 1 < 2 ^ 16 }
        ensures ok { OnOk result (self.new ≡ self.old ++ places_of entry) }
        ensures err { OnErr result (self.new ≡ self.old) }
    {
        grow(&mut self.tail, &mut self.tail_index, entry)
    }

    /// The index of a text that is there, or why it is not added where there is no memory for a
    /// copy of it.
    pub(crate) fn text_without_copy(&self, text: &Text) -> Result<ConstIndex, PoolStop>
        ensures adds { Adds (Const.Utf8 text.now) self.now result self.now }
        ensures full { (n : ℕ) → IsFull self.now (Const.Utf8 text.now) n →
            result ≡ Err (PoolStop.Full n) }
        ensures there { IfOk result (λ index.
            const_at self.now index ≡ Some (Const.Utf8 text.now)) }
    {
        if let Some(index) = find_text_in(&self.base, &self.tail, text) {
            return Ok(index);
        }
        let count = self.count() + 1;
        if count > MOST {
            return Err(PoolStop::Full(count));
        }
        Err(PoolStop::Memory)
    }

    /// Puts the bytes of the pool, the count and the entries, behind those that are there.
    ///
    /// # Errors
    ///
    /// `Memory` where memory runs out.
    pub fn write_to(&self, out: &mut Vec<u8>) -> Result<(), Memory>
        ensures { OnOk result (out.new.items ≡ out.old.items ++ pool_layout self.now) }
    {
        put_pool(out, self.spelled.as_slice(), &self.base, &self.tail)
    }

    /// The bytes of the pool: the count and the entries.
    ///
    /// # Errors
    ///
    /// `Memory` where memory runs out.
    pub fn write(&self) -> Result<Vec<u8>, Memory>
        ensures bytes { IfOk result (λ v. v.items ≡ pool_layout self.now) }

        // Read from these bytes, `Consts::read` gives this pool and their end (`only`).
        ensures read { IfOk result (λ v. IsPoolAt v.items 0 (vec_len v) self.now) }

        // Where this pool was read, these are the bytes that it was read from.
        ensures again { IfOk result (λ v. (bytes : List ℕ) (at end : ℕ) →
            IsPoolAt bytes at end self.now → v.items ≡ slice_range bytes at end) }
    {
        let mut out = Vec::new(*self.tail.allocator());
        self.write_to(&mut out)?;
        Ok(out)
    }

    /// The same pool once more, with what was read shared by both.
    ///
    /// # Errors
    ///
    /// `Memory` where memory runs out.
    pub fn copy(&self) -> Result<Consts, Memory>
        ensures { IfOk result (λ c. c ≡ self.now) }
    {
        let base = self.base.clone()?;
        let base_index = match &self.base_index {
            Some(index) => Some(index.clone()?),
            None => None,
        };
        let tail = copy_places(*self.tail.allocator(), &self.tail)?;
        Ok(Consts {
            spelled: self.spelled.copy()?,
            base,
            base_index,
            tail,
            tail_index: None,
        })
    }
}
