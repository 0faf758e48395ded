//! Runs of bytes of a block that several owners share.

ghost use Rattle.std.specs.Prelude.{◌≡◌, ℕ, ◌≤◌, ◌<◌, ◌^◌, length, slice_index, slice_range, IfOk};

use crate::stop::Memory;
use std::alloc::Global;
use std::marker::Model;
use std::rc::Rc;

/// A run of bytes of a block that several owners share.
///
/// A copy of it, or of a part of it, copies no byte. The whole block stays in memory until the last
/// run of it is dropped, however short that is.
#[derive(Debug, Drop)]
pub struct Run {
    block: Rc<Vec<u8>>,
    start: usize,
    end: usize,
}

impl Model for Run {
    ghost use Rattle.std.specs.Prelude.{ℕ, List, ◌≤◌, length, slice_range};

    ghost Value = { List ℕ };

    ghost view = { λ r. slice_range r.block.value.items r.start r.end };

    ghost invariant = { λ r. (r.start ≤ r.end) × (r.end ≤ length r.block.value.items) };
}

/// What holds of each slice: its numbers are bytes.
fn are_bytes(bytes: &[u8])
    ensures { (i : ℕ) → slice_index bytes.now i < 2 ^ 8 }
{
    let _ = bytes.len();
}

impl Run {
    /// All of these bytes, as a block of their own.
    ///
    /// # Errors
    ///
    /// `Memory` where memory runs out.
    pub fn of_vec(alloc: Global, bytes: Vec<u8>) -> Result<Run, Memory>
        ensures { IfOk result (λ r. r ≡ bytes.items) }
    {
        let end = bytes.len();
        let block = Rc::new(alloc, bytes)?;
        Ok(Run {
            block,
            start: 0,
            end,
        })
    }

    /// The bytes.
    pub fn as_slice(&self) -> &[u8]
        ensures { result.now ≡ self.now }
    {
        &self.block.as_slice()[self.start..self.end]
    }

    /// What holds of every run: its numbers are bytes.
    pub fn sound(&self)
        ensures { (i : ℕ) → slice_index self.now i < 2 ^ 8 }
    {
        are_bytes(self.as_slice());
    }

    /// How many bytes there are.
    pub fn len(&self) -> usize
        ensures { result ≡ length self.now }
    {
        self.end - self.start
    }

    /// The bytes from one offset to another.
    ///
    /// # Errors
    ///
    /// `Memory` where memory runs out.
    pub fn part(&self, start: usize, end: usize) -> Result<Run, Memory>
        requires order { start ≤ end }
        requires within { end ≤ length self.now }
        ensures { IfOk result (λ r. r ≡ slice_range self.now start end) }
    {
        let _ = self.len();
        let block = self.block.clone()?;
        Ok(Run {
            block,
            start: self.start + start,
            end: self.start + end,
        })
    }

    /// The same bytes once more.
    ///
    /// # Errors
    ///
    /// `Memory` where memory runs out.
    pub fn copy(&self) -> Result<Run, Memory>
        ensures { IfOk result (λ r. r ≡ self.now) }
    {
        let block = self.block.clone()?;
        Ok(Run {
            block,
            start: self.start,
            end: self.end,
        })
    }

    /// The allocator of the block.
    pub(crate) fn alloc(&self) -> Global {
        *self.block.allocator()
    }
}
