//! Why a call gave nothing, where the cause lies outside.

ghost use Rattle.std.specs.Prelude.{◌≡◌};
ghost use Rattle.je_base.specs.declared.stop.FileStop.TheVariants as stop;

use std::alloc::{AllocError, AllocFailed};

/// The outside failed: a file could not be read or written, or a sink took no more.
#[derive(Clone, Copy, Debug, PartialEq, Eq)]
pub struct Failed;

/// There was not enough memory.
#[derive(Clone, Copy, Debug, PartialEq, Eq)]
pub struct Memory;

/// Why a file was not read.
#[derive(Clone, Copy, Debug, PartialEq, Eq)]
pub enum FileStop {
    /// The read failed.
    Failed,
    /// There was not enough memory for what was read.
    Memory,
}

impl From<AllocError> for Memory {
    fn from(_e: AllocError) -> Memory {
        Memory
    }
}

impl<T: Drop> From<AllocFailed<T>> for Memory {
    fn from(_e: AllocFailed<T>) -> Memory {
        Memory
    }
}

impl From<Memory> for FileStop {
    ghost from_gives = { λ _ e. e ≡ stop.Memory };

    fn from(_e: Memory) -> FileStop {
        FileStop::Memory
    }
}
