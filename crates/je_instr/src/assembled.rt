//! What programs are assembled to, or why not.

ghost use Rattle.std.specs.Prelude.{◌≡◌};
ghost use Rattle.je_instr.specs.declared.assembled.SizeFault.TheVariants as faults;

use crate::program::RawHandler;
use je_base::Memory;
use sqlite_items::Items;
use std::alloc::{AllocError, AllocFailed};
use thiserror::Error;

/// The code and the exception table of a program, and where its instructions stand in the code.
#[derive(Debug, Drop)]
pub struct Assembled {
    /// The code.
    pub code: Items<u8>,
    /// The exception table.
    pub table: Items<RawHandler>,
    /// The offset of each instruction, and that of the end.
    pub offsets: Items<u32>,
}

/// Why a program was not assembled: the first of these that is so.
#[derive(Clone, Copy, Debug, PartialEq, Eq, Error)]
pub enum SizeFault {
    /// The code would have so many bytes, which are more than 65,535.
    #[error("the code is too long")]
    CodeTooLong(u32),
    /// The instruction of this index jumps farther than a number of two bytes says.
    #[error("a jump is too far")]
    JumpTooFar(u32),
    /// There was not enough memory.
    #[error("out of memory")]
    Memory,
}

impl From<AllocError> for SizeFault {
    ghost from_gives = { λ _ e. e ≡ faults.Memory };

    fn from(_e: AllocError) -> SizeFault {
        SizeFault::Memory
    }
}

impl<T: Drop> From<AllocFailed<T>> for SizeFault {
    ghost from_gives = { λ _ e. e ≡ faults.Memory };

    fn from(_e: AllocFailed<T>) -> SizeFault {
        SizeFault::Memory
    }
}

impl From<Memory> for SizeFault {
    ghost from_gives = { λ _ e. e ≡ faults.Memory };

    fn from(_e: Memory) -> SizeFault {
        SizeFault::Memory
    }
}
