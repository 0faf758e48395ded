//! Why code was not decoded.

ghost use Rattle.std.specs.Prelude.{◌≡◌};
ghost use Rattle.je_instr.specs.declared.fault.CodeFault.TheVariants as faults;

use je_base::Memory;
use std::alloc::{AllocError, AllocFailed};
use thiserror::Error;

/// Why bytes were not decoded as code: the first test that fails. The offsets are those of
/// instructions, in bytes from the start of the code, but for that of a layout.
#[derive(Clone, Copy, Debug, PartialEq, Eq, Error)]
pub enum CodeFault {
    /// The bytes are no Code attribute. At this offset of them a number or a run of bytes begins
    /// that is cut off, or a length of the code that is 0 or above 65,535, or the first byte too
    /// many. Code alone has no such fault.
    #[error("a Code attribute is malformed")]
    BadLayout(usize),
    /// The byte at this offset is no opcode.
    #[error("an opcode is unknown")]
    BadOpcode(usize),
    /// The bytes end within the instruction at this offset.
    #[error("an instruction is cut off")]
    CutShort(usize),
    /// The instruction at this offset has an operand that it may not have.
    #[error("an operand is not allowed")]
    BadOperand(usize),
    /// The instruction at this offset calls a subroutine or returns from one (jsr, jsr_w, ret).
    #[error("a subroutine is used")]
    Jsr(usize),
    /// The instruction at this offset leads to where no instruction begins.
    #[error("a jump leads nowhere")]
    BadTarget(usize),
    /// The entry of this index of the exception table is malformed.
    #[error("an entry of the exception table is malformed")]
    BadRange(usize),
    /// There was not enough memory.
    #[error("out of memory")]
    Memory,
}

impl From<AllocError> for CodeFault {
    ghost from_gives = { λ _ e. e ≡ faults.Memory };

    fn from(_e: AllocError) -> CodeFault {
        CodeFault::Memory
    }
}

impl<T: Drop> From<AllocFailed<T>> for CodeFault {
    ghost from_gives = { λ _ e. e ≡ faults.Memory };

    fn from(_e: AllocFailed<T>) -> CodeFault {
        CodeFault::Memory
    }
}

impl From<Memory> for CodeFault {
    ghost from_gives = { λ _ e. e ≡ faults.Memory };

    fn from(_e: Memory) -> CodeFault {
        CodeFault::Memory
    }
}
