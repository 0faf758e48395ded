//! Why a class file was not read.

ghost use Rattle.std.specs.Prelude.{◌≡◌};
ghost use Rattle.je_class.specs.declared.fault.ClassFault.TheVariants as faults;

use je_base::{Cut, Memory};
use std::alloc::{AllocError, AllocFailed};
use thiserror::Error;

/// Class files longer than this are not read: bytes.
pub const MOST_BYTES: usize = 16_777_216;

/// Why bytes were not read as a class file: the first test that fails. Offsets are in bytes, from
/// the start of the file.
#[derive(Clone, Copy, Debug, PartialEq, Eq, Error)]
pub enum ClassFault {
    /// There are more than `MOST_BYTES` bytes.
    #[error("the class file is too long")]
    TooLong,
    /// The bytes end within the number or the run of bytes that begins at this offset.
    #[error("the class file is cut off")]
    Truncated(usize),
    /// The first four bytes are not those of a class file.
    #[error("no class file begins so")]
    BadMagic,
    /// The major version is outside 49 to 52: it is this one.
    #[error("the version is not read")]
    Version(u16),
    /// The constant of this index is none, or names one that does not fit; 0 where the count is 0.
    #[error("a constant is malformed")]
    BadConst(u16),
    /// The index at this offset does not name what it has to: a class that is no array, or a text.
    #[error("an index names no fitting constant")]
    BadIndex(usize),
    /// The index at this offset names a text that is no descriptor of its sort.
    #[error("a descriptor is malformed")]
    BadDescriptor(usize),
    /// The index of an attribute's name, at this offset, names no text.
    #[error("an attribute has no name")]
    BadAttribute(usize),
    /// The class file ends at this offset, and more bytes follow.
    #[error("bytes follow the class file")]
    Trailing(usize),
    /// There was not enough memory.
    #[error("out of memory")]
    Memory,
}

impl From<Cut> for ClassFault {
    ghost from_gives = { λ cut e. e ≡ faults.Truncated cut.0 };

    fn from(cut: Cut) -> ClassFault {
        ClassFault::Truncated(cut.0)
    }
}

impl From<Memory> for ClassFault {
    ghost from_gives = { λ _ e. e ≡ faults.Memory };

    fn from(_e: Memory) -> ClassFault {
        ClassFault::Memory
    }
}

impl From<AllocError> for ClassFault {
    ghost from_gives = { λ _ e. e ≡ faults.Memory };

    fn from(_e: AllocError) -> ClassFault {
        ClassFault::Memory
    }
}

impl<T: Drop> From<AllocFailed<T>> for ClassFault {
    ghost from_gives = { λ _ e. e ≡ faults.Memory };

    fn from(_e: AllocFailed<T>) -> ClassFault {
        ClassFault::Memory
    }
}
