//! Why a constant pool was not read, or an entry not added.

ghost use Rattle.std.specs.Prelude.{◌≡◌};
ghost use Rattle.je_consts.specs.declared.fault.ConstFault.TheVariants as faults;
ghost use Rattle.je_consts.specs.declared.fault.PoolStop.TheVariants as stops;

use je_base::{Cut, Memory};
use std::alloc::{AllocError, AllocFailed};
use thiserror::Error;

/// Why bytes were not read as a constant pool: the first test that fails.
#[derive(Clone, Copy, Debug, PartialEq, Eq, Error)]
pub enum ConstFault {
    /// The bytes end within the number, or the run of a Utf8's bytes, that begins at this offset.
    #[error("the constant pool is cut off")]
    Truncated(usize),
    /// The entry of this index is none, or names an entry that does not fit; 0 where the count is
    /// 0.
    #[error("a constant is malformed")]
    BadConst(u16),
    /// There was not enough memory.
    #[error("out of memory")]
    Memory,
}

/// Why an entry was not added.
#[derive(Clone, Copy, Debug, PartialEq, Eq, Error)]
pub enum PoolStop {
    /// The pool would have this count, which is more than 65,535.
    #[error("the constant pool is full")]
    Full(u32),
    /// There was not enough memory.
    #[error("out of memory")]
    Memory,
}

impl From<Cut> for ConstFault {
    ghost from_gives = { λ cut e. e ≡ faults.Truncated cut.0 };

    fn from(cut: Cut) -> ConstFault {
        ConstFault::Truncated(cut.0)
    }
}

impl From<AllocError> for ConstFault {
    ghost from_gives = { λ _ e. e ≡ faults.Memory };

    fn from(_e: AllocError) -> ConstFault {
        ConstFault::Memory
    }
}

impl<T: Drop> From<AllocFailed<T>> for ConstFault {
    ghost from_gives = { λ _ e. e ≡ faults.Memory };

    fn from(_e: AllocFailed<T>) -> ConstFault {
        ConstFault::Memory
    }
}

impl From<Memory> for ConstFault {
    ghost from_gives = { λ _ e. e ≡ faults.Memory };

    fn from(_e: Memory) -> ConstFault {
        ConstFault::Memory
    }
}

impl From<AllocError> for PoolStop {
    ghost from_gives = { λ _ e. e ≡ stops.Memory };

    fn from(_e: AllocError) -> PoolStop {
        PoolStop::Memory
    }
}

impl<T: Drop> From<AllocFailed<T>> for PoolStop {
    ghost from_gives = { λ _ e. e ≡ stops.Memory };

    fn from(_e: AllocFailed<T>) -> PoolStop {
        PoolStop::Memory
    }
}

impl From<Memory> for PoolStop {
    ghost from_gives = { λ _ e. e ≡ stops.Memory };

    fn from(_e: Memory) -> PoolStop {
        PoolStop::Memory
    }
}
