//! Why a method was not edited.

ghost use Rattle.std.specs.Prelude.{◌≡◌};
ghost use Rattle.je_session.specs.declared.edit.stop.EditStop.TheVariants as stops;
ghost use Rattle.je_session.specs.Stops.{code_stop, size_stop, pool_stop};

use je_base::Memory;
use je_consts::PoolStop;
use je_instr::{CodeFault, SizeFault};
use std::alloc::{AllocError, AllocFailed};

/// Why a method was not edited.
#[derive(Clone, Copy, Debug, PartialEq, Eq)]
pub enum EditStop {
    /// The method is not there, or of a form that is not edited yet.
    NotYet,
    /// There was not enough memory.
    Memory,
}

impl From<AllocError> for EditStop {
    ghost from_gives = { λ _ e. e ≡ stops.Memory };

    fn from(_e: AllocError) -> EditStop {
        EditStop::Memory
    }
}

impl<T: Drop> From<AllocFailed<T>> for EditStop {
    ghost from_gives = { λ _ e. e ≡ stops.Memory };

    fn from(_e: AllocFailed<T>) -> EditStop {
        EditStop::Memory
    }
}

impl From<Memory> for EditStop {
    ghost from_gives = { λ _ e. e ≡ stops.Memory };

    fn from(_e: Memory) -> EditStop {
        EditStop::Memory
    }
}

impl From<CodeFault> for EditStop {
    ghost from_gives = { λ fault e. e ≡ code_stop fault };

    fn from(fault: CodeFault) -> EditStop {
        match fault {
            CodeFault::Memory => EditStop::Memory,
            _ => EditStop::NotYet,
        }
    }
}

impl From<SizeFault> for EditStop {
    ghost from_gives = { λ fault e. e ≡ size_stop fault };

    fn from(fault: SizeFault) -> EditStop {
        match fault {
            SizeFault::Memory => EditStop::Memory,
            _ => EditStop::NotYet,
        }
    }
}

impl From<PoolStop> for EditStop {
    ghost from_gives = { λ stop e. e ≡ pool_stop stop };

    fn from(stop: PoolStop) -> EditStop {
        match stop {
            PoolStop::Memory => EditStop::Memory,
            _ => EditStop::NotYet,
        }
    }
}
