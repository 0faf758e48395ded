//! Why calls of a method are not replaced.

ghost use Rattle.std.specs.Prelude.{◌≡◌};
ghost use Rattle.je_calls.specs.declared.stop.CallStop.TheVariants as stops;

use je_base::Memory;
use std::alloc::AllocFailed;

/// Why calls of a method are not replaced.
#[derive(Clone, Copy, Debug, PartialEq, Eq)]
pub enum CallStop {
    /// The method has no instruction, or no shapes, or a rule fits a call that takes operands or
    /// leaves a result.
    NotYet,
    /// There was not enough memory.
    Memory,
}

impl<T: Drop> From<AllocFailed<T>> for CallStop {
    ghost from_gives = { λ _ e. e ≡ stops.Memory };

    fn from(_e: AllocFailed<T>) -> CallStop {
        CallStop::Memory
    }
}

impl From<Memory> for CallStop {
    ghost from_gives = { λ _ e. e ≡ stops.Memory };

    fn from(_e: Memory) -> CallStop {
        CallStop::Memory
    }
}
