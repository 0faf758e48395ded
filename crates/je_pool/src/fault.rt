//! Why a pool gave no class.

ghost use Rattle.std.specs.Prelude.{◌≡◌};
ghost use Rattle.je_pool.specs.declared.fault.PoolFault.TheVariants as fault;

use je_base::{Memory, Text};
use je_class::ClassFault;

/// Why a class was not found.
#[derive(Debug, Drop)]
pub enum PoolFault {
    /// A file could not be read.
    Failed,
    /// The file of this name is no class file, for this cause.
    BadClass(Text, ClassFault),
    /// The file of the first name has a class of the second.
    WrongName(Text, Text),
    /// There was not enough memory.
    Memory,
}

impl From<Memory> for PoolFault {
    ghost from_gives = { λ _ e. e ≡ fault.Memory };

    fn from(_e: Memory) -> PoolFault {
        PoolFault::Memory
    }
}

/// Why a class was not added.
#[derive(Clone, Copy, Debug, PartialEq, Eq)]
pub enum AddStop {
    /// The pool keeps a class of this name, or the name was asked.
    Taken,
    /// There was not enough memory.
    Memory,
}

/// What may be done with a class of a pool.
#[derive(Clone, Copy, Debug, PartialEq, Eq)]
pub enum State {
    /// It may be changed.
    Editable,
    /// Its bytes were made, and it may not be changed.
    Frozen,
    /// Its bytes were made, and its methods have lost their code.
    Pruned,
    /// The pool has forgotten it.
    Detached,
}

/// Why a class is not given or changed: its state.
#[derive(Clone, Copy, Debug, PartialEq, Eq)]
pub enum PoolRefusal {
    /// Its bytes were made.
    Frozen,
    /// Its methods have lost their code.
    Pruned,
    /// The pool has forgotten it.
    Detached,
}

/// Why a class was not changed.
#[derive(Clone, Copy, Debug, PartialEq, Eq)]
pub enum Stop {
    /// Its state does not allow it.
    Refused(PoolRefusal),
    /// There was not enough memory.
    Memory,
}
