//! Offsets of bytes, where they stand beside indexes of instructions.

ghost use Rattle.std.specs.Prelude.{◌≡◌, ◌+◌, ◌<◌, ◌^◌};

use std::marker::Model;

/// The offset of a byte in code. An index of an instruction is no offset, and a plain number.
#[derive(Clone, Copy)]
pub(crate) struct Offset(u32);

impl Model for Offset {
    ghost use Rattle.std.specs.Prelude.{ℕ};

    ghost Value = { ℕ };

    ghost view = { λ o. o.0 };

    ghost inverse = { λ n. record { 0 = n } };
}

impl Offset {
    /// The offset of this number.
    pub(crate) fn new(at: u32) -> Offset
        ensures { result ≡ at }
    {
        Offset(at)
    }

    /// Its number.
    pub(crate) fn get(self) -> u32
        ensures { result ≡ self }
    {
        self.0
    }

    /// The offset so many bytes behind it.
    pub(crate) fn plus(self, size: usize) -> Offset
        requires { self + size < 2 ^ 32 }
        ensures { result ≡ self + size }
    {
        Offset(self.0 + size as u32)
    }
}
