//! Faults of a text.

ghost use Rattle.std.specs.Prelude.{◌≡◌};
ghost use Rattle.je_tokens.specs.declared.syntax.SyntaxKind.TheVariants as fault;

use je_base::{Memory, Pos};
use std::alloc::{AllocError, AllocFailed};

/// The first fault of a text.
#[derive(Clone, Copy, Debug, PartialEq, Eq)]
pub struct Syntax {
    /// Where it stands; of no meaning where memory ran out.
    pub pos: Pos,
    pub kind: SyntaxKind,
}

/// What is at fault. Of several in one token `Unclosed` counts, and then the first of these.
#[derive(Clone, Copy, Debug, PartialEq, Eq)]
pub enum SyntaxKind {
    /// A byte is not UTF-8.
    NotUtf8,
    /// A character that no token has, or a character literal of no or of several code units.
    BadChar,
    /// An escape that is none.
    BadEscape,
    /// A literal does not end on its line, or a comment does not end.
    Unclosed,
    /// A number past the greatest of its type.
    NumberTooLarge,
    /// A number that is no whole one.
    FloatNumber,
    /// A name of more than 1,000 characters.
    NameTooLong,
    /// A string literal with a text of more than 65,535 bytes.
    LiteralTooLong,
    /// No text of the grammar goes on so.
    Unexpected,
    /// A tree deeper than 200.
    TooDeep,
    /// What may stand once stands again.
    Repeated,
    /// There was not enough memory.
    Memory,
}

impl From<AllocError> for SyntaxKind {
    ghost from_gives = { λ _ e. e ≡ fault.Memory };

    fn from(_e: AllocError) -> SyntaxKind {
        SyntaxKind::Memory
    }
}

impl<T: Drop> From<AllocFailed<T>> for SyntaxKind {
    ghost from_gives = { λ _ e. e ≡ fault.Memory };

    fn from(_e: AllocFailed<T>) -> SyntaxKind {
        SyntaxKind::Memory
    }
}

impl From<Memory> for SyntaxKind {
    ghost from_gives = { λ _ e. e ≡ fault.Memory };

    fn from(_e: Memory) -> SyntaxKind {
        SyntaxKind::Memory
    }
}
