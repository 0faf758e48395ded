//! Tokens.

use je_base::{Pos, Text};

/// A token: the slice of its source from one byte to another, and what it says.
#[derive(Debug, Drop)]
pub struct Token {
    /// The offset of its first byte.
    pub start: usize,
    /// The offset behind its last byte.
    pub end: usize,
    /// The position of its first character.
    pub pos: Pos,
    pub kind: TokenKind,
}

/// What a token is (JLS 3.8 to 3.12).
#[derive(Debug, Drop)]
pub enum TokenKind {
    /// An identifier that is no reserved word.
    Ident(Text),
    /// A reserved word of Java SE 8, `true`, `false` or `null`.
    Reserved(Text),
    /// A dollar name, with its `$`.
    Dollar(Text),
    /// A whole number: its value, whether it is long, and whether it is decimal, as `0` is.
    Whole(u64, bool, bool),
    /// A character literal: its UTF-16 code unit.
    Character(u16),
    /// A string literal: its content.
    Literal(Text),
    /// An operator or another mark.
    Mark(Text),
}
