//! Names, types and literals.

use je_base::{Pos, Text};
use sqlite_items::Items;

/// An identifier (JLS 3.8).
#[derive(Debug, Drop)]
pub struct Ident {
    pub text: Text,
    pub pos: Pos,
}

/// Identifiers with dots between them, one at least (JLS 6.2).
#[derive(Debug, Drop)]
pub struct Name {
    pub parts: Items<Ident>,
}

/// A primitive type (JLS 4.2).
#[derive(Clone, Copy, Debug, PartialEq, Eq)]
pub enum Prim {
    Boolean,
    Byte,
    Char,
    Short,
    Int,
    Long,
    Float,
    Double,
}

/// A type without dimensions.
#[derive(Debug, Drop)]
pub enum Base {
    Prim(Prim),
    Class(Name),
}

/// A type as it is written (JLS 4.3).
#[derive(Debug, Drop)]
pub struct TypeName {
    pub base: Base,
    /// How many `[]` follow, 255 at most.
    pub dimensions: u8,
}

/// A literal (JLS 3.10).
#[derive(Debug, Drop)]
pub enum Literal {
    /// Its value, whether it is long, and whether it is decimal.
    Whole(u64, bool, bool),
    /// Its UTF-16 code unit.
    Character(u16),
    /// The content of a string literal.
    Content(Text),
    True,
    False,
    Null,
}
