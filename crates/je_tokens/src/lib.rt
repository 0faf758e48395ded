//! The tokens of fragments and scripts.
//!
//! Stands on je_base. Offers above: the one list of tokens of a text, or its first fault, each
//! token with its place; and the position at which a text ends.
#![tactic(auto)]

mod characters;
mod cut;
mod literals;
mod marks;
mod numbers;
mod pieces;
mod places;
mod syntax;
mod token;
mod words;

pub use cut::tokens;
pub use places::text_end;
pub use syntax::{Syntax, SyntaxKind};
pub use token::{Token, TokenKind};
