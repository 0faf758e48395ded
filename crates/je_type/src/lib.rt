//! Types and their two spellings: descriptors, and Java source.
//!
//! Stands on je_base and je_desc. Offers above: the type that a descriptor spells, the descriptor
//! of a type, and the type as Java source has it.
#![tactic(auto)]

mod field;
mod method;
mod source;
mod texts;
mod written;

pub use field::parse_field;
pub use method::parse_method;
pub use source::source_text;
pub use written::{method_text, text};
