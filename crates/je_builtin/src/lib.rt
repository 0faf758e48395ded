//! The built-in classes: a few of the Java library, as other classes see them.
//!
//! Stands on je_base and je_desc. Offers above: the class of a name, exactly by the table of
//! `specs/BuiltIns`.
#![tactic(auto)]

mod find;
mod made;
mod row;
mod table;

pub use find::{built_in, built_ins};
