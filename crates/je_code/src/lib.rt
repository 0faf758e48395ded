//! The Code attribute of a method and its tables (JVMS 4.7.3 and 4.7.12 to 4.7.14).
//!
//! Stands on je_base, je_consts and je_instr. Reads a Code to a program and the rows of its tables,
//! moves the rows where instructions move, and writes a Code. Offers above: what is read is what
//! the bytes are, each fault is the first, and what is written reads back as what was given.
#![tactic(auto)]

mod attr;
mod attributes;
mod indexes;
mod info;
mod known;
mod laws;
mod moving;
mod named;
mod names;
mod numbers;
mod putting;
mod reading;
mod rows;
mod structures;
mod tables;
mod tabling;
mod writing;

pub use attr::CodeAttr;
pub use info::{AttributeInfo, LineInfo, VarInfo};
pub use known::texts_there;
pub use laws::one_code;
pub use moving::map_tables;
pub use named::Named;
pub use reading::read_code;
pub use rows::{LineRow, Tables, VarRow};
pub use writing::write_code;
