//! The code of a class file's method is a well-formed program, so its runs keep to its shapes.
//!
//! Stands on je_instr, whose programs these are, and je_fit, which says what a run keeps. Has no
//! code of its own: its functions are laws over their definitions. Offers above: each program that
//! code is is well formed, and each run of a method whose shapes are without a fault has them.
#![tactic(auto)]

mod formed;
mod rows;
mod runs;

pub use formed::{code_is_well_formed, programs_are_well_formed};
pub use rows::small_codes;
pub use runs::code_keeps_to_shapes;
