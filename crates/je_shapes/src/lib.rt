//! The least shapes of a method by its instructions and the constants of its class.
//!
//! Stands on je_instr, whose programs these are, je_link, which says which operations they have,
//! and je_least, which finds the least shapes of operations. Offers above: `shapes`, and the test
//! that it wants, `allows_program`.
#![tactic(auto)]

mod allowed;
mod method;

pub use allowed::allows_program;
pub use method::shapes;
