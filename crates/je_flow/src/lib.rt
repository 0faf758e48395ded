//! The flow of shapes as a program: what a shape becomes by an operation, and whether it serves.
//!
//! Stands on je_base, je_desc, je_machine, je_value and je_shape, whose definitions say what is
//! answered. Offers above: `flow_through` and `serves`.
#![tactic(auto)]

mod classes;
mod locals;
mod making;
mod serving;
mod stack;
mod through;
mod wants;

pub use serving::serves;
pub use through::flow_through;
