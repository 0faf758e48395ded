//! Whether the frames of a run have the shapes of their indexes, as a program.
//!
//! Stands on je_fit, whose tests it computes, on je_shape and je_value, whose shapes and values it
//! takes, and on je_vm, whose frames these are. Offers to checks that step methods: each function
//! answers what the definition of its name says.
#![tactic(auto)]

mod frames;
mod slots;

pub use frames::{fits_known, fits_locals, fits_shape, fits_stack};
pub use slots::{fits, fits_item};
