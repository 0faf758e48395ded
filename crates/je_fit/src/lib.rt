//! Each run of the machine keeps to the shapes of its method.
//!
//! Stands on je_machine and je_shape. Has no code of its own: its functions are laws over their
//! definitions. Offers above: which frames have a shape, and that a run from a frame of the first
//! shape has the shape of each index that it reaches, and ends with a result of its kind.
#![tactic(auto)]

mod flows;
mod frames;
mod rows;
mod runs;
mod steps;

pub use flows::flows_fit;
pub use frames::frames_fit;
pub use rows::{endings_are_tested, frames_are_tested, instructions_are_tested, small_methods};
pub use runs::{parameters_fit, runs_fit};
pub use steps::{instructions_keep, least_shapes_are_sound, steps_fit};
