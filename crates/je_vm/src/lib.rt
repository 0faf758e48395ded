//! The machine as a program: what an instruction does, a step, and a bounded run.
//!
//! Stands on je_machine, whose definitions it computes, and on je_value and je_heap, whose values,
//! actions and heaps it takes. Offers above: each function is one equation with the definition of
//! its name.
#![tactic(auto)]

mod acting;
mod arrays;
mod exceptions;
mod fields;
mod frame;
mod locals;
mod machine;
mod stack;
mod start;
mod state;

pub use acting::act;
pub use frame::{Flow, Frame, Stacked, perform, perform_basic};
pub use locals::{incremented, local_at, with_local};
pub use machine::{Ending, Outcome, Progress, catcher, iterate, run_of, take_step};
pub use stack::{below, copied, popped, push, top, top_places, under, under_places};
pub use start::{enter, start_of};
pub use state::State;
