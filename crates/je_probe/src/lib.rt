//! A method's code as it runs: what it calls, how it ends, and the heap that it leaves.
//!
//! Stands on je_link, which makes the machine's program of code, and on je_vm, which runs it. It
//! serves the tests that look at what a method does, and no crate of the program stands on it.
//! Offers above: `probe` shows what the machine's run comes to.
#![tactic(auto)]

mod answer;
mod event;
mod heap;
mod method;
mod outcome;
mod probing;
mod run;
mod statics;
mod text;
mod value;

pub use answer::ProbeAnswer;
pub use event::ProbeEvent;
pub use heap::{ProbeHeap, ProbeStatic};
pub use outcome::{ProbeEnd, ProbeOutcome};
pub use probing::probe;
pub use value::ProbeValue;

#[cfg(test)]
mod tests;
