//! Tests of scripts, edits and whole runs: je_session.
//!
//! They stand apart so that the crate is proved once. What a clause says is not tested again: these
//! are answers with ample memory, printed lines, and calls that fail.
#![tactic(auto)]

#[cfg(test)]
mod edits;
#[cfg(test)]
mod runs;
#[cfg(test)]
mod scripts;
