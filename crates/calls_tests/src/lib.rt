//! Tests of je_calls.
//!
//! They stand apart so that a crate under test is proved once. What a clause says is not tested
//! again: these are answers with ample memory.
#![tactic(auto)]

#[cfg(test)]
mod calls;
