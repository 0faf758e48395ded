//! Tests of je_code.
//!
//! They stand apart so that a crate under test is proved once. What a clause says is not tested
//! again: these are answers with ample memory, rows from outside, and calls that fail.
#![tactic(auto)]

#[cfg(test)]
mod code;
