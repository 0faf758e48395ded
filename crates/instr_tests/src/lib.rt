//! Tests of je_instr.
//!
//! They stand apart so that a crate under test is proved once. What a clause says is not tested
//! again: these are answers with ample memory, rows from outside, and calls that fail.
#![tactic(auto)]

#[cfg(test)]
mod decodes;
#[cfg(test)]
mod instr;
