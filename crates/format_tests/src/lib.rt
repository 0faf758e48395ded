//! Tests of the crates of the format: je_base, je_consts, je_desc and je_class.
//!
//! They stand apart so that each of those crates is proved once. What a clause says is not tested
//! again: these are answers with ample memory, rows from outside, and calls that fail.
#![tactic(auto)]

#[cfg(test)]
mod base;
#[cfg(test)]
mod class;
#[cfg(test)]
mod consts;
#[cfg(test)]
mod desc;
