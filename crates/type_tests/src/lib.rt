//! Tests of je_type.
//!
//! They stand apart so that it is proved once. What a clause says is not tested again: these are
//! answers with ample memory, and rows from outside.
#![tactic(auto)]

#[cfg(test)]
mod fields;
#[cfg(test)]
mod methods;
