//! Tests of the machine as a program, je_value and je_vm, and of je_shape.
//!
//! They stand apart so that each of those crates is proved once. What a clause says is not tested
//! again: these are answers with ample memory.
#![tactic(auto)]

#[cfg(test)]
mod shapes;
#[cfg(test)]
mod values;
#[cfg(test)]
mod vm;
