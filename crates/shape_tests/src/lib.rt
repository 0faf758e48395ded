//! Tests of the search of je_least and je_shapes.
//!
//! They stand apart so that a crate under test is proved once. What a clause says is not tested
//! again: these are answers with ample memory.
#![tactic(auto)]

#[cfg(test)]
mod code;
#[cfg(test)]
mod least;
#[cfg(test)]
mod made;
#[cfg(test)]
mod table;
