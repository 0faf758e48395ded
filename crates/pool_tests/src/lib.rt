//! Tests of je_pool and je_builtin.
//!
//! They stand apart so that it is proved once. What a clause says is not tested again: these are
//! answers with ample memory.
#![tactic(auto)]

#[cfg(test)]
mod loader;
#[cfg(test)]
mod table;
