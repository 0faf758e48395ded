//! Tests of je_tree.
//!
//! They stand apart so that it is proved once. What a clause says is not tested again: these are
//! numbers of nodes, counted by hand.
#![tactic(auto)]

#[cfg(test)]
mod expressions;
#[cfg(test)]
mod made;
#[cfg(test)]
mod statements;
