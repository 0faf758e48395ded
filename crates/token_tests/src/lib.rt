//! Tests of je_tokens.
//!
//! They stand apart so that it is proved once. What a clause says is not tested again: these are
//! answers with ample memory, and rows from outside.
#![tactic(auto)]

#[cfg(test)]
mod literals;
#[cfg(test)]
mod numbers;
#[cfg(test)]
mod places;
#[cfg(test)]
mod shown;
#[cfg(test)]
mod words;
