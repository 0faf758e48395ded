//! Blocks put into the program of a method.
//!
//! Stands on je_base, je_instr, je_shape and je_splice. Offers above: blocks of instructions with
//! their handlers and shapes, and the program that has blocks at the indexes of another one, with
//! where each index went and what is known at the blocks' instructions.
#![tactic(auto)]

mod block;
mod code;
mod handlers;
mod items;
mod meant;
mod parts;
mod redirect;
mod shapes;
mod shown;
mod splicing;
mod sums;
mod tables;

pub use block::{Block, EntryBlock, PlaceBlock, Spliced};
pub use meant::{put_programs_are_meant, put_programs_do};
pub use shown::sample_is_spliced;
pub use splicing::splice;
