//! The constant pool of a class file, with all of its tags (JVMS 4.4).
//!
//! Stands on je_base. Offers above: what is read is spelled by the bytes and the other way round,
//! each fault is the first test that fails, and an index keeps its content while constants are
//! added.
#![tactic(auto)]

mod adding;
mod check;
mod composed;
mod constant;
mod consts;
mod copying;
mod entries;
mod fault;
mod index;
mod laws;
mod lookup;
mod named;
mod place;
mod reading;
mod tags;
mod writing;

pub use constant::{Const, ConstIndex, Member, MemberTag};
pub use consts::Consts;
pub use fault::{ConstFault, PoolStop};
pub use laws::{found_by_tag, one_pool};
