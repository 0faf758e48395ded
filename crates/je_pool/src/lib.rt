//! Classes that are found by name in folders of class files.
//!
//! Stands on je_base, je_class, je_consts, je_desc and je_world. Offers above: a pool answers each
//! name as one whole map would, whatever was asked before.
#![tactic(auto)]

mod fault;
mod id;
mod loader;
mod node;
mod path;
mod pool;
mod search;
mod seek;

pub use fault::{AddStop, PoolFault, PoolRefusal, State, Stop};
pub use id::ClassId;
pub use loader::Loader;
pub use pool::Pool;
