//! Worlds of classes: what lies under each name, the walks over it, and a world in memory.
//!
//! Stands on je_base and je_desc. Offers above: what each look at a world answers and leaves of it,
//! and a word for what is left after a call that is lent a world, whatever it asks.
#![tactic(auto)]

mod entry;
mod laws;
mod link;
mod map_world;
mod stop;
mod walks;
mod world;

pub use laws::{broken_questions_compose, questions_compose, what_is_left_composes};
pub use link::Link;
pub use map_world::MapWorld;
pub use stop::{Stop, WorldStop};
pub use walks::{
    each_name_has_one_walk, searches_follow_walks, small_field_walks, small_searches, small_walks,
};
pub use world::World;
