//! The least shapes of a method: a search, which ends with them or with the first fault.
//!
//! Stands on je_base, je_machine, je_value, je_shape and je_flow. Offers above: `least_shapes`, and
//! `lost`, the slots that are used as of a kind that they do not have everywhere.
#![tactic(auto)]

mod agree;
mod answer;
mod arrive;
mod below;
mod copies;
mod known;
mod lost_slots;
mod plan;
mod search;

pub use answer::{ShapeFault, Shapes, least_shapes};
pub use lost_slots::lost;
