//! Shapes: what is known of the stack and the local variables at each instruction of a method.
//!
//! Stands on je_base, je_desc, je_machine and je_value. Offers above: slots and shapes, their order
//! and what two have in common, how shapes flow and which serve, as definitions with their laws,
//! and the shape with which a method begins.
#![tactic(auto)]

mod entry;
mod flows;
mod join;
mod joins;
mod least;
mod names;
mod orders;
mod rows;
mod slot;
mod view;

pub use entry::{entry_shape, reference};
pub use flows::{arrivals_are_monotone, flow_is_monotone};
pub use join::{join_items, join_locals, join_parts, join_shapes, join_slots, join_stacks};
pub use joins::{shapes_are_joined, slots_are_joined};
pub use least::{flow_is_decided, one_least, small_methods};
pub use names::{Names, union};
pub use orders::{canonical_shapes_are_one, shapes_are_ordered, slots_are_ordered};
pub use rows::{flows_are_computed, serving_is_computed};
pub use slot::{Shape, Slot, copy_slots};
pub use view::{View, Word, of_names, seen};
