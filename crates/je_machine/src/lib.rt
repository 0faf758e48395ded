//! The machine of methods: values, heap, actions, runs and views, as definitions with their laws.
//!
//! Stands on je_base, je_consts and je_desc. Has no code of its own: its functions are laws over
//! the definitions. Offers above: what each instruction does, and what a longer bound of a run
//! shows.
#![tactic(auto)]

mod acting;
mod actions;
mod arithmetic;
mod fields;
mod handlers;
mod machine;
mod operations;
mod performed;
mod rows;
mod runs;
mod shown;

pub use acting::{answers_are_taken, arrays_are_used, objects_are_made};
pub use actions::{actions_do, calls_do, kinds_of_values};
pub use arithmetic::{ints_are_computed, ints_are_shifted, longs_are_computed, results_keep_kinds};
pub use fields::{fields_are_used, object_fields, static_fields};
pub use handlers::ways_of_throws;
pub use machine::{machine_runs, moved_programs};
pub use operations::{inverse_conditions, own_slots, relocation, under_operands};
pub use performed::{jumps_are_taken, kinds_are_known, locals_are_used, stacks_are_used};
pub use rows::{int_bit_rows, int_rows, long_bit_rows, long_rows};
pub use runs::{agreement, longer_bounds, simulation, stretches, views_begin_views, views_show};
pub use shown::{
    classes_are_known, conditions_are_met, runs_are_shown, values_are_admitted, values_are_copied,
};
