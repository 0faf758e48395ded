//! Subtypes, common superclasses and members of classes that are found by name.
//!
//! Stands on je_base, je_desc and je_world. Offers above: what each such question asks of a world,
//! in which order, and what comes of the answers.
#![tactic(auto)]

mod above;
mod chain;
mod common;
mod copies;
mod ending;
mod kin;
mod laws;
mod meet;
mod subtype;
mod walk;

pub use common::common_class;
pub use laws::{
    questions_stay_on_walks, small_assignments, small_common_supers, small_subtypes,
    subtypes_follow_walks,
};
pub use subtype::is_subtype;
