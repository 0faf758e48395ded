//! Calls of a method replaced by fragments.
//!
//! Stands on je_shapes and je_link for what is reached, on je_put for the code, and on the laws of
//! je_splice, je_stay and je_keep for what it does. Offers above: `replace_calls`, the rules and
//! fragments that it takes, and laws of what it answers.
#![tactic(auto)]

mod agrees;
mod blocks;
mod choose;
mod laws;
mod mapped;
mod programs;
mod reach;
mod replace;
mod rule;
mod stop;

pub use agrees::new_programs_agree;
pub use laws::reached_is_one;
pub use mapped::instructions_are_mapped;
pub use programs::replaced_programs;
pub use replace::{Replaced, replace_calls};
pub use rule::{Choice, Fragment, Rule};
pub use stop::CallStop;
