//! The run of a reference keeps to what is known of its places.
//!
//! Stands on je_fit and je_keep, which say what instructions and methods keep, and je_splice, whose
//! references these are. Has no code of its own: its functions are laws over their definitions.
//! Offers above: where each piece that is put into a method keeps to the shapes of its index, so
//! does the whole run, in the form that the law of spliced code asks for.
#![tactic(auto)]

mod inner;
mod marks;
mod methods;
mod pieces;
mod references;
mod shown;
mod spliced;

pub use inner::{laid_code_keeps, programs_keep};
pub use marks::{instructions_stay, marked_methods_keep};
pub use methods::class_methods_keep;
pub use pieces::{listed_pieces_keep, small_pieces_keep};
pub use references::references_keep;
pub use shown::{turning_is_spliced, wrong_pieces};
pub use spliced::{marked_runs_keep, spliced_methods_keep};
