//! Descriptors of fields and methods, and the types that they spell.
//!
//! Stands on je_base. Offers above: which bytes are descriptors, and how many units the parameters
//! of a method have.
#![tactic(auto)]

mod field;
mod laws;
mod method;
mod names;
mod summary;
mod types;

pub use field::is_field;
pub use laws::each_is_decided;
pub use method::units;
pub use names::is_class_name;
pub use summary::{MemberSig, Summary};
pub use types::{JType, MethodType};
