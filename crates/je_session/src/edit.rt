//! The edit of a method: which one it is, what its plan chooses, and what comes of it.

mod chosen;
mod code;
mod editable;
mod method;
mod splice;
mod stop;

pub use method::edit_method;
pub use stop::EditStop;
