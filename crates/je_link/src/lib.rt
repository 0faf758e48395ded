//! Resolving: the code of a method as the machine's program.
//!
//! Stands on je_instr, which says which operation each instruction is, and on je_value, which has
//! the operations as data. Offers above: the operation of an instruction, the handlers, and the
//! program of a method, each of which is the definition's.
#![tactic(auto)]

mod classes;
mod computed;
mod content;
mod fields;
mod handlers;
mod made;
mod operands;
mod operation;
mod program;
mod simple;
mod switches;
mod values;

pub use content::content_of;
pub use handlers::handlers_of;
pub use operation::{operation_of, operations_of};
pub use program::program_of;
