//! Class files of the versions 49 to 52, read to a record and written back (JVMS 4).
//!
//! Stands on je_base, je_consts and je_desc. Offers above: what is read is spelled by the bytes,
//! what is spelled so is read, each fault is the first test that fails, and what is written is that
//! spelling.
#![tactic(auto)]

mod check;
mod class_file;
mod copying;
mod fault;
mod laws;
mod member;
mod members;
mod method_index;
mod named;
mod parts;
mod reading;
mod summed;
mod words;
mod writing;

pub use class_file::ClassFile;
pub use fault::{ClassFault, MOST_BYTES};
pub use laws::{index_stays, names_stay, one_class};
pub use member::{Access, Attribute, Member};
pub use method_index::MethodIndex;
pub use reading::read_class;
pub use writing::write_class;
