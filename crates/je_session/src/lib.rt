//! A run of the editor, from the words of the command line to the written class files.
//!
//! Stands on je_base, je_consts, je_desc, je_class, je_machine, je_instr and je_code. Offers above:
//! what is written after a run that is done reads back as the source class but for the planned
//! method, which does what the original with its fragments does.
#![tactic(auto)]

mod edit;
mod laws;
mod plan;
mod script;
mod session;
mod status;

pub use edit::{EditStop, edit_method};
pub use laws::{one_program, one_refusal, programs_stay};
pub use plan::{Fragment, MethodPlan, Rule, Script};
pub use script::{ScriptStop, Token, parse_script};
pub use session::run;
pub use status::Status;
