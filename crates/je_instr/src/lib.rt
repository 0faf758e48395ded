//! Instructions, and what they mean.
//!
//! Stands on je_consts, je_desc and je_machine. Decodes and encodes the code of a method, and says
//! which operation of the machine each instruction is. Offers above: bytes and instructions agree,
//! and each instruction with operands that are allowed is one operation.
#![tactic(auto)]

mod again;
mod allowed;
mod assembled;
mod assembler;
mod callee;
mod calls;
mod decoder;
mod entries;
mod fault;
mod form;
mod instr;
mod laws;
mod layout;
mod near;
mod offset;
pub mod opcodes;
mod operands;
mod program;
mod programs;
mod ranges;
mod rising;
mod shortest;
mod table;
mod targets;
mod texts;
mod walk;

pub use again::decoded_again;
pub use allowed::is_allowed;
pub use assembled::{Assembled, SizeFault};
pub use assembler::assemble;
pub use callee::called_method;
pub use decoder::{decode, forms_take, numbers_mean, one_decoding};
pub use fault::CodeFault;
pub use instr::{Case, Instr, InstrIndex, Opcode, Slot};
pub use laws::{
    constants_mean, contents_stay, one_program, opcodes_mean, operations_exist, programs_exist,
};
pub use operands::{loads_mean, members_mean};
pub use program::{Decoded, Handler, Program, RawHandler};
pub use programs::{programs_mean, two_calls_are_shown};
pub use rising::{assembled_offsets, offsets_rise};
pub use table::{operand_opcodes, simple_opcodes};
