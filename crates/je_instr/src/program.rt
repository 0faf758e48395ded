//! Programs: instructions whose targets are indexes, and the handlers of their exceptions.

use crate::instr::Instr;
use sqlite_items::Items;

/// An entry of the exception table as it is written (JVMS 4.7.3): offsets in bytes, and the index
/// of the class that is caught, or 0 for all.
#[derive(Clone, Copy, Debug, PartialEq, Eq)]
pub struct RawHandler {
    /// Where the range begins.
    pub start: u16,
    /// Where it ends; this offset is not in the range.
    pub end: u16,
    /// Where the handler begins.
    pub target: u16,
    /// The index of the class that is caught, or 0.
    pub catch_const: u16,
}

/// A handler of exceptions, by the indexes of instructions.
#[derive(Clone, Copy, Debug, PartialEq, Eq)]
pub struct Handler {
    /// The first instruction of the range.
    pub start: u32,
    /// The first instruction behind the range, or their number.
    pub end: u32,
    /// The first instruction of the handler.
    pub target: u32,
    /// The index of the class that is caught, or 0.
    pub catch_const: u16,
}

/// Instructions and the handlers of their exceptions, of which the first that fits counts.
#[derive(Debug, Drop)]
pub struct Program {
    /// The instructions, whose targets are indexes of instructions.
    pub instrs: Items<Instr>,
    /// The handlers.
    pub handlers: Items<Handler>,
}

/// A program, and where its instructions stood in the code.
#[derive(Debug, Drop)]
pub struct Decoded {
    /// The program.
    pub program: Program,
    /// The offset of each instruction, and that of the end.
    pub offsets: Items<u32>,
}
