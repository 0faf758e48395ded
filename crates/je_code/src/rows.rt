//! The rows of a Code attribute's tables, by the indexes of instructions.

use je_consts::ConstIndex;
use je_instr::{InstrIndex, Slot};
use sqlite_items::Items;

/// The instructions from this one on belong to a line of the source (JVMS 4.7.12).
#[derive(Clone, Copy, Debug, PartialEq, Eq)]
pub struct LineRow {
    /// The first instruction, or their number.
    pub start: InstrIndex,
    /// The number of the line.
    pub line: u16,
}

/// A local variable has a value within a range of instructions (JVMS 4.7.13 and 4.7.14).
#[derive(Clone, Copy, Debug, PartialEq, Eq)]
pub struct VarRow {
    /// The first instruction of the range, or their number.
    pub start: InstrIndex,
    /// The first instruction behind the range, or their number.
    pub end: InstrIndex,
    /// The index of the constant that is the variable's name.
    pub name: ConstIndex,
    /// The index of the constant that is its descriptor, or its generic signature.
    pub sig: ConstIndex,
    /// Its index among the local variables.
    pub slot: Slot,
}

/// The tables of rows that a Code attribute has.
#[derive(Debug, Drop)]
pub struct Tables {
    /// Which instructions belong to which line (JVMS 4.7.12).
    pub lines: Items<LineRow>,
    /// Local variables with their descriptors (JVMS 4.7.13).
    pub vars: Items<VarRow>,
    /// Local variables with their generic signatures (JVMS 4.7.14).
    pub var_types: Items<VarRow>,
}
