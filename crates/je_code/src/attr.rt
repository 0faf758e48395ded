//! The content of a Code attribute.

use crate::rows::{LineRow, VarRow};
use je_base::Run;
use je_instr::Decoded;
use sqlite_items::Items;

/// The content of a Code attribute (JVMS 4.7.3), with indexes of instructions in the place of
/// offsets.
#[derive(Debug, Drop)]
pub struct CodeAttr {
    /// How deep the operand stack may grow, in places.
    pub max_stack: u16,
    /// How many places the local variables take.
    pub max_locals: u16,
    /// The program, and where its instructions stood in the code.
    pub decoded: Decoded,
    /// The rows of the first LineNumberTable (JVMS 4.7.12).
    pub lines: Items<LineRow>,
    /// The rows of the first LocalVariableTable (JVMS 4.7.13).
    pub vars: Items<VarRow>,
    /// The rows of the first LocalVariableTypeTable (JVMS 4.7.14).
    pub var_types: Items<VarRow>,
    /// The bytes of the first StackMapTable (JVMS 4.7.4), if there is one.
    pub map: Option<Run>,
}
