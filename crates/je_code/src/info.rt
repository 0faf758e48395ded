//! What a Code attribute is made of, as a class file has it (JVMS 4.7.3 and 4.7.12 to 4.7.14).

use je_base::Run;
use je_consts::ConstIndex;

/// An attribute of the code (JVMS 4.7), whose bytes are a part of the run that was read.
#[derive(Debug, Drop)]
pub struct AttributeInfo {
    /// The index of its name.
    pub name: ConstIndex,
    /// At most 4,294,967,295 bytes.
    pub bytes: Run,
}

/// An entry of a LineNumberTable (JVMS 4.7.12).
#[derive(Clone, Copy, Debug)]
pub struct LineInfo {
    /// The offset of the first instruction of the line, in bytes.
    pub start_pc: u16,
    /// The number of the line.
    pub line_number: u16,
}

/// An entry of a LocalVariableTable or LocalVariableTypeTable (JVMS 4.7.13 and 4.7.14): a local
/// variable of this index has a value from an offset on, for so many bytes.
#[derive(Clone, Copy, Debug)]
pub struct VarInfo {
    /// The offset from which on it has a value, in bytes.
    pub start_pc: u16,
    /// For how many bytes it has one.
    pub length: u16,
    /// The index of its name.
    pub name_index: ConstIndex,
    /// The index of its descriptor, or of its generic signature.
    pub signature_index: ConstIndex,
    /// Its index among the local variables.
    pub index: u16,
}
