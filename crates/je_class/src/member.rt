//! Fields, methods and attributes in memory.

use je_base::Run;
use je_consts::ConstIndex;
use sqlite_items::Items;

/// Access flags and properties (JVMS tables 4.1-B, 4.5-A and 4.6-A).
pub type Access = u16;

/// The least bytes of an attribute: the index of its name, and the count of its bytes.
pub(crate) const LEAST_ATTRIBUTE: usize = 6;

/// The least bytes of a field or a method: three numbers, and the count of its attributes.
pub(crate) const LEAST_MEMBER: usize = 8;

/// An attribute (JVMS 4.7), whose content is kept as bytes: where it was read, as a part of the
/// class file's own.
#[derive(Debug, Drop)]
pub struct Attribute {
    /// The index of its name in the constant pool.
    pub name: ConstIndex,
    /// At most 4,294,967,295 bytes.
    pub bytes: Run,
}

/// A field or a method (JVMS 4.5 and 4.6).
#[derive(Debug, Drop)]
pub struct Member {
    /// The access flags.
    pub access: Access,
    /// The index of its name in the constant pool.
    pub name: ConstIndex,
    /// The index of its descriptor in the constant pool.
    pub descriptor: ConstIndex,
    /// At most 65,535 attributes.
    pub attributes: Items<Attribute>,
}
