use je_base::Text;
use sqlite_items::Items;

/// A field or a method as other classes see it.
#[derive(Debug, Drop)]
pub struct MemberSig {
    /// The access flags (JVMS 4.5 and 4.6).
    pub access: u16,
    pub name: Text,
    /// A field descriptor or a method descriptor (JVMS 4.3).
    pub descriptor: Text,
}

/// A class as other classes see it.
#[derive(Debug, Drop)]
pub struct Summary {
    /// The name in internal form (JVMS 4.2.1), as are those below.
    pub name: Text,
    /// `None` for `java/lang/Object` alone.
    pub super_name: Option<Text>,
    pub interfaces: Items<Text>,
    /// The access flags (JVMS 4.1).
    pub access: u16,
    pub fields: Items<MemberSig>,
    pub methods: Items<MemberSig>,
}
