//! The entries of a constant pool.

use je_base::Text;

/// An index of a constant pool, from 1 (JVMS 4.1, constant_pool).
pub type ConstIndex = u16;

/// An entry of the constant pool (JVMS 4.4).
#[derive(Debug, PartialEq, Eq, Hash, Drop)]
pub enum Const {
    /// A text in modified UTF-8 of at most 65,535 bytes (CONSTANT_Utf8, tag 1, JVMS 4.4.7).
    Utf8(Text),
    /// A number of type int (CONSTANT_Integer, tag 3, JVMS 4.4.4).
    Integer(i32),
    /// The bits of a number of type float (CONSTANT_Float, tag 4, JVMS 4.4.4).
    Float(u32),
    /// A number of type long, which takes two indexes (CONSTANT_Long, tag 5, JVMS 4.4.5).
    Long(i64),
    /// The bits of a number of type double, which takes two indexes (CONSTANT_Double, tag 6, JVMS
    /// 4.4.5).
    Double(u64),
    /// A class: its name (CONSTANT_Class, tag 7, JVMS 4.4.1).
    Class(ConstIndex),
    /// A string: its text (CONSTANT_String, tag 8, JVMS 4.4.3).
    Str(ConstIndex),
    /// A field: its class, and its name and type (CONSTANT_Fieldref, tag 9, JVMS 4.4.2).
    Field(ConstIndex, ConstIndex),
    /// A method of a class: its class, and its name and type (CONSTANT_Methodref, tag 10, JVMS
    /// 4.4.2).
    Method(ConstIndex, ConstIndex),
    /// A method of an interface: the interface, and the name and type (CONSTANT_InterfaceMethodref,
    /// tag 11, JVMS 4.4.2).
    InterfaceMethod(ConstIndex, ConstIndex),
    /// A name and a descriptor (CONSTANT_NameAndType, tag 12, JVMS 4.4.6).
    NameAndType(ConstIndex, ConstIndex),
    /// A method handle: its kind from 1 to 9, and the field or method (CONSTANT_MethodHandle, tag
    /// 15, JVMS 4.4.8).
    MethodHandle(u8, ConstIndex),
    /// A method type: its descriptor (CONSTANT_MethodType, tag 16, JVMS 4.4.9).
    MethodType(ConstIndex),
    /// A dynamic call: the number of its bootstrap method, which is no index of the pool, and its
    /// name and type (CONSTANT_InvokeDynamic, tag 18, JVMS 4.4.10).
    InvokeDynamic(u16, ConstIndex),
}

/// Which of the three structures of a field or method (JVMS 4.4.2).
#[derive(Clone, Copy, Debug, PartialEq, Eq)]
pub enum MemberTag {
    /// CONSTANT_Fieldref.
    Field,
    /// CONSTANT_Methodref.
    Method,
    /// CONSTANT_InterfaceMethodref.
    InterfaceMethod,
}

/// A field or method as a constant pool names it (JVMS 4.4.2).
#[derive(Clone, Copy, Debug)]
pub struct Member<'a> {
    /// Which of the three structures it is.
    pub kind: MemberTag,
    /// The name of its class or interface.
    pub owner: &'a Text,
    /// Its name.
    pub name: &'a Text,
    /// Its descriptor (JVMS 4.3).
    pub descriptor: &'a Text,
}
