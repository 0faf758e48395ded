//! The tags of the entries of a constant pool (JVMS 4.4, Table 4.4-A), and the kinds of method
//! handles (JVMS 4.4.8).

/// CONSTANT_Utf8.
pub(crate) const UTF8: u8 = 1;

/// CONSTANT_Integer.
pub(crate) const INTEGER: u8 = 3;

/// CONSTANT_Float.
pub(crate) const FLOAT: u8 = 4;

/// CONSTANT_Long.
pub(crate) const LONG: u8 = 5;

/// CONSTANT_Double.
pub(crate) const DOUBLE: u8 = 6;

/// CONSTANT_Class.
pub(crate) const CLASS: u8 = 7;

/// CONSTANT_String.
pub(crate) const STRING: u8 = 8;

/// CONSTANT_Fieldref.
pub(crate) const FIELDREF: u8 = 9;

/// CONSTANT_Methodref.
pub(crate) const METHODREF: u8 = 10;

/// CONSTANT_InterfaceMethodref.
pub(crate) const INTERFACE_METHODREF: u8 = 11;

/// CONSTANT_NameAndType.
pub(crate) const NAME_AND_TYPE: u8 = 12;

/// CONSTANT_MethodHandle.
pub(crate) const METHOD_HANDLE: u8 = 15;

/// CONSTANT_MethodType.
pub(crate) const METHOD_TYPE: u8 = 16;

/// CONSTANT_InvokeDynamic.
pub(crate) const INVOKE_DYNAMIC: u8 = 18;

/// The least kind of a method handle, REF_getField.
pub(crate) const LEAST_KIND: u8 = 1;

/// The greatest kind of a method handle, REF_invokeInterface.
pub(crate) const GREATEST_KIND: u8 = 9;
