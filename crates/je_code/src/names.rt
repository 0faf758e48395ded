//! The names of the tables of a Code attribute (JVMS 4.7.4 and 4.7.12 to 4.7.14).

pub(crate) const LINE_NUMBER_TABLE: &[u8] = b"LineNumberTable";

pub(crate) const LOCAL_VARIABLE_TABLE: &[u8] = b"LocalVariableTable";

pub(crate) const LOCAL_VARIABLE_TYPE_TABLE: &[u8] = b"LocalVariableTypeTable";

pub(crate) const STACK_MAP_TABLE: &[u8] = b"StackMapTable";
