use je_base::Text;
use sqlite_items::{Boxed, Items};

/// The type of a field, a parameter or an element of an array (JVMS 4.3.2).
#[derive(Debug, Drop)]
pub enum JType {
    Boolean,
    Byte,
    Char,
    Short,
    Int,
    Long,
    Float,
    Double,
    /// A class or interface, by its name in internal form (JVMS 4.2.1).
    Class(Text),
    /// An array of this component type.
    Array(Boxed<JType>),
}

/// The type of a method (JVMS 4.3.3).
#[derive(Debug, Drop)]
pub struct MethodType {
    /// The types of the parameters, in their order.
    pub params: Items<JType>,
    /// The type of the result; `None` is void.
    pub result: Option<JType>,
}
