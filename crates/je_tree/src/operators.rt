//! Operators (JLS 3.12, 15.14 to 15.26).

use crate::names::TypeName;

/// An operator before its operand (JLS 15.15).
#[derive(Clone, Copy, Debug, PartialEq, Eq)]
pub enum UnaryOp {
    Plus,
    Minus,
    Not,
    Complement,
    Increment,
    Decrement,
}

/// An operator behind its operand (JLS 15.14).
#[derive(Clone, Copy, Debug, PartialEq, Eq)]
pub enum StepOp {
    Increment,
    Decrement,
}

/// An operator between two operands (JLS 15.17 to 15.24).
#[derive(Clone, Copy, Debug, PartialEq, Eq)]
pub enum BinaryOp {
    Or,
    And,
    BitOr,
    BitXor,
    BitAnd,
    Equal,
    NotEqual,
    Less,
    Greater,
    LessOrEqual,
    GreaterOrEqual,
    ShiftLeft,
    ShiftRight,
    ShiftRightUnsigned,
    Add,
    Subtract,
    Multiply,
    Divide,
    Remainder,
}

/// An assignment (JLS 15.26).
#[derive(Clone, Copy, Debug, PartialEq, Eq)]
pub enum AssignOp {
    Plain,
    Add,
    Subtract,
    Multiply,
    Divide,
    Remainder,
    BitAnd,
    BitOr,
    BitXor,
    ShiftLeft,
    ShiftRight,
    ShiftRightUnsigned,
}

/// What a cast makes of its operand.
#[derive(Debug, Drop)]
pub enum CastTo {
    Type(TypeName),
    /// `$r`, the type of the result.
    Result,
    /// `$w`, the wrapper of a primitive.
    Wrapper,
}
