//! The values of the machine and what is computed of them, as a program.
//!
//! Stands on je_machine, whose definitions say what each function answers. Offers above: kinds,
//! values, contents, calculations, conditions and actions as data, each of which contracts see as
//! the definition's own.
#![tactic(auto)]

mod action;
mod admission;
mod arithmetic;
mod basic;
mod calculation;
mod condition;
mod content;
mod descriptor;
mod field_type;
mod kind;
mod kinds;
mod operands;
mod operation;
mod program;
mod text;
mod value;

pub use action::{
    Action, ActionForm, Element, Field, Sort, has_receiver, kind_of_element, receiver_of,
};
pub use admission::{admit, admit_all, is_of_kind, zero_of};
pub use arithmetic::kept;
pub use basic::{Basic, BasicForm};
pub use calculation::{
    BinaryOp, Calculation, Part, ShiftOp, Whole, calculate, calculation_operands,
    calculation_result,
};
pub use condition::{Comparison, Condition, condition_operands, inverse, is_met};
pub use content::{Content, ContentForm};
pub use descriptor::{read_field_type, read_method_types};
pub use field_type::{BaseType, ElementType, FieldType, MethodTypes};
pub use kind::{Kind, KindForm};
pub use operands::{is_null_at, is_same_reference_at, number_at, value_at};
pub use operation::{Operation, OperationForm, SwitchCase};
pub use program::{Handler, Program};
pub use text::is_same;
pub use value::{Value, ValueForm};
