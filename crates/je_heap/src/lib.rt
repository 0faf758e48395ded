//! The machine's heap, its classes, and what it shares with the outside, as a program.
//!
//! Stands on je_machine, whose definitions it computes, and on je_value. Offers above: each
//! function is one equation with the definition of its name.
#![tactic(auto)]

mod array;
mod classes;
mod discard;
mod event;
mod field_key;
mod fields;
mod heap;
mod instance;
mod narrowing;
mod object;
mod outside;

pub use array::{descriptor, make_array, new_array};
pub use classes::{Classes, class_named, holder_of, is_some_subclass, is_subclass};
pub use event::{Answer, Event, Reply, value_or_zero};
pub use field_key::FieldKey;
pub use fields::Fields;
pub use heap::{
    Heap, allocate, array_length, element_at, elements_of, make_object, next_object, object_of,
    read_element, read_field, read_static, value_in, write_element, write_field, write_static,
};
pub use instance::{
    array_component, class_of_constant, class_of_object, class_of_reference, is_instance,
    takes_class, takes_element,
};
pub use narrowing::{narrowed, narrowed_int};
pub use object::{Object, ObjectForm, copy_values, new_instance};
pub use outside::{
    Outside, Response, float_operation, invoke, monitor_operation, next_number, next_reply,
    null_pointer, raise, reply_in, throw_reference, with_event, with_heap,
};
