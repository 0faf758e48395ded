//! Values, events and endings in words.

use je_base::{Memory, Text};
use je_heap::{Event, Heap, class_of_reference};
use je_value::{Action, ActionForm, Content, ContentForm, Sort, Value, ValueForm};
use je_vm::Ending;
use std::alloc::Global;

/// Adds a text of a class file.
fn put_bytes(alloc: Global, text: &mut String, bytes: &[u8]) -> Result<(), Memory> {
    match Text::from_bytes(alloc, bytes)? {
        Some(name) => text.push_str(name.show()?.as_str())?,
        None => text.push_str("?")?,
    }
    Ok(())
}

/// Adds a constant that was loaded: `class:`, `str:` or `type:` and its text, or `handle`.
fn put_constant(alloc: Global, text: &mut String, content: &Content) -> Result<(), Memory> {
    match content.form() {
        ContentForm::Class(name) => {
            text.push_str("class:")?;
            put_bytes(alloc, text, name.as_slice())
        }
        ContentForm::Str(string) => {
            text.push_str("str:")?;
            put_bytes(alloc, text, string.as_slice())
        }
        ContentForm::MethodType(descriptor) => {
            text.push_str("type:")?;
            put_bytes(alloc, text, descriptor.as_slice())
        }
        _ => Ok(text.push_str("handle")?),
    }
}

/// Adds a value, in the words that are read, or a constant.
fn put_value(alloc: Global, text: &mut String, value: &Value) -> Result<(), Memory> {
    match value.form() {
        ValueForm::Int(n) => write!(text, "int:{n}")?,
        ValueForm::Long(n) => write!(text, "long:{n}")?,
        ValueForm::Float(bits) => write!(text, "flt:{bits}")?,
        ValueForm::Double(bits) => write!(text, "dbl:{bits}")?,
        ValueForm::Null => text.push_str("null")?,
        ValueForm::Object(number) => write!(text, "obj:{number}")?,
        ValueForm::Constant(content) => put_constant(alloc, text, content)?,
    }
    Ok(())
}

/// The opcode of the instruction of an action that makes an event.
fn opcode_of(action: &Action) -> u8 {
    match action.form() {
        ActionForm::FloatOperation(opcode, _, _) => *opcode,
        ActionForm::Invoke(Sort::Virtual, _, _) => 182,
        ActionForm::Invoke(Sort::Special, _, _) => 183,
        ActionForm::Invoke(Sort::Static, _, _) => 184,
        ActionForm::Invoke(Sort::Interface, _, _) => 185,
        ActionForm::Invoke(Sort::Dynamic, _, _) => 186,
        ActionForm::MonitorEnter => 194,
        ActionForm::MonitorExit => 195,
        _ => 0,
    }
}

/// Adds the method that a content names, its class only where it has one.
fn put_method(alloc: Global, text: &mut String, method: &Content) -> Result<(), Memory> {
    match method.form() {
        ContentForm::Member(_, class, name, descriptor) => {
            text.push_str(" ")?;
            put_bytes(alloc, text, class.as_slice())?;
            text.push_str(".")?;
            put_bytes(alloc, text, name.as_slice())?;
            put_bytes(alloc, text, descriptor.as_slice())
        }
        ContentForm::InvokeDynamic(_, name, descriptor) => {
            text.push_str(" ")?;
            put_bytes(alloc, text, name.as_slice())?;
            put_bytes(alloc, text, descriptor.as_slice())
        }
        _ => Ok(()),
    }
}

/// Adds the line of an event: its opcode, the method that it calls, and the operands.
pub fn put_event(alloc: Global, text: &mut String, event: &Event) -> Result<(), Memory> {
    write!(text, "event {}", opcode_of(event.action()))?;
    if let ActionForm::Invoke(_, method, _) = event.action().form() {
        put_method(alloc, text, method)?;
    }
    for value in event.operands() {
        text.push_str(" ")?;
        put_value(alloc, text, value)?;
    }
    text.push_str("\n")?;
    Ok(())
}

/// Adds the line of how a method ended. What is thrown has its class behind it.
pub fn put_ending(
    alloc: Global,
    text: &mut String,
    ending: &Option<Ending>,
    heap: &Heap,
) -> Result<(), Memory> {
    match ending {
        None => text.push_str("goes on")?,
        Some(Ending::Returned(None)) => text.push_str("returned")?,
        Some(Ending::Returned(Some(value))) => {
            text.push_str("returned ")?;
            put_value(alloc, text, value)?;
        }
        Some(Ending::Thrown(reference)) => {
            text.push_str("threw ")?;
            put_value(alloc, text, reference)?;
            text.push_str(" ")?;
            if let Some(class) = class_of_reference(heap, reference) {
                put_bytes(alloc, text, class)?;
            }
        }
    }
    text.push_str("\n")?;
    Ok(())
}
