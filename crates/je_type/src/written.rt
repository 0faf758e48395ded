//! The descriptors of types.

ghost use Rattle.std.specs.Prelude.{◌≡◌, ◌++◌, map, IfOk, OnOk, IfSome};
ghost use Rattle.std.specs.List.{flat_map, AllByRecursion};
ghost use Rattle.std.specs.Option.{option_map};
ghost use Rattle.je_desc.specs.FieldType.{descriptor};
ghost use Rattle.je_desc.specs.Descriptor.{method_descriptor, return_descriptor};
ghost use Rattle.je_desc.specs.Types.{field_type_of, method_types_of};
ghost use Rattle.je_type.specs.Texts.{HasText, HaveTexts};

use crate::texts::text_of;
use je_base::{Memory, Text};
use je_desc::{JType, MethodType};
use std::alloc::Global;

/// The descriptor of a type (JVMS 4.3.2). One of more than 255 dimensions is written in the same
/// way, though no descriptor has so many.
///
/// # Errors
///
/// `Memory` where memory runs out.
pub fn text(alloc: Global, t: &JType) -> Result<Text, Memory>
    ensures { IfOk result (λ x. x ≡ descriptor (field_type_of t.now)) }
{
    let mut bytes = Vec::with_capacity(alloc, room_for(t))?;
    push_descriptor(&mut bytes, t)?;
    text_of(alloc, bytes)
}

/// The descriptor of a method (JVMS 4.3.3). One of more than 255 units is written in the same way,
/// though no descriptor has so many.
///
/// # Errors
///
/// `Memory` where memory runs out.
pub fn method_text(alloc: Global, m: &MethodType) -> Result<Text, Memory>
    ensures { IfOk result (λ x. x ≡ method_descriptor (method_types_of m.now)) }
{
    let bytes = method_bytes(alloc, m)?;
    text_of(alloc, bytes)
}

/// The bytes of the descriptor of a method.
fn method_bytes(alloc: Global, m: &MethodType) -> Result<Vec<u8>, Memory>
    ensures bytes { IfOk result (λ bytes.
        bytes.items ≡ method_descriptor (method_types_of m.now)) }
    ensures named { OnOk result (HaveTexts (method_types_of m.now)) }
{
    let mut bytes = Vec::with_capacity(alloc, room_for_method(m))?;
    bytes.push(b'(')?;
    push_params(&mut bytes, m.params.as_slice())?;
    bytes.push(b')')?;
    push_return(&mut bytes, &m.result)?;
    Ok(bytes)
}

/// How many bytes the descriptor of a method has. They are counted so that room is made once.
fn room_for_method(m: &MethodType) -> usize {
    let mut room = 2usize;
    for t in m.params.as_slice() {
        room = room.saturating_add(room_for(t));
    }
    match &m.result {
        Some(t) => room.saturating_add(room_for(t)),
        None => room.saturating_add(1),
    }
}

/// How many bytes the descriptor of a type has.
fn room_for(t: &JType) -> usize {
    match t {
        JType::Class(name) => name.bytes().len().saturating_add(2),
        JType::Array(component) => room_for(component.get()).saturating_add(1),
        _ => 1,
    }
}

/// The descriptors of the parameters are put behind these bytes.
fn push_params(out: &mut Vec<u8>, params: &[JType]) -> Result<(), Memory>
    ensures text { OnOk result
        (out.new.items ≡ out.old.items ++ flat_map descriptor (map field_type_of params.now)) }
    ensures named { OnOk result (AllByRecursion HasText (map field_type_of params.now)) }
{
    for t in params {
        push_descriptor(out, t)?;
    }
    Ok(())
}

/// The descriptor of what a method answers is put behind these bytes.
fn push_return(out: &mut Vec<u8>, answer: &Option<JType>) -> Result<(), Memory>
    ensures text { OnOk result (out.new.items
        ≡ out.old.items ++ return_descriptor (option_map field_type_of answer.now)) }
    ensures named { OnOk result (IfSome (option_map field_type_of answer.now) HasText) }
{
    match answer {
        Some(t) => push_descriptor(out, t)?,
        None => out.push(b'V')?,
    }
    Ok(())
}

/// The descriptor of a type is put behind these bytes.
fn push_descriptor(out: &mut Vec<u8>, t: &JType) -> Result<(), Memory>
    ensures text { OnOk result (out.new.items ≡ out.old.items ++ descriptor (field_type_of t.now)) }
    ensures named { OnOk result (HasText (field_type_of t.now)) }
{
    match t {
        JType::Boolean => out.push(b'Z')?,
        JType::Byte => out.push(b'B')?,
        JType::Char => out.push(b'C')?,
        JType::Short => out.push(b'S')?,
        JType::Int => out.push(b'I')?,
        JType::Long => out.push(b'J')?,
        JType::Float => out.push(b'F')?,
        JType::Double => out.push(b'D')?,
        JType::Class(name) => {
            out.push(b'L')?;
            out.extend_from_slice(name.bytes())?;
            out.push(b';')?;
        }
        JType::Array(component) => {
            out.push(b'[')?;
            push_descriptor(out, component.get())?;
        }
    }
    Ok(())
}
