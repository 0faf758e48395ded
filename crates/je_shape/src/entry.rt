//! The shape with which a method begins.

ghost use Rattle.std.specs.Prelude.{◌≡◌, [], ◌∷◌, ◌++◌, IfOk, OnOk, map, false};
ghost use Rattle.std.specs.List.{flat_map};
ghost use Rattle.je_base.specs.Text.{IsModifiedUtf8};
ghost use Rattle.je_desc.specs.FieldType.{descriptor};
ghost use Rattle.je_desc.specs.Types.{field_type_of, method_types_of};
ghost use Rattle.je_shape.specs.Slot.{Reference};
ghost use Rattle.je_shape.specs.Flow.{slot_of_type};
ghost use Rattle.je_shape.specs.Entry.{this_of, entry_of, places_of};
ghost use Rattle.je_shape.specs.Views.{slot_seen, shape_seen};

use crate::names::Names;
use crate::slot::{Shape, Slot};
use je_base::{Memory, Text};
use je_desc::{JType, MethodType};
use sqlite_items::Items;
use std::alloc::Global;

/// The one class whose constructor calls no other one.
const OBJECT: &[u8] = b"java/lang/Object";

/// The descriptor of a type is put behind these bytes.
fn push_descriptor(out: &mut Vec<u8>, t: &JType) -> Result<(), Memory>
    ensures text { OnOk result (out.new.items ≡ out.old.items ++ descriptor (field_type_of t.now)) }
    ensures form { OnOk result (IsModifiedUtf8 (descriptor (field_type_of t.now))) }
{
    match t {
        JType::Boolean => out.push(b'Z')?,
        JType::Byte => out.push(b'B')?,
        JType::Char => out.push(b'C')?,
        JType::Short => out.push(b'S')?,
        JType::Int => out.push(b'I')?,
        JType::Long => out.push(b'J')?,
        JType::Float => out.push(b'F')?,
        JType::Double => out.push(b'D')?,
        JType::Class(name) => {
            out.push(b'L')?;
            out.extend_from_slice(name.bytes())?;
            out.push(b';')?;
        }
        JType::Array(component) => {
            out.push(b'[')?;
            push_descriptor(out, component.get())?;
        }
    }
    Ok(())
}

/// The descriptor of a type.
fn descriptor_text(alloc: Global, t: &JType) -> Result<Text, Memory>
    ensures { IfOk result (λ text. text ≡ descriptor (field_type_of t.now)) }
{
    let mut bytes = Vec::new(alloc);
    push_descriptor(&mut bytes, t)?;
    let text = Text::from_bytes(alloc, &bytes)?;
    Ok(text.unwrap())
}

/// A reference to an object of a class.
///
/// # Errors
///
/// `Memory` where memory runs out.
pub fn reference(alloc: Global, name: Text) -> Result<Slot, Memory>
    ensures { IfOk result (λ slot. slot_seen slot ≡ Reference (name ∷ [])) }
{
    let names = Names::of(alloc, name)?;
    Ok(Slot::Ref(names))
}

/// What a value of a type is known to be.
fn slot_of(alloc: Global, t: &JType) -> Result<Slot, Memory>
    ensures { IfOk result (λ slot. slot_seen slot ≡ slot_of_type (field_type_of t.now)) }
{
    match t {
        JType::Float => Ok(Slot::Float),
        JType::Long => Ok(Slot::Long),
        JType::Double => Ok(Slot::Double),
        JType::Class(name) => reference(alloc, name.copy()?),
        JType::Array(_) => reference(alloc, descriptor_text(alloc, t)?),
        _ => Ok(Slot::Int),
    }
}

/// A slot is put in its places.
fn push_places(locals: &mut Vec<Slot>, slot: Slot) -> Result<(), Memory>
    ensures { OnOk result (map slot_seen locals.new.items
        ≡ map slot_seen locals.old.items ++ places_of (slot_seen slot)) }
{
    let is_wide = matches!(slot, Slot::Long | Slot::Double);
    locals.push(slot)?;
    if is_wide {
        locals.push(Slot::Top)?;
    }
    Ok(())
}

/// The parameters are put in their places.
fn push_parameters(alloc: Global, locals: &mut Vec<Slot>, params: &[JType]) -> Result<(), Memory>
    ensures { OnOk result (map slot_seen locals.new.items ≡ map slot_seen locals.old.items
        ++ flat_map (λ t. places_of (slot_of_type (field_type_of t))) params.now) }
{
    for t in params {
        let slot = slot_of(alloc, t)?;
        push_places(locals, slot)?;
    }
    Ok(())
}

/// `this`, by whether the method is a constructor.
fn this_slot(alloc: Global, class_name: &Text, is_init: bool) -> Result<Slot, Memory>
    ensures { IfOk result (λ slot. slot_seen slot ∷ [] ≡ this_of class_name.now false is_init) }
{
    if is_init && class_name.bytes() != OBJECT {
        return Ok(Slot::UninitThis);
    }
    reference(alloc, class_name.copy()?)
}

/// The places of `this`, which a static method has not.
fn this_places(
    alloc: Global,
    class_name: &Text,
    is_static: bool,
    is_init: bool,
) -> Result<Vec<Slot>, Memory>
    ensures { IfOk result (λ places.
        map slot_seen places.items ≡ this_of class_name.now is_static is_init) }
{
    let mut places = Vec::new(alloc);
    if !is_static {
        let this = this_slot(alloc, class_name, is_init)?;
        places.push(this)?;
    }
    Ok(places)
}

/// The shape with which a method of a class begins, by whether it is static, whether it is a
/// constructor, and its type (JVMS 4.10.1.6).
///
/// # Errors
///
/// `Memory` where memory runs out.
pub fn entry_shape(
    alloc: Global,
    class_name: &Text,
    is_static: bool,
    is_init: bool,
    m: &MethodType,
) -> Result<Shape, Memory>
    ensures { IfOk result (λ shape.
        shape_seen shape ≡ entry_of class_name.now is_static is_init (method_types_of m.now)) }
{
    let mut locals = this_places(alloc, class_name, is_static, is_init)?;
    push_parameters(alloc, &mut locals, m.params.as_slice())?;
    Ok(Shape {
        stack: Items::new(alloc),
        locals: Items::from_vec(locals),
    })
}
