//! New arrays (JVMS 6.5, newarray, anewarray and multianewarray).

ghost use Rattle.std.specs.Prelude.{◌≡◌, ◌∷◌, ◌++◌, IfOk, replicate};
ghost use Rattle.je_desc.specs.FieldType.{descriptor, letter};
ghost use Rattle.je_machine.specs.Heap.{new_array, make_many, make_array, make_object};
ghost use Rattle.je_machine.specs.Heap.{component_of};
ghost use Rattle.je_machine.specs.Heap as machine;
ghost use Rattle.je_machine.specs.Value.{zero_of};
ghost use Rattle.je_value.specs.FieldType.{base_in, element_in, array_of};

use crate::heap::{Heap, make_object};
use crate::object::{Object, ObjectForm};
use je_base::{Memory, Run};
use je_value::{BaseType, ElementType, FieldType, Kind, Value, ValueForm, zero_of};
use sqlite_items::Items;
use std::alloc::Global;

/// The letter of a base type (JVMS 4.3.2, table 4.3-A).
fn letter(base: BaseType) -> u8
    ensures { result ≡ letter (base_in base) }
{
    match base {
        BaseType::Byte => b'B',
        BaseType::Char => b'C',
        BaseType::Double => b'D',
        BaseType::Float => b'F',
        BaseType::Int => b'I',
        BaseType::Long => b'J',
        BaseType::Short => b'S',
        BaseType::Boolean => b'Z',
    }
}

/// Puts the descriptor of a type that is no array behind bytes.
fn put_element(mut bytes: Vec<u8>, element: &ElementType) -> Result<Vec<u8>, Memory>
    ensures { IfOk result (λ v. v.items ≡ bytes.items ++ descriptor (element_in element.now)) }
{
    match element {
        ElementType::Base(base) => bytes.push(letter(*base))?,
        ElementType::Object(name) => {
            bytes.push(b'L')?;
            bytes.extend_from_slice(name.as_slice())?;
            bytes.push(b';')?;
        }
    }
    Ok(bytes)
}

/// So many `[`.
fn brackets(alloc: Global, count: usize) -> Result<Vec<u8>, Memory>
    ensures { IfOk result (λ v. v.items ≡ replicate count 91) }
{
    let mut bytes = Vec::new(alloc);
    for _ in 0..count {
        bytes.push(b'[')?;
    }
    Ok(bytes)
}

/// The descriptor of a type (JVMS 4.3.2).
///
/// # Errors
///
/// `Memory` where memory runs out.
#[tactic(auto, using(crate::proofs::ArrayLemmas::descriptor_is))]
pub fn descriptor(alloc: Global, of: &FieldType) -> Result<Run, Memory>
    ensures { IfOk result (λ r. r ≡ descriptor of.now) }
{
    let (dimensions, element) = of.parts();
    let bytes = brackets(alloc, dimensions)?;
    let bytes = put_element(bytes, element)?;
    Ok(Run::of_vec(alloc, bytes)?)
}

/// So many zeros of a kind.
fn zeros(alloc: Global, kind: Kind, count: usize) -> Result<Items<Value>, Memory>
    ensures { IfOk result (λ v. v ≡ replicate count (zero_of kind)) }
{
    let mut values = Vec::new(alloc);
    for _ in 0..count {
        values.push(zero_of(kind))?;
    }
    Ok(Items::from_vec(values))
}

/// An array of the type with so many elements, all zero.
///
/// # Errors
///
/// `Memory` where memory runs out.
pub fn new_array(alloc: Global, of: &FieldType, size: usize) -> Result<Object, Memory>
    ensures { IfOk result (λ o. o ≡ new_array of.now size) }
{
    let text = descriptor(alloc, of)?;
    let component = of.component_of()?;
    let elements = zeros(alloc, component.kind_of(), size)?;
    Ok(Object::of(ObjectForm::Array(text, elements)))
}

/// An array of the type with these elements.
fn make_outer(
    alloc: Global,
    of: &FieldType,
    elements: Items<Value>,
    heap: Heap,
) -> Result<(Value, Heap), Memory>
    ensures { IfOk result (λ made. made
        ≡ make_object (machine.Array (descriptor of.now) elements) heap) }
{
    let text = descriptor(alloc, of)?;
    make_object(Object::of(ObjectForm::Array(text, elements)), heap)
}

/// The elements of an array of arrays.
#[cycle(arrays)]
fn make_elements(
    alloc: Global,
    of: &FieldType,
    sizes: &[usize],
    count: usize,
    heap: Heap,
) -> Result<(Items<Value>, Heap), Memory>
    ensures { IfOk result (λ made. made
        ≡ make_many (make_array (component_of of.now) sizes.now) count heap) }
{
    let component = of.component_of()?;
    make_many(alloc, &component, sizes, count, heap)
}

/// So many arrays of the type, one after the other, by their sizes from the outermost dimension.
#[cycle(arrays)]
fn make_many(
    alloc: Global,
    of: &FieldType,
    sizes: &[usize],
    count: usize,
    heap: Heap,
) -> Result<(Items<Value>, Heap), Memory>
    ensures { IfOk result (λ made. made ≡ make_many (make_array of.now sizes.now) count heap) }
{
    let mut heap = heap;
    let mut made = Items::new(alloc);
    for _ in 0..count {
        let (array, after) = make_array(alloc, of, sizes, heap)?;
        made.push(array)?;
        heap = after;
    }
    Ok((made, heap))
}

/// An array of the type, by its sizes from the outermost dimension. An array of arrays is made
/// behind its elements.
///
/// # Errors
///
/// `Memory` where memory runs out.
#[cycle(arrays)]
pub fn make_array(
    alloc: Global,
    of: &FieldType,
    sizes: &[usize],
    heap: Heap,
) -> Result<(Value, Heap), Memory>
    ensures { IfOk result (λ made. made ≡ make_array of.now sizes.now heap) }
{
    let Some((size, rest)) = sizes.split_first() else {
        return Ok((Value::of(ValueForm::Null), heap));
    };
    if rest.is_empty() {
        return make_object(new_array(alloc, of, *size)?, heap);
    }
    let (elements, heap) = make_elements(alloc, of, rest, *size, heap)?;
    make_outer(alloc, of, elements, heap)
}
