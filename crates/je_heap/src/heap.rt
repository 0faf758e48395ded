//! The heap: objects by their numbers, and static fields (JVMS 2.5.3).

ghost use Rattle.std.specs.Prelude.{◌≡◌, ◌∷◌, [], length, IfOk, OnOk, Some, slice_get, option_map};
ghost use Rattle.std.specs.Option.{option_copied};
ghost use Rattle.std.specs.FinMap.{get, empty};
ghost use Rattle.je_machine.specs.Heap.{object_of, allocate, next_object, value_in, read_static};
ghost use Rattle.je_machine.specs.Heap.{write_static, fields_of, read_field, with_field};
ghost use Rattle.je_machine.specs.Heap.{write_field};
ghost use Rattle.je_machine.specs.Heap.{elements_of, array_length, element_at, read_element};
ghost use Rattle.je_machine.specs.Heap.{with_element, write_element, make_object};

use crate::discard::discard;
use crate::field_key::FieldKey;
use crate::fields::Fields;
use crate::object::{Object, ObjectForm, copy_objects};
use je_base::Memory;
use je_value::{Kind, Value, ValueForm, admit, zero_of};
use sqlite_items::{Items, at};
use std::alloc::Global;
use std::marker::Model;

/// The objects by their numbers, and the static fields, which contracts see as the definition's
/// `Heap`.
#[derive(Debug, Drop)]
pub struct Heap {
    objects: Vec<Object>,
    statics: Fields,
}

impl Model for Heap {
    ghost use Rattle.je_machine.specs.Heap as machine;
    ghost use Rattle.je_heap.specs.Codes.{heap_code};

    ghost Value = { machine.Heap };

    ghost coded = { heap_code };

    ghost view = { λ h. record { objects = h.objects.items; statics = h.statics } };
}

/// Writes a field of the object of a number.
fn put_field(
    objects: &mut [Object],
    number: usize,
    key: FieldKey,
    value: Value,
) -> Result<(), Memory>
    ensures { OnOk result (objects.new
        ≡ with_field key value (slice_get objects.old number) number objects.old) }
{
    if number < objects.len() {
        objects[number].put_field(key, value)?;
        Ok(())
    } else {
        discard(value);
        Ok(())
    }
}

/// Writes an element of the object of a number.
fn put_element(objects: &mut [Object], number: usize, i: usize, value: Value)
    ensures { objects.new
        ≡ with_element i value (slice_get objects.old number) number objects.old }
{
    if number < objects.len() {
        objects[number].put_element(i, value);
    } else {
        discard(value);
    }
}

impl Heap {
    /// The heap of these objects and static fields.
    pub fn new(objects: Vec<Object>, statics: Fields) -> Heap
        ensures objects { result.objects ≡ objects.items }
        ensures statics { result.statics ≡ statics }
    {
        Heap { objects, statics }
    }

    /// The objects by their numbers.
    pub fn objects(&self) -> &[Object]
        ensures { result.now ≡ self.now.objects }
    {
        &self.objects
    }

    /// The static fields.
    pub fn statics(&self) -> &Fields
        ensures { result.now ≡ self.now.statics }
    {
        &self.statics
    }

    /// The same heap once more.
    ///
    /// # Errors
    ///
    /// `Memory` where memory runs out.
    pub fn copy(&self, alloc: Global) -> Result<Heap, Memory>
        ensures { IfOk result (λ heap. heap ≡ self.now) }
    {
        let objects = copy_objects(alloc, &self.objects)?;
        let statics = self.statics.copy(alloc)?;
        Ok(Heap { objects, statics })
    }
}

/// The object of a reference, if the heap has it.
pub fn object_of<'a>(heap: &'a Heap, reference: &Value) -> Option<&'a Object>
    ensures { option_copied result ≡ object_of heap.now reference.now }
{
    match reference.form() {
        ValueForm::Object(number) => at(heap.objects(), *number),
        _ => None,
    }
}

/// The heap with a new object, which takes the next number.
///
/// # Errors
///
/// `Memory` where memory runs out.
pub fn allocate(object: Object, heap: Heap) -> Result<Heap, Memory>
    ensures { IfOk result (λ after. after ≡ allocate object heap) }
{
    let Heap {
        mut objects,
        statics,
    } = heap;
    objects.push(object)?;
    Ok(Heap { objects, statics })
}

/// The reference to the object that is allocated next.
pub fn next_object(heap: &Heap) -> Value
    ensures { result ≡ next_object heap.now }
{
    Value::of(ValueForm::Object(heap.objects().len()))
}

/// A new object, and the heap that has it.
///
/// # Errors
///
/// `Memory` where memory runs out.
pub fn make_object(object: Object, heap: Heap) -> Result<(Value, Heap), Memory>
    ensures { IfOk result (λ made. made ≡ make_object object heap) }
{
    let reference = next_object(&heap);
    Ok((reference, allocate(object, heap)?))
}

/// The value of a field among fields, of a kind. What they lack reads as zero.
///
/// # Errors
///
/// `Memory` where memory runs out.
pub fn value_in(fields: &Fields, kind: Kind, key: &FieldKey) -> Result<Value, Memory>
    ensures { IfOk result (λ v. v ≡ value_in fields.now kind key.now) }
{
    match fields.get(key) {
        Some(value) => Ok(admit(kind, value.copy()?)),
        None => Ok(admit(kind, zero_of(kind))),
    }
}

/// The value of a static field.
///
/// # Errors
///
/// `Memory` where memory runs out.
pub fn read_static(heap: &Heap, kind: Kind, key: &FieldKey) -> Result<Value, Memory>
    ensures { IfOk result (λ v. v ≡ read_static heap.now kind key.now) }
{
    value_in(heap.statics(), kind, key)
}

/// The heap with a static field written.
///
/// # Errors
///
/// `Memory` where memory runs out.
pub fn write_static(key: FieldKey, value: Value, heap: Heap) -> Result<Heap, Memory>
    ensures { IfOk result (λ after. after ≡ write_static key value heap) }
{
    let Heap {
        objects,
        mut statics,
    } = heap;
    statics.put(key, value)?;
    Ok(Heap { objects, statics })
}

/// The value of a field of what has none.
fn unread(kind: Kind, key: &FieldKey) -> Value
    ensures { result ≡ value_in empty kind key.now }
{
    let _ = key;
    admit(kind, zero_of(kind))
}

/// The value of a field of the target. An array, and what the heap lacks, read as zeros.
///
/// # Errors
///
/// `Memory` where memory runs out.
pub fn read_field(heap: &Heap, kind: Kind, key: &FieldKey, target: &Value) -> Result<Value, Memory>
    ensures { IfOk result (λ v. v ≡ read_field heap.now kind key.now target.now) }
{
    match object_of(heap, target) {
        Some(object) => read_in(object, kind, key),
        None => Ok(unread(kind, key)),
    }
}

/// The value of a field of an object.
fn read_in(object: &Object, kind: Kind, key: &FieldKey) -> Result<Value, Memory>
    ensures { IfOk result (λ v. v ≡ value_in (fields_of (Some object.now)) kind key.now) }
{
    match object.form() {
        ObjectForm::Instance(_, fields) => value_in(fields, kind, key),
        ObjectForm::Array(_, _) => Ok(unread(kind, key)),
    }
}

/// The heap with a field of the target written. An array, and what the heap lacks, take no writes.
///
/// # Errors
///
/// `Memory` where memory runs out.
pub fn write_field(key: FieldKey, value: Value, target: &Value, heap: Heap) -> Result<Heap, Memory>
    ensures { IfOk result (λ after. after ≡ write_field key value target.now heap) }
{
    match target.form() {
        ValueForm::Object(number) => write_field_at(key, value, *number, heap),
        _ => {
            discard(value);
            Ok(heap)
        }
    }
}

/// The heap with a field of the object of a number written.
fn write_field_at(key: FieldKey, value: Value, number: usize, heap: Heap) -> Result<Heap, Memory>
    ensures { IfOk result (λ after. after ≡ record heap {
      objects = with_field key value (slice_get heap.objects number) number heap.objects;
    }) }
{
    let Heap {
        mut objects,
        statics,
    } = heap;
    put_field(&mut objects, number, key, value)?;
    Ok(Heap { objects, statics })
}

/// The elements of an array. What is no array has none.
pub fn elements_of<'a>(heap: &'a Heap, target: &Value) -> &'a [Value]
    ensures { result.now ≡ elements_of (object_of heap.now target.now) }
{
    match object_of(heap, target) {
        Some(object) => elements_in(object),
        None => &[],
    }
}

/// The elements of an object.
fn elements_in(object: &Object) -> &[Value]
    ensures { result.now ≡ elements_of (Some object.now) }
{
    match object.form() {
        ObjectForm::Array(_, elements) => elements.as_slice(),
        ObjectForm::Instance(_, _) => &[],
    }
}

/// The length of an array. What is no array has the length 0.
pub fn array_length(heap: &Heap, target: &Value) -> usize
    ensures { result ≡ array_length heap.now target.now }
{
    elements_of(heap, target).len()
}

/// The element at an index, and none where the index is out of bounds.
pub fn element_at(elements: &[Value], i: i64) -> Option<&Value>
    ensures { option_copied result ≡ element_at elements.now i }
{
    if i < 0 {
        None
    } else {
        at(elements, i as usize)
    }
}

/// The element of an array at an index, of a kind, and none where the index is out of bounds.
///
/// # Errors
///
/// `Memory` where memory runs out.
pub fn read_element(
    heap: &Heap,
    kind: Kind,
    target: &Value,
    i: i64,
) -> Result<Option<Value>, Memory>
    ensures { IfOk result (λ v. v ≡ read_element heap.now kind target.now i) }
{
    match element_at(elements_of(heap, target), i) {
        Some(value) => Ok(Some(admit(kind, value.copy()?))),
        None => Ok(None),
    }
}

/// The heap with an element of the target written as its array keeps it. What is no array takes no
/// writes, and an array none behind its end.
pub fn write_element(i: usize, value: Value, target: &Value, heap: Heap) -> Heap
    ensures { result ≡ write_element i value target.now heap }
{
    match target.form() {
        ValueForm::Object(number) => write_element_at(i, value, *number, heap),
        _ => {
            discard(value);
            heap
        }
    }
}

/// The heap with an element of the object of a number written.
fn write_element_at(i: usize, value: Value, number: usize, heap: Heap) -> Heap
    ensures { result ≡ record heap {
      objects = with_element i value (slice_get heap.objects number) number heap.objects;
    } }
{
    let Heap {
        mut objects,
        statics,
    } = heap;
    put_element(&mut objects, number, i, value);
    Heap { objects, statics }
}
