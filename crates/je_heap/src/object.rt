//! Objects.

ghost use Rattle.std.specs.Prelude.{◌≡◌, IfOk, OnOk, slice_set};
ghost use Rattle.je_machine.specs.Heap.{new_instance};
ghost use Rattle.je_heap.specs.Object.{object_in, field_put, element_put};

use crate::discard::discard;
use crate::field_key::FieldKey;
use crate::fields::Fields;
use crate::narrowing::narrowed;
use je_base::{Memory, Run};
use je_value::Value;
use sqlite_items::Items;
use std::alloc::Global;
use std::marker::Model;

/// Which object it is.
#[derive(Debug, Drop)]
pub enum ObjectForm {
    /// An object of a class, with its fields.
    Instance(Run, Fields),
    /// An array with its type, as `[I`, and its elements.
    Array(Run, Items<Value>),
}

/// An object of a class with its fields, or an array with its type and its elements, which
/// contracts see as the definition's `Object`.
#[derive(Debug, Drop)]
pub struct Object {
    form: ObjectForm,
}

impl Model for Object {
    ghost use Rattle.je_machine.specs.Heap as machine;
    ghost use Rattle.je_heap.specs.Codes.{object_code};

    ghost Value = { machine.Object };

    ghost coded = { object_code };

    ghost use Rattle.je_heap.specs.Object.{object_in};

    ghost view = { λ o. object_in o.form };
}

/// The same values once more.
///
/// # Errors
///
/// `Memory` where memory runs out.
pub fn copy_values(alloc: Global, values: &[Value]) -> Result<Items<Value>, Memory>
    ensures { IfOk result (λ v. v ≡ values.now) }
{
    let mut copies = Vec::with_capacity(alloc, values.len())?;
    for value in values {
        copies.push(value.copy()?)?;
    }
    Ok(Items::from_vec(copies))
}

/// The same form once more.
fn copy_form(alloc: Global, form: &ObjectForm) -> Result<ObjectForm, Memory>
    ensures { IfOk result (λ f. object_in f ≡ object_in form.now) }
{
    match form {
        ObjectForm::Instance(class, fields) => {
            let class = class.copy()?;
            Ok(ObjectForm::Instance(class, fields.copy(alloc)?))
        }
        ObjectForm::Array(of, elements) => {
            let of = of.copy()?;
            Ok(ObjectForm::Array(of, copy_values(alloc, elements.as_slice())?))
        }
    }
}

/// Writes a field into a form.
fn put_field_in(form: &mut ObjectForm, key: FieldKey, value: Value) -> Result<(), Memory>
    ensures { OnOk result (object_in form.new ≡ field_put key value (object_in form.old)) }
{
    match form {
        ObjectForm::Instance(_, fields) => fields.put(key, value),
        ObjectForm::Array(_, _) => {
            discard(value);
            Ok(())
        }
    }
}

/// Writes an element, where there is one at the index.
fn put_at(elements: &mut Items<Value>, i: usize, value: Value)
    ensures { elements.new ≡ slice_set elements.old i value }
{
    if i < elements.len() {
        elements.set(i, value);
    } else {
        discard(value);
    }
}

/// Writes an element into a form.
fn put_element_in(form: &mut ObjectForm, i: usize, value: Value)
    ensures { object_in form.new ≡ element_put i value (object_in form.old) }
{
    match form {
        ObjectForm::Instance(_, _) => discard(value),
        ObjectForm::Array(of, elements) => put_at(elements, i, narrowed(of.as_slice(), value)),
    }
}

impl Object {
    /// The object of this form.
    pub fn of(form: ObjectForm) -> Object
        ensures { result ≡ object_in form }
    {
        Object { form }
    }

    /// Its form.
    pub fn form(&self) -> &ObjectForm
        ensures { self.now ≡ object_in result.now }
    {
        &self.form
    }

    /// Its form, which is no longer an object.
    pub fn into_form(self) -> ObjectForm
        ensures { self ≡ object_in result }
    {
        self.form
    }

    /// Writes a field. An array takes none.
    ///
    /// # Errors
    ///
    /// `Memory` where memory runs out.
    pub(crate) fn put_field(&mut self, key: FieldKey, value: Value) -> Result<(), Memory>
        ensures { OnOk result (self.new ≡ field_put key value self.old) }
    {
        put_field_in(&mut self.form, key, value)
    }

    /// Writes an element as the array keeps it. What is no array takes none, and an array none
    /// behind its end.
    pub(crate) fn put_element(&mut self, i: usize, value: Value)
        ensures { self.new ≡ element_put i value self.old }
    {
        put_element_in(&mut self.form, i, value);
    }

    /// The same object once more.
    ///
    /// # Errors
    ///
    /// `Memory` where memory runs out.
    pub fn copy(&self, alloc: Global) -> Result<Object, Memory>
        ensures { IfOk result (λ o. o ≡ self.now) }
    {
        let form = copy_form(alloc, &self.form)?;
        Ok(Object { form })
    }
}

/// An object of the class, whose fields are all zero.
pub fn new_instance(alloc: Global, class: Run) -> Object
    ensures { result ≡ new_instance class }
{
    Object::of(ObjectForm::Instance(class, Fields::new(alloc)))
}

/// The same objects once more.
pub(crate) fn copy_objects(alloc: Global, objects: &[Object]) -> Result<Vec<Object>, Memory>
    ensures { IfOk result (λ v. v.items ≡ objects.now) }
{
    let mut copies = Vec::with_capacity(alloc, objects.len())?;
    for object in objects {
        copies.push(object.copy(alloc)?)?;
    }
    Ok(copies)
}
