//! Of what class a reference is, and what an array takes.

ghost use Rattle.std.specs.Prelude.{◌≡◌, Some, drop};
ghost use Rattle.std.specs.Option.{option_copied};
ghost use Rattle.je_machine.specs.Classes.{class_of_constant, class_of_object, class_of_reference};
ghost use Rattle.je_machine.specs.Classes.{is_instance, array_component, takes_class};
ghost use Rattle.je_machine.specs.Classes.{takes_element};
ghost use Rattle.je_machine.specs.Heap.{object_of};

use crate::classes::{Classes, class_named, is_some_subclass};
use crate::heap::{Heap, object_of};
use crate::object::{Object, ObjectForm};
use je_value::{Content, ContentForm, Value, ValueForm};

/// The class of a constant that was loaded.
pub fn class_of_constant(content: &Content) -> &[u8]
    ensures { result.now ≡ class_of_constant content.now }
{
    match content.form() {
        ContentForm::Class(_) => b"java/lang/Class".as_slice(),
        ContentForm::Str(_) => b"java/lang/String".as_slice(),
        ContentForm::MethodHandle(..) => b"java/lang/invoke/MethodHandle".as_slice(),
        _ => b"java/lang/invoke/MethodType".as_slice(),
    }
}

/// The class of an object. One that the heap lacks is a java/lang/Object.
pub fn class_of_object(object: Option<&Object>) -> &[u8]
    ensures { result.now ≡ class_of_object (option_copied object.entry) }
{
    match object {
        Some(object) => class_in(object),
        None => b"java/lang/Object".as_slice(),
    }
}

/// The class of an object that is there.
fn class_in(object: &Object) -> &[u8]
    ensures { result.now ≡ class_of_object (Some object.now) }
{
    match object.form() {
        ObjectForm::Instance(class, _) => class.as_slice(),
        ObjectForm::Array(of, _) => of.as_slice(),
    }
}

/// The class of what a reference refers to, and none for null.
pub fn class_of_reference<'a>(heap: &'a Heap, reference: &'a Value) -> Option<&'a [u8]>
    ensures { option_copied result ≡ class_of_reference heap.now reference.now }
{
    match reference.form() {
        ValueForm::Object(_) => Some(class_of_object(object_of(heap, reference))),
        ValueForm::Constant(content) => Some(class_of_constant(content)),
        _ => None,
    }
}

/// Whether what the reference refers to is an instance of the class.
pub fn is_instance(classes: &Classes, heap: &Heap, reference: &Value, of: &[u8]) -> bool
    ensures { result ≡ is_instance classes.now heap.now reference.now of.now }
{
    is_some_subclass(classes, class_of_reference(heap, reference), of)
}

/// The text of an array's type without its `[`.
pub fn array_component(object: Option<&Object>) -> &[u8]
    ensures { result.now ≡ array_component (option_copied object.entry) }
{
    match object {
        Some(object) => component_in(object),
        None => &[],
    }
}

/// The text of the type of an object without its `[`, and nothing where it is no array.
fn component_in(object: &Object) -> &[u8]
    ensures { result.now ≡ array_component (Some object.now) }
{
    match object.form() {
        ObjectForm::Array(of, _) => behind_first(of.as_slice()),
        ObjectForm::Instance(_, _) => &[],
    }
}

/// The bytes behind the first.
fn behind_first(bytes: &[u8]) -> &[u8]
    ensures { result.now ≡ drop 1 bytes.now }
{
    match bytes {
        [] => &[],
        [_, rest @ ..] => rest,
    }
}

/// Whether the value is null, or an instance of the class. Where there is no class, all are taken.
pub fn takes_class(classes: &Classes, heap: &Heap, class: Option<&[u8]>, value: &Value) -> bool
    ensures { result ≡ takes_class classes.now heap.now (option_copied class.entry) value.now }
{
    match class {
        None => true,
        Some(class) => match value.form() {
            ValueForm::Null => true,
            _ => is_instance(classes, heap, value, class),
        },
    }
}

/// Whether the array takes the value: null, or an instance of its component. An array of no
/// references takes all.
pub fn takes_element(classes: &Classes, heap: &Heap, target: &Value, value: &Value) -> bool
    ensures { result ≡ takes_element classes.now heap.now target.now value.now }
{
    let component = array_component(object_of(heap, target));
    takes_class(classes, heap, class_named(component), value)
}
