//! The heap as it is given to a run, and its objects as they are shown.

ghost use Rattle.std.specs.Prelude.{◌≡◌, IfOk, map};
ghost use Rattle.std.specs.List.{AllZip};
ghost use Rattle.std.specs.FinMap.{empty};
ghost use Rattle.je_probe.specs.Given.{object_given, static_given, statics_given, heap_given};
ghost use Rattle.je_probe.specs.Shown.{IsObject};

use crate::text::text_shown;
use crate::value::{ProbeValue, value_given};
use je_base::{Memory, Run, Text};
use je_consts::Consts;
use je_heap::{FieldKey, Fields, Heap, Object, ObjectForm, new_instance};
use sqlite_items::Items;
use std::alloc::Global;

/// A static field with its value.
#[derive(Debug, Drop)]
pub struct ProbeStatic {
    /// The class that holds it.
    pub class_name: Text,
    /// Its name.
    pub field: Text,
    /// Its descriptor.
    pub descriptor: Text,
    /// Its value.
    pub value: ProbeValue,
}

/// The objects by their numbers, each as its class or the descriptor of an array, and the static
/// fields. Where it is given to a run, the fields of the objects are zeros, arrays have the length
/// 0, and of several values of one static field the last counts.
#[derive(Debug, Drop)]
pub struct ProbeHeap {
    pub objects: Vec<Text>,
    pub statics: Vec<ProbeStatic>,
}

/// The bytes of a text.
pub(crate) fn run_of(alloc: Global, text: &Text) -> Result<Run, Memory>
    ensures { IfOk result (λ run. run ≡ text.now) }
{
    let bytes = Vec::from_slice(alloc, text.bytes())?;
    Run::of_vec(alloc, bytes)
}

/// The object that is given: an array without elements, or an object whose fields are zeros.
fn object_given(alloc: Global, text: &Text) -> Result<Object, Memory>
    ensures { IfOk result (λ o. o ≡ object_given text.now) }
{
    let name = run_of(alloc, text)?;
    match name.as_slice() {
        [b'[', ..] => Ok(Object::of(ObjectForm::Array(name, Items::new(alloc)))),
        _ => Ok(new_instance(alloc, name)),
    }
}

/// The objects that are given.
fn objects_given(alloc: Global, texts: &[Text]) -> Result<Vec<Object>, Memory>
    ensures { IfOk result (λ v. v.items ≡ map object_given texts.now) }
{
    let mut objects = Vec::new(alloc);
    for text in texts {
        objects.push(object_given(alloc, text)?)?;
    }
    Ok(objects)
}

/// The static field of these texts.
pub(crate) fn key_of(
    alloc: Global,
    class_name: &Text,
    field: &Text,
    descriptor: &Text,
) -> Result<FieldKey, Memory>
    ensures { IfOk result (λ key. key ≡ (class_name.now, field.now, descriptor.now)) }
{
    let class_name = run_of(alloc, class_name)?;
    let field = run_of(alloc, field)?;
    let descriptor = run_of(alloc, descriptor)?;
    Ok(FieldKey::new(class_name, field, descriptor))
}

/// The fields with one more, that is given.
fn with_static(
    alloc: Global,
    consts: &Consts,
    given: &ProbeStatic,
    mut fields: Fields,
) -> Result<Fields, Memory>
    ensures { IfOk result (λ all. all ≡ static_given consts.now given.now fields) }
{
    let key = key_of(alloc, &given.class_name, &given.field, &given.descriptor)?;
    fields.put(key, value_given(alloc, consts, given.value)?)?;
    Ok(fields)
}

/// The static fields that are given.
fn statics_given(alloc: Global, consts: &Consts, given: &[ProbeStatic]) -> Result<Fields, Memory>
    ensures { IfOk result (λ all. all ≡ statics_given consts.now given.now empty) }
{
    let mut fields = Fields::new(alloc);
    let mut rest = given;
    while let Some((one, tail)) = rest.split_first() {
        fields = with_static(alloc, consts, one, fields)?;
        rest = tail;
    }
    Ok(fields)
}

/// The heap that is given.
pub(crate) fn heap_given(alloc: Global, consts: &Consts, given: &ProbeHeap) -> Result<Heap, Memory>
    ensures { IfOk result (λ heap. heap
        ≡ heap_given consts.now given.now.objects.items given.now.statics.items) }
{
    let objects = objects_given(alloc, given.objects.as_slice())?;
    let statics = statics_given(alloc, consts, given.statics.as_slice())?;
    Ok(Heap::new(objects, statics))
}

/// An object as it is shown: its class, or the descriptor of an array.
fn object_shown(alloc: Global, object: &Object) -> Result<Text, Memory>
    ensures { IfOk result (IsObject object.now) }
{
    match object.form() {
        ObjectForm::Instance(class, _) => text_shown(alloc, class.as_slice()),
        ObjectForm::Array(of, _) => text_shown(alloc, of.as_slice()),
    }
}

/// The objects as they are shown.
pub(crate) fn objects_shown(alloc: Global, objects: &[Object]) -> Result<Vec<Text>, Memory>
    ensures { IfOk result (λ v. AllZip IsObject objects.now v.items) }
{
    let mut shown = Vec::new(alloc);
    let mut rest = objects;
    while let Some((object, tail)) = rest.split_first() {
        shown.push(object_shown(alloc, object)?)?;
        rest = tail;
    }
    Ok(shown)
}
