//! The static fields that a run leaves.

ghost use Rattle.std.specs.Prelude.{IfOk, IfSome};
ghost use Rattle.std.specs.List.{AllByRecursion};
ghost use Rattle.je_probe.specs.Shown.{IsStatic};

use crate::heap::{ProbeStatic, key_of};
use crate::value::value_shown;
use je_base::{Memory, Text};
use je_consts::Consts;
use je_heap::{Heap, descriptor};
use je_value::{ActionForm, BasicForm, Field, Operation, OperationForm, Program};
use std::alloc::Global;

/// Whether a field is among those that are shown.
fn is_shown(shown: &[ProbeStatic], class_name: &Text, field: &Text, descriptor: &Text) -> bool {
    shown.iter().any(|s| {
        s.class_name == *class_name && s.field == *field && s.descriptor == *descriptor
    })
}

/// The static field of these texts, where the heap has a value of it.
fn static_shown(
    alloc: Global,
    consts: &Consts,
    heap: &Heap,
    class_name: Text,
    field: Text,
    descriptor: Text,
) -> Result<Option<ProbeStatic>, Memory>
    ensures { IfOk result (λ found. IfSome found (IsStatic consts.now heap.now)) }
{
    let key = key_of(alloc, &class_name, &field, &descriptor)?;
    match heap.statics().get(&key) {
        Some(value) => {
            let value = value_shown(alloc, consts, value)?;
            Ok(Some(ProbeStatic {
                class_name,
                field,
                descriptor,
                value,
            }))
        }
        None => Ok(None),
    }
}

/// What is shown, and the static field of these texts where it is not among it and the heap has a
/// value of it.
fn with_shown(
    alloc: Global,
    consts: &Consts,
    heap: &Heap,
    mut shown: Vec<ProbeStatic>,
    class_name: Text,
    field: Text,
    descriptor: Text,
) -> Result<Vec<ProbeStatic>, Memory>
    requires { AllByRecursion (IsStatic consts.now heap.now) shown.items }
    ensures { IfOk result (λ v. AllByRecursion (IsStatic consts.now heap.now) v.items) }
{
    if is_shown(shown.as_slice(), &class_name, &field, &descriptor) {
        return Ok(shown);
    }
    match static_shown(alloc, consts, heap, class_name, field, descriptor)? {
        Some(one) => {
            shown.push(one)?;
            Ok(shown)
        }
        None => Ok(shown),
    }
}

/// The given static fields that the heap has.
fn given_shown(
    alloc: Global,
    consts: &Consts,
    heap: &Heap,
    given: &[ProbeStatic],
) -> Result<Vec<ProbeStatic>, Memory>
    ensures { IfOk result (λ v. AllByRecursion (IsStatic consts.now heap.now) v.items) }
{
    let mut shown = Vec::new(alloc);
    for one in given {
        let class_name = one.class_name.copy()?;
        let field = one.field.copy()?;
        let descriptor = one.descriptor.copy()?;
        shown = with_shown(alloc, consts, heap, shown, class_name, field, descriptor)?;
    }
    Ok(shown)
}

/// The static field that an instruction writes.
fn written_by(operation: &Operation) -> Option<&Field> {
    let OperationForm::Do(basic) = operation.form() else {
        return None;
    };
    let BasicForm::Act(action) = basic.form() else {
        return None;
    };
    match action.form() {
        ActionForm::PutStatic(field) => Some(field),
        _ => None,
    }
}

/// What is shown, and a static field that the program writes.
fn with_written(
    alloc: Global,
    consts: &Consts,
    heap: &Heap,
    shown: Vec<ProbeStatic>,
    written: &Field,
) -> Result<Vec<ProbeStatic>, Memory>
    requires { AllByRecursion (IsStatic consts.now heap.now) shown.items }
    ensures { IfOk result (λ v. AllByRecursion (IsStatic consts.now heap.now) v.items) }
{
    let text = descriptor(alloc, written.field_type())?;
    let Some(class_name) = Text::from_bytes(alloc, written.class().as_slice())? else {
        return Ok(shown);
    };
    let Some(field) = Text::from_bytes(alloc, written.name().as_slice())? else {
        return Ok(shown);
    };
    let Some(descriptor) = Text::from_bytes(alloc, text.as_slice())? else {
        return Ok(shown);
    };
    with_shown(alloc, consts, heap, shown, class_name, field, descriptor)
}

/// The static fields that the heap has, of those that were given and those that the program writes.
pub(crate) fn statics_shown(
    alloc: Global,
    consts: &Consts,
    heap: &Heap,
    given: &[ProbeStatic],
    program: &Program,
) -> Result<Vec<ProbeStatic>, Memory>
    ensures { IfOk result (λ v. AllByRecursion (IsStatic consts.now heap.now) v.items) }
{
    let mut shown = given_shown(alloc, consts, heap, given)?;
    for operation in program.operations() {
        if let Some(field) = written_by(operation) {
            shown = with_written(alloc, consts, heap, shown, field)?;
        }
    }
    Ok(shown)
}
