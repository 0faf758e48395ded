//! Fields that are read and written (JVMS 6.5, getfield, putfield, getstatic and putstatic).

ghost use Rattle.std.specs.Prelude.{◌≡◌, IfOk};
ghost use Rattle.je_desc.specs.FieldType.{descriptor};
ghost use Rattle.je_machine.specs.Action as actions;
ghost use Rattle.je_machine.specs.Acting.{field_key, answer};
ghost use Rattle.je_heap.specs.Response.{response_of};

use je_base::Memory;
use je_heap::{
    Classes, FieldKey, Outside, Response, descriptor, holder_of, read_field, read_static,
    write_field, write_static,
};
use je_value::{Field, Value, value_at};
use std::alloc::Global;

/// A field by the class that is named.
fn named_key(alloc: Global, field: &Field) -> Result<FieldKey, Memory>
    ensures { IfOk result (λ k. k
        ≡ (field.now.class, field.now.name, descriptor field.now.type)) }
{
    let class = field.class().copy()?;
    let name = field.name().copy()?;
    Ok(FieldKey::new(class, name, descriptor(alloc, field.field_type())?))
}

/// A field by the class that holds it.
fn field_key(alloc: Global, classes: &Classes, field: &Field) -> Result<FieldKey, Memory>
    ensures { IfOk result (λ k. k ≡ field_key classes.now field.now) }
{
    let named = named_key(alloc, field)?;
    let holder = holder_of(classes, &named).copy()?;
    let name = field.name().copy()?;
    Ok(FieldKey::new(holder, name, descriptor(alloc, field.field_type())?))
}

/// Reads a field of the first operand.
pub(crate) fn get_field(
    alloc: Global,
    classes: &Classes,
    field: &Field,
    operands: &[Value],
    outside: Outside,
) -> Result<Response, Memory>
    ensures { IfOk result (λ r. response_of r
        ≡ answer classes.now (actions.GetField field.now) operands.now outside) }
{
    let key = field_key(alloc, classes, field)?;
    let target = value_at(operands, 0)?;
    let kind = field.field_type().kind_of();
    let value = read_field(outside.heap(), kind, &key, &target)?;
    Ok(Response::Gave(Some(value), outside))
}

/// Writes the second operand to a field of the first.
pub(crate) fn put_field(
    alloc: Global,
    classes: &Classes,
    field: &Field,
    operands: &[Value],
    outside: Outside,
) -> Result<Response, Memory>
    ensures { IfOk result (λ r. response_of r
        ≡ answer classes.now (actions.PutField field.now) operands.now outside) }
{
    let key = field_key(alloc, classes, field)?;
    let target = value_at(operands, 0)?;
    let value = value_at(operands, 1)?;
    let (heap, events, answers) = outside.into_parts();
    let heap = write_field(key, value, &target, heap)?;
    Ok(Response::Gave(None, Outside::new(heap, events, answers)))
}

/// Reads a static field.
pub(crate) fn get_static(
    alloc: Global,
    classes: &Classes,
    field: &Field,
    operands: &[Value],
    outside: Outside,
) -> Result<Response, Memory>
    ensures { IfOk result (λ r. response_of r
        ≡ answer classes.now (actions.GetStatic field.now) operands.now outside) }
{
    let _ = operands;
    let key = field_key(alloc, classes, field)?;
    let kind = field.field_type().kind_of();
    let value = read_static(outside.heap(), kind, &key)?;
    Ok(Response::Gave(Some(value), outside))
}

/// Writes the first operand to a static field.
pub(crate) fn put_static(
    alloc: Global,
    classes: &Classes,
    field: &Field,
    operands: &[Value],
    outside: Outside,
) -> Result<Response, Memory>
    ensures { IfOk result (λ r. response_of r
        ≡ answer classes.now (actions.PutStatic field.now) operands.now outside) }
{
    let key = field_key(alloc, classes, field)?;
    let value = value_at(operands, 0)?;
    let (heap, events, answers) = outside.into_parts();
    let heap = write_static(key, value, heap)?;
    Ok(Response::Gave(None, Outside::new(heap, events, answers)))
}
