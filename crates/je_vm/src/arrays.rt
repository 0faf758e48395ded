//! Arrays that are made, read and written (JVMS 6.5, newarray to sastore).

ghost use Rattle.std.specs.Prelude.{◌≡◌, pos, map, Some, unsigned_abs, int_lt, IfOk};
ghost use Rattle.std.specs.List.{list_any};
ghost use Rattle.je_machine.specs.Value.{number_of, value_at, Null};
ghost use Rattle.je_machine.specs.Heap.{read_element, write_element};
ghost use Rattle.je_machine.specs.Classes.{takes_element};
ghost use Rattle.je_machine.specs.Outside.{with_heap};
ghost use Rattle.je_machine.specs.Acting.{loaded, stored, made_array};
ghost use Rattle.je_heap.specs.Response.{response_of};

use crate::exceptions::{array_store, negative_size, out_of_bounds};
use je_base::Memory;
use je_heap::{
    Classes, Heap, Outside, Response, make_array, read_element, takes_element, write_element,
};
use je_value::{FieldType, Kind, Value, number_at, value_at};
use std::alloc::Global;

/// The element of the first operand at the second, of a kind, and none out of bounds.
fn element_of(heap: &Heap, kind: Kind, operands: &[Value]) -> Result<Option<Value>, Memory>
    ensures { IfOk result (λ v. v ≡ read_element heap.now kind (value_at operands.now 0)
        (number_of (value_at operands.now 1))) }
{
    let target = value_at(operands, 0)?;
    read_element(heap, kind, &target, number_at(operands, 1))
}

/// Gives an element, and throws where there is none.
fn loaded(alloc: Global, value: Option<Value>, outside: Outside) -> Result<Response, Memory>
    ensures { IfOk result (λ r. response_of r ≡ loaded value outside) }
{
    match value {
        Some(value) => Ok(Response::Gave(Some(value), outside)),
        None => {
            let response = out_of_bounds(alloc, outside)?;
            Ok(response)
        }
    }
}

/// Reads the element of the first operand at the second.
pub(crate) fn load_element(
    alloc: Global,
    kind: Kind,
    operands: &[Value],
    outside: Outside,
) -> Result<Response, Memory>
    ensures { IfOk result (λ r. response_of r
        ≡ loaded (read_element outside.heap kind (value_at operands.now 0)
        (number_of (value_at operands.now 1))) outside) }
{
    let value = element_of(outside.heap(), kind, operands)?;
    loaded(alloc, value, outside)
}

/// Whether the first operand takes the third.
fn takes(classes: &Classes, heap: &Heap, operands: &[Value]) -> Result<bool, Memory>
    ensures { IfOk result (λ takes. takes ≡ takes_element classes.now heap.now
        (value_at operands.now 0) (value_at operands.now 2)) }
{
    let target = value_at(operands, 0)?;
    let value = value_at(operands, 2)?;
    Ok(takes_element(classes, heap, &target, &value))
}

/// The heap with the third operand written to the first at the second.
fn with_element(operands: &[Value], heap: Heap) -> Result<Heap, Memory>
    ensures { IfOk result (λ h. h
        ≡ write_element (unsigned_abs (number_of (value_at operands.now 1)))
        (value_at operands.now 2) (value_at operands.now 0) heap) }
{
    let target = value_at(operands, 0)?;
    let value = value_at(operands, 2)?;
    let i = number_at(operands, 1).unsigned_abs() as usize;
    Ok(write_element(i, value, &target, heap))
}

/// Writes the third operand to the first at the second, which is in bounds.
fn stored_within(
    alloc: Global,
    classes: &Classes,
    operands: &[Value],
    outside: Outside,
) -> Result<Response, Memory>
    ensures { IfOk result (λ r. response_of r
        ≡ stored classes.now (Some Null) (unsigned_abs (number_of (value_at operands.now 1)))
        (value_at operands.now 2) (value_at operands.now 0) outside) }
{
    if takes(classes, outside.heap(), operands)? {
        let (heap, events, answers) = outside.into_parts();
        let heap = with_element(operands, heap)?;
        Ok(Response::Gave(None, Outside::new(heap, events, answers)))
    } else {
        let response = array_store(alloc, outside)?;
        Ok(response)
    }
}

/// Writes the third operand to the first at the second. The old element is none where the index is
/// out of bounds.
fn stored(
    alloc: Global,
    classes: &Classes,
    old: Option<Value>,
    operands: &[Value],
    outside: Outside,
) -> Result<Response, Memory>
    ensures { IfOk result (λ r. response_of r
        ≡ stored classes.now old (unsigned_abs (number_of (value_at operands.now 1)))
        (value_at operands.now 2) (value_at operands.now 0) outside) }
{
    match old {
        Some(_) => stored_within(alloc, classes, operands, outside),
        None => {
            let response = out_of_bounds(alloc, outside)?;
            Ok(response)
        }
    }
}

/// Writes the third operand to the first at the second.
pub(crate) fn store_element(
    alloc: Global,
    classes: &Classes,
    kind: Kind,
    operands: &[Value],
    outside: Outside,
) -> Result<Response, Memory>
    ensures { IfOk result (λ r. response_of r
        ≡ stored classes.now (read_element outside.heap kind (value_at operands.now 0)
        (number_of (value_at operands.now 1)))
        (unsigned_abs (number_of (value_at operands.now 1)))
        (value_at operands.now 2) (value_at operands.now 0) outside) }
{
    let old = element_of(outside.heap(), kind, operands)?;
    stored(alloc, classes, old, operands, outside)
}

/// The numbers of the operands.
fn numbers_of(alloc: Global, operands: &[Value]) -> Result<Vec<i64>, Memory>
    ensures { IfOk result (λ v. v.items ≡ map number_of operands.now) }
{
    let mut numbers = Vec::new(alloc);
    for value in operands {
        numbers.push(value.number_of())?;
    }
    Ok(numbers)
}

/// The sizes without their signs.
fn magnitudes(alloc: Global, sizes: &[i64]) -> Result<Vec<usize>, Memory>
    ensures { IfOk result (λ v. v.items ≡ map unsigned_abs sizes.now) }
{
    let mut magnitudes = Vec::new(alloc);
    for size in sizes {
        magnitudes.push(size.unsigned_abs() as usize)?;
    }
    Ok(magnitudes)
}

/// Whether some size is negative.
fn has_negative(sizes: &[i64]) -> bool
    ensures { result ≡ list_any (λ n. int_lt n (pos 0)) sizes.now }
{
    sizes.iter().any(|n| *n < 0)
}

/// Makes an array of the type with these sizes. None is made where some size is negative.
fn made_array(
    alloc: Global,
    of: &FieldType,
    sizes: &[i64],
    outside: Outside,
) -> Result<Response, Memory>
    ensures { IfOk result (λ r. response_of r ≡ made_array of.now sizes.now outside) }
{
    if has_negative(sizes) {
        let response = negative_size(alloc, outside)?;
        return Ok(response);
    }
    let counts = magnitudes(alloc, sizes)?;
    let (heap, events, answers) = outside.into_parts();
    let (array, heap) = make_array(alloc, of, counts.as_slice(), heap)?;
    Ok(Response::Gave(Some(array), Outside::new(heap, events, answers)))
}

/// Makes an array of the type, whose sizes are the operands.
pub(crate) fn make_array_of(
    alloc: Global,
    of: &FieldType,
    operands: &[Value],
    outside: Outside,
) -> Result<Response, Memory>
    ensures { IfOk result (λ r. response_of r
        ≡ made_array of.now (map number_of operands.now) outside) }
{
    let sizes = numbers_of(alloc, operands)?;
    made_array(alloc, of, sizes.as_slice(), outside)
}
