//! Values at indexes of lists.

ghost use Rattle.std.specs.Prelude.{◌≡◌, IfOk};
ghost use Rattle.je_machine.specs.Value.{value_at, number_of, is_null, is_same_reference};

use crate::value::{Value, ValueForm};
use je_base::Memory;
use sqlite_items::at;

/// The value at an index of a list, and the int 0 behind the list's end.
///
/// # Errors
///
/// `Memory` where memory runs out.
#[tactic(auto, using(crate::proofs::OperandLemmas::value_at_is))]
pub fn value_at(values: &[Value], i: usize) -> Result<Value, Memory>
    ensures { IfOk result (λ v. v ≡ value_at values.now i) }
{
    match at(values, i) {
        Some(value) => value.copy(),
        None => Ok(Value::of(ValueForm::Int(0))),
    }
}

/// The number of the int or long at an index, and 0 where there is none.
#[tactic(auto, using(crate::proofs::OperandLemmas::value_at_is))]
pub fn number_at(values: &[Value], i: usize) -> i64
    ensures { result ≡ number_of (value_at values.now i) }
{
    match at(values, i) {
        Some(value) => value.number_of(),
        None => 0,
    }
}

/// Whether the value at an index is null.
#[tactic(auto, using(crate::proofs::OperandLemmas::value_at_is))]
pub fn is_null_at(values: &[Value], i: usize) -> bool
    ensures { result ≡ is_null (value_at values.now i) }
{
    match at(values, i) {
        Some(value) => value.is_null(),
        None => false,
    }
}

/// Whether the values at two indexes are one reference.
#[tactic(auto, using(crate::proofs::OperandLemmas::value_at_is))]
pub fn is_same_reference_at(values: &[Value], i: usize, j: usize) -> bool
    ensures { result ≡ is_same_reference (value_at values.now i) (value_at values.now j) }
{
    match (at(values, i), at(values, j)) {
        (Some(a), Some(b)) => a.is_same_reference(b),
        _ => false,
    }
}
