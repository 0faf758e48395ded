//! What an array keeps of an int.

ghost use Rattle.std.specs.Prelude.{◌≡◌};
ghost use Rattle.je_machine.specs.Heap.{narrowed_int, narrowed};

use je_value::{Part, Value, ValueForm, kept};

/// An int as an element of an array keeps it, by the array's type (JVMS 6.5, bastore, castore and
/// sastore): a boolean is the lowest bit, a byte has 8 bits, a char and a short have 16.
pub fn narrowed_int(of: &[u8], n: i32) -> i32
    ensures { result ≡ narrowed_int of.now n }
{
    if of == b"[Z".as_slice() {
        n.rem_euclid(2)
    } else if of == b"[B".as_slice() {
        kept(Part::Byte, n)
    } else if of == b"[C".as_slice() {
        kept(Part::Char, n)
    } else if of == b"[S".as_slice() {
        kept(Part::Short, n)
    } else {
        n
    }
}

/// A value as an element of an array keeps it, by the array's type.
pub fn narrowed(of: &[u8], value: Value) -> Value
    ensures { result ≡ narrowed of.now value }
{
    match value.form() {
        ValueForm::Int(n) => Value::of(ValueForm::Int(narrowed_int(of, *n))),
        _ => value,
    }
}
