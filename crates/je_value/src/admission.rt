//! What counts as a value of a kind.

ghost use Rattle.std.specs.Prelude.{◌≡◌, ◌^◌, [], ◌∷◌, drop, nat_lt, IfOk};
ghost use Rattle.std.specs.Ordering.{int_eq};
ghost use Rattle.std.specs.Int.{w32, w64, int_wrap};
ghost use Rattle.je_machine.specs.Value.{kind_of, zero_of, is_of_kind, admit, admit_all, number_of};
ghost use Rattle.je_machine.specs.Value as machine;
ghost use Rattle.je_desc.specs.FieldType as types;
ghost use Rattle.je_value.specs.FieldType.{base_in};

use crate::field_type::BaseType;
use crate::kind::{Kind, KindForm};
use crate::value::{Value, ValueForm};
use je_base::Memory;
use sqlite_items::Items;
use std::alloc::Global;

/// The default value of a kind (JVMS 2.3 and 2.4).
pub fn zero_of(kind: Kind) -> Value
    ensures { result ≡ zero_of kind }
{
    match kind.form() {
        KindForm::Int => Value::of(ValueForm::Int(0)),
        KindForm::Long => Value::of(ValueForm::Long(0)),
        KindForm::Float => Value::of(ValueForm::Float(0)),
        KindForm::Double => Value::of(ValueForm::Double(0)),
        KindForm::Reference => Value::of(ValueForm::Null),
    }
}

/// An i32 is within the range of an int.
fn is_int(n: i32) -> bool
    ensures { result ≡ int_eq (int_wrap w32 n) n }
{
    let _ = n;
    true
}

/// An i64 is within the range of a long.
fn is_long(n: i64) -> bool
    ensures { result ≡ int_eq (int_wrap w64 n) n }
{
    let _ = n;
    true
}

/// Bits of 32 are within the range of a float.
fn is_float(bits: u32) -> bool
    ensures { result ≡ nat_lt bits (2 ^ 32) }
{
    let _ = bits;
    true
}

/// Bits of 64 are within the range of a double.
fn is_double(bits: u64) -> bool
    ensures { result ≡ nat_lt bits (2 ^ 64) }
{
    let _ = bits;
    true
}

/// Whether the value is of the kind.
pub fn is_of_kind(kind: Kind, value: &Value) -> bool
    ensures { result ≡ is_of_kind kind value.now }
{
    match (kind.form(), value.form()) {
        (KindForm::Int, ValueForm::Int(n)) => is_int(*n),
        (KindForm::Long, ValueForm::Long(n)) => is_long(*n),
        (KindForm::Float, ValueForm::Float(bits)) => is_float(*bits),
        (KindForm::Double, ValueForm::Double(bits)) => is_double(*bits),
        (KindForm::Reference, ValueForm::Null) => true,
        (KindForm::Reference, ValueForm::Object(_)) => true,
        (KindForm::Reference, ValueForm::Constant(content)) => content.is_loadable(),
        _ => false,
    }
}

/// A value that enters the machine: one that is not of the kind wanted counts as the zero of that
/// kind.
pub fn admit(kind: Kind, value: Value) -> Value
    ensures { result ≡ admit kind value }
{
    if is_of_kind(kind, &value) {
        value
    } else {
        zero_of(kind)
    }
}

/// The first of the values, as one of the kind, and its zero where there is no value.
fn first_admitted(kind: Kind, values: &[Value]) -> Result<Value, Memory>
    ensures { IfOk result (λ v. admit_all (kind ∷ []) values.now ≡ v ∷ []) }
{
    match values.split_first() {
        Some((value, _)) => Ok(admit(kind, value.copy()?)),
        None => Ok(zero_of(kind)),
    }
}

/// All but the first of the values.
fn without_first(values: &[Value]) -> &[Value]
    ensures { result.now ≡ drop 1 values.now }
{
    match values.split_first() {
        Some((_, rest)) => rest,
        None => values,
    }
}

/// As many values as there are kinds, each of its kind. One that is not given counts as zero.
///
/// # Errors
///
/// `Memory` where memory runs out.
pub fn admit_all(alloc: Global, kinds: &[Kind], values: &[Value]) -> Result<Items<Value>, Memory>
    ensures { IfOk result (λ all. all ≡ admit_all kinds.now values.now) }
{
    let mut all = Items::new(alloc);
    let mut left = kinds;
    let mut given = values;
    while let Some((kind, rest)) = left.split_first() {
        all.push(first_admitted(*kind, given)?)?;
        given = without_first(given);
        left = rest;
    }
    Ok(all)
}

/// The kind of the values of a base type.
pub(crate) fn kind_of_base(base: BaseType) -> Kind
    ensures { result ≡ kind_of (types.Base (base_in base)) }
{
    match base {
        BaseType::Long => Kind::of(KindForm::Long),
        BaseType::Float => Kind::of(KindForm::Float),
        BaseType::Double => Kind::of(KindForm::Double),
        _ => Kind::of(KindForm::Int),
    }
}

/// The int that a value counts as.
pub(crate) fn admitted_int(value: &Value) -> i32
    ensures { result ≡ number_of (admit machine.IntKind value.now) }
{
    match value.form() {
        ValueForm::Int(n) => entered_int(*n),
        _ => 0,
    }
}

/// The long that a value counts as.
pub(crate) fn admitted_long(value: &Value) -> i64
    ensures { result ≡ number_of (admit machine.LongKind value.now) }
{
    match value.form() {
        ValueForm::Long(n) => entered_long(*n),
        _ => 0,
    }
}

/// An i32 as an int that enters the machine.
fn entered_int(n: i32) -> i32
    ensures { result ≡ number_of (admit machine.IntKind (machine.Int n)) }
{
    n
}

/// An i64 as a long that enters the machine.
fn entered_long(n: i64) -> i64
    ensures { result ≡ number_of (admit machine.LongKind (machine.Long n)) }
{
    n
}
