//! Values as they are given to a run and shown of it.

ghost use Rattle.std.specs.Prelude.{◌≡◌, ◌↔◌, IfOk, IsTrue, map};
ghost use Rattle.std.specs.List.{AllZip};
ghost use Rattle.je_instr.specs.Content.{content_at};
ghost use Rattle.je_probe.specs.Given.{value_given, kind_given, constant_given};
ghost use Rattle.je_probe.specs.declared.value.ProbeValue.TheVariants as shown;
ghost use Rattle.je_probe.specs.Shown.{Says, IsIndexOf, IsValue};

use je_base::Memory;
use je_consts::{ConstIndex, Consts};
use je_link::content_of;
use je_value::{Content, Kind, KindForm, Value, ValueForm};
use sqlite_items::Items;
use std::alloc::Global;

/// A value (JVMS 2.3 and 2.4).
#[derive(Clone, Copy, Debug, PartialEq, Eq)]
pub enum ProbeValue {
    Int(i32),
    Long(i64),
    /// The bits of a float.
    Flt(u32),
    /// The bits of a double.
    Dbl(u64),
    Null,
    /// The object of this number on the heap.
    Obj(u32),
    /// What the constant of this index says: a class, a string, a method handle or a method type.
    Const(ConstIndex),
}

/// What a constant says, as a value. An index that names nothing counts as null.
fn constant_given(alloc: Global, consts: &Consts, index: ConstIndex) -> Result<Value, Memory>
    ensures { IfOk result (λ v. v ≡ constant_given (content_at consts.now index)) }
{
    match content_of(alloc, consts, index)? {
        Some(content) => Ok(Value::of(ValueForm::Constant(content))),
        None => Ok(Value::of(ValueForm::Null)),
    }
}

/// The value that is given.
pub(crate) fn value_given(
    alloc: Global,
    consts: &Consts,
    given: ProbeValue,
) -> Result<Value, Memory>
    ensures { IfOk result (λ v. v ≡ value_given consts.now given) }
{
    match given {
        ProbeValue::Int(n) => Ok(Value::of(ValueForm::Int(n))),
        ProbeValue::Long(n) => Ok(Value::of(ValueForm::Long(n))),
        ProbeValue::Flt(bits) => Ok(Value::of(ValueForm::Float(bits))),
        ProbeValue::Dbl(bits) => Ok(Value::of(ValueForm::Double(bits))),
        ProbeValue::Null => Ok(Value::of(ValueForm::Null)),
        ProbeValue::Obj(number) => Ok(Value::of(ValueForm::Object(number as usize))),
        ProbeValue::Const(index) => constant_given(alloc, consts, index),
    }
}

/// The values that are given.
pub(crate) fn values_given(
    alloc: Global,
    consts: &Consts,
    given: &[ProbeValue],
) -> Result<Items<Value>, Memory>
    ensures { IfOk result (λ vs. vs ≡ map (value_given consts.now) given.now) }
{
    let mut values = Items::new(alloc);
    for one in given {
        values.push(value_given(alloc, consts, *one)?)?;
    }
    Ok(values)
}

/// The kind of the value that is given.
fn kind_given(given: ProbeValue) -> Kind
    ensures { result ≡ kind_given given }
{
    match given {
        ProbeValue::Int(_) => Kind::of(KindForm::Int),
        ProbeValue::Long(_) => Kind::of(KindForm::Long),
        ProbeValue::Flt(_) => Kind::of(KindForm::Float),
        ProbeValue::Dbl(_) => Kind::of(KindForm::Double),
        ProbeValue::Null | ProbeValue::Obj(_) | ProbeValue::Const(_) => {
            Kind::of(KindForm::Reference)
        }
    }
}

/// The kinds of the values that are given.
pub(crate) fn kinds_given(alloc: Global, given: &[ProbeValue]) -> Result<Items<Kind>, Memory>
    ensures { IfOk result (λ kinds. kinds ≡ map kind_given given.now) }
{
    let mut kinds = Items::new(alloc);
    for one in given {
        kinds.push(kind_given(*one))?;
    }
    Ok(kinds)
}

/// Whether the constant of an index says what was loaded.
fn says(
    alloc: Global,
    consts: &Consts,
    content: &Content,
    index: ConstIndex,
) -> Result<bool, Memory>
    ensures { IfOk result (λ said. IsTrue said
        ↔ Says content.now (content_at consts.now index)) }
{
    match content_of(alloc, consts, index)? {
        Some(said) => Ok(said.is_same_loaded(content)),
        None => Ok(false),
    }
}

/// The first index of a constant that says what was loaded, and 0 where there is none.
fn index_of(alloc: Global, consts: &Consts, content: &Content) -> Result<ConstIndex, Memory>
    ensures { IfOk result (IsIndexOf consts.now content.now) }
{
    for index in 1..u16::MAX {
        if says(alloc, consts, content, index)? {
            return Ok(index);
        }
    }
    Ok(0)
}

/// The object of a number. More than a `u32` counts do not fit in memory.
fn object_shown(number: usize) -> Result<ProbeValue, Memory>
    ensures { IfOk result (λ v. v ≡ shown.Obj number) }
{
    match u32::try_from(number) {
        Ok(number) => Ok(ProbeValue::Obj(number)),
        Err(_) => Err(Memory),
    }
}

/// A value as it is shown.
pub(crate) fn value_shown(
    alloc: Global,
    consts: &Consts,
    value: &Value,
) -> Result<ProbeValue, Memory>
    ensures { IfOk result (IsValue consts.now value.now) }
{
    match value.form() {
        ValueForm::Int(n) => Ok(ProbeValue::Int(*n)),
        ValueForm::Long(n) => Ok(ProbeValue::Long(*n)),
        ValueForm::Float(bits) => Ok(ProbeValue::Flt(*bits)),
        ValueForm::Double(bits) => Ok(ProbeValue::Dbl(*bits)),
        ValueForm::Null => Ok(ProbeValue::Null),
        ValueForm::Object(number) => object_shown(*number),
        ValueForm::Constant(content) => Ok(ProbeValue::Const(index_of(alloc, consts, content)?)),
    }
}

/// Values as they are shown.
pub(crate) fn values_shown(
    alloc: Global,
    consts: &Consts,
    values: &[Value],
) -> Result<Vec<ProbeValue>, Memory>
    ensures { IfOk result (λ v. AllZip (IsValue consts.now) values.now v.items) }
{
    let mut shown = Vec::new(alloc);
    let mut rest = values;
    while let Some((value, tail)) = rest.split_first() {
        shown.push(value_shown(alloc, consts, value)?)?;
        rest = tail;
    }
    Ok(shown)
}
