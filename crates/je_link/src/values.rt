//! What ldc, ldc_w and ldc2_w push (JVMS 6.5).

ghost use Rattle.std.specs.Prelude.{◌≡◌, IfOk, option_and_then};
ghost use Rattle.je_instr.specs.Content.{content_at};
ghost use Rattle.je_instr.specs.Resolves.{loaded, loaded2, pushed};

use crate::content::content_of;
use crate::made::basic;
use je_base::Memory;
use je_consts::{ConstIndex, Consts};
use je_value::{BasicForm, Content, ContentForm, Operation, Value, ValueForm};
use std::alloc::Global;

/// What ldc pushes.
fn loaded(content: Content) -> Option<Value>
    ensures { result ≡ loaded content }
{
    match content.form() {
        ContentForm::Integer(n) => Some(Value::of(ValueForm::Int(*n))),
        ContentForm::Float(bits) => Some(Value::of(ValueForm::Float(*bits))),
        ContentForm::Class(_)
        | ContentForm::Str(_)
        | ContentForm::MethodHandle(_, _, _, _, _)
        | ContentForm::MethodType(_) => Some(Value::of(ValueForm::Constant(content))),
        ContentForm::Utf8Text(_)
        | ContentForm::Long(_)
        | ContentForm::Double(_)
        | ContentForm::Member(_, _, _, _)
        | ContentForm::NameAndType(_, _)
        | ContentForm::InvokeDynamic(_, _, _) => None,
    }
}

/// What ldc2_w pushes.
fn loaded2(content: &Content) -> Option<Value>
    ensures { result ≡ loaded2 content.now }
{
    match content.form() {
        ContentForm::Long(n) => Some(Value::of(ValueForm::Long(*n))),
        ContentForm::Double(bits) => Some(Value::of(ValueForm::Double(*bits))),
        ContentForm::Integer(_)
        | ContentForm::Float(_)
        | ContentForm::Class(_)
        | ContentForm::Str(_)
        | ContentForm::MethodHandle(_, _, _, _, _)
        | ContentForm::MethodType(_)
        | ContentForm::Utf8Text(_)
        | ContentForm::Member(_, _, _, _)
        | ContentForm::NameAndType(_, _)
        | ContentForm::InvokeDynamic(_, _, _) => None,
    }
}

/// The operation that pushes the value, where there is one.
fn pushed(value: Option<Value>) -> Option<Operation>
    ensures { result ≡ pushed value }
{
    match value {
        Some(value) => Some(basic(BasicForm::Push(value))),
        None => None,
    }
}

/// What ldc and ldc_w are.
pub(crate) fn ldc(
    alloc: Global,
    consts: &Consts,
    index: ConstIndex,
) -> Result<Option<Operation>, Memory>
    ensures { IfOk result (λ found.
        found ≡ option_and_then (λ c. pushed (loaded c)) (content_at consts.now index)) }
{
    match content_of(alloc, consts, index)? {
        Some(content) => Ok(pushed(loaded(content))),
        None => Ok(None),
    }
}

/// What ldc2_w is.
pub(crate) fn ldc2(
    alloc: Global,
    consts: &Consts,
    index: ConstIndex,
) -> Result<Option<Operation>, Memory>
    ensures { IfOk result (λ found.
        found ≡ option_and_then (λ c. pushed (loaded2 c)) (content_at consts.now index)) }
{
    match content_of(alloc, consts, index)? {
        Some(content) => Ok(pushed(loaded2(&content))),
        None => Ok(None),
    }
}
