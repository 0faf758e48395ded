//! Instructions that read or write fields, or call methods (JVMS 6.5).

ghost use Rattle.std.specs.Prelude.{◌≡◌, Some, IfOk, option_map};
ghost use Rattle.je_desc.specs.Descriptor.{MethodTypes as Types};
ghost use Rattle.je_instr.specs.Allowed.{Calls};
ghost use Rattle.je_instr.specs.Content.{Names};
ghost use Rattle.je_instr.specs.Opcodes.{beside, field_actions, sorts};
ghost use Rattle.je_instr.specs.Resolves.{IsFieldOf, FieldOperation, CallOperation};
ghost use Rattle.je_machine.specs.Action as actions;
ghost use Rattle.je_machine.specs.Operation as machine;
ghost use Rattle.je_value.specs.Action.{sort_in};

use crate::content::content_of;
use crate::made::act;
use je_base::Memory;
use je_consts::{ConstIndex, Consts, MemberTag};
use je_instr::{Opcode, opcodes as op};
use je_value::{
    ActionForm, Content, ContentForm, Field, MethodTypes, Operation, Sort, read_field_type,
    read_method_types,
};
use std::alloc::Global;

/// The field that the constant is.
fn field_of(alloc: Global, content: &Content) -> Result<Option<Field>, Memory>
    ensures { (f : actions.Field) → IsFieldOf f content.now
        → IfOk result (λ found. found ≡ Some f) }
{
    let ContentForm::Member(MemberTag::Field, class, name, descriptor) = content.form() else {
        return Ok(None);
    };
    let Some(of) = read_field_type(alloc, descriptor.as_slice())? else {
        return Ok(None);
    };
    let class = class.copy()?;
    let name = name.copy()?;
    Ok(Some(Field::of(class, name, of)))
}

/// What the opcode does with the field.
#[tactic(auto, unfolding(je_instr::specs::Opcodes::field_actions))]
fn field_action(opcode: Opcode, field: Field) -> Option<Operation>
    ensures { result ≡ option_map (λ make. machine.Do (machine.Act (make field)))
        (beside field_actions opcode) }
{
    match opcode {
        op::GETSTATIC => Some(act(ActionForm::GetStatic(field))),
        op::PUTSTATIC => Some(act(ActionForm::PutStatic(field))),
        op::GETFIELD => Some(act(ActionForm::GetField(field))),
        op::PUTFIELD => Some(act(ActionForm::PutField(field))),
        _ => None,
    }
}

/// getstatic, putstatic, getfield and putfield.
pub(crate) fn field(
    alloc: Global,
    consts: &Consts,
    opcode: Opcode,
    index: ConstIndex,
) -> Result<Option<Operation>, Memory>
    ensures { (o : machine.Operation) → Names consts.now index (FieldOperation opcode o)
        → IfOk result (λ found. found ≡ Some o) }
{
    let Some(content) = content_of(alloc, consts, index)? else {
        return Ok(None);
    };
    match field_of(alloc, &content)? {
        Some(field) => Ok(field_action(opcode, field)),
        None => Ok(None),
    }
}

/// The types of the method that the constant is.
fn types_of(alloc: Global, content: &Content) -> Result<Option<MethodTypes>, Memory>
    ensures { (sort : actions.Sort) (types : Types) → Calls sort types content.now
        → IfOk result (λ found. found ≡ Some types) }
{
    match content.form() {
        ContentForm::Member(_, _, _, descriptor) | ContentForm::InvokeDynamic(_, _, descriptor) => {
            read_method_types(alloc, descriptor.as_slice())
        }
        ContentForm::Utf8Text(_)
        | ContentForm::Integer(_)
        | ContentForm::Float(_)
        | ContentForm::Long(_)
        | ContentForm::Double(_)
        | ContentForm::Class(_)
        | ContentForm::Str(_)
        | ContentForm::NameAndType(_, _)
        | ContentForm::MethodHandle(_, _, _, _, _)
        | ContentForm::MethodType(_) => Ok(None),
    }
}

/// A call of this sort.
pub(crate) fn call(
    alloc: Global,
    consts: &Consts,
    sort: Sort,
    index: ConstIndex,
) -> Result<Option<Operation>, Memory>
    ensures { (o : machine.Operation) → Names consts.now index (CallOperation (sort_in sort) o)
        → IfOk result (λ found. found ≡ Some o) }
{
    let Some(content) = content_of(alloc, consts, index)? else {
        return Ok(None);
    };
    match types_of(alloc, &content)? {
        Some(types) => Ok(Some(act(ActionForm::Invoke(sort, content, types)))),
        None => Ok(None),
    }
}

/// The sort of the call of an opcode.
#[tactic(auto, unfolding(je_instr::specs::Opcodes::sorts))]
fn sort_of(opcode: Opcode) -> Option<Sort>
    ensures { option_map sort_in result ≡ beside sorts opcode }
{
    match opcode {
        op::INVOKEVIRTUAL => Some(Sort::Virtual),
        op::INVOKESPECIAL => Some(Sort::Special),
        op::INVOKESTATIC => Some(Sort::Static),
        _ => None,
    }
}

/// invokevirtual, invokespecial and invokestatic.
pub(crate) fn invoke(
    alloc: Global,
    consts: &Consts,
    opcode: Opcode,
    index: ConstIndex,
) -> Result<Option<Operation>, Memory>
    ensures { (o : machine.Operation) (sort : actions.Sort) → beside sorts opcode ≡ Some sort
        → Names consts.now index (CallOperation sort o) → IfOk result (λ found. found ≡ Some o) }
{
    match sort_of(opcode) {
        Some(sort) => call(alloc, consts, sort, index),
        None => Ok(None),
    }
}
