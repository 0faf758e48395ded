//! Instructions without operands (JVMS 6.5 and 7).

ghost use Rattle.std.specs.Prelude.{◌≡◌, ◌≤◌, IfOk, Some};
ghost use Rattle.je_instr.specs.declared.opcodes.TheConstants as op;
ghost use Rattle.je_instr.specs.Opcodes.{simple_operation};

use crate::computed::{arithmetic, bits, converted};
use crate::made::{act, basic, push};
use je_base::Memory;
use je_instr::{Opcode, opcodes as op};
use je_value::{
    ActionForm, BasicForm, Element, Kind, KindForm, Operation, OperationForm, ValueForm,
};
use std::alloc::Global;

/// lconst_0 to dconst_1.
#[tactic(auto, unfolding(je_instr::specs::Opcodes::simple_operations))]
fn constant(opcode: Opcode) -> Operation
    requires first { op.LCONST_0 ≤ opcode }
    requires last { opcode ≤ op.DCONST_1 }
    ensures { Some result ≡ simple_operation opcode }
{
    match opcode {
        op::LCONST_0 => push(ValueForm::Long(0)),
        op::LCONST_1 => push(ValueForm::Long(1)),
        op::FCONST_0 => push(ValueForm::Float(0)),
        op::FCONST_1 => push(ValueForm::Float(0x3F80_0000)),
        op::FCONST_2 => push(ValueForm::Float(0x4000_0000)),
        op::DCONST_0 => push(ValueForm::Double(0)),
        op::DCONST_1 => push(ValueForm::Double(0x3FF0_0000_0000_0000)),
        _ => unreachable!(),
    }
}

/// iaload to saload.
#[tactic(auto, unfolding(je_instr::specs::Opcodes::simple_operations))]
fn load(opcode: Opcode) -> Operation
    requires first { op.IALOAD ≤ opcode }
    requires last { opcode ≤ op.SALOAD }
    ensures { Some result ≡ simple_operation opcode }
{
    match opcode {
        op::IALOAD => act(ActionForm::LoadElement(Element::Ints)),
        op::LALOAD => act(ActionForm::LoadElement(Element::Longs)),
        op::FALOAD => act(ActionForm::LoadElement(Element::Floats)),
        op::DALOAD => act(ActionForm::LoadElement(Element::Doubles)),
        op::AALOAD => act(ActionForm::LoadElement(Element::References)),
        op::BALOAD => act(ActionForm::LoadElement(Element::Bytes)),
        op::CALOAD => act(ActionForm::LoadElement(Element::Chars)),
        op::SALOAD => act(ActionForm::LoadElement(Element::Shorts)),
        _ => unreachable!(),
    }
}

/// iastore to sastore.
#[tactic(auto, unfolding(je_instr::specs::Opcodes::simple_operations))]
fn store(opcode: Opcode) -> Operation
    requires first { op.IASTORE ≤ opcode }
    requires last { opcode ≤ op.SASTORE }
    ensures { Some result ≡ simple_operation opcode }
{
    match opcode {
        op::IASTORE => act(ActionForm::StoreElement(Element::Ints)),
        op::LASTORE => act(ActionForm::StoreElement(Element::Longs)),
        op::FASTORE => act(ActionForm::StoreElement(Element::Floats)),
        op::DASTORE => act(ActionForm::StoreElement(Element::Doubles)),
        op::AASTORE => act(ActionForm::StoreElement(Element::References)),
        op::BASTORE => act(ActionForm::StoreElement(Element::Bytes)),
        op::CASTORE => act(ActionForm::StoreElement(Element::Chars)),
        op::SASTORE => act(ActionForm::StoreElement(Element::Shorts)),
        _ => unreachable!(),
    }
}

/// pop to swap.
#[tactic(auto, unfolding(je_instr::specs::Opcodes::simple_operations))]
fn moved(opcode: Opcode) -> Operation
    requires first { op.POP ≤ opcode }
    requires last { opcode ≤ op.SWAP }
    ensures { Some result ≡ simple_operation opcode }
{
    match opcode {
        op::POP => basic(BasicForm::Drop(1)),
        op::POP2 => basic(BasicForm::Drop(2)),
        op::DUP => basic(BasicForm::Copy(1, 0)),
        op::DUP_X1 => basic(BasicForm::Copy(1, 1)),
        op::DUP_X2 => basic(BasicForm::Copy(1, 2)),
        op::DUP2 => basic(BasicForm::Copy(2, 0)),
        op::DUP2_X1 => basic(BasicForm::Copy(2, 1)),
        op::DUP2_X2 => basic(BasicForm::Copy(2, 2)),
        op::SWAP => basic(BasicForm::Swap),
        _ => unreachable!(),
    }
}

/// ireturn to return.
#[tactic(auto, unfolding(je_instr::specs::Opcodes::simple_operations))]
fn returned(opcode: Opcode) -> Operation
    requires first { op.IRETURN ≤ opcode }
    requires last { opcode ≤ op.RETURN }
    ensures { Some result ≡ simple_operation opcode }
{
    let kind = match opcode {
        op::IRETURN => Some(Kind::of(KindForm::Int)),
        op::LRETURN => Some(Kind::of(KindForm::Long)),
        op::FRETURN => Some(Kind::of(KindForm::Float)),
        op::DRETURN => Some(Kind::of(KindForm::Double)),
        op::ARETURN => Some(Kind::of(KindForm::Reference)),
        op::RETURN => None,
        _ => unreachable!(),
    };
    Operation::of(OperationForm::Return(kind))
}

/// What an opcode without operands stands for.
#[tactic(auto, unfolding(je_instr::specs::Opcodes::simple_operations))]
pub(crate) fn simple(alloc: Global, opcode: Opcode) -> Result<Option<Operation>, Memory>
    ensures { IfOk result (λ found. found ≡ simple_operation opcode) }
{
    let operation = match opcode {
        op::NOP => basic(BasicForm::Nop),
        op::ACONST_NULL => push(ValueForm::Null),
        op::LCONST_0..=op::DCONST_1 => constant(opcode),
        op::IALOAD..=op::SALOAD => load(opcode),
        op::IASTORE..=op::SASTORE => store(opcode),
        op::POP..=op::SWAP => moved(opcode),
        op::IADD..=op::DREM => arithmetic(alloc, opcode)?,
        op::INEG..=op::LXOR => bits(alloc, opcode)?,
        op::I2L..=op::DCMPG => converted(alloc, opcode)?,
        op::IRETURN..=op::RETURN => returned(opcode),
        op::ARRAYLENGTH => act(ActionForm::ArrayLength),
        op::ATHROW => basic(BasicForm::Throw),
        op::MONITORENTER => act(ActionForm::MonitorEnter),
        op::MONITOREXIT => act(ActionForm::MonitorExit),
        _ => return Ok(None),
    };
    Ok(Some(operation))
}
