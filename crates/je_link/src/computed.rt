//! Instructions that compute (JVMS 6.5 and 7, iadd to dcmpg).

ghost use Rattle.std.specs.Prelude.{◌≡◌, ◌≤◌, [], ◌∷◌, IfOk, Some};
ghost use Rattle.je_instr.specs.Opcodes.{simple_operation};
ghost use Rattle.je_machine.specs.Action as actions;
ghost use Rattle.je_machine.specs.Calculation as calculations;
ghost use Rattle.je_machine.specs.Operation as machine;
ghost use Rattle.je_machine.specs.Value.{FloatKind, DoubleKind};
ghost use Rattle.je_instr.specs.declared.opcodes.TheConstants as op;
ghost use Rattle.je_value.specs.Calculation.{binary_in, calculation_in};
ghost use Rattle.je_value.specs.Kind.{kind_in};

use crate::made::act;
use je_base::Memory;
use je_instr::{Opcode, opcodes as op};
use je_value::{
    ActionForm, BinaryOp, Calculation, Kind, KindForm, Operation, Part, ShiftOp, Whole,
};
use sqlite_items::Items;
use std::alloc::Global;

/// The operation of a calculation.
fn compute(calculation: Calculation) -> Operation
    ensures { result ≡ machine.Do (machine.Act (actions.Calculate (calculation_in calculation))) }
{
    act(ActionForm::Calculate(calculation))
}

/// The operation on two ints.
fn ints(binary: BinaryOp) -> Operation
    ensures { result ≡ machine.Do (machine.Act (actions.Calculate
        (calculations.Binary calculations.IntWhole (binary_in binary)))) }
{
    compute(Calculation::Binary(Whole::Int, binary))
}

/// The operation on two longs.
fn longs(binary: BinaryOp) -> Operation
    ensures { result ≡ machine.Do (machine.Act (actions.Calculate
        (calculations.Binary calculations.LongWhole (binary_in binary)))) }
{
    compute(Calculation::Binary(Whole::Long, binary))
}

/// The operation on floats or doubles that makes one of another kind of one of a kind.
fn convert(alloc: Global, opcode: Opcode, from: KindForm, to: KindForm) -> Result<Operation, Memory>
    ensures { IfOk result (λ o. o ≡ machine.Do (machine.Act
        (actions.FloatOperation opcode (kind_in from ∷ []) (kind_in to)))) }
{
    let mut operands = Items::new(alloc);
    operands.push(Kind::of(from))?;
    Ok(act(ActionForm::FloatOperation(opcode, operands, Kind::of(to))))
}

/// The operation on floats or doubles that makes one of a kind of two of another kind.
fn combine(alloc: Global, opcode: Opcode, kind: KindForm, to: KindForm) -> Result<Operation, Memory>
    ensures { IfOk result (λ o. o ≡ machine.Do (machine.Act
        (actions.FloatOperation opcode (kind_in kind ∷ kind_in kind ∷ []) (kind_in to)))) }
{
    let mut operands = Items::new(alloc);
    operands.push(Kind::of(kind))?;
    operands.push(Kind::of(kind))?;
    Ok(act(ActionForm::FloatOperation(opcode, operands, Kind::of(to))))
}

/// The operation that makes a float of two.
fn floats(alloc: Global, opcode: Opcode) -> Result<Operation, Memory>
    ensures { IfOk result (λ o. o ≡ machine.Do (machine.Act
        (actions.FloatOperation opcode (FloatKind ∷ FloatKind ∷ []) FloatKind))) }
{
    combine(alloc, opcode, KindForm::Float, KindForm::Float)
}

/// The operation that makes a double of two.
fn doubles(alloc: Global, opcode: Opcode) -> Result<Operation, Memory>
    ensures { IfOk result (λ o. o ≡ machine.Do (machine.Act
        (actions.FloatOperation opcode (DoubleKind ∷ DoubleKind ∷ []) DoubleKind))) }
{
    combine(alloc, opcode, KindForm::Double, KindForm::Double)
}

/// iadd to drem.
#[tactic(auto, unfolding(je_instr::specs::Opcodes::simple_operations))]
pub(crate) fn arithmetic(alloc: Global, opcode: Opcode) -> Result<Operation, Memory>
    requires first { op.IADD ≤ opcode }
    requires last { opcode ≤ op.DREM }
    ensures { IfOk result (λ o. Some o ≡ simple_operation opcode) }
{
    match opcode {
        op::IADD => Ok(ints(BinaryOp::Add)),
        op::LADD => Ok(longs(BinaryOp::Add)),
        op::FADD => floats(alloc, opcode),
        op::DADD => doubles(alloc, opcode),
        op::ISUB => Ok(ints(BinaryOp::Subtract)),
        op::LSUB => Ok(longs(BinaryOp::Subtract)),
        op::FSUB => floats(alloc, opcode),
        op::DSUB => doubles(alloc, opcode),
        op::IMUL => Ok(ints(BinaryOp::Multiply)),
        op::LMUL => Ok(longs(BinaryOp::Multiply)),
        op::FMUL => floats(alloc, opcode),
        op::DMUL => doubles(alloc, opcode),
        op::IDIV => Ok(ints(BinaryOp::Divide)),
        op::LDIV => Ok(longs(BinaryOp::Divide)),
        op::FDIV => floats(alloc, opcode),
        op::DDIV => doubles(alloc, opcode),
        op::IREM => Ok(ints(BinaryOp::Remainder)),
        op::LREM => Ok(longs(BinaryOp::Remainder)),
        op::FREM => floats(alloc, opcode),
        op::DREM => doubles(alloc, opcode),
        _ => unreachable!(),
    }
}

/// ineg to lxor.
#[tactic(auto, unfolding(je_instr::specs::Opcodes::simple_operations))]
pub(crate) fn bits(alloc: Global, opcode: Opcode) -> Result<Operation, Memory>
    requires first { op.INEG ≤ opcode }
    requires last { opcode ≤ op.LXOR }
    ensures { IfOk result (λ o. Some o ≡ simple_operation opcode) }
{
    match opcode {
        op::INEG => Ok(compute(Calculation::Negate(Whole::Int))),
        op::LNEG => Ok(compute(Calculation::Negate(Whole::Long))),
        op::FNEG => convert(alloc, opcode, KindForm::Float, KindForm::Float),
        op::DNEG => convert(alloc, opcode, KindForm::Double, KindForm::Double),
        op::ISHL => Ok(compute(Calculation::Shift(Whole::Int, ShiftOp::Left))),
        op::LSHL => Ok(compute(Calculation::Shift(Whole::Long, ShiftOp::Left))),
        op::ISHR => Ok(compute(Calculation::Shift(Whole::Int, ShiftOp::Right))),
        op::LSHR => Ok(compute(Calculation::Shift(Whole::Long, ShiftOp::Right))),
        op::IUSHR => Ok(compute(Calculation::Shift(Whole::Int, ShiftOp::RightUnsigned))),
        op::LUSHR => Ok(compute(Calculation::Shift(Whole::Long, ShiftOp::RightUnsigned))),
        op::IAND => Ok(ints(BinaryOp::And)),
        op::LAND => Ok(longs(BinaryOp::And)),
        op::IOR => Ok(ints(BinaryOp::Or)),
        op::LOR => Ok(longs(BinaryOp::Or)),
        op::IXOR => Ok(ints(BinaryOp::Xor)),
        op::LXOR => Ok(longs(BinaryOp::Xor)),
        _ => unreachable!(),
    }
}

/// i2l to dcmpg.
#[tactic(auto, unfolding(je_instr::specs::Opcodes::simple_operations))]
pub(crate) fn converted(alloc: Global, opcode: Opcode) -> Result<Operation, Memory>
    requires first { op.I2L ≤ opcode }
    requires last { opcode ≤ op.DCMPG }
    ensures { IfOk result (λ o. Some o ≡ simple_operation opcode) }
{
    match opcode {
        op::I2L => Ok(compute(Calculation::Extend)),
        op::I2F => convert(alloc, opcode, KindForm::Int, KindForm::Float),
        op::I2D => convert(alloc, opcode, KindForm::Int, KindForm::Double),
        op::L2I => Ok(compute(Calculation::Truncate)),
        op::L2F => convert(alloc, opcode, KindForm::Long, KindForm::Float),
        op::L2D => convert(alloc, opcode, KindForm::Long, KindForm::Double),
        op::F2I => convert(alloc, opcode, KindForm::Float, KindForm::Int),
        op::F2L => convert(alloc, opcode, KindForm::Float, KindForm::Long),
        op::F2D => convert(alloc, opcode, KindForm::Float, KindForm::Double),
        op::D2I => convert(alloc, opcode, KindForm::Double, KindForm::Int),
        op::D2L => convert(alloc, opcode, KindForm::Double, KindForm::Long),
        op::D2F => convert(alloc, opcode, KindForm::Double, KindForm::Float),
        op::I2B => Ok(compute(Calculation::Keep(Part::Byte))),
        op::I2C => Ok(compute(Calculation::Keep(Part::Char))),
        op::I2S => Ok(compute(Calculation::Keep(Part::Short))),
        op::LCMP => Ok(compute(Calculation::CompareLongs)),
        op::FCMPL => combine(alloc, opcode, KindForm::Float, KindForm::Int),
        op::FCMPG => combine(alloc, opcode, KindForm::Float, KindForm::Int),
        op::DCMPL => combine(alloc, opcode, KindForm::Double, KindForm::Int),
        op::DCMPG => combine(alloc, opcode, KindForm::Double, KindForm::Int),
        _ => unreachable!(),
    }
}
