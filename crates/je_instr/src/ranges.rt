//! Which opcodes, numbers and keys an instruction may have (JVMS 4.9.1 and 6.5).

ghost use Rattle.std.specs.Prelude.{◌≡◌, ℕ, pos, ◌<◌, ◌^◌, ◌↔◌, IsTrue, IsSome, FitsSigned};
ghost use Rattle.std.specs.Int.{w16};
ghost use Rattle.je_instr.specs.Rows.{is_simple};
ghost use Rattle.je_instr.specs.Opcodes.{beside, simple_operation, local_operations, conditions};
ghost use Rattle.je_instr.specs.Opcodes.{field_actions, array_types};
ghost use Rattle.je_instr.specs.Allowed.{AreKeys, AreRising};
ghost use Rattle.je_instr.specs.OpcodeTests.{local_test, condition_test, field_test, array_test};

use crate::instr::Case;
use crate::opcodes as op;

fn simple_test(opcode: u8) -> bool
    ensures { result ≡ is_simple opcode }
{
    match opcode {
        op::NOP..=op::ACONST_NULL | op::LCONST_0..=op::DCONST_1 => true,
        op::IALOAD..=op::SALOAD | op::IASTORE..=op::LXOR | op::I2L..=op::DCMPG => true,
        op::IRETURN..=op::RETURN | op::ARRAYLENGTH..=op::ATHROW => true,
        op::MONITORENTER..=op::MONITOREXIT => true,
        _ => false,
    }
}

fn local_test(opcode: u8) -> bool
    ensures { result ≡ local_test opcode }
{
    (op::ILOAD..=op::ALOAD).contains(&opcode) || (op::ISTORE..=op::ASTORE).contains(&opcode)
}

fn condition_test(opcode: u8) -> bool
    ensures { result ≡ condition_test opcode }
{
    (op::IFEQ..=op::IF_ACMPNE).contains(&opcode) || (op::IFNULL..=op::IFNONNULL).contains(&opcode)
}

fn field_test(opcode: u8) -> bool
    ensures { result ≡ field_test opcode }
{
    (op::GETSTATIC..=op::PUTFIELD).contains(&opcode)
}

fn array_test(code: u8) -> bool
    ensures { result ≡ array_test code }
{
    (4..=11).contains(&code)
}

/// Whether the opcode stands alone.
pub(crate) fn is_simple(opcode: u8) -> bool
    ensures { IsTrue result ↔ IsSome (simple_operation opcode) }
{
    simple_test(opcode)
}

/// Whether the opcode reads or writes a local variable.
pub(crate) fn is_local(opcode: u8) -> bool
    ensures { IsTrue result ↔ IsSome (beside local_operations opcode) }
{
    local_test(opcode)
}

/// Whether the opcode jumps under a condition.
pub(crate) fn is_condition(opcode: u8) -> bool
    ensures { IsTrue result ↔ IsSome (beside conditions opcode) }
{
    condition_test(opcode)
}

/// Whether the opcode reads or writes a field.
pub(crate) fn is_field_opcode(opcode: u8) -> bool
    ensures { IsTrue result ↔ IsSome (beside field_actions opcode) }
{
    field_test(opcode)
}

/// Whether newarray makes arrays of this code.
pub(crate) fn is_array_code(code: u8) -> bool
    ensures { IsTrue result ↔ IsSome (beside array_types code) }
{
    array_test(code)
}

/// Whether the int has at most two bytes.
pub(crate) fn is_short(n: i32) -> bool
    ensures { IsTrue result ↔ FitsSigned w16 n }
{
    (-32768..=32767).contains(&n)
}

/// Whether a switch may have so many keys from this one on.
pub(crate) fn are_keys(low: i32, count: usize) -> bool
    ensures { IsTrue result ↔ AreKeys low count }
{
    if count == 0 {
        return false;
    }
    if count > 0x1_0000_0000 {
        return false;
    }
    count as i64 + low as i64 <= 0x8000_0000
}

/// Whether each key is less than the one behind it.
pub(crate) fn are_rising(cases: &[Case]) -> bool
    ensures { IsTrue result ↔ AreRising cases.now }
{
    let mut rest = cases;
    while let [first, tail @ ..] = rest {
        match tail {
            [second, ..] if first.key >= second.key => return false,
            _ => rest = tail,
        }
    }
    true
}
