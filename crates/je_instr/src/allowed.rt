//! Which operands an instruction may have (JVMS 4.9.1 and 6.5).

ghost use Rattle.std.specs.Prelude.{◌↔◌, ◌≡◌, Some, IsTrue};
ghost use Rattle.je_instr.specs.Allowed.{AllowsCall, IsAllowed};
ghost use Rattle.je_instr.specs.Content.{Names};
ghost use Rattle.je_instr.specs.Opcodes.{beside, sorts};
ghost use Rattle.je_machine.specs.Action.{Sort};

use crate::calls::{
    Call, is_call, is_class, is_counted, is_dynamic_const, is_field_const, is_ldc, is_ldc2,
    is_made, is_object_class, is_sized,
};
use crate::instr::Instr;
use crate::opcodes as op;
use crate::ranges::{
    are_keys, are_rising, is_array_code, is_condition, is_field_opcode, is_local, is_short,
    is_simple,
};
use je_consts::Consts;

/// Whether an instruction of this opcode may call the method that the constant is.
fn is_invoke(consts: &Consts, opcode: u8, index: u16) -> bool
    ensures { IsTrue result ↔ ((sort : Sort) × (beside sorts opcode ≡ Some sort)
        × Names consts.now index (AllowsCall sort)) }
{
    if opcode == op::INVOKEVIRTUAL {
        return is_call(Call::Virtual, consts, index);
    }
    if opcode == op::INVOKESPECIAL {
        return is_call(Call::Special, consts, index);
    }
    if opcode == op::INVOKESTATIC {
        return is_call(Call::Static, consts, index);
    }
    false
}

/// Whether the instruction may have its operands, wherever it leads.
pub fn is_allowed(consts: &Consts, instr: &Instr) -> bool
    ensures { IsTrue result ↔ IsAllowed consts.now instr.now }
{
    match instr {
        Instr::Simple(opcode) => is_simple(*opcode),
        Instr::IntPush(n) => is_short(*n),
        Instr::Ldc(index) => is_ldc(consts, *index),
        Instr::Ldc2(index) => is_ldc2(consts, *index),
        Instr::Local(opcode, _) => is_local(*opcode),
        Instr::Iinc(_, _) => true,
        Instr::Branch(opcode, _) => is_condition(*opcode),
        Instr::Goto(_) => true,
        Instr::TableSwitch(low, targets, _) => are_keys(*low, targets.len()),
        Instr::LookupSwitch(cases, _) => are_rising(cases.as_slice()),
        Instr::Field(opcode, index) => is_field_opcode(*opcode) && is_field_const(consts, *index),
        Instr::Invoke(opcode, index) => is_invoke(consts, *opcode, *index),
        Instr::InvokeInterface(index, count) => is_counted(consts, *index, *count),
        Instr::InvokeDynamic(index) => is_dynamic_const(consts, *index),
        Instr::New(index) => is_object_class(consts, *index),
        Instr::NewArray(code) => is_array_code(*code),
        Instr::ANewArray(index) => is_made(consts, *index),
        Instr::CheckCast(index) => is_class(consts, *index),
        Instr::InstanceOf(index) => is_class(consts, *index),
        Instr::MultiNew(index, count) => is_sized(consts, *index, *count),
    }
}
