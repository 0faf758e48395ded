//! Whether two programs are the same.

use je_instr::{Instr, Program};

/// Whether two instructions are the same.
fn is_same_instr(a: &Instr, b: &Instr) -> bool {
    match (a, b) {
        (Instr::Simple(a), Instr::Simple(b)) => a == b,
        (Instr::IntPush(a), Instr::IntPush(b)) => a == b,
        (Instr::Local(a, s), Instr::Local(b, t)) => a == b && s == t,
        (Instr::Iinc(s, a), Instr::Iinc(t, b)) => s == t && a == b,
        (Instr::Branch(a, s), Instr::Branch(b, t)) => a == b && s == t,
        (Instr::Goto(s), Instr::Goto(t)) => s == t,
        (Instr::TableSwitch(a, s, d), Instr::TableSwitch(b, t, e)) => {
            a == b && d == e && s.as_slice() == t.as_slice()
        }
        (Instr::LookupSwitch(s, d), Instr::LookupSwitch(t, e)) => {
            d == e && s.as_slice() == t.as_slice()
        }
        (Instr::Field(a, i), Instr::Field(b, j)) => a == b && i == j,
        (Instr::Invoke(a, i), Instr::Invoke(b, j)) => a == b && i == j,
        (Instr::InvokeInterface(i, n), Instr::InvokeInterface(j, m)) => i == j && n == m,
        (Instr::NewArray(a), Instr::NewArray(b)) => a == b,
        (Instr::MultiNew(i, n), Instr::MultiNew(j, m)) => i == j && n == m,
        (Instr::Ldc(i), Instr::Ldc(j))
        | (Instr::Ldc2(i), Instr::Ldc2(j))
        | (Instr::InvokeDynamic(i), Instr::InvokeDynamic(j))
        | (Instr::New(i), Instr::New(j))
        | (Instr::ANewArray(i), Instr::ANewArray(j))
        | (Instr::CheckCast(i), Instr::CheckCast(j))
        | (Instr::InstanceOf(i), Instr::InstanceOf(j)) => i == j,
        _ => false,
    }
}

/// Whether the instructions are the same one by one.
fn are_same_instrs(a: &[Instr], b: &[Instr]) -> bool {
    a.len() == b.len() && a.iter().zip(b).all(|(a, b)| is_same_instr(a, b))
}

/// Whether two programs have the same instructions and handlers.
pub fn is_same_program(a: &Program, b: &Program) -> bool {
    are_same_instrs(a.instrs.as_slice(), b.instrs.as_slice())
        && a.handlers.as_slice() == b.handlers.as_slice()
}
