//! One instruction at an offset of code (JVMS 6.5).

ghost use Rattle.std.specs.Prelude.{◌≡◌, ◌+◌, ◌*◌, ◌<◌, ◌≤◌, ◌^◌, length, IfOk};
ghost use Rattle.je_instr.specs.FormReading.{Gives};
ghost use Rattle.je_instr.specs.Forms.{u1_at, u2_at, u4_at, s1_at, s2_at, s4_at, near, far};
ghost use Rattle.je_instr.specs.Forms.{size_of, push_form, local_form, jump_form, member_form};
ghost use Rattle.je_instr.specs.Forms.{fixed_form, wide_form, aligned, targets_at, case_at};
ghost use Rattle.je_instr.specs.Forms.{cases_at, table_form, lookup_form, form_at};

use crate::fault::CodeFault;
use crate::instr::{Case, Instr};
use crate::opcodes as op;
use je_base::Memory;
use sqlite_items::Items;
use std::alloc::Global;

/// The byte at an offset, and 0 behind the end.
fn u1_at(code: &[u8], at: usize) -> u8
    ensures { result ≡ u1_at code.now at }
{
    match code.get(at) {
        Some(byte) => *byte,
        None => 0,
    }
}

/// The byte at an offset as a number with a sign.
fn s1_at(code: &[u8], at: usize) -> i8
    ensures { result ≡ s1_at code.now at }
{
    u1_at(code, at).cast_signed()
}

#[tactic(auto, unfolding(crate::specs::Forms::u2_at))]
fn u2_at(code: &[u8], at: usize) -> u16
    requires { at < 2 ^ 33 }
    ensures { result ≡ u2_at code.now at }
{
    u16::from_be_bytes([u1_at(code, at), u1_at(code, at + 1)])
}

fn s2_at(code: &[u8], at: usize) -> i16
    requires { at < 2 ^ 33 }
    ensures { result ≡ s2_at code.now at }
{
    u2_at(code, at).cast_signed()
}

#[tactic(auto, unfolding(crate::specs::Forms::u4_at))]
fn u4_at(code: &[u8], at: usize) -> u32
    requires { at < 2 ^ 33 }
    ensures { result ≡ u4_at code.now at }
{
    u32::from_be_bytes([
        u1_at(code, at),
        u1_at(code, at + 1),
        u1_at(code, at + 2),
        u1_at(code, at + 3),
    ])
}

fn s4_at(code: &[u8], at: usize) -> i32
    requires { at < 2 ^ 33 }
    ensures { result ≡ s4_at code.now at }
{
    u4_at(code, at).cast_signed()
}

/// The target of the instruction at an offset, by a distance of two bytes.
#[tactic(auto, unfolding(crate::specs::Forms::near))]
fn near(code: &[u8], at: usize, operand: usize) -> u32
    requires at { at < 2 ^ 32 }
    requires operand { operand < 2 ^ 33 }
    ensures { result ≡ near code.now at operand }
{
    let distance = s2_at(code, operand) as i32;
    (at as u32).wrapping_add(distance.cast_unsigned())
}

/// The target of the instruction at an offset, by a distance of four bytes.
#[tactic(auto, unfolding(crate::specs::Forms::far))]
fn far(code: &[u8], at: usize, operand: usize) -> u32
    requires at { at < 2 ^ 32 }
    requires operand { operand < 2 ^ 33 }
    ensures { result ≡ far code.now at operand }
{
    (at as u32).wrapping_add(u4_at(code, operand))
}

/// How many bytes an instruction has that is neither a switch nor wide.
#[tactic(auto, unfolding(crate::specs::Forms::size_of))]
fn size_of(opcode: u8) -> usize
    ensures size { result ≡ size_of opcode }
    ensures bound { result ≤ 5 }
{
    match opcode {
        op::BIPUSH | op::LDC | op::ILOAD..=op::ALOAD | op::ISTORE..=op::ASTORE => 2,
        op::RET | op::NEWARRAY => 2,
        op::MULTIANEWARRAY => 4,
        op::INVOKEINTERFACE | op::INVOKEDYNAMIC | op::GOTO_W | op::JSR_W => 5,
        op::SIPUSH..=op::LDC2_W | op::IINC | op::IFEQ..=op::JSR | op::GETSTATIC..=op::NEW => 3,
        op::ANEWARRAY | op::CHECKCAST..=op::INSTANCEOF | op::IFNULL..=op::IFNONNULL => 3,
        _ => 1,
    }
}

/// A constant, or what stands among their opcodes.
#[tactic(auto, unfolding(crate::specs::Forms::push_form))]
fn push_form(code: &[u8], at: usize, opcode: u8) -> Instr
    requires { at < 2 ^ 32 }
    ensures { result ≡ push_form code.now at opcode }
{
    match opcode {
        op::ICONST_M1..=op::ICONST_5 => Instr::IntPush(opcode as i32 - op::ICONST_0 as i32),
        op::BIPUSH => Instr::IntPush(s1_at(code, at + 1) as i32),
        op::SIPUSH => Instr::IntPush(s2_at(code, at + 1) as i32),
        op::LDC => Instr::Ldc(u1_at(code, at + 1) as u16),
        op::LDC_W => Instr::Ldc(u2_at(code, at + 1)),
        op::LDC2_W => Instr::Ldc2(u2_at(code, at + 1)),
        _ => Instr::Simple(opcode),
    }
}

/// A load or a store, or what stands among their opcodes.
#[tactic(auto, unfolding(crate::specs::Forms::local_form))]
fn local_form(code: &[u8], at: usize, opcode: u8) -> Instr
    requires { at < 2 ^ 32 }
    ensures { result ≡ local_form code.now at opcode }
{
    match opcode {
        op::ILOAD..=op::ALOAD => Instr::Local(opcode, u1_at(code, at + 1) as u16),
        op::ISTORE..=op::ASTORE => Instr::Local(opcode, u1_at(code, at + 1) as u16),
        op::ILOAD_0..=op::ALOAD_3 => {
            let of = opcode - op::ILOAD_0;
            Instr::Local(op::ILOAD + of / 4, (of % 4) as u16)
        }
        op::ISTORE_0..=op::ASTORE_3 => {
            let of = opcode - op::ISTORE_0;
            Instr::Local(op::ISTORE + of / 4, (of % 4) as u16)
        }
        _ => Instr::Simple(opcode),
    }
}

/// What moves, computes, compares or jumps.
#[tactic(auto, unfolding(crate::specs::Forms::jump_form))]
fn jump_form(code: &[u8], at: usize, opcode: u8) -> Result<Instr, CodeFault>
    requires { at < 2 ^ 32 }
    ensures { result ≡ jump_form code.now at opcode }
{
    match opcode {
        op::IINC => Ok(Instr::Iinc(u1_at(code, at + 1) as u16, s1_at(code, at + 2) as i16)),
        op::IFEQ..=op::IF_ACMPNE => Ok(Instr::Branch(opcode, near(code, at, at + 1))),
        op::GOTO => Ok(Instr::Goto(near(code, at, at + 1))),
        op::JSR..=op::RET => Err(CodeFault::Jsr(at)),
        _ => Ok(Instr::Simple(opcode)),
    }
}

/// What has a member or a class, or is a jump of the last opcodes.
#[tactic(auto, unfolding(crate::specs::Forms::member_form))]
fn member_form(code: &[u8], at: usize, opcode: u8) -> Result<Instr, CodeFault>
    requires { at < 2 ^ 32 }
    ensures { result ≡ member_form code.now at opcode }
{
    let index = u2_at(code, at + 1);
    match opcode {
        op::GETSTATIC..=op::PUTFIELD => Ok(Instr::Field(opcode, index)),
        op::INVOKEVIRTUAL..=op::INVOKESTATIC => Ok(Instr::Invoke(opcode, index)),
        op::INVOKEINTERFACE => {
            if u1_at(code, at + 4) != 0 {
                return Err(CodeFault::BadOperand(at));
            }
            Ok(Instr::InvokeInterface(index, u1_at(code, at + 3)))
        }
        op::INVOKEDYNAMIC => {
            if u2_at(code, at + 3) != 0 {
                return Err(CodeFault::BadOperand(at));
            }
            Ok(Instr::InvokeDynamic(index))
        }
        op::NEW => Ok(Instr::New(index)),
        op::NEWARRAY => Ok(Instr::NewArray(u1_at(code, at + 1))),
        op::ANEWARRAY => Ok(Instr::ANewArray(index)),
        op::CHECKCAST => Ok(Instr::CheckCast(index)),
        op::INSTANCEOF => Ok(Instr::InstanceOf(index)),
        op::MULTIANEWARRAY => Ok(Instr::MultiNew(index, u1_at(code, at + 3))),
        op::IFNULL..=op::IFNONNULL => Ok(Instr::Branch(opcode, near(code, at, at + 1))),
        op::GOTO_W => Ok(Instr::Goto(far(code, at, at + 1))),
        op::JSR_W => Err(CodeFault::Jsr(at)),
        _ => Ok(Instr::Simple(opcode)),
    }
}

/// The instruction of this opcode, whose operands are all there.
#[tactic(auto, unfolding(crate::specs::Forms::fixed_form))]
fn fixed_form(code: &[u8], at: usize, opcode: u8) -> Result<Instr, CodeFault>
    requires { at < 2 ^ 32 }
    ensures { result ≡ fixed_form code.now at opcode }
{
    match opcode {
        0..=op::LDC2_W => Ok(push_form(code, at, opcode)),
        0..=op::ASTORE_3 => Ok(local_form(code, at, opcode)),
        0..=op::RET => jump_form(code, at, opcode),
        _ => member_form(code, at, opcode),
    }
}

/// The instruction behind wide, and the offset behind it.
#[tactic(auto, unfolding(crate::specs::Forms::wide_form))]
fn wide_form(code: &[u8], at: usize) -> Result<(Instr, usize), CodeFault>
    requires { at < 2 ^ 32 }
    ensures { result ≡ wide_form code.now at }
{
    if code.len() < at + 2 {
        return Err(CodeFault::CutShort(at));
    }
    let opcode = u1_at(code, at + 1);
    match opcode {
        op::ILOAD..=op::ALOAD | op::ISTORE..=op::ASTORE => {
            if code.len() < at + 4 {
                return Err(CodeFault::CutShort(at));
            }
            Ok((Instr::Local(opcode, u2_at(code, at + 2)), at + 4))
        }
        op::IINC => {
            if code.len() < at + 6 {
                return Err(CodeFault::CutShort(at));
            }
            Ok((
                Instr::Iinc(u2_at(code, at + 2), s2_at(code, at + 4)),
                at + 6,
            ))
        }
        op::RET => Err(CodeFault::Jsr(at)),
        _ => Err(CodeFault::BadOperand(at)),
    }
}

/// The first multiple of four behind the opcode at an offset.
fn aligned(at: usize) -> usize
    requires { at < 2 ^ 32 }
    ensures { result ≡ aligned at }
{
    at + (4 - at % 4)
}

/// So many targets from an offset on. It fails only for want of memory.
fn targets_at(
    alloc: Global,
    code: &[u8],
    at: usize,
    from: usize,
    count: usize,
) -> Result<Vec<u32>, Memory>
    requires at { at < 2 ^ 32 }
    requires within { from + 4 * count ≤ 2 ^ 32 }
    ensures { IfOk result (λ v. v.items ≡ targets_at code.now at from count) }
{
    let mut targets = Vec::new(alloc);
    let mut next = from;
    for _ in 0..count {
        targets.push(far(code, at, next))?;
        next += 4;
    }
    Ok(targets)
}

/// The key at an offset, with its target behind it.
fn case_at(code: &[u8], at: usize, from: usize) -> Case
    requires at { at < 2 ^ 32 }
    requires from { from < 2 ^ 32 }
    ensures { result ≡ case_at code.now at from }
{
    Case {
        key: s4_at(code, from),
        target: far(code, at, from + 4),
    }
}

/// So many keys with their targets from an offset on. It fails only for want of memory.
fn cases_at(
    alloc: Global,
    code: &[u8],
    at: usize,
    from: usize,
    count: usize,
) -> Result<Vec<Case>, Memory>
    requires at { at < 2 ^ 32 }
    requires within { from + 8 * count ≤ 2 ^ 32 }
    ensures { IfOk result (λ v. v.items ≡ cases_at code.now at from count) }
{
    let mut cases = Vec::new(alloc);
    let mut next = from;
    for _ in 0..count {
        cases.push(case_at(code, at, next))?;
        next += 8;
    }
    Ok(cases)
}

/// A tableswitch, and the offset behind it.
#[tactic(auto, unfolding(crate::specs::Forms::table_form))]
fn table_form(alloc: Global, code: &[u8], at: usize) -> Result<(Instr, usize), CodeFault>
    requires at { at < 2 ^ 31 }
    requires short { length code.now < 2 ^ 31 }
    ensures { Gives (λ x. x) result (table_form code.now at) }
{
    let from = aligned(at);
    if code.len() < from + 12 {
        return Err(CodeFault::CutShort(at));
    }
    let low = s4_at(code, from + 4);
    let high = s4_at(code, from + 8);
    if high < low {
        return Err(CodeFault::BadOperand(at));
    }
    let count = high.abs_diff(low) as usize + 1;
    let end = from + 12 + 4 * count;
    if code.len() < end {
        return Err(CodeFault::CutShort(at));
    }
    let targets = targets_at(alloc, code, at, from + 12, count)?;
    let fallback = far(code, at, from);
    Ok((
        Instr::TableSwitch(low, Items::from_vec(targets), fallback),
        end,
    ))
}

/// A lookupswitch, and the offset behind it.
#[tactic(auto, unfolding(crate::specs::Forms::lookup_form))]
fn lookup_form(alloc: Global, code: &[u8], at: usize) -> Result<(Instr, usize), CodeFault>
    requires at { at < 2 ^ 31 }
    requires short { length code.now < 2 ^ 31 }
    ensures { Gives (λ x. x) result (lookup_form code.now at) }
{
    let from = aligned(at);
    if code.len() < from + 8 {
        return Err(CodeFault::CutShort(at));
    }
    let count = u4_at(code, from + 4);
    if count >= 0x8000_0000 {
        return Err(CodeFault::BadOperand(at));
    }
    let end = from + 8 + 8 * count as usize;
    if code.len() < end {
        return Err(CodeFault::CutShort(at));
    }
    let cases = cases_at(alloc, code, at, from + 8, count as usize)?;
    let fallback = far(code, at, from);
    Ok((Instr::LookupSwitch(Items::from_vec(cases), fallback), end))
}

/// What stands at an offset: an instruction, whose targets are offsets, and the offset behind it.
#[tactic(auto, unfolding(crate::specs::Forms::form_at))]
pub(crate) fn form_at(alloc: Global, code: &[u8], at: usize) -> Result<(Instr, usize), CodeFault>
    requires at { at < 2 ^ 31 }
    requires short { length code.now < 2 ^ 31 }
    ensures { Gives (λ x. x) result (form_at code.now at) }
{
    let opcode = u1_at(code, at);
    match opcode {
        op::TABLESWITCH => table_form(alloc, code, at),
        op::LOOKUPSWITCH => lookup_form(alloc, code, at),
        op::WIDE => wide_form(code, at),
        0..=op::JSR_W => {
            let end = at + size_of(opcode);
            if code.len() < end {
                return Err(CodeFault::CutShort(at));
            }
            let instr = fixed_form(code, at, opcode)?;
            Ok((instr, end))
        }
        _ => Err(CodeFault::BadOpcode(at)),
    }
}
