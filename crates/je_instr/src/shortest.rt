//! The shortest form of each instruction as bytes (JVMS 6.5).

ghost use Rattle.std.specs.Prelude.{◌≡◌, ◌<◌, ◌≤◌, ◌-◌, ◌+◌, ◌∷◌, ◌++◌, ◌^◌, length, FitsSigned};
ghost use Rattle.std.specs.Prelude.{IsSome, OnOk};
ghost use Rattle.std.specs.Int.{w16, w32};
ghost use Rattle.std.specs.List.{AllByRecursion, flat_map};
ghost use Rattle.je_base.specs.Bytes.{u1, u2};
ghost use Rattle.je_instr.specs.declared.instr.Case.{Case};
ghost use Rattle.je_instr.specs.declared.opcodes.TheConstants as op;
ghost use Rattle.je_instr.specs.Allowed.{AreKeys};
ghost use Rattle.je_instr.specs.Assembling.{IsInRange, IsFar, AreNear};
ghost use Rattle.je_instr.specs.CodeProgram.{HasTargets};
ghost use Rattle.je_instr.specs.Offsets.{AreShort, HasWidths};
ghost use Rattle.je_instr.specs.Opcodes.{beside, local_operations};
ghost use Rattle.je_instr.specs.Shortest.{s2, s4, push_bytes, ldc_bytes, with_slot, local_bytes};
ghost use Rattle.je_instr.specs.Shortest.{iinc_bytes, padding, target_bytes, case_bytes};
ghost use Rattle.je_instr.specs.Shortest.{table_bytes, lookup_bytes, last_key, short_size};
ghost use Rattle.je_instr.specs.Shortest.{short_end, short_bytes, short_code, distance};

use crate::instr::{Case, Instr, InstrIndex};
use crate::layout::short_size;
use crate::near::distance;
use crate::offset::Offset;
use crate::opcodes as op;
use je_base::{Memory, put_u16, put_u32};

fn put_i32(out: &mut Vec<u8>, n: i32) -> Result<(), Memory>
    ensures { OnOk result (out.new.items ≡ out.old.items ++ s4 n) }
{
    put_u32(out, n.cast_unsigned())
}

#[tactic(auto, unfolding(crate::specs::Shortest::push_bytes))]
fn put_push(out: &mut Vec<u8>, n: i32) -> Result<(), Memory>
    requires { FitsSigned w16 n }
    ensures { OnOk result (out.new.items ≡ out.old.items ++ push_bytes n) }
{
    match n {
        -1..=5 => out.push((op::ICONST_0 as i32 + n) as u8)?,
        -128..=127 => {
            out.push(op::BIPUSH)?;
            out.push((n as i8).cast_unsigned())?;
        }
        _ => {
            out.push(op::SIPUSH)?;
            put_u16(out, (n as i16).cast_unsigned())?;
        }
    }
    Ok(())
}

#[tactic(auto, unfolding(crate::specs::Shortest::ldc_bytes))]
fn put_ldc(out: &mut Vec<u8>, index: u16) -> Result<(), Memory>
    ensures { OnOk result (out.new.items ≡ out.old.items ++ ldc_bytes index) }
{
    if index <= 255 {
        out.push(op::LDC)?;
        out.push(index as u8)?;
    } else {
        out.push(op::LDC_W)?;
        put_u16(out, index)?;
    }
    Ok(())
}

/// The opcode of a load or a store with one of the slots 0 to 3 in it.
#[tactic(auto, unfolding(crate::specs::Shortest::with_slot))]
fn with_slot(opcode: u8, slot: u16) -> u8
    requires opcode { IsSome (beside local_operations opcode) }
    requires slot { slot ≤ 3 }
    ensures { result ≡ with_slot opcode slot }
{
    match opcode {
        op::ILOAD..=op::ALOAD => op::ILOAD_0 + 4 * (opcode - op::ILOAD) + slot as u8,
        op::ISTORE..=op::ASTORE => op::ISTORE_0 + 4 * (opcode - op::ISTORE) + slot as u8,
        _ => opcode,
    }
}

#[tactic(auto, unfolding(crate::specs::Shortest::local_bytes))]
fn put_local(out: &mut Vec<u8>, opcode: u8, slot: u16) -> Result<(), Memory>
    requires { IsSome (beside local_operations opcode) }
    ensures { OnOk result (out.new.items ≡ out.old.items ++ local_bytes opcode slot) }
{
    match slot {
        0..=3 => out.push(with_slot(opcode, slot))?,
        4..=255 => {
            out.push(opcode)?;
            out.push(slot as u8)?;
        }
        _ => {
            out.push(op::WIDE)?;
            out.push(opcode)?;
            put_u16(out, slot)?;
        }
    }
    Ok(())
}

#[tactic(auto, unfolding(crate::specs::Shortest::iinc_bytes))]
fn put_iinc(out: &mut Vec<u8>, slot: u16, by: i16) -> Result<(), Memory>
    ensures { OnOk result (out.new.items ≡ out.old.items ++ iinc_bytes slot by) }
{
    if slot <= 255 && -128 <= by && by <= 127 {
        out.push(op::IINC)?;
        out.push(slot as u8)?;
        out.push((by as i8).cast_unsigned())?;
    } else {
        out.push(op::WIDE)?;
        out.push(op::IINC)?;
        put_u16(out, slot)?;
        put_u16(out, by.cast_unsigned())?;
    }
    Ok(())
}

/// An opcode and the index of a constant.
fn put_index(out: &mut Vec<u8>, opcode: u8, index: u16) -> Result<(), Memory>
    ensures { OnOk result (out.new.items ≡ out.old.items ++ opcode ∷ u2 index) }
{
    out.push(opcode)?;
    put_u16(out, index)
}

fn put_interface(out: &mut Vec<u8>, index: u16, count: u8) -> Result<(), Memory>
    ensures { OnOk result (out.new.items
        ≡ out.old.items ++ op.INVOKEINTERFACE ∷ (u2 index ++ (u1 count ++ u1 0))) }
{
    put_index(out, op::INVOKEINTERFACE, index)?;
    out.push(count)?;
    out.push(0)?;
    Ok(())
}

fn put_dynamic(out: &mut Vec<u8>, index: u16) -> Result<(), Memory>
    ensures { OnOk result (out.new.items
        ≡ out.old.items ++ op.INVOKEDYNAMIC ∷ (u2 index ++ u2 0)) }
{
    put_index(out, op::INVOKEDYNAMIC, index)?;
    put_u16(out, 0)
}

fn put_newarray(out: &mut Vec<u8>, code: u8) -> Result<(), Memory>
    ensures { OnOk result (out.new.items ≡ out.old.items ++ op.NEWARRAY ∷ u1 code) }
{
    out.push(op::NEWARRAY)?;
    out.push(code)?;
    Ok(())
}

fn put_multi(out: &mut Vec<u8>, index: u16, count: u8) -> Result<(), Memory>
    ensures { OnOk result (out.new.items
        ≡ out.old.items ++ op.MULTIANEWARRAY ∷ (u2 index ++ u1 count)) }
{
    put_index(out, op::MULTIANEWARRAY, index)?;
    out.push(count)?;
    Ok(())
}

/// The distance from an offset to an instruction, by two bytes.
fn put_near(
    out: &mut Vec<u8>,
    offsets: &[u32],
    at: Offset,
    target: InstrIndex,
) -> Result<(), Memory>
    requires within { target < length offsets.now }
    requires short { AreShort offsets.now }
    requires at { at < 2 ^ 16 }
    requires near { FitsSigned w16 (distance offsets.now at target) }
    ensures { OnOk result (out.new.items ≡ out.old.items ++ s2 (distance offsets.now at target)) }
{
    put_u16(out, (distance(offsets, at, target) as i16).cast_unsigned())
}

/// A jump from an offset to an instruction.
fn put_jump(
    out: &mut Vec<u8>,
    offsets: &[u32],
    at: Offset,
    opcode: u8,
    target: InstrIndex,
) -> Result<(), Memory>
    requires within { target < length offsets.now }
    requires short { AreShort offsets.now }
    requires at { at < 2 ^ 16 }
    requires near { (FitsSigned w16 (distance offsets.now at target) → ⊥) → ⊥ }
    ensures { OnOk result (out.new.items
        ≡ out.old.items ++ opcode ∷ s2 (distance offsets.now at target)) }
{
    out.push(opcode)?;
    put_near(out, offsets, at, target)
}

/// The distance from an offset to an instruction, by four bytes.
fn put_target(
    out: &mut Vec<u8>,
    offsets: &[u32],
    at: Offset,
    target: InstrIndex,
) -> Result<(), Memory>
    requires within { target < length offsets.now }
    requires short { AreShort offsets.now }
    requires at { at < 2 ^ 16 }
    ensures { OnOk result (out.new.items ≡ out.old.items ++ target_bytes offsets.now at target) }
{
    put_i32(out, distance(offsets, at, target))
}

fn put_targets(
    out: &mut Vec<u8>,
    offsets: &[u32],
    at: Offset,
    targets: &[InstrIndex],
) -> Result<(), Memory>
    requires within { AllByRecursion (λ target. target < length offsets.now) targets.now }
    requires short { AreShort offsets.now }
    requires at { at < 2 ^ 16 }
    ensures { OnOk result (out.new.items
        ≡ out.old.items ++ flat_map (target_bytes offsets.now at) targets.now) }
{
    let mut rest = targets;
    while let Some((target, tail)) = rest.split_first() {
        put_target(out, offsets, at, *target)?;
        rest = tail;
    }
    Ok(())
}

fn put_cases(out: &mut Vec<u8>, offsets: &[u32], at: Offset, cases: &[Case]) -> Result<(), Memory>
    requires within { AllByRecursion (λ (c : Case). c.target < length offsets.now) cases.now }
    requires short { AreShort offsets.now }
    requires at { at < 2 ^ 16 }
    ensures bytes { OnOk result (out.new.items
        ≡ out.old.items ++ flat_map (case_bytes offsets.now at) cases.now) }
    ensures widths { OnOk result (AllByRecursion (λ (c : Case). FitsSigned w32 c.key) cases.now) }
{
    let mut rest = cases;
    while let Some((case, tail)) = rest.split_first() {
        put_i32(out, case.key)?;
        put_target(out, offsets, at, case.target)?;
        rest = tail;
    }
    Ok(())
}

/// Zeros up to the next multiple of four behind the opcode at an offset.
fn put_padding(out: &mut Vec<u8>, at: Offset) -> Result<(), Memory>
    ensures { OnOk result (out.new.items ≡ out.old.items ++ padding at) }
{
    let zeros = [0u8; 3];
    out.extend_from_slice(&zeros[..(3 - at.get() % 4) as usize])?;
    Ok(())
}

/// The greatest of so many keys from the least one on.
fn last_key(low: i32, count: usize) -> i32
    requires keys { AreKeys low count }
    requires short { count < 2 ^ 16 }
    ensures { result ≡ last_key low count }
{
    low + (count as i32 - 1)
}

/// The least and the greatest key.
fn put_bounds(out: &mut Vec<u8>, low: i32, count: usize) -> Result<(), Memory>
    requires keys { AreKeys low count }
    requires short { count < 2 ^ 16 }
    ensures { OnOk result (out.new.items ≡ out.old.items ++ (s4 low ++ s4 (last_key low count))) }
{
    put_i32(out, low)?;
    put_i32(out, last_key(low, count))
}

/// What a switch begins with, up to its target for all other keys.
fn put_switch(
    out: &mut Vec<u8>,
    offsets: &[u32],
    at: Offset,
    opcode: u8,
    fallback: InstrIndex,
) -> Result<(), Memory>
    requires fallback { fallback < length offsets.now }
    requires offsets { AreShort offsets.now }
    requires at { at < 2 ^ 16 }
    ensures { OnOk result (out.new.items
        ≡ out.old.items ++ opcode ∷ (padding at ++ target_bytes offsets.now at fallback)) }
{
    out.push(opcode)?;
    put_padding(out, at)?;
    put_target(out, offsets, at, fallback)
}

fn put_table(
    out: &mut Vec<u8>,
    offsets: &[u32],
    at: Offset,
    low: i32,
    targets: &[InstrIndex],
    fallback: InstrIndex,
) -> Result<(), Memory>
    requires within { AllByRecursion (λ target. target < length offsets.now) targets.now }
    requires fallback { fallback < length offsets.now }
    requires offsets { AreShort offsets.now }
    requires at { at < 2 ^ 16 }
    requires keys { AreKeys low (length targets.now) }
    requires short { length targets.now < 2 ^ 16 }
    ensures { OnOk result (out.new.items
        ≡ out.old.items ++ table_bytes offsets.now at low targets.now fallback) }
{
    put_switch(out, offsets, at, op::TABLESWITCH, fallback)?;
    put_bounds(out, low, targets.len())?;
    put_targets(out, offsets, at, targets)?;
    Ok(())
}

#[tactic(auto, unfolding(crate::specs::Shortest::lookup_bytes))]
fn put_lookup(
    out: &mut Vec<u8>,
    offsets: &[u32],
    at: Offset,
    cases: &[Case],
    fallback: InstrIndex,
) -> Result<(), Memory>
    requires within { AllByRecursion (λ (c : Case). c.target < length offsets.now) cases.now }
    requires fallback { fallback < length offsets.now }
    requires offsets { AreShort offsets.now }
    requires at { at < 2 ^ 16 }
    requires short { length cases.now < 2 ^ 16 }
    ensures bytes { OnOk result (out.new.items
        ≡ out.old.items ++ lookup_bytes offsets.now at cases.now fallback) }
    ensures widths { OnOk result (AllByRecursion (λ (c : Case). FitsSigned w32 c.key) cases.now) }
{
    put_switch(out, offsets, at, op::LOOKUPSWITCH, fallback)?;
    put_u32(out, cases.len() as u32)?;
    put_cases(out, offsets, at, cases)
}

/// One instruction at an offset.
fn put_instr(out: &mut Vec<u8>, offsets: &[u32], at: Offset, instr: &Instr) -> Result<(), Memory>
    requires some { 0 < length offsets.now }
    requires targets { HasTargets (length offsets.now - 1) instr.now }
    requires operands { IsInRange instr.now }
    requires offsets { AreShort offsets.now }
    requires at { at < 2 ^ 16 }
    requires short { short_size at instr.now < 2 ^ 16 }
    requires near { IsFar offsets.now at instr.now → ⊥ }
    ensures bytes { OnOk result
        (out.new.items ≡ out.old.items ++ short_bytes offsets.now at instr.now) }
    ensures widths { OnOk result (HasWidths instr.now) }
{
    match instr {
        Instr::Simple(opcode) => out.push(*opcode)?,
        Instr::IntPush(n) => put_push(out, *n)?,
        Instr::Ldc(index) => put_ldc(out, *index)?,
        Instr::Ldc2(index) => put_index(out, op::LDC2_W, *index)?,
        Instr::Local(opcode, slot) => put_local(out, *opcode, *slot)?,
        Instr::Iinc(slot, by) => put_iinc(out, *slot, *by)?,
        Instr::Branch(opcode, target) => put_jump(out, offsets, at, *opcode, *target)?,
        Instr::Goto(target) => put_jump(out, offsets, at, op::GOTO, *target)?,
        Instr::TableSwitch(low, targets, fallback) => {
            put_table(out, offsets, at, *low, targets.as_slice(), *fallback)?
        }
        Instr::LookupSwitch(cases, fallback) => {
            put_lookup(out, offsets, at, cases.as_slice(), *fallback)?
        }
        Instr::Field(opcode, index) => put_index(out, *opcode, *index)?,
        Instr::Invoke(opcode, index) => put_index(out, *opcode, *index)?,
        Instr::InvokeInterface(index, count) => put_interface(out, *index, *count)?,
        Instr::InvokeDynamic(index) => put_dynamic(out, *index)?,
        Instr::New(index) => put_index(out, op::NEW, *index)?,
        Instr::NewArray(code) => put_newarray(out, *code)?,
        Instr::ANewArray(index) => put_index(out, op::ANEWARRAY, *index)?,
        Instr::CheckCast(index) => put_index(out, op::CHECKCAST, *index)?,
        Instr::InstanceOf(index) => put_index(out, op::INSTANCEOF, *index)?,
        Instr::MultiNew(index, count) => put_multi(out, *index, *count)?,
    }
    Ok(())
}

/// All instructions, each at its offset.
pub(crate) fn put_all(out: &mut Vec<u8>, offsets: &[u32], instrs: &[Instr]) -> Result<(), Memory>
    requires some { 0 < length offsets.now }
    requires targets { AllByRecursion (HasTargets (length offsets.now - 1)) instrs.now }
    requires operands { AllByRecursion IsInRange instrs.now }
    requires offsets { AreShort offsets.now }
    requires short { short_end 0 instrs.now < 2 ^ 16 }
    requires near { AreNear offsets.now 0 instrs.now }
    ensures bytes { OnOk result
        (out.new.items ≡ out.old.items ++ short_code offsets.now 0 instrs.now) }
    ensures widths { OnOk result (AllByRecursion HasWidths instrs.now) }
{
    let mut at = Offset::new(0);
    let mut rest = instrs;
    while let Some((instr, tail)) = rest.split_first() {
        put_instr(out, offsets, at, instr)?;
        at = at.plus(short_size(at, instr));
        rest = tail;
    }
    Ok(())
}
