//! Where instructions stand in the code, each in its shortest form (JVMS 6.5).

ghost use Rattle.std.specs.Prelude.{◌≡◌, ◌<◌, ◌≤◌, ◌+◌, ◌-◌, ◌^◌, min, IfOk};
ghost use Rattle.je_instr.specs.Shortest.{push_size, ldc_size, local_size, iinc_size, short_size};
ghost use Rattle.je_instr.specs.Shortest.{short_end, short_offsets};

use crate::instr::Instr;
use crate::offset::Offset;
use je_base::Memory;
use std::alloc::Global;

/// How many bytes the push of an int has.
#[tactic(auto, unfolding(crate::specs::Shortest::push_size))]
fn push_size(n: i32) -> usize
    ensures size { result ≡ push_size n }
    ensures few { result ≤ 6 }
{
    match n {
        -1..=5 => 1,
        -128..=127 => 2,
        _ => 3,
    }
}

/// How many bytes the push of a constant of one place has.
#[tactic(auto, unfolding(crate::specs::Shortest::ldc_size))]
fn ldc_size(index: u16) -> usize
    ensures size { result ≡ ldc_size index }
    ensures few { result ≤ 6 }
{
    if index <= 255 { 2 } else { 3 }
}

/// How many bytes a load or a store has.
#[tactic(auto, unfolding(crate::specs::Shortest::local_size))]
fn local_size(slot: u16) -> usize
    ensures size { result ≡ local_size slot }
    ensures few { result ≤ 6 }
{
    match slot {
        0..=3 => 1,
        4..=255 => 2,
        _ => 4,
    }
}

/// How many bytes iinc has.
#[tactic(auto, unfolding(crate::specs::Shortest::iinc_size))]
fn iinc_size(slot: u16, by: i16) -> usize
    ensures size { result ≡ iinc_size slot by }
    ensures few { result ≤ 6 }
{
    if slot <= 255 && -128 <= by && by <= 127 {
        3
    } else {
        6
    }
}

/// How many bytes an instruction has at an offset.
pub(crate) fn short_size(at: Offset, instr: &Instr) -> usize
    ensures size { result ≡ short_size at instr.now }
    ensures bound { result ≤ 2 ^ 63 + 2 ^ 5 }
{
    match instr {
        Instr::Simple(_) => 1,
        Instr::IntPush(n) => push_size(*n),
        Instr::Ldc(index) => ldc_size(*index),
        Instr::Local(_, slot) => local_size(*slot),
        Instr::Iinc(slot, by) => iinc_size(*slot, *by),
        Instr::TableSwitch(_, targets, _) => (4 - at.get() % 4) as usize
            + 12
            + 4 * targets.as_slice().len(),
        Instr::LookupSwitch(cases, _) => (4 - at.get() % 4) as usize
            + 8
            + 8 * cases.as_slice().len(),
        Instr::InvokeInterface(_, _) => 5,
        Instr::InvokeDynamic(_) => 5,
        Instr::NewArray(_) => 2,
        Instr::MultiNew(_, _) => 4,
        _ => 3,
    }
}

/// How many bytes the instructions have, or the greatest `u32` where there are more.
pub(crate) fn total_size(instrs: &[Instr]) -> u32
    ensures { result ≡ min (short_end 0 instrs.now) (2 ^ 32 - 1) }
{
    let mut at: u32 = 0;
    let mut rest = instrs;
    while let Some((instr, tail)) = rest.split_first() {
        let end = at as usize + short_size(Offset::new(at), instr);
        at = end.min(u32::MAX as usize) as u32;
        rest = tail;
    }
    at
}

/// The offset of each instruction, and that of the end.
pub(crate) fn offsets_of(alloc: Global, instrs: &[Instr]) -> Result<Vec<u32>, Memory>
    requires { short_end 0 instrs.now < 2 ^ 16 }
    ensures { IfOk result (λ v. v.items ≡ short_offsets 0 instrs.now) }
{
    let mut offsets = Vec::new(alloc);
    let mut at = Offset::new(0);
    let mut rest = instrs;
    while let Some((instr, tail)) = rest.split_first() {
        offsets.push(at.get())?;
        at = at.plus(short_size(at, instr));
        rest = tail;
    }
    offsets.push(at.get())?;
    Ok(offsets)
}
