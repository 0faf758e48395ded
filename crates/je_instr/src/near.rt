//! Jumps that are too far for a number of two bytes (JVMS 6.5, goto).

ghost use Rattle.std.specs.Prelude.{◌≡◌, ◌↔◌, ◌<◌, ◌-◌, ◌^◌, length, FitsSigned, IsTrue, IfSome};
ghost use Rattle.std.specs.Prelude.{IfNone};
ghost use Rattle.std.specs.Int.{w16};
ghost use Rattle.std.specs.List.{AllByRecursion};
ghost use Rattle.je_instr.specs.Assembling.{IsFar, AreNear, IsFirstFar};
ghost use Rattle.je_instr.specs.CodeProgram.{HasTargets};
ghost use Rattle.je_instr.specs.Offsets.{AreShort};
ghost use Rattle.je_instr.specs.Shortest.{short_end, distance};

use crate::instr::{Instr, InstrIndex};
use crate::layout::short_size;
use crate::offset::Offset;

/// How far it is from an offset to an instruction.
#[tactic(auto, unfolding(crate::specs::Shortest::distance))]
pub(crate) fn distance(offsets: &[u32], at: Offset, target: InstrIndex) -> i32
    requires within { target < length offsets.now }
    requires short { AreShort offsets.now }
    requires at { at < 2 ^ 16 }
    ensures { result ≡ distance offsets.now at target }
{
    offsets[target as usize] as i32 - at.get() as i32
}

/// Whether two bytes do not hold the distance.
fn exceeds(distance: i32) -> bool
    ensures { IsTrue result ↔ (FitsSigned w16 distance → ⊥) }
{
    distance < -32768 || 32767 < distance
}

/// Whether the instruction at an offset jumps too far.
fn is_far(offsets: &[u32], at: Offset, instr: &Instr) -> bool
    requires some { 0 < length offsets.now }
    requires targets { HasTargets (length offsets.now - 1) instr.now }
    requires short { AreShort offsets.now }
    requires at { at < 2 ^ 16 }
    ensures { IsTrue result ↔ IsFar offsets.now at instr.now }
{
    match instr {
        Instr::Branch(_, target) => exceeds(distance(offsets, at, *target)),
        Instr::Goto(target) => exceeds(distance(offsets, at, *target)),
        _ => false,
    }
}

/// The index of the first instruction that jumps too far.
pub(crate) fn first_far(offsets: &[u32], instrs: &[Instr]) -> Option<InstrIndex>
    requires some { 0 < length offsets.now }
    requires targets { AllByRecursion (HasTargets (length offsets.now - 1)) instrs.now }
    requires offsets { AreShort offsets.now }
    requires short { short_end 0 instrs.now < 2 ^ 16 }
    ensures some { IfSome result (IsFirstFar offsets.now 0 instrs.now 0) }
    ensures none { IfNone result (AreNear offsets.now 0 instrs.now) }
{
    let mut at = Offset::new(0);
    let mut index: InstrIndex = 0;
    let mut rest = instrs;
    while let Some((instr, tail)) = rest.split_first() {
        if is_far(offsets, at, instr) {
            return Some(index);
        }
        at = at.plus(short_size(at, instr));
        index += 1;
        rest = tail;
    }
    None
}
