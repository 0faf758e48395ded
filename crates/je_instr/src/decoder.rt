//! From bytes and an exception table to a program (JVMS 4.7.3 and 6.5).

ghost use Rattle.std.specs.Prelude.{◌≡◌, ℕ, ◌+◌, ◌<◌, ◌^◌, ◌++◌, ◌⊎◌, List, length, Ok};
ghost use Rattle.std.specs.Prelude.{IfOk, IfErr, MatchResult};
ghost use Rattle.je_consts.specs.declared.place.Place.{Place};
ghost use Rattle.je_instr.specs.declared.fault.CodeFault.{CodeFault};
ghost use Rattle.je_instr.specs.declared.instr.Instr.TheVariants as instr;
ghost use Rattle.je_instr.specs.declared.program.Decoded.{Decoded};
ghost use Rattle.je_instr.specs.declared.program.RawHandler.{RawHandler};
ghost use Rattle.je_base.specs.Bytes.{u2, u4};
ghost use Rattle.je_instr.specs.Decoding.{Decodes, FirstFault};
ghost use Rattle.je_instr.specs.Forms.{u2_at, u4_at, form_at};

use crate::entries::entries;
use crate::fault::CodeFault;
use crate::offset::Offset;
use crate::program::{Decoded, Program, RawHandler};
use crate::targets::{all_resolved, places_of};
use crate::walk::walk;
use je_consts::Consts;
use sqlite_items::Items;
use std::alloc::Global;

/// Code of so many bytes is longer than offsets can say.
const TOO_LONG: usize = 0x8000_0000;

/// The program, or the first fault.
fn decoded(
    alloc: Global,
    code: &[u8],
    table: &[RawHandler],
    consts: &Consts,
) -> Result<Decoded, CodeFault>
    ensures found { IfOk result (Decodes consts.now code.now table.now) }
    ensures fault { IfErr result (λ e. (e ≡ CodeFault.Memory)
        ⊎ FirstFault consts.now code.now table.now e) }
{
    if code.len() >= TOO_LONG {
        return Err(CodeFault::Memory);
    }
    let (located, mut starts) = walk(alloc, code, consts)?;
    let places = places_of(alloc, &starts, code.len())?;
    let instrs = all_resolved(alloc, &starts, &places, &located)?;
    let size = code.len() as u32;
    let handlers = entries(alloc, consts, &starts, &places, Offset::new(size), table)?;
    starts.push(size)?;
    Ok(Decoded {
        program: Program {
            instrs: Items::from_vec(instrs),
            handlers: Items::from_vec(handlers),
        },
        offsets: Items::from_vec(starts),
    })
}

/// The program that code and its exception table are, over these constants (JVMS 4.7.3 and 6.5).
///
/// Each instruction may stand in each of its forms, and the bytes that align a switch may be any.
///
/// # Errors
///
/// The first test that fails. First the instructions are read in the order of their bytes, and the
/// number is the offset of the instruction: `BadOpcode` where its first byte is no opcode;
/// `CutShort` where the code ends within it; `BadOperand` where it may not have an operand, or
/// stands behind wide and may not; `Jsr` where it is jsr, jsr_w or ret. Of one instruction
/// `CutShort` comes first, but the byte behind wide, the bounds of a tableswitch and the count of a
/// lookupswitch are tested as soon as they are there. Then `BadTarget` has the offset of the first
/// instruction that leads to where none begins. Then `BadRange` has the index of the first entry
/// of the table of which the start or the target is no instruction's, the end neither that nor the
/// end of the code, the start not below the end, or the class neither 0 nor one that is no array.
/// `Memory` comes where memory runs out, and for code of 2 GiB and more.
pub fn decode(
    alloc: Global,
    code: &[u8],
    table: &[RawHandler],
    consts: &Consts,
) -> Result<Decoded, CodeFault>
    // What is decoded is spelled so.
    ensures found { IfOk result (Decodes consts.now code.now table.now) }

    // What is spelled so is decoded, unless memory runs out.
    ensures only { (d : Decoded) → Decodes consts.now code.now table.now d →
        MatchResult result (λ e. e ≡ d) (λ e. e ≡ CodeFault.Memory) }

    // Each other fault is the first one, and where there is a first one, no other answer comes.
    ensures fault { IfErr result (λ e. (e ≡ CodeFault.Memory)
        ⊎ FirstFault consts.now code.now table.now e) }
    ensures exact { (f : CodeFault) → FirstFault consts.now code.now table.now f →
        MatchResult result (λ _. ⊥) (λ e. (e ≡ CodeFault.Memory) ⊎ (e ≡ f)) }
{
    match decoded(alloc, code, table, consts) {
        Ok(program) => Ok(program),
        Err(fault) => Err(fault),
    }
}

/// Code and an exception table are one program or have one first fault.
pub fn one_decoding()
    // It cannot be that they are no program and have no first fault.
    ensures some { (consts : List Place) (code : List ℕ) (table : List RawHandler) →
        ((d : Decoded) → Decodes consts code table d → ⊥)
        → ((f : CodeFault) → FirstFault consts code table f → ⊥) → ⊥ }
    ensures same { (consts : List Place) (code : List ℕ) (table : List RawHandler) (d e : Decoded) →
        Decodes consts code table d → Decodes consts code table e → d ≡ e }
    ensures no_fault { (consts : List Place) (code : List ℕ) (table : List RawHandler)
        (d : Decoded) (f : CodeFault) →
        Decodes consts code table d → FirstFault consts code table f → ⊥ }
    ensures one_fault { (consts : List Place) (code : List ℕ) (table : List RawHandler)
        (f g : CodeFault) →
        FirstFault consts code table f → FirstFault consts code table g → f ≡ g }
{}

/// The number that is read at an offset is the one whose bytes stand there.
pub fn numbers_mean()
    ensures two { (front rest : List ℕ) (n : ℕ) → n < 2 ^ 16
        → u2_at (front ++ (u2 n ++ rest)) (length front) ≡ n }
    ensures four { (front rest : List ℕ) (n : ℕ) → n < 2 ^ 32
        → u4_at (front ++ (u4 n ++ rest)) (length front) ≡ n }
{}

/// An instruction without operands takes one byte, and a call of a method by its class three (JVMS
/// 6.5): they have one form alone.
pub fn forms_take()
    ensures simple { (code : List ℕ) (at opcode end : ℕ) →
        form_at code at ≡ Ok (instr.Simple opcode, end) → end ≡ at + 1 }
    ensures invoke { (code : List ℕ) (at opcode index end : ℕ) →
        form_at code at ≡ Ok (instr.Invoke opcode index, end) → end ≡ at + 3 }
{}
