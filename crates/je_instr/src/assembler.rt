//! From programs to bytes (JVMS 4.7.3 and 6.5).

ghost use Rattle.std.specs.Prelude.{◌≡◌, ◌-◌, ◌<◌, ◌⊎◌, List, length, map, IfOk, IfErr};
ghost use Rattle.std.specs.Prelude.{MatchResult};
ghost use Rattle.std.specs.List.{AllByRecursion};
ghost use Rattle.je_consts.specs.declared.place.Place.{Place};
ghost use Rattle.je_instr.specs.declared.assembled.SizeFault.{SizeFault};
ghost use Rattle.je_instr.specs.Assembling.{IsProgram, IsWithinProgram, AllowsProgram, raw_handler};
ghost use Rattle.je_instr.specs.Assembling.{IsAssembled, IsSizeFault, placed};
ghost use Rattle.je_instr.specs.Decoding.{Decodes};
ghost use Rattle.je_instr.specs.Offsets.{AreShort};

use crate::assembled::{Assembled, SizeFault};
use crate::layout::{offsets_of, total_size};
use crate::near::first_far;
use crate::program::{Handler, Program, RawHandler};
use crate::shortest::put_all;
use je_base::Memory;
use sqlite_items::Items;
use std::alloc::Global;

/// The greatest number of bytes that code has (JVMS 4.7.3).
const MOST_BYTES: u32 = 65535;

/// The entry with the offsets of its instructions.
fn raw_handler(offsets: &[u32], handler: &Handler) -> RawHandler
    requires within { IsWithinProgram (length offsets.now - 1) handler.now }
    requires short { AreShort offsets.now }
    ensures { result ≡ raw_handler offsets.now handler.now }
{
    RawHandler {
        start: offsets[handler.start as usize] as u16,
        end: offsets[handler.end as usize] as u16,
        target: offsets[handler.target as usize] as u16,
        catch_const: handler.catch_const,
    }
}

/// The exception table with the offsets of its instructions.
fn raw_handlers(
    alloc: Global,
    offsets: &[u32],
    handlers: &[Handler],
) -> Result<Vec<RawHandler>, Memory>
    requires within { AllByRecursion (IsWithinProgram (length offsets.now - 1)) handlers.now }
    requires short { AreShort offsets.now }
    ensures { IfOk result (λ v. v.items ≡ map (raw_handler offsets.now) handlers.now) }
{
    let mut table = Vec::new(alloc);
    let mut rest = handlers;
    while let Some((handler, tail)) = rest.split_first() {
        table.push(raw_handler(offsets, handler))?;
        rest = tail;
    }
    Ok(table)
}

/// The code and the exception table of a program, each instruction in its shortest form. Jumps
/// have distances of two bytes, and zeros stand before the operands of switches.
///
/// # Errors
///
/// `CodeTooLong(n)`: the code would have `n` bytes, which are more than 65,535; where they are more
/// than a `u32` holds, `n` is the greatest. Else `JumpTooFar(i)`: the instruction of index `i`, and
/// none before it, jumps by more than a number of two bytes says. `Memory`: there was not enough
/// memory.
pub fn assemble(alloc: Global, p: &Program) -> Result<Assembled, SizeFault>
    requires { IsProgram p.now }

    // What is assembled are the shortest forms, at their offsets.
    ensures shortest { IfOk result (λ a. IsAssembled p.now a) }

    // It is decoded to the program at these offsets, wherever the constants allow its operands.
    ensures spelled { IfOk result (λ a. (consts : List Place) → AllowsProgram consts p.now
        → Decodes consts a.code a.table (placed p.now a)) }

    // A fault is the one that the program has, and comes wherever it has one, unless memory runs
    // out.
    ensures fault { IfErr result (λ e. (e ≡ SizeFault.Memory) ⊎ IsSizeFault p.now e) }
    ensures only { (f : SizeFault) → IsSizeFault p.now f
        → MatchResult result (λ _. ⊥) (λ e. (e ≡ f) ⊎ (e ≡ SizeFault.Memory)) }
{
    let instrs = p.instrs.as_slice();
    let size = total_size(instrs);
    if size > MOST_BYTES {
        return Err(SizeFault::CodeTooLong(size));
    }
    let offsets = offsets_of(alloc, instrs)?;
    if let Some(index) = first_far(&offsets, instrs) {
        return Err(SizeFault::JumpTooFar(index));
    }
    let mut code = Vec::new(alloc);
    put_all(&mut code, &offsets, instrs)?;
    let table = raw_handlers(alloc, &offsets, p.handlers.as_slice())?;
    Ok(Assembled {
        code: Items::from_vec(code),
        table: Items::from_vec(table),
        offsets: Items::from_vec(offsets),
    })
}
