//! The parts of a Code attribute (JVMS 4.7.3), as far as its exception table, and its program.

ghost use Rattle.std.specs.Prelude.{IfOk};
ghost use Rattle.je_instr.specs.Assembling.{IsProgram, AllowsProgram};

use je_base::{Cut, Memory, run_at, u16_at, u32_at};
use je_consts::Consts;
use je_instr::{CodeFault, Decoded, RawHandler, decode, decoded_again};
use std::alloc::{AllocError, AllocFailed, Global};

/// Where the number of the bytes of code stands.
const LENGTH_AT: usize = 4;

/// Code has fewer bytes.
const TOO_LONG: u32 = 65536;

/// Why there is no program.
#[derive(Clone, Copy, Debug, PartialEq, Eq)]
pub enum MethodFault {
    /// The attribute ends within the number or the run of bytes that begins at this offset of its
    /// content, or the number of the bytes of code, which stands at offset 4, is 0 or more than
    /// 65,535.
    BadLayout(usize),
    /// The code and its exception table are no program.
    Code(CodeFault),
    /// There was not enough memory.
    Memory,
}

impl From<Cut> for MethodFault {
    fn from(cut: Cut) -> MethodFault {
        MethodFault::BadLayout(cut.0)
    }
}

impl From<CodeFault> for MethodFault {
    fn from(fault: CodeFault) -> MethodFault {
        match fault {
            CodeFault::Memory => MethodFault::Memory,
            fault => MethodFault::Code(fault),
        }
    }
}

impl From<Memory> for MethodFault {
    fn from(_e: Memory) -> MethodFault {
        MethodFault::Memory
    }
}

impl From<AllocError> for MethodFault {
    fn from(_e: AllocError) -> MethodFault {
        MethodFault::Memory
    }
}

impl<T: Drop> From<AllocFailed<T>> for MethodFault {
    fn from(_e: AllocFailed<T>) -> MethodFault {
        MethodFault::Memory
    }
}

impl MethodFault {
    /// The fault in words; where memory ran out, there are none.
    pub fn words(self, alloc: Global) -> Result<String, Memory> {
        let fault = match self {
            MethodFault::BadLayout(at) => return Ok(format!(in alloc; "bad layout {at}")?),
            MethodFault::Code(fault) => fault,
            MethodFault::Memory => return Err(Memory),
        };
        let words = match fault {
            CodeFault::BadLayout(at) => format!(in alloc; "bad layout {at}")?,
            CodeFault::BadOpcode(at) => format!(in alloc; "bad opcode {at}")?,
            CodeFault::CutShort(at) => format!(in alloc; "cut short {at}")?,
            CodeFault::BadOperand(at) => format!(in alloc; "bad operand {at}")?,
            CodeFault::Jsr(at) => format!(in alloc; "jsr {at}")?,
            CodeFault::BadTarget(at) => format!(in alloc; "bad target {at}")?,
            CodeFault::BadRange(index) => format!(in alloc; "bad range {index}")?,
            CodeFault::Memory => return Err(Memory),
        };
        Ok(words)
    }
}

/// The code of a method and its exception table.
#[derive(Debug, Drop)]
pub struct CodeParts<'a> {
    /// The bytes of the code.
    pub code: &'a [u8],
    /// The exception table.
    pub table: Vec<RawHandler>,
}

/// An entry of the exception table, and the offset after it.
fn entry_at(info: &[u8], at: usize) -> Result<(RawHandler, usize), Cut> {
    let (start, at) = u16_at(info, at)?;
    let (end, at) = u16_at(info, at)?;
    let (target, at) = u16_at(info, at)?;
    let (catch_const, at) = u16_at(info, at)?;
    let entry = RawHandler {
        start,
        end,
        target,
        catch_const,
    };
    Ok((entry, at))
}

/// The code and the exception table of the content of a Code attribute. What stands behind them is
/// not read.
pub fn code_parts(alloc: Global, info: &[u8]) -> Result<CodeParts<'_>, MethodFault> {
    let (_max_stack, at) = u16_at(info, 0)?;
    let (_max_locals, at) = u16_at(info, at)?;
    let (len, at) = u32_at(info, at)?;
    if len == 0 || len >= TOO_LONG {
        return Err(MethodFault::BadLayout(LENGTH_AT));
    }
    let (code, at) = run_at(info, at, len as usize)?;
    let (count, mut at) = u16_at(info, at)?;
    let mut table = Vec::new(alloc);
    for _ in 0..count {
        let (entry, end) = entry_at(info, at)?;
        table.push(entry)?;
        at = end;
    }
    Ok(CodeParts { code, table })
}

/// The program of these parts.
pub fn program_of(alloc: Global, parts: &CodeParts, consts: &Consts) -> Result<Decoded, MethodFault>
    ensures program { IfOk result (λ d. IsProgram d.program) }
    ensures allowed { IfOk result (λ d. AllowsProgram consts.now d.program) }
{
    // The law of the layer below that the proof stands on.
    decoded_again();

    match decode(alloc, parts.code, &parts.table, consts) {
        Ok(decoded) => Ok(decoded),
        Err(fault) => Err(MethodFault::from(fault)),
    }
}
