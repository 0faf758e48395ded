//! Numbers and runs of bytes of a Code attribute, read at offsets.

ghost use Rattle.std.specs.Prelude.{◌≡◌, ◌≤◌, ◌↔◌, length, IfOk, IsTrue};
ghost use Rattle.je_code.specs.Code.{IsCodeLength, Passes};
ghost use Rattle.je_code.specs.Reading.{Reads, ReadsRun};
ghost use Rattle.je_code.specs.Reading.{number_parts, count_parts, code_length_parts};
ghost use Rattle.je_code.specs.Reading.{bytecode_parts};

use je_base::{Cut, Run, run_at, u16_at, u32_at};
use je_instr::CodeFault;

/// The most bytes that the code of a method has (JVMS 4.7.3).
const MOST_CODE: u32 = 65535;

/// The number of two bytes at an offset, and the offset after it.
pub(crate) fn number_at(bytes: &Run, at: usize) -> Result<(u16, usize), CodeFault>
    ensures number { Reads (λ x. x) bytes.now at number_parts result }
    ensures within { IfOk result (λ x. x.1 ≤ length bytes.now) }
{
    match u16_at(bytes.as_slice(), at) {
        Ok((number, end)) => Ok((number, end)),
        Err(Cut(at)) => Err(CodeFault::BadLayout(at)),
    }
}

/// The count of four bytes at an offset, and the offset after it.
pub(crate) fn count_at(bytes: &Run, at: usize) -> Result<(u32, usize), CodeFault>
    ensures number { Reads (λ x. x) bytes.now at count_parts result }
    ensures within { IfOk result (λ x. x.1 ≤ length bytes.now) }
{
    match u32_at(bytes.as_slice(), at) {
        Ok((number, end)) => Ok((number, end)),
        Err(Cut(at)) => Err(CodeFault::BadLayout(at)),
    }
}

/// Whether code may have so many bytes.
fn is_code_length(length: u32) -> bool
    ensures { IsTrue result ↔ Passes (IsCodeLength length) }
{
    (1..=MOST_CODE).contains(&length)
}

/// How many bytes the code has, and the offset after that.
fn code_length_at(bytes: &Run, at: usize) -> Result<(u32, usize), CodeFault>
    ensures number { Reads (λ x. x) bytes.now at code_length_parts result }
    ensures within { IfOk result (λ x. x.1 ≤ length bytes.now) }
{
    let (number, end) = count_at(bytes, at)?;
    if !is_code_length(number) {
        return Err(CodeFault::BadLayout(at));
    }
    Ok((number, end))
}

/// So many bytes at an offset, which are not copied, and the offset after them.
pub(crate) fn part_at(bytes: &Run, at: usize, len: u32) -> Result<(Run, usize), CodeFault>
    requires { at ≤ length bytes.now }
    ensures { ReadsRun (λ x. x) bytes.now at len result }
{
    match run_at(bytes.as_slice(), at, len as usize) {
        Ok((_, end)) => {
            let run = bytes.part(at, end)?;
            Ok((run, end))
        }
        Err(Cut(at)) => Err(CodeFault::BadLayout(at)),
    }
}

/// The code behind its length, and the offset after it.
pub(crate) fn bytecode_at(bytes: &Run, at: usize) -> Result<(Run, usize), CodeFault>
    ensures { Reads (λ x. x) bytes.now at bytecode_parts result }
{
    let (len, at) = code_length_at(bytes, at)?;
    part_at(bytes, at, len)
}
