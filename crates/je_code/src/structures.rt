//! The structures of a Code attribute, each read at an offset (JVMS 4.7.3, 4.7.12 and 4.7.13).

ghost use Rattle.std.specs.Prelude.{◌≡◌, List};
ghost use Rattle.je_base.specs.Parts.{table_parts};
ghost use Rattle.je_code.specs.Code.{Part, handler_parts, attribute_parts};
ghost use Rattle.je_code.specs.Reading.{Reads};
ghost use Rattle.je_code.specs.Rows.{line_parts, var_parts};

use crate::info::{AttributeInfo, LineInfo, VarInfo};
use crate::numbers::{count_at, number_at, part_at};
use je_base::Run;
use je_instr::{CodeFault, RawHandler};
use std::alloc::Global;

/// A structure that is a row of parts.
pub(crate) trait Structure: Drop {
    ghost parts: { Self → List Part };

    /// The structure at an offset, and the offset after it.
    fn read_at(bytes: &Run, at: usize) -> Result<(Self, usize), CodeFault>
        ensures { Reads (λ x. x) bytes.now at parts result };
}

impl Structure for RawHandler {
    ghost parts = { handler_parts };

    fn read_at(bytes: &Run, at: usize) -> Result<(RawHandler, usize), CodeFault> {
        let (start, at) = number_at(bytes, at)?;
        let (end, at) = number_at(bytes, at)?;
        let (target, at) = number_at(bytes, at)?;
        let (catch_const, at) = number_at(bytes, at)?;
        let handler = RawHandler {
            start,
            end,
            target,
            catch_const,
        };
        Ok((handler, at))
    }
}

impl Structure for AttributeInfo {
    ghost parts = { attribute_parts };

    fn read_at(bytes: &Run, at: usize) -> Result<(AttributeInfo, usize), CodeFault> {
        let (name, at) = number_at(bytes, at)?;
        let (len, at) = count_at(bytes, at)?;
        let (bytes, at) = part_at(bytes, at, len)?;
        Ok((AttributeInfo { name, bytes }, at))
    }
}

impl Structure for LineInfo {
    ghost parts = { line_parts };

    fn read_at(bytes: &Run, at: usize) -> Result<(LineInfo, usize), CodeFault> {
        let (start_pc, at) = number_at(bytes, at)?;
        let (line_number, at) = number_at(bytes, at)?;
        let info = LineInfo {
            start_pc,
            line_number,
        };
        Ok((info, at))
    }
}

impl Structure for VarInfo {
    ghost parts = { var_parts };

    fn read_at(bytes: &Run, at: usize) -> Result<(VarInfo, usize), CodeFault> {
        let (start_pc, at) = number_at(bytes, at)?;
        let (length, at) = number_at(bytes, at)?;
        let (name_index, at) = number_at(bytes, at)?;
        let (signature_index, at) = number_at(bytes, at)?;
        let (index, at) = number_at(bytes, at)?;
        let info = VarInfo {
            start_pc,
            length,
            name_index,
            signature_index,
            index,
        };
        Ok((info, at))
    }
}

/// A count of two bytes and that many structures, and the offset after them.
pub(crate) fn table_at<S: Structure>(
    alloc: Global,
    bytes: &Run,
    at: usize,
) -> Result<(Vec<S>, usize), CodeFault>
    ensures { Reads (λ x. (x.0.items, x.1)) bytes.now at (table_parts S.parts) result }
{
    let (count, start) = number_at(bytes, at)?;
    let mut structures = Vec::new(alloc);
    let mut next = start;
    for _ in 0..count {
        let (structure, after) = S::read_at(bytes, next)?;
        structures.push(structure)?;
        next = after;
    }
    Ok((structures, next))
}
