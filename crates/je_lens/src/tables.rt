//! Code with its tables, which is read, moved to where it is, written, and read again.

ghost use Rattle.std.specs.Prelude.{IfOk};
ghost use Rattle.je_code.specs.CodeAttr.{HasRowsWithin};
ghost use Rattle.je_code.specs.Moved.{IsNewOf};
ghost use Rattle.je_instr.specs.Assembling.{IsProgram};

use crate::code_parts::MethodFault;
use crate::same::is_same_program;
use crate::verdict::Verdict;
use je_base::{Memory, Run};
use je_code::{CodeAttr, LineRow, VarRow, map_tables, read_code, write_code};
use je_consts::{Consts, PoolStop};
use je_instr::{CodeFault, InstrIndex, SizeFault, assemble, assembled_offsets, decoded_again};
use std::alloc::Global;

/// The most bytes of code, and the most entries of a table (JVMS 4.7.3).
const MOST: usize = 65535;

/// Each index of so many instructions, and that of the end, as its own new index.
fn each_index(alloc: Global, count: u32) -> Result<Vec<InstrIndex>, Memory>
    ensures { IfOk result (λ v. IsNewOf count count v.items) }
{
    let mut indexes = Vec::new(alloc);
    for index in 0..count {
        indexes.push(index)?;
    }
    indexes.push(count)?;
    Ok(indexes)
}

/// What the code is written as, with each instruction where it is; or `None` where it is not
/// written.
fn written(alloc: Global, code: &CodeAttr, consts: &mut Consts) -> Result<Option<Vec<u8>>, Memory>
    requires rows { HasRowsWithin code.now }
    requires program { IsProgram code.now.decoded.program }
{
    // The law of the layer below that the proof stands on.
    assembled_offsets();

    let Ok(count) = u32::try_from(code.decoded.program.instrs.len()) else {
        return Ok(None);
    };
    let found = match assemble(alloc, &code.decoded.program) {
        Ok(found) => found,
        Err(SizeFault::Memory) => return Err(Memory),
        Err(_) => return Ok(None),
    };
    if found.code.is_empty() || found.code.len() > MOST || found.table.len() > MOST {
        return Ok(None);
    }
    let new_of = each_index(alloc, count)?;
    let tables = map_tables(alloc, code, &new_of, count)?;
    let map = match &code.map {
        Some(bytes) => Some(bytes.as_slice()),
        None => None,
    };
    match write_code(
        alloc,
        &found,
        code.max_stack,
        code.max_locals,
        &tables,
        map,
        consts,
    ) {
        Ok(bytes) => Ok(Some(bytes)),
        Err(PoolStop::Memory) => Err(Memory),
        Err(PoolStop::Full(_)) => Ok(None),
    }
}

/// Whether the new rows are the old ones but for those at the end of so many instructions.
fn are_same_lines(old: &[LineRow], new: &[LineRow], count: usize) -> bool {
    let mut rest = new;
    for row in old {
        if (row.start as usize) < count {
            match rest.split_first() {
                Some((other, tail)) if other == row => rest = tail,
                _ => return false,
            }
        }
    }
    rest.is_empty()
}

/// Whether the new rows are the old ones but for those that are empty.
fn are_same_vars(old: &[VarRow], new: &[VarRow]) -> bool {
    let mut rest = new;
    for row in old {
        if row.start < row.end {
            match rest.split_first() {
                Some((other, tail)) if other == row => rest = tail,
                _ => return false,
            }
        }
    }
    rest.is_empty()
}

/// Whether two StackMapTables have the same bytes, or neither is there.
fn is_same_map(old: &Option<Run>, new: &Option<Run>) -> bool {
    match (old, new) {
        (Some(old), Some(new)) => old.as_slice() == new.as_slice(),
        (None, None) => true,
        _ => false,
    }
}

/// Whether the new code is the old one, but for rows that cannot be written.
fn is_same_code(old: &CodeAttr, new: &CodeAttr) -> bool {
    let count = old.decoded.program.instrs.len();
    old.max_stack == new.max_stack
        && old.max_locals == new.max_locals
        && is_same_program(&old.decoded.program, &new.decoded.program)
        && are_same_lines(old.lines.as_slice(), new.lines.as_slice(), count)
        && are_same_vars(old.vars.as_slice(), new.vars.as_slice())
        && are_same_vars(old.var_types.as_slice(), new.var_types.as_slice())
        && is_same_map(&old.map, &new.map)
}

/// What becomes of the content of a Code attribute.
pub fn verdict_of_tables(
    alloc: Global,
    info: &Run,
    consts: &mut Consts,
) -> Result<Verdict, Memory> {
    // The law of the layer below that the proof stands on.
    decoded_again();

    let code = match read_code(alloc, info, consts) {
        Ok(code) => code,
        Err(CodeFault::Memory) => return Err(Memory),
        Err(fault) => return Ok(Verdict::Refused(MethodFault::from(fault))),
    };
    let Some(bytes) = written(alloc, &code, consts)? else {
        return Ok(Verdict::Differs);
    };
    match read_code(alloc, &Run::of_vec(alloc, bytes)?, consts) {
        Ok(again) if is_same_code(&code, &again) => Ok(Verdict::Same),
        Err(CodeFault::Memory) => Err(Memory),
        _ => Ok(Verdict::Differs),
    }
}
