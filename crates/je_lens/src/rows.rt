//! The rows of the tables of code, by the offsets of instructions.

use crate::code_parts::MethodFault;
use crate::listing::offset_of;
use crate::methods::shown;
use je_base::{Memory, Run};
use je_code::{CodeAttr, LineRow, VarRow, read_code};
use je_consts::Consts;
use std::alloc::Global;

/// A line for each row of a LineNumberTable.
fn put_lines(text: &mut String, rows: &[LineRow], offsets: &[u32]) -> Result<(), Memory> {
    for row in rows {
        let start = offset_of(offsets, row.start);
        let line = row.line;
        writeln!(text, "line {start} {line}")?;
    }
    Ok(())
}

/// A line for each row of a table of variables, behind a word.
fn put_vars(
    alloc: Global,
    text: &mut String,
    word: &str,
    rows: &[VarRow],
    offsets: &[u32],
    consts: &Consts,
) -> Result<(), Memory> {
    for row in rows {
        let start = offset_of(offsets, row.start);
        let length = offset_of(offsets, row.end).saturating_sub(start);
        let name = shown(alloc, consts, row.name)?;
        let sig = shown(alloc, consts, row.sig)?;
        let slot = row.slot;
        writeln!(text, "{word} {start} {length} {slot} {name} {sig}")?;
    }
    Ok(())
}

/// The lines of the rows of all tables.
fn put_tables(
    alloc: Global,
    text: &mut String,
    code: &CodeAttr,
    consts: &Consts,
) -> Result<(), Memory> {
    let offsets = code.decoded.offsets.as_slice();
    put_lines(text, code.lines.as_slice(), offsets)?;
    put_vars(
        alloc,
        text,
        "variable",
        code.vars.as_slice(),
        offsets,
        consts,
    )?;
    put_vars(
        alloc,
        text,
        "type",
        code.var_types.as_slice(),
        offsets,
        consts,
    )
}

/// The lines of the rows of the content of a Code attribute, or its fault.
pub fn put_rows(
    alloc: Global,
    text: &mut String,
    info: &Run,
    consts: &Consts,
) -> Result<(), MethodFault> {
    let code = read_code(alloc, info, consts)?;
    Ok(put_tables(alloc, text, &code, consts)?)
}
