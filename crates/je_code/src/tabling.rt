//! Tables of rows as bytes (JVMS 4.7.12 to 4.7.14).

ghost use Rattle.std.specs.Prelude.{◌≡◌, ◌-◌, ◌<◌, ◌≤◌, ◌++◌, length, IfOk, OnOk};
ghost use Rattle.std.specs.List.{AllByRecursion};
ghost use Rattle.je_code.specs.Code.{spelled, IsSound};
ghost use Rattle.je_code.specs.Moved.{IsLineInside, IsVarInside};
ghost use Rattle.je_code.specs.Rows.{line_info, line_parts, var_info, var_parts};
ghost use Rattle.je_code.specs.Writing.{AreShort, line_table, var_table};

use crate::info::{LineInfo, VarInfo};
use crate::rows::{LineRow, VarRow};
use je_base::{Memory, put_u16};
use std::alloc::Global;

/// The bytes of the count of a table.
const COUNT_BYTES: usize = 2;

/// The bytes of a row of a LineNumberTable.
const LINE_BYTES: usize = 4;

/// The bytes of a row of a LocalVariableTable or LocalVariableTypeTable.
const VAR_BYTES: usize = 10;

/// The row at the offset of its instruction.
fn line_info(offsets: &[u32], row: &LineRow) -> LineInfo
    requires inside { row.now.start < length offsets.now }
    requires short { AreShort offsets.now }
    ensures { result ≡ line_info offsets.now row.now }
{
    LineInfo {
        start_pc: offsets[row.start as usize] as u16,
        line_number: row.line,
    }
}

fn put_line(out: &mut Vec<u8>, info: LineInfo) -> Result<(), Memory>
    ensures bytes { OnOk result (out.new.items ≡ out.old.items ++ spelled (line_parts info)) }
    ensures sound { IsSound (line_parts info) }
{
    put_u16(out, info.start_pc)?;
    put_u16(out, info.line_number)
}

/// The bytes of a LineNumberTable of these rows, at the offsets of their instructions.
pub(crate) fn line_table(
    alloc: Global,
    offsets: &[u32],
    rows: &[LineRow],
) -> Result<Vec<u8>, Memory>
    requires inside { AllByRecursion (IsLineInside (length offsets.now - 1)) rows.now }
    requires short { AreShort offsets.now }
    requires count { length rows.now ≤ 65535 }
    ensures bytes { IfOk result (λ v. v.items ≡ spelled (line_table offsets.now rows.now)) }
    ensures sound { OnOk result (IsSound (line_table offsets.now rows.now)) }
{
    let mut out = Vec::with_capacity(alloc, COUNT_BYTES + LINE_BYTES * rows.len())?;
    put_u16(&mut out, rows.len() as u16)?;
    let mut rest = rows;
    while let Some((row, tail)) = rest.split_first() {
        put_line(&mut out, line_info(offsets, row))?;
        rest = tail;
    }
    Ok(out)
}

/// The row at the offsets of its instructions.
fn var_info(offsets: &[u32], row: &VarRow) -> VarInfo
    requires inside { IsVarInside (length offsets.now - 1) row.now }
    requires short { AreShort offsets.now }
    ensures { result ≡ var_info offsets.now row.now }
{
    let start = offsets[row.start as usize];
    let end = offsets[row.end as usize];
    VarInfo {
        start_pc: start as u16,
        length: end.saturating_sub(start) as u16,
        name_index: row.name,
        signature_index: row.sig,
        index: row.slot,
    }
}

fn put_var(out: &mut Vec<u8>, info: VarInfo) -> Result<(), Memory>
    ensures bytes { OnOk result (out.new.items ≡ out.old.items ++ spelled (var_parts info)) }
    ensures sound { IsSound (var_parts info) }
{
    put_u16(out, info.start_pc)?;
    put_u16(out, info.length)?;
    put_u16(out, info.name_index)?;
    put_u16(out, info.signature_index)?;
    put_u16(out, info.index)
}

/// The bytes of a LocalVariableTable or LocalVariableTypeTable of these rows, at the offsets of
/// their instructions.
pub(crate) fn var_table(alloc: Global, offsets: &[u32], rows: &[VarRow]) -> Result<Vec<u8>, Memory>
    requires inside { AllByRecursion (IsVarInside (length offsets.now - 1)) rows.now }
    requires short { AreShort offsets.now }
    requires count { length rows.now ≤ 65535 }
    ensures bytes { IfOk result (λ v. v.items ≡ spelled (var_table offsets.now rows.now)) }
    ensures sound { OnOk result (IsSound (var_table offsets.now rows.now)) }
{
    let mut out = Vec::with_capacity(alloc, COUNT_BYTES + VAR_BYTES * rows.len())?;
    put_u16(&mut out, rows.len() as u16)?;
    let mut rest = rows;
    while let Some((row, tail)) = rest.split_first() {
        put_var(&mut out, var_info(offsets, row))?;
        rest = tail;
    }
    Ok(out)
}
