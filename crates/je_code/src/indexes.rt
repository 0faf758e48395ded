//! Rows at the indexes of instructions, in the place of their offsets.

ghost use Rattle.std.specs.Prelude.{◌≡◌, true, false, IfOk, IfSome, IfNone};
ghost use Rattle.je_code.specs.Reading.{IsRising};
ghost use Rattle.je_code.specs.Rows.{is_offset, index_at, is_line, is_var};
ghost use Rattle.je_code.specs.Rows.{line_row, var_row, line_rows, var_rows};

use crate::info::{LineInfo, VarInfo};
use crate::rows::{LineRow, VarRow};
use je_base::Memory;
use je_instr::InstrIndex;
use std::alloc::Global;

/// The index of the instruction at an offset, or of the end; `None` where none begins there.
fn index_of(offsets: &[u32], offset: u32) -> Option<InstrIndex>
    requires { IsRising offsets.now }
    ensures is { IfSome result (λ _. is_offset offsets.now offset ≡ true) }
    ensures index { IfSome result (λ i. i ≡ index_at offsets.now offset) }
    ensures none { IfNone result (is_offset offsets.now offset ≡ false) }
{
    match offsets.binary_search(&offset) {
        Ok(index) => Some(index as u32),
        Err(_) => None,
    }
}

/// The row of an entry, where it stands at an instruction or the end.
fn line_of(offsets: &[u32], info: LineInfo) -> Option<LineRow>
    requires { IsRising offsets.now }
    ensures is { IfSome result (λ _. is_line offsets.now info ≡ true) }
    ensures row { IfSome result (λ row. row ≡ line_row offsets.now info) }
    ensures none { IfNone result (is_line offsets.now info ≡ false) }
{
    let start = index_of(offsets, info.start_pc as u32)?;
    Some(LineRow {
        start,
        line: info.line_number,
    })
}

/// The row of an entry, where its range begins and ends at an instruction or the end.
fn var_of(offsets: &[u32], info: VarInfo) -> Option<VarRow>
    requires { IsRising offsets.now }
    ensures is { IfSome result (λ _. is_var offsets.now info ≡ true) }
    ensures row { IfSome result (λ row. row ≡ var_row offsets.now info) }
    ensures none { IfNone result (is_var offsets.now info ≡ false) }
{
    let start = index_of(offsets, info.start_pc as u32)?;
    let end = index_of(offsets, info.start_pc as u32 + info.length as u32)?;
    Some(VarRow {
        start,
        end,
        name: info.name_index,
        sig: info.signature_index,
        slot: info.index,
    })
}

/// The rows that stand where an instruction begins or the code ends.
pub(crate) fn line_rows(
    alloc: Global,
    offsets: &[u32],
    infos: &[LineInfo],
) -> Result<Vec<LineRow>, Memory>
    requires { IsRising offsets.now }
    ensures { IfOk result (λ v. v.items ≡ line_rows offsets.now infos.now) }
{
    let mut rows = Vec::new(alloc);
    for info in infos {
        if let Some(row) = line_of(offsets, *info) {
            rows.push(row)?;
        }
    }
    Ok(rows)
}

/// The rows whose range begins and ends where an instruction begins or the code ends.
pub(crate) fn var_rows(
    alloc: Global,
    offsets: &[u32],
    infos: &[VarInfo],
) -> Result<Vec<VarRow>, Memory>
    requires { IsRising offsets.now }
    ensures { IfOk result (λ v. v.items ≡ var_rows offsets.now infos.now) }
{
    let mut rows = Vec::new(alloc);
    for info in infos {
        if let Some(row) = var_of(offsets, *info) {
            rows.push(row)?;
        }
    }
    Ok(rows)
}
