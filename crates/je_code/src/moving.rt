//! The rows of tables whose instructions move.

ghost use Rattle.std.specs.Prelude.{◌≡◌, ◌<◌, length, slice_index, IfOk};
ghost use Rattle.std.specs.List.{AllByRecursion};
ghost use Rattle.je_code.specs.CodeAttr.{HasRowsWithin};
ghost use Rattle.je_code.specs.Moved.{line_under, var_under, moved_lines, moved_vars, moved};
ghost use Rattle.je_code.specs.Moved.{IsNewOf, AreInside, HaveCounts};

use crate::attr::CodeAttr;
use crate::rows::{LineRow, Tables, VarRow};
use je_base::Memory;
use je_instr::InstrIndex;
use sqlite_items::Items;
use std::alloc::Global;

/// The row at the new index of its instruction.
fn line_under(new_of: &[InstrIndex], row: &LineRow) -> LineRow
    requires { row.now.start < length new_of.now }
    ensures { result ≡ line_under (slice_index new_of.now) row.now }
{
    LineRow {
        start: new_of[row.start as usize],
        line: row.line,
    }
}

/// The row at the new indexes of its instructions.
fn var_under(new_of: &[InstrIndex], row: &VarRow) -> VarRow
    requires start { row.now.start < length new_of.now }
    requires end { row.now.end < length new_of.now }
    ensures { result ≡ var_under (slice_index new_of.now) row.now }
{
    VarRow {
        start: new_of[row.start as usize],
        end: new_of[row.end as usize],
        name: row.name,
        sig: row.sig,
        slot: row.slot,
    }
}

/// The rows at their new indexes, but for those at the end.
fn moved_lines(
    alloc: Global,
    rows: &[LineRow],
    new_of: &[InstrIndex],
    count: u32,
) -> Result<Items<LineRow>, Memory>
    requires { AllByRecursion (λ row. row.start < length new_of.now) rows.now }
    ensures { IfOk result (λ t. t ≡ moved_lines (slice_index new_of.now) count rows.now) }
{
    let mut moved = Vec::with_capacity(alloc, rows.len())?;
    let mut rest = rows;
    while let Some((row, tail)) = rest.split_first() {
        let row = line_under(new_of, row);
        if row.start < count {
            moved.push(row)?;
        }
        rest = tail;
    }
    Ok(Items::from_vec(moved))
}

/// The rows at their new indexes, but for those that become empty.
fn moved_vars(
    alloc: Global,
    rows: &[VarRow],
    new_of: &[InstrIndex],
    count: u32,
) -> Result<Items<VarRow>, Memory>
    requires { AllByRecursion (λ row. (row.start < length new_of.now)
        × (row.end < length new_of.now)) rows.now }
    ensures { IfOk result (λ t. t ≡ moved_vars (slice_index new_of.now) count rows.now) }
{
    let mut moved = Vec::with_capacity(alloc, rows.len())?;
    let mut rest = rows;
    while let Some((row, tail)) = rest.split_first() {
        let row = var_under(new_of, row);
        if row.start < row.end && row.start < count {
            moved.push(row)?;
        }
        rest = tail;
    }
    Ok(Items::from_vec(moved))
}

/// The rows of a Code's tables where its instructions move to these new indexes, in code of so many
/// instructions. A row that becomes empty or stands at the end is left out.
///
/// # Errors
///
/// `Memory`: there was not enough memory.
pub fn map_tables(
    alloc: Global,
    code: &CodeAttr,
    new_of: &[InstrIndex],
    count: u32,
) -> Result<Tables, Memory>
    requires rows { HasRowsWithin code.now }
    requires new_of { IsNewOf (length code.now.decoded.program.instrs) count new_of.now }
    ensures moved { IfOk result (λ t. t ≡ moved (slice_index new_of.now) count code.now) }

    // They can be written for code of so many instructions.
    ensures inside { IfOk result (AreInside count) }
    ensures few { IfOk result HaveCounts }
{
    let lines = moved_lines(alloc, code.lines.as_slice(), new_of, count)?;
    let vars = moved_vars(alloc, code.vars.as_slice(), new_of, count)?;
    let var_types = moved_vars(alloc, code.var_types.as_slice(), new_of, count)?;
    Ok(Tables {
        lines,
        vars,
        var_types,
    })
}
