//! The tables of a Code by their names, in the order in which they are written.

ghost use Rattle.std.specs.Prelude.{◌≡◌, ◌-◌, ◌≤◌, ◌++◌, length, map, IfOk, OnOk, option_map};
ghost use Rattle.std.specs.List.{AllByRecursion};
ghost use Rattle.je_base.specs.Text.{IsModifiedUtf8};
ghost use Rattle.je_code.specs.Code.{IsSound};
ghost use Rattle.je_code.specs.Moved.{IsLineInside, IsVarInside, AreInside, HaveCounts};
ghost use Rattle.je_code.specs.Rows.{line_info, line_parts, var_info, var_parts};
ghost use Rattle.je_code.specs.Tables.{line_number_table};
ghost use Rattle.je_code.specs.Writing.{AreShort, AreSound, line_table, var_table};
ghost use Rattle.je_code.specs.Named.{map_of, table_of, tables_of};

use crate::named::{Named, with_name};
use crate::names::{
    LINE_NUMBER_TABLE, LOCAL_VARIABLE_TABLE, LOCAL_VARIABLE_TYPE_TABLE, STACK_MAP_TABLE,
};
use crate::rows::{LineRow, Tables, VarRow};
use crate::tabling::{line_table, var_table};
use je_base::Memory;
use std::alloc::Global;

/// How many attributes are written at most.
const MOST_TABLES: usize = 4;

/// Puts the LineNumberTable of these rows behind the others, if there are rows.
fn put_lines(
    alloc: Global,
    all: &mut Vec<Named>,
    offsets: &[u32],
    rows: &[LineRow],
) -> Result<(), Memory>
    requires inside { AllByRecursion (IsLineInside (length offsets.now - 1)) rows.now }
    requires short { AreShort offsets.now }
    requires count { length rows.now ≤ 65535 }
    ensures put { OnOk result (all.new.items ≡ all.old.items
        ++ table_of line_number_table line_parts (map (line_info offsets.now) rows.now)) }
    ensures sound { OnOk result (IsSound (line_table offsets.now rows.now)) }
{
    let bytes = line_table(alloc, offsets, rows)?;
    if !rows.is_empty() {
        all.push(with_name(alloc, LINE_NUMBER_TABLE, bytes)?)?;
    }
    Ok(())
}

/// Puts the table of this name of these rows behind the others, if there are rows.
fn put_vars(
    alloc: Global,
    all: &mut Vec<Named>,
    name: &[u8],
    offsets: &[u32],
    rows: &[VarRow],
) -> Result<(), Memory>
    requires name { IsModifiedUtf8 name.now }
    requires inside { AllByRecursion (IsVarInside (length offsets.now - 1)) rows.now }
    requires short { AreShort offsets.now }
    requires count { length rows.now ≤ 65535 }
    ensures put { OnOk result (all.new.items ≡ all.old.items
        ++ table_of name.now var_parts (map (var_info offsets.now) rows.now)) }
    ensures sound { OnOk result (IsSound (var_table offsets.now rows.now)) }
{
    let bytes = var_table(alloc, offsets, rows)?;
    if !rows.is_empty() {
        all.push(with_name(alloc, name, bytes)?)?;
    }
    Ok(())
}

/// Puts the StackMapTable of these bytes behind the others, if there is one.
fn put_map(alloc: Global, all: &mut Vec<Named>, map: Option<&[u8]>) -> Result<(), Memory>
    ensures { OnOk result (all.new.items ≡ all.old.items
        ++ map_of (option_map (λ m. m.now) map.entry)) }
{
    if let Some(bytes) = map {
        let bytes = Vec::from_slice(alloc, bytes)?;
        all.push(with_name(alloc, STACK_MAP_TABLE, bytes)?)?;
    }
    Ok(())
}

/// The tables that have rows, at the offsets of the instructions, and the StackMapTable, if there
/// is one.
pub(crate) fn named_tables(
    alloc: Global,
    offsets: &[u32],
    tables: &Tables,
    map: Option<&[u8]>,
) -> Result<Vec<Named>, Memory>
    requires inside { AreInside (length offsets.now - 1) tables.now }
    requires short { AreShort offsets.now }
    requires counts { HaveCounts tables.now }
    ensures tables { IfOk result (λ v. v.items
        ≡ tables_of offsets.now tables.now ++ map_of (option_map (λ m. m.now) map.entry)) }
    ensures sound { OnOk result (AreSound offsets.now tables.now) }
{
    let mut all = Vec::with_capacity(alloc, MOST_TABLES)?;
    put_lines(alloc, &mut all, offsets, tables.lines.as_slice())?;
    let vars = tables.vars.as_slice();
    put_vars(alloc, &mut all, LOCAL_VARIABLE_TABLE, offsets, vars)?;
    let types = tables.var_types.as_slice();
    put_vars(alloc, &mut all, LOCAL_VARIABLE_TYPE_TABLE, offsets, types)?;
    put_map(alloc, &mut all, map)?;
    Ok(all)
}
