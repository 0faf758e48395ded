//! The tables of a Code attribute, found by their names (JVMS 4.7.4 and 4.7.12 to 4.7.14).

ghost use Rattle.std.specs.Prelude.{◌≡◌, List, false, IfOk, IfSome, IfNone};
ghost use Rattle.std.specs.Option.{option_copied, option_map, option_map_or};
ghost use Rattle.je_base.specs.Parts.{AreOneLayout};
ghost use Rattle.je_base.specs.Text.{is_same_text};
ghost use Rattle.je_consts.specs.Pool.{text_at};
ghost use Rattle.je_code.specs.Code.{AttributeInfo};
ghost use Rattle.je_code.specs.CodeAttr.{ReadsLines, ReadsVars};
ghost use Rattle.je_code.specs.Reading.{IsRising};
ghost use Rattle.je_code.specs.Tables.{IsTable, first_named, line_number_table, stack_map_table};

use crate::indexes::{line_rows, var_rows};
use crate::info::AttributeInfo;
use crate::laws::one_code_way;
use crate::names::{LINE_NUMBER_TABLE, STACK_MAP_TABLE};
use crate::rows::{LineRow, VarRow};
use crate::structures::{Structure, table_at};
use je_base::{Memory, Run};
use je_consts::{ConstIndex, Consts};
use je_instr::CodeFault;
use std::alloc::Global;

/// Whether the constant of an index is this text.
fn is_named(consts: &Consts, index: ConstIndex, name: &[u8]) -> bool
    ensures { result ≡ option_map_or (is_same_text name.now) (text_at consts.now index) false }
{
    match consts.text(index) {
        Some(text) => name == text.bytes(),
        None => false,
    }
}

/// The first attribute of a name.
fn first_named<'a>(
    consts: &Consts,
    name: &[u8],
    attributes: &'a [AttributeInfo],
) -> Option<&'a AttributeInfo>
    ensures { option_copied result ≡ first_named consts.now name.now attributes.now }
{
    attributes
        .iter()
        .find(|attribute| is_named(consts, attribute.name, name))
}

/// The entries of the table that all of the bytes are, where they are one.
fn table_of<S: Structure>(alloc: Global, bytes: &Run) -> Result<Option<Vec<S>>, Memory>
    requires { (x y : S) → AreOneLayout (S.parts x) (S.parts y) }
    ensures some { IfOk result (λ o. IfSome o (λ v. IsTable S.parts bytes.now v.items)) }
    ensures none { IfOk result (λ o. IfNone o ((others : List S) →
        IsTable S.parts bytes.now others → ⊥)) }
{
    // The law that the proof stands on.
    one_code_way();

    match table_at::<S>(alloc, bytes, 0) {
        Ok((entries, end)) => {
            if end < bytes.len() {
                return Ok(None);
            }
            Ok(Some(entries))
        }
        Err(fault) => match fault {
            CodeFault::Memory => Err(Memory),
            _ => Ok(None),
        },
    }
}

/// The rows of the first LineNumberTable.
pub(crate) fn lines_of(
    alloc: Global,
    consts: &Consts,
    attributes: &[AttributeInfo],
    offsets: &[u32],
) -> Result<Vec<LineRow>, Memory>
    requires { IsRising offsets.now }
    ensures { IfOk result (λ v.
        ReadsLines (first_named consts.now line_number_table attributes.now) offsets.now v.items) }
{
    let Some(attribute) = first_named(consts, LINE_NUMBER_TABLE, attributes) else {
        return Ok(Vec::new(alloc));
    };
    let Some(infos) = table_of(alloc, &attribute.bytes)? else {
        return Ok(Vec::new(alloc));
    };
    line_rows(alloc, offsets, &infos)
}

/// The rows of the first table of local variables of a name.
pub(crate) fn vars_of(
    alloc: Global,
    consts: &Consts,
    name: &[u8],
    attributes: &[AttributeInfo],
    offsets: &[u32],
) -> Result<Vec<VarRow>, Memory>
    requires { IsRising offsets.now }
    ensures { IfOk result (λ v.
        ReadsVars (first_named consts.now name.now attributes.now) offsets.now v.items) }
{
    let Some(attribute) = first_named(consts, name, attributes) else {
        return Ok(Vec::new(alloc));
    };
    let Some(infos) = table_of(alloc, &attribute.bytes)? else {
        return Ok(Vec::new(alloc));
    };
    var_rows(alloc, offsets, &infos)
}

/// The bytes of the first StackMapTable, which are not copied.
pub(crate) fn map_of(consts: &Consts, attributes: &[AttributeInfo]) -> Result<Option<Run>, Memory>
    ensures { IfOk result (λ map. map ≡ option_map (λ (a : AttributeInfo). a.bytes)
        (first_named consts.now stack_map_table attributes.now)) }
{
    match first_named(consts, STACK_MAP_TABLE, attributes) {
        Some(attribute) => Ok(Some(attribute.bytes.copy()?)),
        None => Ok(None),
    }
}
