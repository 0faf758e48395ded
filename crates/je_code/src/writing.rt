//! The content of a Code attribute, written (JVMS 4.7.3).

ghost use Rattle.std.specs.Prelude.{◌≡◌, ◌-◌, ◌+◌, ◌≤◌, ◌<◌, ◌⊎◌, ◌++◌, ℕ, List, Option, Some};
ghost use Rattle.std.specs.Prelude.{None, Err, length, vec_len, IfOk, IfErr, OnOk, option_map};
ghost use Rattle.je_base.specs.Bytes.{u2};
ghost use Rattle.je_base.specs.Parts.{table_parts};
ghost use Rattle.je_consts.specs.declared.fault.PoolStop.{PoolStop};
ghost use Rattle.je_consts.specs.declared.place.Place.{Place};
ghost use Rattle.je_consts.specs.Adding.{Keeps};
ghost use Rattle.je_instr.specs.declared.program.Program.{Program};
ghost use Rattle.je_instr.specs.Assembling.{placed};
ghost use Rattle.je_instr.specs.Decoding.{Decodes};
ghost use Rattle.je_code.specs.Code.{spelled, handler_parts, IsSound};
ghost use Rattle.je_code.specs.CodeAttr.{IsCodeAttr};
ghost use Rattle.je_code.specs.Moved.{AreInside};
ghost use Rattle.je_code.specs.Writing.{head_parts};
ghost use Rattle.je_code.specs.Named.{map_of};
ghost use Rattle.je_code.specs.Written.{IsWritten, AddsTexts, CanBeWritten, attr_of};
ghost use Rattle.je_code.specs.Named.{tables_of};
ghost use Rattle.je_code.specs.Written.{names_of};

use crate::named::Named;
use crate::putting::put_attributes;
use crate::rows::Tables;
use crate::tables::named_tables;
use je_base::{Memory, put_u16, put_u32};
use je_consts::{Consts, PoolStop};
use je_instr::{Assembled, RawHandler, assembled_offsets};
use std::alloc::Global;

/// The bytes of the two sizes, the length of the code and the counts of two tables.
const NUMBERS: usize = 12;

/// The bytes of an entry of the exception table.
const HANDLER_BYTES: usize = 8;

/// The bytes of an attribute's name and length.
const INFO_BYTES: usize = 6;

fn put_handler(out: &mut Vec<u8>, handler: &RawHandler) -> Result<(), Memory>
    ensures bytes { OnOk result
        (out.new.items ≡ out.old.items ++ spelled (handler_parts handler.now)) }
    ensures sound { IsSound (handler_parts handler.now) }
{
    let RawHandler {
        start,
        end,
        target,
        catch_const,
    } = *handler;
    put_u16(out, start)?;
    put_u16(out, end)?;
    put_u16(out, target)?;
    put_u16(out, catch_const)
}

/// Puts the exception table behind the code.
fn put_handlers(out: &mut Vec<u8>, table: &[RawHandler]) -> Result<(), Memory>
    requires { length table.now ≤ 65535 }
    ensures bytes { OnOk result
        (out.new.items ≡ out.old.items ++ spelled (table_parts handler_parts table.now)) }
    ensures sound { OnOk result (IsSound (table_parts handler_parts table.now)) }
{
    put_u16(out, table.len() as u16)?;
    let mut rest = table;
    while let Some((handler, tail)) = rest.split_first() {
        put_handler(out, handler)?;
        rest = tail;
    }
    Ok(())
}

/// Puts what stands before the attributes.
fn put_head(out: &mut Vec<u8>, a: &Assembled, max_stack: u16, max_locals: u16) -> Result<(), Memory>
    requires some { 0 < length a.now.code }
    requires short { length a.now.code ≤ 65535 }
    requires handlers { length a.now.table ≤ 65535 }
    ensures bytes { OnOk result (out.new.items ≡ out.old.items
        ++ spelled (head_parts max_stack max_locals a.now.code a.now.table)) }
    ensures sound { OnOk result
        (IsSound (head_parts max_stack max_locals a.now.code a.now.table)) }
{
    let code = a.code.as_slice();
    put_u16(out, max_stack)?;
    put_u16(out, max_locals)?;
    put_u32(out, code.len() as u32)?;
    out.extend_from_slice(code)?;
    put_handlers(out, a.table.as_slice())
}

/// How many bytes a Code has with these attributes, or the greatest number.
fn size_of(a: &Assembled, all: &[Named]) -> usize {
    let mut size = NUMBERS
        .saturating_add(a.code.len())
        .saturating_add(a.table.len().saturating_mul(HANDLER_BYTES));
    for named in all {
        size = size
            .saturating_add(INFO_BYTES)
            .saturating_add(named.bytes.len());
    }
    size
}

/// What stands before the attributes, and their count, with room for them.
fn head_of(
    alloc: Global,
    a: &Assembled,
    max_stack: u16,
    max_locals: u16,
    all: &[Named],
) -> Result<Vec<u8>, Memory>
    requires some { 0 < length a.now.code }
    requires short { length a.now.code ≤ 65535 }
    requires handlers { length a.now.table ≤ 65535 }
    requires few { length all.now ≤ 4 }
    ensures bytes { IfOk result (λ v. v.items
        ≡ spelled (head_parts max_stack max_locals a.now.code a.now.table) ++ u2 (length all.now)) }
    ensures sound { OnOk result
        (IsSound (head_parts max_stack max_locals a.now.code a.now.table)) }
{
    let mut out = Vec::with_capacity(alloc, size_of(a, all))?;
    put_head(&mut out, a, max_stack, max_locals)?;
    put_u16(&mut out, all.len() as u16)?;
    Ok(out)
}

/// The content of a Code attribute of these sizes: the code and the exception table, the tables of
/// rows, each where it has rows, and the StackMapTable, if there is one. Their names are added to
/// the constants.
///
/// # Errors
///
/// `Full`: a name is not there and the pool is full. `Memory`: there was not enough memory, or the
/// StackMapTable has more than 4,294,967,295 bytes. What was added before stands.
pub fn write_code(
    alloc: Global,
    a: &Assembled,
    max_stack: u16,
    max_locals: u16,
    tables: &Tables,
    map: Option<&[u8]>,
    consts: &mut Consts,
) -> Result<Vec<u8>, PoolStop>
    requires written { CanBeWritten a.now tables.now }
    requires rows { AreInside (length a.now.offsets - 1) tables.now }

    // What is written is a Code of these parts, whose tables have their names.
    ensures written { IfOk result (λ v. IsWritten consts.new a.now max_stack max_locals tables.now
        (option_map (λ m. m.now) map.entry) v.items) }

    // It reads back as what was given, where the code decodes to a program.
    ensures read_back { IfOk result (λ v. (p : Program) →
        Decodes consts.new a.now.code a.now.table (placed p a.now) →
        IsCodeAttr consts.new v.items (attr_of p a.now max_stack max_locals tables.now
        (option_map (λ m. m.now) map.entry))) }

    // The names are added in order, each where it is not there.
    ensures adds { IfOk result (λ v. AddsTexts (names_of (tables_of a.now.offsets tables.now
        ++ map_of (option_map (λ m. m.now) map.entry))) consts.old None consts.new) }

    // Each refusal but want of memory is that of an add of a name, and where an add of a name is so
    // refused by a full pool, so is this, unless memory runs out.
    ensures refusal { IfErr result (λ e. (e ≡ PoolStop.Memory)
        ⊎ AddsTexts (names_of (tables_of a.now.offsets tables.now
        ++ map_of (option_map (λ m. m.now) map.entry))) consts.old (Some e) consts.new) }
    ensures full { (n : ℕ) (places : List Place) →
        AddsTexts (names_of (tables_of a.now.offsets tables.now
        ++ map_of (option_map (λ m. m.now) map.entry))) consts.old (Some (PoolStop.Full n)) places →
        (result ≡ Err (PoolStop.Full n)) ⊎ (result ≡ Err PoolStop.Memory) }

    // No more than four names are added.
    ensures few { (n : ℕ) → result ≡ Err (PoolStop.Full n) →
        (65535 < n) × (n ≤ length consts.old + 5) }
    ensures keeps { Keeps consts.old consts.new }
{
    // The law of the layer below that the proof stands on.
    assembled_offsets();

    let all = named_tables(alloc, a.offsets.as_slice(), tables, map)?;
    let mut out = head_of(alloc, a, max_stack, max_locals, &all)?;
    put_attributes(&mut out, &all, consts)?;
    Ok(out)
}
