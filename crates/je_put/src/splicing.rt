//! Blocks put into a program.

ghost use Rattle.std.specs.Prelude.{◌≡◌, suc, List, length, IfOk};
ghost use Rattle.std.specs.List.{AllByRecursion};
ghost use Rattle.je_consts.specs.declared.place.Place.{Place};
ghost use Rattle.je_instr.specs.Assembling.{IsProgram, IsWithinProgram};
ghost use Rattle.je_splice.specs.InstrCodes.{instr_codes};
ghost use Rattle.je_splice.specs.Marks.{marked_handlers};
ghost use Rattle.je_splice.specs.Resolved.{IsWoven};
ghost use Rattle.je_put.specs.declared.block.EntryBlock.{EntryBlock};
ghost use Rattle.je_put.specs.declared.block.PlaceBlock.{PlaceBlock};
ghost use Rattle.je_put.specs.Items.{items_seen};
ghost use Rattle.je_put.specs.Parts.{HasParts};
ghost use Rattle.je_put.specs.Placing.{BelongsTo, block_marks};
ghost use Rattle.je_put.specs.Tables.{HasTargetsBelow, BelongBelow, IsLaid};
ghost use Rattle.je_put.specs.Result.{put_program, new_place, put_shapes, Lists};
ghost use Rattle.je_put.specs.Result.{put_items, pieces};

use crate::block::{EntryBlock, PlaceBlock, Spliced};
use crate::code::code_of;
use crate::handlers::handlers_of;
use crate::items::{Item, items_of};
use crate::meant::put_programs_do;
use crate::parts::{Parts, parts_of};
use crate::shapes::shapes_of;
use crate::sums::sum;
use crate::tables::{begins_of, tables_of};
use je_base::Memory;
use je_instr::Program;
use sqlite_items::Items;
use std::alloc::Global;

/// The items laid out.
fn lay(
    alloc: Global,
    p: &Program,
    table: &[Parts<'_>],
    items: &[Item<'_>],
) -> Result<Spliced, Memory>
    requires count { length table.now ≡ suc (length p.now.instrs) }
    requires handlers { AllByRecursion (IsWithinProgram (length p.now.instrs)) p.now.handlers }
    requires targets { AllByRecursion (HasTargetsBelow (length p.now.instrs)) items.now }
    requires belong { AllByRecursion (BelongBelow (length p.now.instrs)) items.now }
    ensures { IfOk result (λ s. (places : List PlaceBlock) (entries : List EntryBlock) →
        HasParts places entries (length table.now) table.now
        → IsLaid (block_marks places entries) (items_seen (block_marks places entries) items.now)
        p.now s) }
{
    let begins = begins_of(alloc, items)?;
    let tables = tables_of(alloc, table, &begins)?;
    let code = code_of(alloc, items, &begins, &tables.landing)?;
    let handlers = handlers_of(alloc, p.handlers.as_slice(), items, table, &tables, &begins)?;
    let shapes = shapes_of(alloc, items, &tables.new_of)?;
    Ok(Spliced {
        program: Program {
            instrs: Items::from_vec(code),
            handlers: Items::from_vec(handlers),
        },
        new_of: Items::from_vec(tables.new_of),
        shapes: Items::from_vec(shapes),
    })
}

/// The program that has blocks at the indexes of another one.
///
/// What stands before an instruction stands there in the order in which it is given: first what
/// jumps pass by, then what they meet. Of several blocks in the place of one instruction the first
/// is taken. An entry of the exception table that covers nothing any more is left out.
///
/// # Errors
///
/// `Memory`: memory ran out, or the new program has more instructions than indexes, which no
/// memory holds.
pub fn splice(
    alloc: Global,
    p: &Program,
    places: &[PlaceBlock],
    entries: &[EntryBlock],
) -> Result<Spliced, Memory>
    requires program { IsProgram p.now }
    requires places { AllByRecursion (λ x. BelongsTo (length p.now.instrs) x.block) places.now }
    requires entries { AllByRecursion (λ x. BelongsTo (length p.now.instrs) x.block) entries.now }
    // The instructions and the exception table, in order.
    ensures program { IfOk result (λ s. s.program ≡ put_program p.now places.now entries.now) }
    // It does what is meant by it, for every meaning of its blocks, every relation of classes,
    // heap and answers.
    ensures does { IfOk result (λ s. (consts : List Place) →
        IsWoven consts (pieces (put_items p.now places.now entries.now))
        (marked_handlers instr_codes (block_marks places.now entries.now) p.now.handlers)
        s.program.instrs s.program.handlers) }
    // Where what stands at each old index begins, and the end.
    ensures new_of { IfOk result (λ s. Lists (new_place p.now places.now entries.now)
        (suc (length p.now.instrs)) s.new_of) }
    // What is known at the blocks' instructions, by their new indexes.
    ensures shapes { IfOk result (λ s. s.shapes ≡ put_shapes p.now places.now entries.now) }
{
    // The law that the proof stands on.
    put_programs_do();
    let instrs = p.instrs.as_slice();
    let table = parts_of(alloc, sum(instrs.len(), 1)?, places, entries)?;
    let items = items_of(alloc, instrs, &table)?;
    let spliced = lay(alloc, p, &table, &items)?;
    Ok(spliced)
}
