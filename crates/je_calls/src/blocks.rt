//! Blocks in the place of instructions.

ghost use Rattle.std.specs.Prelude.{◌≡◌, [], ◌∷◌, ◌++◌, length, map, option_map, IfOk, OnOk};
ghost use Rattle.std.specs.List.{AllByRecursion};
ghost use Rattle.je_put.specs.Placing.{put_at, BelongsTo};
ghost use Rattle.je_splice.specs.Put.{replacements};
ghost use Rattle.je_calls.specs.Blocks.{code_of, code_by, block_of, blocks_of};

use crate::rule::{Choice, Fragment};
use je_base::Memory;
use je_instr::{Instr, InstrIndex};
use je_put::{Block, PlaceBlock};
use sqlite_items::Items;
use std::alloc::Global;

/// The instructions that do what a fragment says in the place of one.
fn code_of(alloc: Global, instr: &Instr, fragment: Fragment) -> Result<Items<Instr>, Memory>
    ensures { IfOk result (λ code. code ≡ code_of instr.now fragment) }
{
    let mut code = Items::new(alloc);
    match fragment {
        Fragment::Empty => {}
        Fragment::Proceed => code.push(instr.copy(alloc)?)?,
    }
    Ok(code)
}

/// The block of these instructions.
fn block_of(alloc: Global, instrs: Items<Instr>) -> Block
    ensures { result ≡ block_of instrs }
{
    Block {
        instrs,
        handlers: Items::new(alloc),
        shapes: Items::new(alloc),
        depth: 0,
        locals: 0,
    }
}

/// The block in the place of an instruction, or `None` where it stays.
fn block_by(alloc: Global, instr: &Instr, choice: Choice) -> Result<Option<Block>, Memory>
    ensures { IfOk result (λ block. block ≡ option_map block_of (code_by instr.now choice)) }
{
    match choice {
        Choice::Stays => Ok(None),
        Choice::Drops => Ok(Some(block_of(alloc, Items::new(alloc)))),
        Choice::Gives(fragment) => {
            let code = code_of(alloc, instr, fragment)?;
            Ok(Some(block_of(alloc, code)))
        }
    }
}

/// Puts the block in the place of the instruction at the index.
fn push_place(
    places: &mut Vec<PlaceBlock>,
    at: InstrIndex,
    block: Option<Block>,
) -> Result<(), Memory>
    ensures { OnOk result (map put_at places.new.items
        ≡ map put_at places.old.items ++ replacements at (block ∷ [])) }
{
    if let Some(block) = block {
        places.push(PlaceBlock {
            at,
            removed: true,
            jumps: true,
            block,
        })?;
    }
    Ok(())
}

/// The blocks in the place of instructions, by what becomes of each.
///
/// # Errors
///
/// `Memory`: memory ran out, or there are more instructions than indexes.
pub fn places_of(
    alloc: Global,
    instrs: &[Instr],
    choices: &[Choice],
) -> Result<Vec<PlaceBlock>, Memory>
    requires { length choices.now ≡ length instrs.now }
    ensures { IfOk result (λ places.
        map put_at places.items ≡ replacements 0 (blocks_of instrs.now choices.now)) }
{
    let mut places = Vec::new(alloc);
    let mut at: InstrIndex = 0;
    let mut left = choices;
    let mut rest = instrs;
    while let Some((instr, behind)) = rest.split_first() {
        let Some((choice, more)) = left.split_first() else {
            unreachable!();
        };
        let block = block_by(alloc, instr, *choice)?;
        push_place(&mut places, at, block)?;
        at = at.checked_add(1).ok_or(Memory)?;
        left = more;
        rest = behind;
    }
    Ok(places)
}
