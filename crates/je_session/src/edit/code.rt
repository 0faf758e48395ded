//! The content of a method's Code whose instructions are spliced.

ghost use Rattle.std.specs.Prelude.{◌≡◌, ◌-◌, None, length, IfOk, IfErr};
ghost use Rattle.std.specs.List.{AllByRecursion};
ghost use Rattle.je_code.specs.Moved.{AreInside};
ghost use Rattle.je_code.specs.Named.{tables_of};
ghost use Rattle.je_code.specs.Written.{CanBeWritten, HasText, IsWritten, names_of};
ghost use Rattle.je_session.specs.declared.edit.stop.EditStop.TheVariants as stops;
ghost use Rattle.je_session.specs.Splice.{CanBeSpliced, IsNewCode};

use crate::edit::splice::splice;
use crate::edit::stop::EditStop;
use crate::plan::Fragment;
use je_code::{CodeAttr, Tables, map_tables, texts_there, write_code};
use je_consts::Consts;
use je_instr::{Assembled, Program, assemble, forms_take};
use sqlite_items::Items;
use std::alloc::Global;

/// The content of a Code of the old sizes, where the constants have the names of its tables. So
/// none is added to the copy of them that is written over.
fn written(
    alloc: Global,
    consts: &Consts,
    assembled: &Assembled,
    old: &CodeAttr,
    tables: &Tables,
) -> Result<Vec<u8>, EditStop>
    requires written { CanBeWritten assembled.now tables.now }
    requires rows { AreInside (length assembled.now.offsets - 1) tables.now }
    requires names { AllByRecursion (HasText consts.now)
        (names_of (tables_of assembled.now.offsets tables.now)) }
    ensures written { IfOk result (λ v. IsWritten consts.now assembled.now old.now.max_stack
        old.now.max_locals tables.now None v.items) }
    ensures memory { IfErr result (λ e. e ≡ stops.Memory) }
{
    // The law of the layer below that the proof stands on.
    texts_there();

    let mut copy = consts.copy()?;
    let bytes = write_code(
        alloc,
        assembled,
        old.max_stack,
        old.max_locals,
        tables,
        None,
        &mut copy,
    )?;
    Ok(bytes)
}

/// The content of a method's Code, whose chosen instructions give way to what does their
/// fragments: its instructions in their shortest forms, and its tables of lines and local variables
/// where the instructions went. Its other attributes are left out.
///
/// # Errors
///
/// `Memory`: there was not enough memory.
pub fn new_code(
    alloc: Global,
    consts: &Consts,
    old: &CodeAttr,
    chosen: &[Option<Fragment>],
) -> Result<Vec<u8>, EditStop>
    requires { CanBeSpliced consts.now old.now chosen.now }
    ensures code { IfOk result (λ v. IsNewCode consts.now old.now chosen.now v.items) }
    ensures memory { IfErr result (λ e. e ≡ stops.Memory) }
{
    // The law of the layer below that the proof stands on.
    forms_take();

    let spliced = splice(alloc, old.decoded.program.instrs.as_slice(), chosen)?;
    let count = spliced.instrs.len() as u32;
    let program = Program {
        instrs: Items::from_vec(spliced.instrs),
        handlers: Items::from_vec(Vec::new(alloc)),
    };
    let assembled = assemble(alloc, &program)?;
    let tables = map_tables(alloc, old, &spliced.new_of, count)?;
    written(alloc, consts, &assembled, old, &tables)
}
