//! The machine's program that code is.

ghost use Rattle.std.specs.Prelude.{◌≡◌, List, [], IfOk};
ghost use Rattle.std.specs.List.{AllByRecursion, AllZip};
ghost use Rattle.je_instr.specs.Allowed.{IsAllowed};
ghost use Rattle.je_instr.specs.CodeProgram.{IsHandlerOf};
ghost use Rattle.je_instr.specs.Resolves.{Resolves};
ghost use Rattle.je_machine.specs.Operation as machine;
ghost use Rattle.je_probe.specs.Given.{IsMethod};

use crate::value::{ProbeValue, kinds_given};
use je_base::Memory;
use je_consts::Consts;
use je_instr::{Handler as Entry, Instr, Program as Code};
use je_link::{handlers_of, operations_of};
use je_value::{Handler, Operation, Program};
use sqlite_items::Items;
use std::alloc::Global;

/// The operations of instructions, and none where the operands of one are not allowed.
fn operations_given(
    alloc: Global,
    consts: &Consts,
    instrs: &[Instr],
) -> Result<Items<Operation>, Memory>
    ensures found { IfOk result (λ all. AllByRecursion (IsAllowed consts.now) instrs.now
        → AllZip (Resolves consts.now) instrs.now all) }
    ensures none { IfOk result (λ all.
        (AllByRecursion (IsAllowed consts.now) instrs.now → ⊥) → all ≡ []) }
{
    match operations_of(alloc, consts, instrs)? {
        Some(operations) => Ok(operations),
        None => Ok(Items::new(alloc)),
    }
}

/// The handlers of entries, and none where one names no class.
fn handlers_given(
    alloc: Global,
    consts: &Consts,
    entries: &[Entry],
) -> Result<Items<Handler>, Memory>
    ensures found { IfOk result (λ all. (some : List machine.Handler)
        → AllZip (IsHandlerOf consts.now) entries.now some
        → AllZip (IsHandlerOf consts.now) entries.now all) }
    ensures none { IfOk result (λ all. ((some : List machine.Handler)
        → AllZip (IsHandlerOf consts.now) entries.now some → ⊥) → all ≡ []) }
{
    match handlers_of(alloc, consts, entries)? {
        Some(handlers) => Ok(handlers),
        None => Ok(Items::new(alloc)),
    }
}

/// The machine's program of code, whose parameters are of the kinds of the arguments.
pub(crate) fn method_given(
    alloc: Global,
    consts: &Consts,
    code: &Code,
    args: &[ProbeValue],
) -> Result<Program, Memory>
    ensures { IfOk result (IsMethod consts.now code.now args.now) }
{
    let parameters = kinds_given(alloc, args)?;
    let operations = operations_given(alloc, consts, code.instrs.as_slice())?;
    let handlers = handlers_given(alloc, consts, code.handlers.as_slice())?;
    Ok(Program::of(parameters, operations, handlers))
}
