//! The operations of instructions (JVMS 6.5).

ghost use Rattle.std.specs.Prelude.{◌≡◌, Some, IfOk, IfSome, IfNone};
ghost use Rattle.std.specs.List.{AllByRecursion, AllZip};
ghost use Rattle.je_instr.specs.Allowed.{IsAllowed};
ghost use Rattle.je_instr.specs.Resolves.{Becomes, Resolves};
ghost use Rattle.je_machine.specs.Operation as machine;

use crate::classes::{arrays, check_cast, instance_of, new, reference_array};
use crate::fields::{call, field, invoke};
use crate::made::push;
use crate::operands::{branch, goto, increment, local, new_array};
use crate::simple::simple;
use crate::switches::{lookup_switch, table_switch};
use crate::values::{ldc, ldc2};
use je_base::Memory;
use je_consts::Consts;
use je_instr::{Instr, is_allowed, operations_exist};
use je_value::{Operation, Sort, ValueForm};
use sqlite_items::Items;
use std::alloc::Global;

/// The operation of an instruction whose operands are allowed.
fn becoming(alloc: Global, consts: &Consts, instr: &Instr) -> Result<Option<Operation>, Memory>
    requires { IsAllowed consts.now instr.now }
    ensures { (o : machine.Operation) → Becomes consts.now instr.now o
        → IfOk result (λ found. found ≡ Some o) }
{
    match instr {
        Instr::Simple(opcode) => simple(alloc, *opcode),
        Instr::IntPush(n) => Ok(Some(push(ValueForm::Int(*n)))),
        Instr::Ldc(index) => ldc(alloc, consts, *index),
        Instr::Ldc2(index) => ldc2(alloc, consts, *index),
        Instr::Local(opcode, slot) => Ok(local(*opcode, *slot)),
        Instr::Iinc(slot, by) => Ok(Some(increment(*slot, *by))),
        Instr::Branch(opcode, target) => Ok(branch(*opcode, *target)),
        Instr::Goto(target) => Ok(Some(goto(*target))),
        Instr::TableSwitch(low, targets, fallback) => {
            Ok(Some(table_switch(alloc, *low, targets.as_slice(), *fallback)?))
        }
        Instr::LookupSwitch(cases, fallback) => {
            Ok(Some(lookup_switch(alloc, cases.as_slice(), *fallback)?))
        }
        Instr::Field(opcode, index) => field(alloc, consts, *opcode, *index),
        Instr::Invoke(opcode, index) => invoke(alloc, consts, *opcode, *index),
        Instr::InvokeInterface(index, _) => call(alloc, consts, Sort::Interface, *index),
        Instr::InvokeDynamic(index) => call(alloc, consts, Sort::Dynamic, *index),
        Instr::New(index) => new(alloc, consts, *index),
        Instr::NewArray(code) => Ok(new_array(*code)),
        Instr::ANewArray(index) => reference_array(alloc, consts, *index),
        Instr::CheckCast(index) => check_cast(alloc, consts, *index),
        Instr::InstanceOf(index) => instance_of(alloc, consts, *index),
        Instr::MultiNew(index, count) => arrays(alloc, consts, *index, *count),
    }
}

/// The operation that an instruction is, or `None` where its operands are not allowed (JVMS 4.9.1
/// and 6.5).
///
/// # Errors
///
/// `Memory` where memory runs out.
pub fn operation_of(
    alloc: Global,
    consts: &Consts,
    instr: &Instr,
) -> Result<Option<Operation>, Memory>
    ensures found { IfOk result (λ found. IfSome found (Resolves consts.now instr.now)) }
    ensures only { IfOk result (λ found. IfNone found (IsAllowed consts.now instr.now → ⊥)) }
{
    if !is_allowed(consts, instr) {
        return Ok(None);
    }
    operations_exist();
    becoming(alloc, consts, instr)
}

/// The operations that instructions are, or `None` where operands of one are not allowed.
///
/// # Errors
///
/// `Memory` where memory runs out.
pub fn operations_of(
    alloc: Global,
    consts: &Consts,
    instrs: &[Instr],
) -> Result<Option<Items<Operation>>, Memory>
    ensures found { IfOk result (λ found. IfSome found (
        AllZip (Resolves consts.now) instrs.now)) }
    ensures only { IfOk result (λ found. IfNone found (
        AllByRecursion (IsAllowed consts.now) instrs.now → ⊥)) }
{
    let mut operations = Items::new(alloc);
    let mut rest = instrs;
    while let [instr, tail @ ..] = rest {
        let Some(operation) = operation_of(alloc, consts, instr)? else {
            return Ok(None);
        };
        operations.push(operation)?;
        rest = tail;
    }
    Ok(Some(operations))
}
