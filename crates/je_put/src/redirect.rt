//! Instructions whose targets are moved.

ghost use Rattle.std.specs.Prelude.{◌≡◌, map, IfOk};
ghost use Rattle.std.specs.List.{AllByRecursion};
ghost use Rattle.je_put.specs.Moving.{moved_by, IsKnownTo, AreKnownTo};
ghost use Rattle.je_instr.specs.declared.instr.Case.{Case};
ghost use Rattle.je_splice.specs.InstrCodes.{redirected, redirected_case, leads_on};

use crate::sums::index_behind;
use je_base::Memory;
use je_instr::{Case, Instr, InstrIndex, opcodes as op};
use sqlite_items::Items;
use std::alloc::Global;

/// Where targets go.
#[derive(Clone, Copy)]
pub(crate) enum To<'a> {
    /// They are found in a table.
    Table(&'a [InstrIndex]),
    /// They count from an index.
    Behind(InstrIndex),
}

impl To<'_> {
    /// Where a target goes.
    fn target(self, target: InstrIndex) -> Result<InstrIndex, Memory>
        requires { IsKnownTo self target }
        ensures { IfOk result (λ n. n ≡ moved_by self.entry target) }
    {
        match self {
            To::Table(list) => Ok(list[target as usize]),
            To::Behind(at) => index_behind(at, target as usize),
        }
    }
}

fn all_moved(alloc: Global, targets: &[InstrIndex], to: To<'_>) -> Result<Items<InstrIndex>, Memory>
    requires { AllByRecursion (IsKnownTo to) targets.now }
    ensures { IfOk result (λ v. v ≡ map (moved_by to.entry) targets.now) }
{
    let mut out = Vec::new(alloc);
    let mut rest = targets;
    while let [target, tail @ ..] = rest {
        out.push(to.target(*target)?)?;
        rest = tail;
    }
    Ok(Items::from_vec(out))
}

fn cases_moved(alloc: Global, cases: &[Case], to: To<'_>) -> Result<Items<Case>, Memory>
    requires { AllByRecursion (λ (c : Case). IsKnownTo to c.target) cases.now }
    ensures { IfOk result (λ v. v ≡ map (redirected_case (moved_by to.entry)) cases.now) }
{
    let mut out = Vec::new(alloc);
    let mut rest = cases;
    while let [case, tail @ ..] = rest {
        let target = to.target(case.target)?;
        out.push(Case {
            key: case.key,
            target,
        })?;
        rest = tail;
    }
    Ok(Items::from_vec(out))
}

/// The instruction with its targets moved.
///
/// # Errors
///
/// `Memory`: there was no memory for the targets of a switch.
pub(crate) fn redirect(alloc: Global, instr: &Instr, to: To<'_>) -> Result<Instr, Memory>
    requires { AreKnownTo to instr.now }
    ensures { IfOk result (λ i. i ≡ redirected (moved_by to.entry) instr.now) }
{
    match instr {
        Instr::Branch(opcode, target) => {
            let target = to.target(*target)?;
            Ok(Instr::Branch(*opcode, target))
        }
        Instr::Goto(target) => {
            let target = to.target(*target)?;
            Ok(Instr::Goto(target))
        }
        Instr::TableSwitch(low, targets, fallback) => {
            let targets = all_moved(alloc, targets.as_slice(), to)?;
            let fallback = to.target(*fallback)?;
            Ok(Instr::TableSwitch(*low, targets, fallback))
        }
        Instr::LookupSwitch(cases, fallback) => {
            let cases = cases_moved(alloc, cases.as_slice(), to)?;
            let fallback = to.target(*fallback)?;
            Ok(Instr::LookupSwitch(cases, fallback))
        }
        _ => Ok(instr.copy(alloc)?),
    }
}

/// Whether an instruction may lead to the next one.
pub(crate) fn may_lead_on(instr: &Instr) -> bool
    ensures { result ≡ leads_on instr.now }
{
    match instr {
        Instr::Simple(opcode) => {
            !(op::IRETURN <= *opcode && *opcode <= op::RETURN || *opcode == op::ATHROW)
        }
        Instr::Goto(_) | Instr::TableSwitch(_, _, _) | Instr::LookupSwitch(_, _) => false,
        _ => true,
    }
}
