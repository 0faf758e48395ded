//! The cases of switches (JVMS 6.5, tableswitch and lookupswitch).

ghost use Rattle.std.specs.Prelude.{◌≡◌, pos, ◌+ℤ◌, FitsSigned, length, IfOk};
ghost use Rattle.std.specs.Int.{w32};
ghost use Rattle.je_instr.specs.Allowed.{AreKeys};
ghost use Rattle.je_instr.specs.Resolves.{table_cases, lookup_cases};
ghost use Rattle.je_machine.specs.Operation as machine;

use je_base::Memory;
use je_instr::{Case, InstrIndex};
use je_value::{Operation, OperationForm, SwitchCase};
use sqlite_items::Items;
use std::alloc::Global;

/// The case of a key.
fn case_of(key: i64, target: InstrIndex) -> SwitchCase
    requires { FitsSigned w32 key }
    ensures { result ≡ (key, target) }
{
    (key as i32, target as usize)
}

/// The key behind an int.
fn next_key(key: i64) -> i64
    requires { FitsSigned w32 key }
    ensures { result ≡ key +ℤ pos 1 }
{
    key + 1
}

/// The targets with their keys, from this key on.
fn table_cases(alloc: Global, low: i32, targets: &[InstrIndex]) -> Result<Items<SwitchCase>, Memory>
    requires { AreKeys low (length targets.now) }
    ensures { IfOk result (λ cases. cases ≡ table_cases low targets.now) }
{
    let mut cases = Items::new(alloc);
    let mut key = low as i64;
    let mut rest = targets;
    while let Some((target, tail)) = rest.split_first() {
        cases.push(case_of(key, *target))?;
        key = next_key(key);
        rest = tail;
    }
    Ok(cases)
}

/// tableswitch.
pub(crate) fn table_switch(
    alloc: Global,
    low: i32,
    targets: &[InstrIndex],
    fallback: InstrIndex,
) -> Result<Operation, Memory>
    requires { AreKeys low (length targets.now) }
    ensures { IfOk result (λ o. o ≡ machine.Switch (table_cases low targets.now) fallback) }
{
    let cases = table_cases(alloc, low, targets)?;
    Ok(Operation::of(OperationForm::Switch(cases, fallback as usize)))
}

/// The cases as the machine has them.
fn lookup_cases(alloc: Global, cases: &[Case]) -> Result<Items<SwitchCase>, Memory>
    ensures { IfOk result (λ all. all ≡ lookup_cases cases.now) }
{
    let mut all = Items::new(alloc);
    for case in cases {
        all.push((case.key, case.target as usize))?;
    }
    Ok(all)
}

/// lookupswitch.
pub(crate) fn lookup_switch(
    alloc: Global,
    cases: &[Case],
    fallback: InstrIndex,
) -> Result<Operation, Memory>
    ensures { IfOk result (λ o. o ≡ machine.Switch (lookup_cases cases.now) fallback) }
{
    let others = fallback;
    let all = lookup_cases(alloc, cases)?;
    Ok(Operation::of(OperationForm::Switch(all, others as usize)))
}
