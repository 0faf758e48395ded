//! Indexes of instructions in the place of their offsets (JVMS 4.9.1).

ghost use Rattle.std.specs.Prelude.{◌≡◌, ℕ, ◌<◌, ◌^◌, ◌⊎◌, ⊤, List, length, IfOk, IfErr, IfSome};
ghost use Rattle.std.specs.Prelude.{IfNone};
ghost use Rattle.std.specs.List.{AllZip};
ghost use Rattle.je_instr.specs.declared.fault.CodeFault.{CodeFault};
ghost use Rattle.je_instr.specs.declared.instr.Case.{Case};
ghost use Rattle.je_instr.specs.Decoding.{Begins, BeginsCase, Leads, LeadsNowhere, IsFirstNowhere};
ghost use Rattle.je_instr.specs.Indexing.{Places, AreApart};

use crate::fault::CodeFault;
use crate::instr::{Case, Instr, InstrIndex};
use crate::offset::Offset;
use je_base::Memory;
use sqlite_items::Items;
use std::alloc::Global;

/// The index of the instruction that begins at an offset. At the offset of each instruction stands
/// its index in `places`.
pub(crate) fn place_of(starts: &[u32], places: &[InstrIndex], offset: Offset) -> Option<InstrIndex>
    requires { Places starts.now places.now }
    ensures some { IfSome result (Begins starts.now offset) }
    ensures none { IfNone result ((k : ℕ) → Begins starts.now offset k → ⊥) }
{
    let offset = offset.get();
    if offset as usize >= places.len() {
        return None;
    }
    let place = places[offset as usize];
    if place as usize >= starts.len() {
        return None;
    }
    if starts[place as usize] == offset {
        Some(place)
    } else {
        None
    }
}

/// The targets at these offsets, where an instruction begins at each.
fn targets_in(
    alloc: Global,
    starts: &[u32],
    places: &[InstrIndex],
    offsets: &[u32],
) -> Result<Option<Vec<InstrIndex>>, Memory>
    requires { Places starts.now places.now }
    ensures some { IfOk result (λ o.
        IfSome o (λ v. AllZip (Begins starts.now) offsets.now v.items)) }
    ensures none { IfOk result (λ o. IfNone o ((targets : List ℕ)
        → AllZip (Begins starts.now) offsets.now targets → ⊥)) }
{
    let mut targets = Vec::new(alloc);
    let mut rest = offsets;
    while let [offset, tail @ ..] = rest {
        let Some(target) = place_of(starts, places, Offset::new(*offset)) else {
            return Ok(None);
        };
        targets.push(target)?;
        rest = tail;
    }
    Ok(Some(targets))
}

/// The cases, where an instruction begins at the offset of each.
fn cases_in(
    alloc: Global,
    starts: &[u32],
    places: &[InstrIndex],
    located: &[Case],
) -> Result<Option<Vec<Case>>, Memory>
    requires { Places starts.now places.now }
    ensures some { IfOk result (λ o.
        IfSome o (λ v. AllZip (BeginsCase starts.now) located.now v.items)) }
    ensures none { IfOk result (λ o. IfNone o ((cases : List Case)
        → AllZip (BeginsCase starts.now) located.now cases → ⊥)) }
{
    let mut cases = Vec::new(alloc);
    let mut rest = located;
    while let [case, tail @ ..] = rest {
        let Some(target) = place_of(starts, places, Offset::new(case.target)) else {
            return Ok(None);
        };
        cases.push(Case {
            key: case.key,
            target,
        })?;
        rest = tail;
    }
    Ok(Some(cases))
}

/// The instruction with indexes in the place of offsets, where it has no targets but instructions.
fn resolved(
    alloc: Global,
    starts: &[u32],
    places: &[InstrIndex],
    located: &Instr,
) -> Result<Option<Instr>, Memory>
    requires { Places starts.now places.now }
    ensures some { IfOk result (λ o. IfSome o (Leads starts.now located.now)) }
    ensures none { IfOk result (λ o. IfNone o (LeadsNowhere starts.now located.now)) }
{
    match located {
        Instr::Branch(opcode, offset) => match place_of(starts, places, Offset::new(*offset)) {
            Some(target) => Ok(Some(Instr::Branch(*opcode, target))),
            None => Ok(None),
        },
        Instr::Goto(offset) => match place_of(starts, places, Offset::new(*offset)) {
            Some(target) => Ok(Some(Instr::Goto(target))),
            None => Ok(None),
        },
        Instr::TableSwitch(low, offsets, offset) => {
            let Some(fallback) = place_of(starts, places, Offset::new(*offset)) else {
                return Ok(None);
            };
            let Some(targets) = targets_in(alloc, starts, places, offsets.as_slice())? else {
                return Ok(None);
            };
            Ok(Some(Instr::TableSwitch(*low, Items::from_vec(targets), fallback)))
        }
        Instr::LookupSwitch(cases, offset) => {
            let Some(fallback) = place_of(starts, places, Offset::new(*offset)) else {
                return Ok(None);
            };
            let Some(cases) = cases_in(alloc, starts, places, cases.as_slice())? else {
                return Ok(None);
            };
            Ok(Some(Instr::LookupSwitch(Items::from_vec(cases), fallback)))
        }
        _ => Ok(Some(located.copy(alloc)?)),
    }
}

/// The instructions with indexes in the place of offsets.
pub(crate) fn all_resolved(
    alloc: Global,
    starts: &[u32],
    places: &[InstrIndex],
    located: &[Instr],
) -> Result<Vec<Instr>, CodeFault>
    requires places { Places starts.now places.now }
    requires long { length starts.now ≡ length located.now }
    ensures found { IfOk result (λ v. AllZip (Leads starts.now) located.now v.items) }
    ensures fault { IfErr result (λ e. (e ≡ CodeFault.Memory)
        ⊎ ((at : ℕ) × IsFirstNowhere starts.now located.now starts.now at
        × (e ≡ CodeFault.BadTarget at))) }
{
    let mut instrs = Vec::new(alloc);
    let mut rest = located;
    let mut behind = starts;
    while let [instr, tail @ ..] = rest {
        let Some(found) = resolved(alloc, starts, places, instr)? else {
            return Err(CodeFault::BadTarget(behind[0] as usize));
        };
        instrs.push(found)?;
        rest = tail;
        behind = &behind[1..];
    }
    Ok(instrs)
}

/// At each offset of an instruction its index.
pub(crate) fn places_of(
    alloc: Global,
    starts: &[u32],
    size: usize,
) -> Result<Vec<InstrIndex>, Memory>
    requires apart { AreApart starts.now }
    requires within { (offset k : ℕ) → Begins starts.now offset k → offset < size }
    requires short { length starts.now < 2 ^ 32 }
    ensures { IfOk result (λ v. Places starts.now v.items) }
{
    let mut places = vec![in alloc; 0; size]?;
    for k in 0..starts.len() {
        places[starts[k] as usize] = k as InstrIndex;
    }
    Ok(places)
}
