//! The exception table by the indexes of instructions (JVMS 4.7.3).

ghost use Rattle.std.specs.Prelude.{◌≡◌, ℕ, ◌<◌, ◌^◌, ◌++◌, ◌∷◌, [], ◌⊎◌, length, IfOk, IfErr};
ghost use Rattle.std.specs.Prelude.{IfSome, IfNone};
ghost use Rattle.std.specs.List.{AllZip};
ghost use Rattle.je_instr.specs.declared.fault.CodeFault.{CodeFault};
ghost use Rattle.je_instr.specs.declared.program.Handler.{Handler};
ghost use Rattle.je_instr.specs.Decoding.{Begins, IsEntry, IsFirstNoEntry};
ghost use Rattle.je_instr.specs.Indexing.{Places};

use crate::calls::is_object_class;
use crate::fault::CodeFault;
use crate::instr::InstrIndex;
use crate::offset::Offset;
use crate::program::{Handler, RawHandler};
use crate::targets::place_of;
use je_consts::Consts;
use std::alloc::Global;

/// The index of the instruction that begins at an offset, or their number for the end.
fn end_of(starts: &[u32], places: &[InstrIndex], size: Offset, offset: Offset) -> Option<InstrIndex>
    requires places { Places starts.now places.now }
    requires short { length starts.now < 2 ^ 32 }
    ensures some { IfSome result (Begins (starts.now ++ size ∷ []) offset) }
    ensures none { IfNone result ((k : ℕ) → Begins (starts.now ++ size ∷ []) offset k → ⊥) }
{
    if offset.get() == size.get() {
        return Some(starts.len() as InstrIndex);
    }
    place_of(starts, places, offset)
}

/// The entry with indexes in the place of offsets, where it is well formed.
fn entry_of(
    consts: &Consts,
    starts: &[u32],
    places: &[InstrIndex],
    size: Offset,
    raw: &RawHandler,
) -> Option<Handler>
    requires places { Places starts.now places.now }
    requires short { length starts.now < 2 ^ 32 }
    ensures some { IfSome result (IsEntry consts.now starts.now size raw.now) }
    ensures none { IfNone result ((h : Handler)
        → IsEntry consts.now starts.now size raw.now h → ⊥) }
{
    if raw.start >= raw.end {
        return None;
    }
    if raw.catch_const != 0 && !is_object_class(consts, raw.catch_const) {
        return None;
    }
    let start = place_of(starts, places, Offset::new(raw.start as u32))?;
    let end = end_of(starts, places, size, Offset::new(raw.end as u32))?;
    let target = place_of(starts, places, Offset::new(raw.target as u32))?;
    Some(Handler {
        start,
        end,
        target,
        catch_const: raw.catch_const,
    })
}

/// The exception table with indexes in the place of offsets.
pub(crate) fn entries(
    alloc: Global,
    consts: &Consts,
    starts: &[u32],
    places: &[InstrIndex],
    size: Offset,
    table: &[RawHandler],
) -> Result<Vec<Handler>, CodeFault>
    requires places { Places starts.now places.now }
    requires short { length starts.now < 2 ^ 32 }
    ensures found { IfOk result (λ v.
        AllZip (IsEntry consts.now starts.now size) table.now v.items) }
    ensures fault { IfErr result (λ e. (e ≡ CodeFault.Memory)
        ⊎ ((index : ℕ) × IsFirstNoEntry consts.now starts.now size table.now 0 index
        × (e ≡ CodeFault.BadRange index))) }
{
    let mut handlers = Vec::new(alloc);
    let mut rest = table;
    while let [raw, tail @ ..] = rest {
        let Some(handler) = entry_of(consts, starts, places, size, raw) else {
            return Err(CodeFault::BadRange(handlers.len()));
        };
        handlers.push(handler)?;
        rest = tail;
    }
    Ok(handlers)
}
