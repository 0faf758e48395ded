//! The handlers of exceptions (JVMS 4.7.3).

ghost use Rattle.std.specs.Prelude.{◌≡◌, ℕ, List, Option, IfOk, IfSome, IfNone};
ghost use Rattle.std.specs.List.{AllZip};
ghost use Rattle.je_instr.specs.CodeProgram.{Catches, IsHandlerOf};
ghost use Rattle.je_machine.specs.Operation as machine;

use crate::classes::class_text;
use je_base::{Memory, Run};
use je_consts::{ConstIndex, Consts};
use je_desc::is_class_name;
use je_instr::Handler as Entry;
use je_value::Handler;
use sqlite_items::Items;
use std::alloc::Global;

/// The class that an entry catches, or `None` within where it catches all.
fn caught(alloc: Global, consts: &Consts, index: ConstIndex) -> Result<Option<Option<Run>>, Memory>
    ensures found { IfOk result (λ found. IfSome found (Catches consts.now index)) }
    ensures none { IfOk result (λ found. IfNone found (
        (class : Option (List ℕ)) → Catches consts.now index class → ⊥)) }
{
    if index == 0 {
        return Ok(Some(None));
    }
    let Some(name) = class_text(alloc, consts, index)? else {
        return Ok(None);
    };
    if is_class_name(name.as_slice()) {
        Ok(Some(Some(name)))
    } else {
        Ok(None)
    }
}

/// The entry, with the class that it catches in place of its constant.
fn handler_of(alloc: Global, consts: &Consts, entry: &Entry) -> Result<Option<Handler>, Memory>
    ensures found { IfOk result (λ found. IfSome found (IsHandlerOf consts.now entry.now)) }
    ensures none { IfOk result (λ found. IfNone found (
        (h : machine.Handler) → IsHandlerOf consts.now entry.now h → ⊥)) }
{
    match caught(alloc, consts, entry.catch_const)? {
        Some(class) => Ok(Some(Handler::of(
            entry.start as usize,
            entry.end as usize,
            entry.target as usize,
            class,
        ))),
        None => Ok(None),
    }
}

/// The handlers of the entries of an exception table, each with the class that it catches in place
/// of its constant, or `None` where one names no class that is no array (JVMS 4.7.3).
///
/// # Errors
///
/// `Memory` where memory runs out.
pub fn handlers_of(
    alloc: Global,
    consts: &Consts,
    entries: &[Entry],
) -> Result<Option<Items<Handler>>, Memory>
    ensures found { IfOk result (λ found. IfSome found (
        AllZip (IsHandlerOf consts.now) entries.now)) }
    ensures only { IfOk result (λ found. IfNone found ((handlers : List machine.Handler) →
        AllZip (IsHandlerOf consts.now) entries.now handlers → ⊥)) }
{
    let mut handlers = Items::new(alloc);
    let mut rest = entries;
    while let Some((entry, tail)) = rest.split_first() {
        let Some(handler) = handler_of(alloc, consts, entry)? else {
            return Ok(None);
        };
        handlers.push(handler)?;
        rest = tail;
    }
    Ok(Some(handlers))
}
