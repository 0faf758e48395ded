//! Texts that are shown.

ghost use Rattle.je_probe.specs.Shown.{IsText};
ghost use Rattle.std.specs.Prelude.{IfOk};

use je_base::{Memory, Text};
use std::alloc::Global;

/// The text of these bytes, and an empty one where they are none.
pub(crate) fn text_shown(alloc: Global, bytes: &[u8]) -> Result<Text, Memory>
    ensures { IfOk result (IsText bytes.now) }
{
    match Text::from_bytes(alloc, bytes)? {
        Some(text) => Ok(text),
        None => Text::of(alloc, ""),
    }
}
