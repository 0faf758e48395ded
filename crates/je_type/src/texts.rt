//! Texts of bytes that are made here.

ghost use Rattle.std.specs.Prelude.{◌≡◌, IfOk};
ghost use Rattle.je_base.specs.Text.{IsModifiedUtf8};

use je_base::{Memory, Run, Text};
use std::alloc::Global;

/// The text of these bytes, none of which is copied.
pub(crate) fn text_of(alloc: Global, bytes: Vec<u8>) -> Result<Text, Memory>
    requires { IsModifiedUtf8 bytes.items }
    ensures { IfOk result (λ text. text ≡ bytes.items) }
{
    let run = Run::of_vec(alloc, bytes)?;
    let text = Text::of_part(&run, 0, run.as_slice().len())?;
    Ok(text.unwrap())
}
