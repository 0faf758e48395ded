//! Class file texts as a message shows them.

ghost use Rattle.std.specs.Prelude.{◌≡◌, ◌++◌, IfOk, OnOk};
ghost use Rattle.std.specs.List.{flat_map};
ghost use Rattle.std.specs.Str.{chars};
ghost use Rattle.std.specs.String.{string_bytes};
ghost use Rattle.je_base.specs.Shown.{byte_shown, is_plain, shown};

use crate::encoding::decode_text;
use crate::stop::Memory;
use std::alloc::Global;

/// The text that shows the bytes: the string that they encode, where they encode one with no
/// character below U+0020, and else each byte by itself.
pub fn show(alloc: Global, bytes: &[u8]) -> Result<String, Memory>
    ensures { IfOk result (λ text. string_bytes text ≡ shown bytes.now) }
{
    match decode_text(alloc, bytes)? {
        Some(string) if has_no_control(&string) => Ok(string),
        _ => show_bytes(alloc, bytes),
    }
}

/// Whether no character is below U+0020.
fn has_no_control(string: &str) -> bool
    ensures { result ≡ is_plain (chars string.now) }
{
    string.chars().all(|c| c >= ' ')
}

/// The bytes, each by itself.
fn show_bytes(alloc: Global, bytes: &[u8]) -> Result<String, Memory>
    ensures { IfOk result (λ text. string_bytes text ≡ flat_map byte_shown bytes.now) }
{
    let mut text = String::new(alloc);
    for byte in bytes {
        push_shown(&mut text, *byte)?;
    }
    Ok(text)
}

/// Adds a byte as it is, where it is ASCII that prints, and else as `\x` and two digits.
fn push_shown(text: &mut String, byte: u8) -> Result<(), Memory>
    ensures { OnOk result (string_bytes text.new ≡ string_bytes text.old ++ byte_shown byte) }
{
    if (0x20..=0x7e).contains(&byte) {
        text.push(byte as char)?;
        return Ok(());
    }
    let high = char::from_digit((byte / 16) as u32, 16).unwrap();
    let low = char::from_digit((byte % 16) as u32, 16).unwrap();
    text.push_str("\\x")?;
    text.push(high)?;
    text.push(low)?;
    Ok(())
}
