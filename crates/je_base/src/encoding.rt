//! Strings as class files spell them.

ghost use Rattle.std.specs.Prelude.{◌≡◌, ℕ, [], ◌∷◌, ◌++◌, IfOk, OnOk, IfSome, IfNone};
ghost use Rattle.std.specs.Option.{option_map};
ghost use Rattle.std.specs.Str.{chars};
ghost use Rattle.std.specs.Char.{IsScalar};
ghost use Rattle.je_base.specs.Encoding.{unit, char_units, char_bytes, encoding, characters};
ghost use Rattle.je_base.specs.Encoding.{decoded};
ghost use Rattle.je_base.specs.Encoding.{IsDecoded, EncodesNone, EncodesOnly, BeginsNoUnit};
ghost use Rattle.je_base.specs.Encoding.{BeginsNoChar};

use crate::stop::Memory;
use std::alloc::Global;

/// The string in modified UTF-8 (JVMS 4.4.7).
///
/// NUL is the bytes C0 80, and a character above U+FFFF the three bytes of its high surrogate and
/// the three of its low one.
///
/// # Errors
///
/// `Memory` where memory runs out.
pub fn encode_text(alloc: Global, s: &str) -> Result<Vec<u8>, Memory>
    ensures { IfOk result (λ bytes. bytes.items ≡ encoding (chars s.now)) }
{
    let mut bytes = Vec::new(alloc);
    for c in s.chars() {
        push_char(&mut bytes, c)?;
    }
    Ok(bytes)
}

/// Adds the bytes of a character.
fn push_char(bytes: &mut Vec<u8>, c: char) -> Result<(), Memory>
    ensures { OnOk result (bytes.new.items ≡ bytes.old.items ++ char_bytes c) }
{
    let mut units = [0; 2];
    for code in c.encode_utf16(&mut units).iter() {
        push_unit(bytes, *code)?;
    }
    Ok(())
}

/// Adds the bytes of a code unit.
fn push_unit(bytes: &mut Vec<u8>, code: u16) -> Result<(), Memory>
    ensures { OnOk result (bytes.new.items ≡ bytes.old.items ++ unit code) }
{
    let low = 0x80 + (code % 0x40) as u8;
    match code {
        0x01..=0x7f => bytes.push(code as u8)?,
        0..=0x7ff => bytes.extend_from_slice(&[0xc0 + (code / 0x40) as u8, low])?,
        _ => {
            let middle = 0x80 + (code / 0x40 % 0x40) as u8;
            bytes.extend_from_slice(&[0xe0 + (code / 0x1000) as u8, middle, low])?;
        }
    }
    Ok(())
}

/// The string that these bytes encode, or `None` where they are the encoding of no string.
///
/// # Errors
///
/// `Memory` where memory runs out.
pub fn decode_text(alloc: Global, b: &[u8]) -> Result<Option<String>, Memory>
    ensures some { IfOk result (λ found. IfSome found (λ s. IsDecoded b.now (characters s))) }
    ensures none { IfOk result (λ found. IfNone found (EncodesNone b.now)) }

    // No two strings have one encoding.
    ensures only { IfOk result (λ found. IfSome found (λ s. EncodesOnly b.now (characters s))) }

    // The same as a function of the bytes.
    ensures decoded { IfOk result (λ found. option_map characters found ≡ decoded b.now) }
{
    let mut string = String::new(alloc);
    let mut left = b;
    while let Some((c, rest)) = split_char(left) {
        string.push(c)?;
        left = rest;
    }
    if !left.is_empty() {
        return Ok(None);
    }
    Ok(Some(string))
}

/// The first character and the bytes after it.
fn split_char(bytes: &[u8]) -> Option<(char, &[u8])>
    ensures some { IfSome result (λ split. bytes.now ≡ char_bytes split.0 ++ split.1.now) }
    ensures scalar { IfSome result (λ split. IsScalar split.0) }
    ensures none { IfNone result (BeginsNoChar bytes.now) }
{
    let (first, rest) = split_unit(bytes)?;
    if let Some(c) = char::from_u32(first as u32) {
        return Some((c, rest));
    }
    let (second, rest) = split_unit(rest)?;
    let c = pair_char(first, second)?;
    Some((c, rest))
}

/// The character whose code units are these two.
fn pair_char(high: u16, low: u16) -> Option<char>
    ensures some { IfSome result (λ c. char_units c ≡ high ∷ low ∷ []) }
    ensures scalar { IfSome result IsScalar }
    ensures none { IfNone result ((c : ℕ) → IsScalar c → char_units c ≡ high ∷ low ∷ [] → ⊥) }
{
    if !(0xd800..=0xdbff).contains(&high) || !(0xdc00..=0xdfff).contains(&low) {
        return None;
    }
    char::from_u32(0x1_0000 + (high as u32 - 0xd800) * 0x400 + (low as u32 - 0xdc00))
}

/// The first code unit, in the shortest of its forms, and the bytes after it.
fn split_unit(bytes: &[u8]) -> Option<(u16, &[u8])>
    ensures some { IfSome result (λ split. bytes.now ≡ unit split.0 ++ split.1.now) }
    ensures none { IfNone result (BeginsNoUnit bytes.now) }
{
    match bytes {
        [a @ 0x01..=0x7f, rest @ ..] => Some((*a as u16, rest)),
        [a @ 0xc0..=0xdf, b @ 0x80..=0xbf, rest @ ..] => {
            let code = (*a as u16 - 0xc0) * 0x40 + (*b as u16 - 0x80);
            (code == 0 || code > 0x7f).then_some((code, rest))
        }
        [a @ 0xe0..=0xef, b @ 0x80..=0xbf, c @ 0x80..=0xbf, rest @ ..] => {
            let high = (*a as u16 - 0xe0) * 0x1000;
            let code = high + (*b as u16 - 0x80) * 0x40 + (*c as u16 - 0x80);
            (code > 0x7ff).then_some((code, rest))
        }
        _ => None,
    }
}
