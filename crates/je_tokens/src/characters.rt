//! The characters of tokens.

ghost use Rattle.std.specs.Prelude.{◌≡◌, ◌<◌, ◌≤◌, ◌++◌, length, IsTrue, IfOk, OnOk};
ghost use Rattle.std.specs.List.{prefix_len};
ghost use Rattle.je_base.specs.Encoding.{unit, char_units};
ghost use Rattle.je_tokens.specs.Characters.{is_white, is_letter, is_digit, is_octal};
ghost use Rattle.je_tokens.specs.Characters.{is_hexadecimal, begins_name, is_word, is_on_line};
ghost use Rattle.je_tokens.specs.Characters.{text_of, text_of_units};
ghost use Rattle.je_tokens.specs.Numbers.{begins};

use je_base::{Memory, Text};
use std::alloc::Global;

/// Space, tab, line feed, form feed or carriage return.
pub fn is_white(c: char) -> bool
    ensures { result ≡ is_white c }
{
    c == ' ' || c == '\t' || c == '\n' || c == '\u{c}' || c == '\r'
}

fn is_letter(c: char) -> bool
    ensures { result ≡ is_letter c }
{
    ('A' <= c && c <= 'Z') || ('a' <= c && c <= 'z')
}

pub fn is_digit(c: char) -> bool
    ensures { result ≡ is_digit c }
{
    '0' <= c && c <= '9'
}

pub fn is_octal(c: char) -> bool
    ensures { result ≡ is_octal c }
{
    '0' <= c && c <= '7'
}

pub fn is_hexadecimal(c: char) -> bool
    ensures { result ≡ is_hexadecimal c }
{
    is_digit(c) || ('A' <= c && c <= 'F') || ('a' <= c && c <= 'f')
}

/// What an identifier begins with: a letter or `_`.
pub fn begins_name(c: char) -> bool
    ensures { result ≡ begins_name c }
{
    is_letter(c) || c == '_'
}

/// A letter, a digit, `_` or `$`.
pub fn is_word(c: char) -> bool
    ensures { result ≡ is_word c }
{
    is_letter(c) || is_digit(c) || c == '_' || c == '$'
}

/// How many characters at the front are white space.
pub fn white_len(text: &[char]) -> usize
    ensures value { result ≡ prefix_len is_white text.now }
    ensures within { result ≤ length text.now }
    ensures some { IsTrue (begins is_white text.now) → 0 < result }
{
    text.iter().take_while(|c| is_white(**c)).count()
}

/// How many characters stand before the end of the line.
pub fn line_len(text: &[char]) -> usize
    ensures value { result ≡ prefix_len is_on_line text.now }
    ensures within { result ≤ length text.now }
{
    text.iter().take_while(|c| **c != '\n').count()
}

/// The word, or what is left of one, at the front.
pub fn word_len(text: &[char]) -> usize
    ensures value { result ≡ prefix_len is_word text.now }
    ensures within { result ≤ length text.now }
    ensures some { IsTrue (begins is_word text.now) → 0 < result }
{
    text.iter().take_while(|c| is_word(**c)).count()
}

/// How many characters at the front are digits.
pub fn digit_len(text: &[char]) -> usize
    ensures value { result ≡ prefix_len is_digit text.now }
    ensures within { result ≤ length text.now }
    ensures some { IsTrue (begins is_digit text.now) → 0 < result }
{
    text.iter().take_while(|c| is_digit(**c)).count()
}

/// How many characters at the front are octal digits.
pub fn octal_len(text: &[char]) -> usize
    ensures value { result ≡ prefix_len is_octal text.now }
    ensures within { result ≤ length text.now }
    ensures some { IsTrue (begins is_octal text.now) → 0 < result }
{
    text.iter().take_while(|c| is_octal(**c)).count()
}

/// How many characters at the front are hexadecimal digits.
pub fn hexadecimal_len(text: &[char]) -> usize
    ensures value { result ≡ prefix_len is_hexadecimal text.now }
    ensures within { result ≤ length text.now }
    ensures some { IsTrue (begins is_hexadecimal text.now) → 0 < result }
{
    text.iter().take_while(|c| is_hexadecimal(**c)).count()
}

/// The text of characters.
///
/// # Errors
///
/// `Memory` where memory runs out.
pub fn text_of(alloc: Global, characters: &[char]) -> Result<Text, Memory>
    ensures { IfOk result (λ text. text ≡ text_of characters.now) }
{
    let mut units = Vec::new(alloc);
    for c in characters {
        push_units(&mut units, *c)?;
    }
    text_of_units(alloc, &units)
}

/// Adds the code units of a character.
pub fn push_units(units: &mut Vec<u16>, c: char) -> Result<(), Memory>
    ensures { OnOk result (units.new.items ≡ units.old.items ++ char_units c) }
{
    let mut pair = [0; 2];
    units.extend_from_slice(c.encode_utf16(&mut pair))?;
    Ok(())
}

/// The text of code units.
///
/// # Errors
///
/// `Memory` where memory runs out.
pub fn text_of_units(alloc: Global, units: &[u16]) -> Result<Text, Memory>
    ensures { IfOk result (λ text. text ≡ text_of_units units.now) }
{
    let mut bytes = Vec::new(alloc);
    for code in units {
        push_unit(&mut bytes, *code)?;
    }
    // Code units have modified UTF-8, so this is a text.
    let text = Text::from_bytes(alloc, &bytes)?;
    Ok(text.unwrap())
}

/// Adds the bytes of a code unit.
fn push_unit(bytes: &mut Vec<u8>, code: u16) -> Result<(), Memory>
    ensures { OnOk result (bytes.new.items ≡ bytes.old.items ++ unit code) }
{
    let low = 0x80 + (code % 0x40) as u8;
    match code {
        0x01..=0x7f => bytes.push(code as u8)?,
        0..=0x7ff => bytes.extend_from_slice(&[0xc0 + (code / 0x40) as u8, low])?,
        _ => {
            let middle = 0x80 + (code / 0x40 % 0x40) as u8;
            bytes.extend_from_slice(&[0xe0 + (code / 0x1000) as u8, middle, low])?;
        }
    }
    Ok(())
}
