//! Literals of characters and strings.

ghost use Rattle.std.specs.Prelude.{◌≡◌, ◌≤◌, ◌<◌, ◌+◌, ◌^◌, length, take, false, Some};
ghost use Rattle.std.specs.Prelude.{IfSome, IfOk};
ghost use Rattle.std.specs.Option.{option_map};
ghost use Rattle.je_tokens.specs.Literals.{closing, octal_escape, unicode_escape, letter_escape};
ghost use Rattle.je_tokens.specs.Literals.{escape_at, units, character_of, string_of};
ghost use Rattle.je_tokens.specs.Literals.{character_at, string_at};
ghost use Rattle.je_tokens.specs.Pieces.{size};
ghost use Rattle.je_tokens.specs.Reading.{Gives};

use crate::characters::{hexadecimal_len, is_octal, octal_len, push_units, text_of_units};
use crate::numbers::short_number;
use crate::pieces::Piece;
use crate::syntax::SyntaxKind;
use crate::token::TokenKind;
use je_base::Memory;
use std::alloc::Global;

/// No string literal has a longer text.
const MOST_BYTES: usize = 65535;

/// The character literal of which this stands behind its first mark.
#[tactic(auto, unfolding(crate::specs::Literals::character_at))]
pub fn character_at(alloc: Global, text: &[char]) -> Result<Piece, SyntaxKind>
    ensures found { Gives result (character_at text.now) }
    ensures within { IfOk result (λ piece. size piece ≤ length text.now + 1) }
    ensures some { IfOk result (λ piece. 0 < size piece) }
{
    match closing('\'', text) {
        None => Err(SyntaxKind::Unclosed),
        Some(len) => {
            let (content, _) = text.split_at(len);
            let found = units(alloc, content)?;
            character_of(len, found)
        }
    }
}

/// The string literal of which this stands behind its first mark.
#[tactic(auto, unfolding(crate::specs::Literals::string_at))]
pub fn string_at(alloc: Global, text: &[char]) -> Result<Piece, SyntaxKind>
    ensures found { Gives result (string_at text.now) }
    ensures within { IfOk result (λ piece. size piece ≤ length text.now + 1) }
    ensures some { IfOk result (λ piece. 0 < size piece) }
{
    match closing('"', text) {
        None => Err(SyntaxKind::Unclosed),
        Some(len) => {
            let (content, _) = text.split_at(len);
            let found = units(alloc, content)?;
            string_of(alloc, len, found)
        }
    }
}

fn character_of(len: usize, units: Option<Vec<u16>>) -> Result<Piece, SyntaxKind>
    requires { len < 2 ^ 62 }
    ensures found { Gives result (character_of len (option_map (λ v. v.items) units)) }
    ensures size { IfOk result (λ piece. size piece ≡ len + 2) }
{
    match units {
        None => Err(SyntaxKind::BadEscape),
        Some(units) => match units.as_slice() {
            [code] => Ok(Piece::Lexeme(len + 2, TokenKind::Character(*code))),
            _ => Err(SyntaxKind::BadChar),
        },
    }
}

fn string_of(alloc: Global, len: usize, units: Option<Vec<u16>>) -> Result<Piece, SyntaxKind>
    requires { len < 2 ^ 62 }
    ensures found { Gives result (string_of len (option_map (λ v. v.items) units)) }
    ensures size { IfOk result (λ piece. size piece ≡ len + 2) }
{
    match units {
        None => Err(SyntaxKind::BadEscape),
        Some(units) => {
            let text = text_of_units(alloc, &units)?;
            if text.bytes().len() > MOST_BYTES {
                return Err(SyntaxKind::LiteralTooLong);
            }
            Ok(Piece::Lexeme(len + 2, TokenKind::Literal(text)))
        }
    }
}

/// How many characters stand before the mark that closes a literal.
fn closing(mark: char, text: &[char]) -> Option<usize>
    ensures found { result ≡ closing mark text.now false }
    ensures within { IfSome result (λ n. n + 1 ≤ length text.now) }
{
    let mut escaped = false;
    let mut before: usize = 0;
    let mut rest = text;
    while let Some((c, behind)) = rest.split_first() {
        if *c == '\n' {
            return None;
        }
        if !escaped && *c == mark {
            return Some(before);
        }
        escaped = !escaped && *c == '\\';
        before += 1;
        rest = behind;
    }
    None
}

/// The code units of a literal's content, or `None` where an escape is none.
fn units(alloc: Global, content: &[char]) -> Result<Option<Vec<u16>>, Memory>
    ensures { IfOk result (λ found. option_map (λ v. v.items) found ≡ units content.now) }
{
    let mut found = Vec::new(alloc);
    let mut rest = content;
    while let Some((c, behind)) = rest.split_first() {
        if *c == '\\' {
            match escape_at(behind) {
                None => return Ok(None),
                Some((code, len)) => {
                    found.push(code)?;
                    rest = behind.split_at(len).1;
                }
            }
        } else {
            push_units(&mut found, *c)?;
            rest = behind;
        }
    }
    Ok(Some(found))
}

/// The code unit of an escape, behind its backslash, and the characters that it has there.
#[tactic(auto, unfolding(crate::specs::Literals::escape_at))]
fn escape_at(text: &[char]) -> Option<(u16, usize)>
    ensures found { result ≡ escape_at text.now }
    ensures within { IfSome result (λ escape. escape.1 ≤ length text.now) }
{
    let (c, behind) = text.split_first()?;
    if *c == 'u' {
        unicode_escape(behind)
    } else if is_octal(*c) {
        Some(octal_escape(text, *c))
    } else {
        let code = letter_escape(*c)?;
        Some((code, 1))
    }
}

/// Up to three octal digits, or two where the first is above 3.
#[tactic(auto, unfolding(crate::specs::Literals::octal_escape))]
fn octal_escape(text: &[char], first: char) -> (u16, usize)
    ensures found { Some result ≡ octal_escape text.now first }
    ensures within { result.1 ≤ length text.now }
{
    let most = if first <= '3' { 3 } else { 2 };
    let front = front(text, most);
    let (digits, _) = front.split_at(octal_len(front));
    (short_number(8, digits), digits.len())
}

/// `u`, of which this stands behind, and four hexadecimal digits.
#[tactic(auto, unfolding(crate::specs::Literals::unicode_escape))]
fn unicode_escape(text: &[char]) -> Option<(u16, usize)>
    ensures found { result ≡ unicode_escape text.now }
    ensures within { IfSome result (λ escape. escape.1 ≤ length text.now + 1) }
{
    let front = front(text, 4);
    let (digits, _) = front.split_at(hexadecimal_len(front));
    if digits.len() == 4 {
        Some((short_number(16, digits), 5))
    } else {
        None
    }
}

/// The first characters, so many or all.
fn front(text: &[char], most: usize) -> &[char]
    ensures { result.now ≡ take most text.now }
{
    if most < text.len() {
        text.split_at(most).0
    } else {
        text
    }
}

/// The code unit of an escape of one letter.
#[tactic(auto, unfolding(crate::specs::Literals::letter_escape))]
fn letter_escape(c: char) -> Option<u16>
    ensures { result ≡ letter_escape c }
{
    match c {
        'b' => Some(8),
        't' => Some(9),
        'n' => Some(10),
        'f' => Some(12),
        'r' => Some(13),
        '"' => Some(34),
        '\'' => Some(39),
        '\\' => Some(92),
        _ => None,
    }
}
