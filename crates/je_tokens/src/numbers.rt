//! Whole numbers.

ghost use Rattle.std.specs.Prelude.{◌≡◌, ◌≤◌, ◌<◌, ◌+◌, ◌^◌, length, IsTrue, IfOk, MatchOption};
ghost use Rattle.std.specs.Char.{digit_value};
ghost use Rattle.je_tokens.specs.Characters.{is_digit, is_octal};
ghost use Rattle.je_tokens.specs.Pieces.{size};
ghost use Rattle.je_tokens.specs.Numbers.{begins, begins_fraction, is_exponent_letter};
ghost use Rattle.je_tokens.specs.Numbers.{begins_hexadecimal, is_float_letter};
ghost use Rattle.je_tokens.specs.Numbers.{is_long_letter, signed_digit, number, greatest, whole_at};
ghost use Rattle.je_tokens.specs.Numbers.{hexadecimal_at, octal_at, decimal_at, number_at};
ghost use Rattle.je_tokens.specs.Reading.{Gives, IsWithin};

use crate::characters::{digit_len, hexadecimal_len, is_digit, is_hexadecimal, octal_len};
use crate::pieces::Piece;
use crate::syntax::SyntaxKind;
use crate::token::TokenKind;

/// The number at the front, of which the first digit is there.
#[tactic(auto, unfolding(crate::specs::Numbers::number_at))]
pub fn number_at(negative: bool, text: &[char]) -> Result<Piece, SyntaxKind>
    requires { IsTrue (begins is_digit text.now) }
    ensures found { Gives result (number_at negative text.now) }
    ensures within { IfOk result (λ piece. IsWithin (size piece) text.now) }
{
    if begins_hexadecimal(text) {
        return hexadecimal_at(text);
    }
    let (_, behind) = text.split_at(digit_len(text));
    if begins_fraction(behind) {
        return Err(SyntaxKind::FloatNumber);
    }
    match text {
        ['0', ..] => octal_at(text),
        _ => decimal_at(negative, text),
    }
}

#[tactic(auto, unfolding(crate::specs::Numbers::hexadecimal_at))]
fn hexadecimal_at(text: &[char]) -> Result<Piece, SyntaxKind>
    requires { 2 ≤ length text.now }
    ensures found { Gives result (hexadecimal_at text.now) }
    ensures within { IfOk result (λ piece. IsWithin (size piece) text.now) }
{
    let (_, text) = text.split_at(2);
    let (digits, behind) = text.split_at(hexadecimal_len(text));
    if matches!(behind, ['.', ..]) {
        return Err(SyntaxKind::FloatNumber);
    }
    whole_at(false, false, 16, 2, digits, behind)
}

#[tactic(auto, unfolding(crate::specs::Numbers::octal_at))]
fn octal_at(text: &[char]) -> Result<Piece, SyntaxKind>
    requires { IsTrue (begins is_octal text.now) }
    ensures found { Gives result (octal_at text.now) }
    ensures within { IfOk result (λ piece. IsWithin (size piece) text.now) }
{
    let (digits, behind) = text.split_at(octal_len(text));
    whole_at(false, digits.len() == 1, 8, 0, digits, behind)
}

#[tactic(auto, unfolding(crate::specs::Numbers::decimal_at))]
fn decimal_at(negative: bool, text: &[char]) -> Result<Piece, SyntaxKind>
    requires { IsTrue (begins is_digit text.now) }
    ensures found { Gives result (decimal_at negative text.now) }
    ensures within { IfOk result (λ piece. IsWithin (size piece) text.now) }
{
    let (digits, behind) = text.split_at(digit_len(text));
    whole_at(negative, true, 10, 0, digits, behind)
}

/// The token of digits in a base, behind so many characters, as `0x`.
#[tactic(auto, unfolding(crate::specs::Numbers::whole_at))]
fn whole_at(
    negative: bool,
    decimal: bool,
    base: u64,
    before: usize,
    digits: &[char],
    behind: &[char],
) -> Result<Piece, SyntaxKind>
    requires base { 8 ≤ base }
    requires before { before ≤ 2 }
    requires length { length digits.now < 2 ^ 62 }
    ensures found { Gives result (whole_at negative decimal base before digits.now behind.now) }
    ensures some { IfOk result (λ piece. before + length digits.now ≤ size piece) }
    ensures within { IfOk result (λ piece.
        size piece ≤ before + length digits.now + length behind.now) }
{
    let long = begins_long_letter(behind);
    match number(base, digits) {
        Some(value) if value <= greatest(decimal, long, negative) => {
            let len = before + digits.len() + if long { 1 } else { 0 };
            Ok(Piece::Lexeme(len, TokenKind::Whole(value, long, decimal)))
        }
        _ => Err(SyntaxKind::NumberTooLarge),
    }
}

/// The greatest value of a number.
fn greatest(decimal: bool, long: bool, negative: bool) -> u64
    ensures { result ≡ greatest decimal long negative }
{
    if decimal {
        (if long { 1 << 63 } else { 1 << 31 }) - if negative { 0 } else { 1 }
    } else if long {
        u64::MAX
    } else {
        0xffff_ffff
    }
}

/// The number that digits write, or `None` where it has more than 64 bits.
fn number(base: u64, digits: &[char]) -> Option<u64>
    requires { 8 ≤ base }
    ensures { let all = number base digits.now in
        MatchOption result (2 ^ 64 ≤ all) (λ n. n ≡ all) }
{
    let mut value: u64 = 0;
    for digit in digits {
        value = value.checked_mul(base)?.checked_add(digit_value(*digit))?;
    }
    Some(value)
}

/// The number that a few digits of an escape write.
pub fn short_number(base: u64, digits: &[char]) -> u16
    requires base { 8 ≤ base }
    requires fits { number base digits.now < 2 ^ 16 }
    ensures { result ≡ number base digits.now }
{
    match number(base, digits) {
        Some(value) => value as u16,
        None => unreachable!(),
    }
}

/// The value of a digit, and 36 of what is none.
fn digit_value(c: char) -> u64
    ensures { result ≡ digit_value c }
{
    match c.to_digit(36) {
        Some(value) => value as u64,
        None => 36,
    }
}

fn begins_long_letter(text: &[char]) -> bool
    ensures { result ≡ begins is_long_letter text.now }
{
    matches!(text, ['l' | 'L', ..])
}

/// So goes on a number that is no whole one.
#[tactic(auto, unfolding(crate::specs::Numbers::begins_fraction))]
fn begins_fraction(text: &[char]) -> bool
    ensures { result ≡ begins_fraction text.now }
{
    match text.split_first() {
        None => false,
        Some((c, behind)) => {
            *c == '.' || is_float_letter(*c) || (is_exponent_letter(*c) && signed_digit(behind))
        }
    }
}

fn is_float_letter(c: char) -> bool
    ensures { result ≡ is_float_letter c }
{
    c == 'f' || c == 'F' || c == 'd' || c == 'D'
}

fn is_exponent_letter(c: char) -> bool
    ensures { result ≡ is_exponent_letter c }
{
    c == 'e' || c == 'E'
}

/// A digit, or a sign and a digit.
fn signed_digit(text: &[char]) -> bool
    ensures { result ≡ signed_digit text.now }
{
    match text.split_first() {
        None => false,
        Some((c, behind)) => is_digit(*c) || ((*c == '+' || *c == '-') && begins_digit(behind)),
    }
}

pub fn begins_digit(text: &[char]) -> bool
    ensures { result ≡ begins is_digit text.now }
{
    text.first().is_some_and(|c| is_digit(*c))
}

/// `0x` and a digit.
fn begins_hexadecimal(text: &[char]) -> bool
    ensures { result ≡ begins_hexadecimal text.now }
{
    match text {
        ['0', 'x', c, ..] => is_hexadecimal(*c),
        _ => false,
    }
}
