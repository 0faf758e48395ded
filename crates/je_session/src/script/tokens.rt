//! The tokens of a script's text.

ghost use Rattle.std.specs.Prelude.{◌≡◌, ℕ, ◌<◌, ◌≤◌, ◌↔◌, List, [], ◌∷◌, length, slice_index};
ghost use Rattle.std.specs.Prelude.{IsTrue, IfOk, IsErrOf, MatchResult};
ghost use Rattle.je_session.specs.declared.script.token.Token.{Token};
ghost use Rattle.je_session.specs.declared.script.tokens.ScriptStop.TheVariants as stop;
ghost use Rattle.je_session.specs.Tokens.{IsWhite, IsMark, IsWordByte, AreTokens};
ghost use Rattle.je_session.specs.Reading.{Ends, Leads, SkipsWhite};

use crate::script::token::Token;
use je_base::{Memory, Text};
use std::alloc::{AllocError, AllocFailed, Global};

/// Why a script was not read.
#[derive(Clone, Copy, Debug, PartialEq, Eq)]
pub enum ScriptStop {
    /// It is no script, or one of a form that is not read so far.
    NotYet,
    /// There was not enough memory.
    Memory,
}

impl From<AllocError> for ScriptStop {
    ghost from_gives = { λ _ e. e ≡ stop.Memory };

    fn from(_e: AllocError) -> ScriptStop {
        ScriptStop::Memory
    }
}

impl<T: Drop> From<AllocFailed<T>> for ScriptStop {
    ghost from_gives = { λ _ e. e ≡ stop.Memory };

    fn from(_e: AllocFailed<T>) -> ScriptStop {
        ScriptStop::Memory
    }
}

impl From<Memory> for ScriptStop {
    ghost from_gives = { λ _ e. e ≡ stop.Memory };

    fn from(_e: Memory) -> ScriptStop {
        ScriptStop::Memory
    }
}

/// The tokens of a text. `NotYet` where a byte is of no token and no white space.
pub fn tokens(alloc: Global, text: &[u8]) -> Result<Vec<Token>, ScriptStop>
    ensures found { IfOk result (λ v. AreTokens text.now v.items) }
    // A text of tokens is read as those, unless memory runs out.
    ensures only { (ts : List Token) → AreTokens text.now ts
        → MatchResult result (λ v. v.items ≡ ts) (λ e. e ≡ ScriptStop.Memory) }
{
    let mut found = Vec::new(alloc);
    let mut rest = after_white(text);
    while !rest.is_empty() {
        let (token, after) = first_token(alloc, rest)?;
        found.push(token)?;
        rest = after_white(after);
    }
    Ok(found)
}

/// The token that a text begins with, and what follows it.
fn first_token(alloc: Global, text: &[u8]) -> Result<(Token, &[u8]), ScriptStop>
    requires some { 0 < length text.now }
    requires no_white { Ends IsWhite text.now }
    ensures found { IfOk result (λ x. Leads text.now (x.0 ∷ []) x.1.now) }
    ensures shorter { IfOk result (λ x. length x.1.now < length text.now) }
    ensures none { IsErrOf result ScriptStop.NotYet
        → (ts : List Token) → AreTokens text.now ts → ⊥ }
{
    let first = text[0];
    if is_mark(first) {
        let (_, after) = text.split_at(1);
        return Ok((Token::Mark(first), after));
    }
    let (word, after) = text.split_at(word_len(text));
    if word.is_empty() {
        return Err(ScriptStop::NotYet);
    }
    // A word is ASCII, so it is a text.
    let word = Text::from_bytes(alloc, word)?.unwrap();
    Ok((Token::Word(word), after))
}

/// What follows the white space at the front of a text.
fn after_white(text: &[u8]) -> &[u8]
    ensures { SkipsWhite text.now result.now }
{
    let (_, rest) = text.split_at(white_len(text));
    rest
}

/// How many bytes at the front of a text are white space.
fn white_len(text: &[u8]) -> usize
    ensures within { result ≤ length text.now }
    ensures before { (k : ℕ) → k < result → IsWhite (slice_index text.now k) }
    ensures ends { result < length text.now → IsWhite (slice_index text.now result) → ⊥ }
{
    for (i, byte) in text.iter().enumerate() {
        if !is_white(*byte) {
            return i;
        }
    }
    text.len()
}

/// How many bytes at the front of a text are of a word.
fn word_len(text: &[u8]) -> usize
    ensures within { result ≤ length text.now }
    ensures before { (k : ℕ) → k < result → IsWordByte (slice_index text.now k) }
    ensures ends { result < length text.now → IsWordByte (slice_index text.now result) → ⊥ }
{
    for (i, byte) in text.iter().enumerate() {
        if !is_word_byte(*byte) {
            return i;
        }
    }
    text.len()
}

fn is_white(byte: u8) -> bool
    ensures { IsTrue result ↔ IsWhite byte }
{
    matches!(byte, b' ' | b'\t' | b'\n' | 0x0c | b'\r')
}

fn is_word_byte(byte: u8) -> bool
    ensures { IsTrue result ↔ IsWordByte byte }
{
    matches!(byte, b'A'..=b'Z' | b'a'..=b'z' | b'0'..=b'9' | b'_' | b'$')
}

fn is_mark(byte: u8) -> bool
    ensures { IsTrue result ↔ IsMark byte }
{
    matches!(byte, b'{' | b'}' | b'(' | b')' | b';' | b'.')
}
