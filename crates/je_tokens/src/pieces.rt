//! What a text begins with.

ghost use Rattle.std.specs.Prelude.{◌≡◌, ◌≤◌, ◌+◌, ◌<◌, length, IfOk, IfSome};
ghost use Rattle.je_tokens.specs.Pieces.{size, before_end, comment_at, other_at, piece_at};
ghost use Rattle.je_tokens.specs.Reading.{Gives, IsWithin};

use crate::characters::{begins_name, is_digit, is_white, line_len, white_len};
use crate::literals::{character_at, string_at};
use crate::marks::mark_at;
use crate::numbers::{begins_digit, number_at};
use crate::syntax::SyntaxKind;
use crate::token::TokenKind;
use crate::words::{dollar_at, word_at};
use std::alloc::Global;

/// A piece of a text, with the number of its characters.
#[derive(Debug, Drop)]
pub enum Piece {
    /// White space, or a comment.
    Gap(usize),
    /// A token.
    Lexeme(usize, TokenKind),
}

/// The first piece of a text.
#[tactic(auto, unfolding(crate::specs::Pieces::piece_at))]
pub fn piece_at(alloc: Global, negative: bool, text: &[char]) -> Result<Piece, SyntaxKind>
    requires { 0 < length text.now }
    ensures found { Gives result (piece_at negative text.now) }
    ensures within { IfOk result (λ piece. IsWithin (size piece) text.now) }
{
    let c = text[0];
    if is_white(c) {
        return Ok(Piece::Gap(white_len(text)));
    }
    if text.starts_with(&['/', '/']) {
        return Ok(Piece::Gap(line_len(text)));
    }
    if text.starts_with(&['/', '*']) {
        return comment_at(text.split_at(2).1);
    }
    if begins_name(c) {
        return word_at(alloc, text);
    }
    if c == '$' {
        return dollar_at(alloc, text);
    }
    other_at(alloc, negative, text)
}

/// What is no white space, comment or word.
#[tactic(auto, unfolding(crate::specs::Pieces::other_at))]
fn other_at(alloc: Global, negative: bool, text: &[char]) -> Result<Piece, SyntaxKind>
    requires { 0 < length text.now }
    ensures found { Gives result (other_at negative text.now) }
    ensures within { IfOk result (λ piece. IsWithin (size piece) text.now) }
{
    let (c, behind) = text.split_first().unwrap();
    if is_digit(*c) {
        return number_at(negative, text);
    }
    if *c == '\'' {
        return character_at(alloc, behind);
    }
    if *c == '"' {
        return string_at(alloc, behind);
    }
    if *c == '.' && begins_digit(behind) {
        return Err(SyntaxKind::FloatNumber);
    }
    mark_at(alloc, text)
}

/// The comment of which this stands behind its `/*`.
#[tactic(auto, unfolding(crate::specs::Pieces::comment_at))]
fn comment_at(text: &[char]) -> Result<Piece, SyntaxKind>
    ensures found { Gives result (comment_at text.now) }
    ensures within { IfOk result (λ piece. (0 < size piece) × (size piece ≤ length text.now + 2)) }
{
    match before_end(text) {
        None => Err(SyntaxKind::Unclosed),
        Some(len) => Ok(Piece::Gap(len + 4)),
    }
}

/// How many characters stand before the first `*/`.
fn before_end(text: &[char]) -> Option<usize>
    ensures found { result ≡ before_end text.now }
    ensures within { IfSome result (λ n. n + 2 ≤ length text.now) }
{
    let mut before: usize = 0;
    let mut rest = text;
    while let Some((_, behind)) = rest.split_first() {
        if rest.starts_with(&['*', '/']) {
            return Some(before);
        }
        before += 1;
        rest = behind;
    }
    None
}
