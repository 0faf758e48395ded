//! The tokens of a text.

ghost use Rattle.std.specs.Prelude.{◌≡◌, ◌≤◌, ◌<◌, ◌+◌, ◌++◌, ◌^◌, length, take, drop};
ghost use Rattle.std.specs.Prelude.{IfOk, OnOk, Ok, MatchResult};
ghost use Rattle.std.specs.Option.{option_to_list};
ghost use Rattle.std.specs.Str.{chars};
ghost use Rattle.je_tokens.specs.Places.{byte_count, place_after};
ghost use Rattle.je_tokens.specs.Reading.{IsFault};
ghost use Rattle.je_tokens.specs.Slices.{AreSlices};
ghost use Rattle.je_tokens.specs.Tokens.{is_minus, tokens_of};
ghost use Rattle.je_tokens.specs.Cutting.{Steps};

use crate::pieces::{Piece, piece_at};
use crate::places::{Place, first_place, place_after};
use crate::syntax::{Syntax, SyntaxKind};
use crate::token::{Token, TokenKind};
use je_base::Memory;
use std::alloc::Global;

/// What is left of a text.
#[derive(Clone, Copy, Debug)]
struct Rest<'a> {
    text: &'a [char],
    place: Place,
    /// The token before it is `-`.
    negative: bool,
}

/// The tokens of a text.
///
/// # Errors
///
/// The first fault of the text, at the first character of its token or comment, and `Memory` where
/// memory runs out.
pub fn tokens(alloc: Global, text: &str) -> Result<Vec<Token>, Syntax>
    ensures all { let all = tokens_of (chars text.now) in
        MatchResult result (λ v. all ≡ Ok v.items) (λ fault. IsFault fault all) }

    // Each token is a slice of the text.
    ensures slices { IfOk result (λ v. AreSlices (chars text.now) v.items) }
{
    let place = first_place();
    let characters = match characters(alloc, text) {
        Ok(characters) => characters,
        Err(_) => return Err(no_memory(place)),
    };
    let mut found = Vec::new(alloc);
    let mut rest = Rest {
        text: characters.as_slice(),
        place,
        negative: false,
    };
    while !rest.text.is_empty() {
        let (behind, token) = match step(alloc, rest) {
            Ok(next) => next,
            Err(fault) => return Err(fault),
        };
        if put(&mut found, token).is_err() {
            return Err(no_memory(place));
        }
        rest = behind;
    }
    Ok(found)
}

/// The characters of a text.
fn characters(alloc: Global, text: &str) -> Result<Vec<char>, Memory>
    ensures all { IfOk result (λ v. v.items ≡ chars text.now) }
    ensures fits { IfOk result (λ v. byte_count v.items < 2 ^ 64) }
{
    // All bytes can be counted.
    let _bytes = text.len();
    let characters = text.chars().collect(alloc)?;
    Ok(characters)
}

/// What follows the piece at the front, and the token that it is.
fn step(alloc: Global, rest: Rest<'_>) -> Result<(Rest<'_>, Option<Token>), Syntax>
    requires some { 0 < length rest.text.now }
    requires fits { rest.place.offset + byte_count rest.text.now < 2 ^ 64 }
    ensures found { Steps rest.entry result }
    ensures shorter { IfOk result (λ x. length x.0.text.now < length rest.entry.text.now) }
    ensures fits { IfOk result (λ x. x.0.place.offset + byte_count x.0.text.now < 2 ^ 64) }
{
    let piece = match piece_at(alloc, rest.negative, rest.text) {
        Ok(piece) => piece,
        Err(kind) => {
            return Err(Syntax {
                pos: rest.place.pos,
                kind,
            });
        }
    };
    match piece {
        Piece::Gap(len) => Ok((behind(rest, len, rest.negative), None)),
        Piece::Lexeme(len, kind) => {
            let behind = behind(rest, len, is_minus(&kind));
            let token = Token {
                start: rest.place.offset,
                end: behind.place.offset,
                pos: rest.place.pos,
                kind,
            };
            Ok((behind, Some(token)))
        }
    }
}

/// What follows so many characters.
fn behind(rest: Rest<'_>, len: usize, negative: bool) -> Rest<'_>
    requires within { len ≤ length rest.text.now }
    requires fits { rest.place.offset + byte_count rest.text.now < 2 ^ 64 }
    ensures text { result.text.now ≡ drop len rest.entry.text.now }
    ensures place { result.place ≡ place_after rest.entry.place (take len rest.entry.text.now) }
    ensures negative { result.negative ≡ negative }
    ensures fits { result.place.offset + byte_count result.text.now < 2 ^ 64 }
{
    let (front, text) = rest.text.split_at(len);
    Rest {
        text,
        place: place_after(rest.place, front),
        negative,
    }
}

/// Whether a token is the mark `-`.
fn is_minus(kind: &TokenKind) -> bool
    ensures { result ≡ is_minus kind.now }
{
    match kind {
        TokenKind::Mark(mark) => mark.bytes() == b"-".as_slice(),
        TokenKind::Ident(_) => false,
        TokenKind::Reserved(_) => false,
        TokenKind::Dollar(_) => false,
        TokenKind::Whole(_, _, _) => false,
        TokenKind::Character(_) => false,
        TokenKind::Literal(_) => false,
    }
}

/// Adds a token, where there is one.
fn put(found: &mut Vec<Token>, token: Option<Token>) -> Result<(), Memory>
    ensures { OnOk result (found.new.items ≡ found.old.items ++ option_to_list token) }
{
    if let Some(token) = token {
        found.push(token)?;
    }
    Ok(())
}

fn no_memory(place: Place) -> Syntax
    ensures { result.kind ≡ SyntaxKind.Memory }
{
    Syntax {
        pos: place.pos,
        kind: SyntaxKind::Memory,
    }
}
