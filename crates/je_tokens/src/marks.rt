//! Operators and other marks.

ghost use Rattle.std.specs.Prelude.{◌≡◌, ◌≤◌, length, map, nat_eq, IfOk, IfSome};
ghost use Rattle.std.specs.List.{find, starts_with};
ghost use Rattle.std.specs.Option.{option_copied};
ghost use Rattle.je_tokens.specs.Pieces.{size};
ghost use Rattle.je_tokens.specs.Marks.{marks, mark_at};
ghost use Rattle.je_tokens.specs.Reading.{Gives, IsWithin};

use crate::characters::text_of;
use crate::pieces::Piece;
use crate::syntax::SyntaxKind;
use crate::token::TokenKind;
use std::alloc::Global;

/// The marks, longer ones first.
const MARKS: [&[char]; 47] = [
    &['>', '>', '>', '='],
    &['>', '>', '>'],
    &['<', '<', '='],
    &['>', '>', '='],
    &['+', '+'],
    &['-', '-'],
    &['&', '&'],
    &['|', '|'],
    &['=', '='],
    &['!', '='],
    &['<', '='],
    &['>', '='],
    &['<', '<'],
    &['>', '>'],
    &['+', '='],
    &['-', '='],
    &['*', '='],
    &['/', '='],
    &['%', '='],
    &['&', '='],
    &['|', '='],
    &['^', '='],
    &['{'],
    &['}'],
    &['('],
    &[')'],
    &['['],
    &[']'],
    &[';'],
    &[','],
    &['.'],
    &['='],
    &['?'],
    &[':'],
    &['#'],
    &['+'],
    &['-'],
    &['!'],
    &['~'],
    &['*'],
    &['/'],
    &['%'],
    &['&'],
    &['|'],
    &['^'],
    &['<'],
    &['>'],
];

/// The mark at the front, the longest.
#[tactic(auto, unfolding(crate::specs::Marks::mark_at))]
pub fn mark_at(alloc: Global, text: &[char]) -> Result<Piece, SyntaxKind>
    ensures found { Gives result (mark_at text.now) }
    ensures within { IfOk result (λ piece. IsWithin (size piece) text.now) }
{
    match first_mark(text) {
        None => Err(SyntaxKind::BadChar),
        Some(mark) => {
            let word = text_of(alloc, mark)?;
            Ok(Piece::Lexeme(mark.len(), TokenKind::Mark(word)))
        }
    }
}

/// The first of the marks with which the text begins.
fn first_mark(text: &[char]) -> Option<&'static [char]>
    ensures found { option_copied result ≡ find (λ mark. starts_with nat_eq text.now mark) marks }
    ensures within { IfSome result (λ mark. IsWithin (length mark.now) text.now) }
{
    first_of(text, &MARKS)
}

/// The first of some texts with which another begins.
fn first_of<'a>(text: &[char], words: &[&'a [char]]) -> Option<&'a [char]>
    ensures found { option_copied result
        ≡ find (λ word. starts_with nat_eq text.now word) (map (λ word. word.now) words.now) }
    ensures within { IfSome result (λ word. length word.now ≤ length text.now) }
{
    for word in words {
        if text.starts_with(word) {
            return Some(word);
        }
    }
    None
}
