//! Identifiers, reserved words and dollar names.

ghost use Rattle.std.specs.Prelude.{◌≡◌, IsTrue, IfOk};
ghost use Rattle.je_tokens.specs.Characters.{is_word};
ghost use Rattle.je_tokens.specs.Numbers.{begins};
ghost use Rattle.je_tokens.specs.Pieces.{size};
ghost use Rattle.je_tokens.specs.Reading.{Gives, IsWithin};
ghost use Rattle.je_tokens.specs.Words.{is_reserved, word_kind, word_at, dollar_at};

use crate::characters::{text_of, word_len};
use crate::pieces::Piece;
use crate::syntax::SyntaxKind;
use crate::token::TokenKind;
use je_base::Text;
use std::alloc::Global;

/// The reserved words of Java SE 8 (JLS 3.9), with `true`, `false` and `null`.
const RESERVED: [&[u8]; 53] = [
    b"abstract",
    b"assert",
    b"boolean",
    b"break",
    b"byte",
    b"case",
    b"catch",
    b"char",
    b"class",
    b"const",
    b"continue",
    b"default",
    b"do",
    b"double",
    b"else",
    b"enum",
    b"extends",
    b"final",
    b"finally",
    b"float",
    b"for",
    b"goto",
    b"if",
    b"implements",
    b"import",
    b"instanceof",
    b"int",
    b"interface",
    b"long",
    b"native",
    b"new",
    b"package",
    b"private",
    b"protected",
    b"public",
    b"return",
    b"short",
    b"static",
    b"strictfp",
    b"super",
    b"switch",
    b"synchronized",
    b"this",
    b"throw",
    b"throws",
    b"transient",
    b"try",
    b"void",
    b"volatile",
    b"while",
    b"true",
    b"false",
    b"null",
];

/// No name has more characters.
const MOST_CHARACTERS: usize = 1000;

/// The identifier or reserved word at the front.
#[tactic(auto, unfolding(crate::specs::Words::word_at))]
pub fn word_at(alloc: Global, text: &[char]) -> Result<Piece, SyntaxKind>
    requires { IsTrue (begins is_word text.now) }
    ensures found { Gives result (word_at text.now) }
    ensures within { IfOk result (λ piece. IsWithin (size piece) text.now) }
{
    let len = word_len(text);
    if len > MOST_CHARACTERS {
        return Err(SyntaxKind::NameTooLong);
    }
    let (word, _) = text.split_at(len);
    let word = text_of(alloc, word)?;
    Ok(Piece::Lexeme(len, word_kind(word)))
}

/// The dollar name at the front.
#[tactic(auto, unfolding(crate::specs::Words::dollar_at))]
pub fn dollar_at(alloc: Global, text: &[char]) -> Result<Piece, SyntaxKind>
    requires { IsTrue (begins is_word text.now) }
    ensures found { Gives result (dollar_at text.now) }
    ensures within { IfOk result (λ piece. IsWithin (size piece) text.now) }
{
    let len = word_len(text);
    if len > MOST_CHARACTERS {
        return Err(SyntaxKind::NameTooLong);
    }
    let (word, _) = text.split_at(len);
    let word = text_of(alloc, word)?;
    Ok(Piece::Lexeme(len, TokenKind::Dollar(word)))
}

#[tactic(auto, unfolding(crate::specs::Words::word_kind))]
fn word_kind(word: Text) -> TokenKind
    ensures { result ≡ word_kind word }
{
    if is_reserved(word.bytes()) {
        TokenKind::Reserved(word)
    } else {
        TokenKind::Ident(word)
    }
}

fn is_reserved(word: &[u8]) -> bool
    ensures { result ≡ is_reserved word.now }
{
    RESERVED.contains(&word)
}
