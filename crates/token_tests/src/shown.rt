use je_tokens::{Syntax, Token, TokenKind, tokens};
use std::test::Fail;

/// The tokens of a text, each as its bytes, its position and what it says, or the first fault.
pub fn shown(rt: &HostRuntime, text: &str) -> Result<String, Fail> {
    match tokens(rt.alloc(), text) {
        Ok(found) => all(rt, &found),
        Err(Syntax { pos, kind }) => {
            Ok(format!(in rt.alloc(); "{}:{} {kind:?}", pos.line, pos.column)?)
        }
    }
}

fn all(rt: &HostRuntime, found: &[Token]) -> Result<String, Fail> {
    let mut all = String::new(rt.alloc());
    for token in found {
        if !all.is_empty() {
            all.push_str(", ")?;
        }
        let Token {
            start,
            end,
            pos,
            kind,
        } = token;
        let line = pos.line;
        let column = pos.column;
        let said = said(rt, kind)?;
        all.push_str(&format!(in rt.alloc(); "{start}-{end} {line}:{column} {said}")?)?;
    }
    Ok(all)
}

fn said(rt: &HostRuntime, kind: &TokenKind) -> Result<String, Fail> {
    let alloc = rt.alloc();
    Ok(match kind {
        TokenKind::Ident(text) => format!(in alloc; "ident {}", text.show()?)?,
        TokenKind::Reserved(text) => format!(in alloc; "reserved {}", text.show()?)?,
        TokenKind::Dollar(text) => format!(in alloc; "dollar {}", text.show()?)?,
        TokenKind::Whole(value, long, decimal) => {
            let sort = match (*long, *decimal) {
                (true, true) => "long decimal",
                (true, false) => "long",
                (false, true) => "decimal",
                (false, false) => "int",
            };
            format!(in alloc; "{value} {sort}")?
        }
        TokenKind::Character(code) => format!(in alloc; "character {code}")?,
        TokenKind::Literal(text) => format!(in alloc; "string {}", text.show()?)?,
        TokenKind::Mark(text) => format!(in alloc; "{}", text.show()?)?,
    })
}

/// Whether a text has these tokens or this fault.
pub fn is(rt: &HostRuntime, text: &str, wanted: &str) -> Result<bool, Fail> {
    Ok(shown(rt, text)?.as_str() == wanted)
}
