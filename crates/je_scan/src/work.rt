//! What is done with the text.

use je_tokens::{SyntaxKind, tokens};
use std::alloc::Global;

/// What is done with the text.
#[derive(Clone, Copy, Debug, PartialEq, Eq)]
pub(crate) enum Work {
    /// It is cut into tokens.
    Tokens,
    /// Its characters are gone over.
    Characters,
}

/// How a round ends.
#[derive(Clone, Copy, Debug, PartialEq, Eq)]
pub(crate) enum End {
    Done,
    Fault,
    Memory,
}

impl Work {
    /// The work that a word names.
    pub(crate) fn of(word: &str) -> Option<Work> {
        match word {
            "tokens" => Some(Work::Tokens),
            "characters" => Some(Work::Characters),
            _ => None,
        }
    }

    /// How so many rounds end; one that is not done is the last.
    pub(crate) fn rounds(self, alloc: Global, rounds: u32, text: &str) -> End {
        for _ in 0..rounds {
            let end = self.round(alloc, text);
            if end != End::Done {
                return end;
            }
        }
        End::Done
    }

    /// One round.
    fn round(self, alloc: Global, text: &str) -> End {
        match self {
            Work::Tokens => cut(alloc, text),
            Work::Characters => gone_over(text),
        }
    }
}

/// The text is cut into tokens.
fn cut(alloc: Global, text: &str) -> End {
    match tokens(alloc, text) {
        Ok(_) => End::Done,
        Err(syntax) => match syntax.kind {
            SyntaxKind::Memory => End::Memory,
            _ => End::Fault,
        },
    }
}

/// The characters of the text are gone over. That a text has none that is NUL keeps the pass.
fn gone_over(text: &str) -> End {
    for c in text.chars() {
        if c == '\0' {
            return End::Fault;
        }
    }
    End::Done
}
