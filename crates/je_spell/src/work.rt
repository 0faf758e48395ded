//! What is done with each line.

use je_base::Memory;
use je_type::{method_text, parse_field, parse_method, text};
use std::alloc::Global;

/// What is done with each line.
#[derive(Clone, Copy, Debug, PartialEq, Eq)]
pub(crate) enum Work {
    /// It is read as a descriptor and written again.
    Types,
    /// Its bytes are copied.
    Copies,
}

impl Work {
    /// The work that a word names.
    pub(crate) fn of(word: &str) -> Option<Work> {
        match word {
            "types" => Some(Work::Types),
            "copies" => Some(Work::Copies),
            _ => None,
        }
    }

    /// Whether each line came out as it was, in all rounds.
    pub(crate) fn rounds(self, alloc: Global, rounds: u32, content: &[u8]) -> Result<bool, Memory> {
        let mut same = true;
        for _ in 0..rounds {
            for line in content.split(|byte| *byte == b'\n') {
                same &= self.is_same(alloc, line)?;
            }
        }
        Ok(same)
    }

    /// Whether a line comes out as it was.
    fn is_same(self, alloc: Global, line: &[u8]) -> Result<bool, Memory> {
        match self {
            Work::Types => is_written(alloc, line),
            Work::Copies => Ok(Vec::from_slice(alloc, line)?.as_slice().len() == line.len()),
        }
    }
}

/// Whether a line is a descriptor and is written as it was read.
fn is_written(alloc: Global, line: &[u8]) -> Result<bool, Memory> {
    let written = if line.first() == Some(&b'(') {
        match parse_method(alloc, line)? {
            Some(m) => method_text(alloc, &m)?,
            None => return Ok(false),
        }
    } else {
        match parse_field(alloc, line)? {
            Some(t) => text(alloc, &t)?,
            None => return Ok(false),
        }
    };
    Ok(written.bytes().len() == line.len())
}
