//! What became of methods that were read and written again.

use crate::code_parts::MethodFault;
use crate::files::{Stop, put_text};
use je_base::Sink;
use std::alloc::Global;

/// What became of a method.
#[derive(Clone, Copy, Debug, PartialEq, Eq)]
pub enum Verdict {
    /// What is written are the bytes that were read, or it is read as they were.
    Same,
    /// What is written are other bytes, which are the same program.
    Moved,
    /// It is not read.
    Refused(MethodFault),
    /// It is not written, or is read as something else.
    Differs,
}

/// How often each verdict came.
#[derive(Clone, Copy, Debug)]
pub struct Counts {
    pub same: usize,
    pub moved: usize,
    pub refused: usize,
    pub differ: usize,
}

impl Counts {
    /// No verdict yet.
    pub fn none() -> Counts {
        Counts {
            same: 0,
            moved: 0,
            refused: 0,
            differ: 0,
        }
    }

    /// Counts one more.
    pub fn add(&mut self, verdict: Verdict) {
        let count = match verdict {
            Verdict::Same => &mut self.same,
            Verdict::Moved => &mut self.moved,
            Verdict::Refused(_) => &mut self.refused,
            Verdict::Differs => &mut self.differ,
        };
        *count = count.saturating_add(1);
    }
}

/// Puts a line where a method is refused or differs.
pub fn put_verdict<O: Sink>(
    alloc: Global,
    out: &mut O,
    path: &str,
    method: &str,
    verdict: Verdict,
) -> Result<(), Stop> {
    match verdict {
        Verdict::Same | Verdict::Moved => Ok(()),
        Verdict::Refused(fault) => {
            let words = fault.words(alloc)?;
            put_text(
                out,
                format!(in alloc; "refused {path} {method} {words}\n")?.as_str(),
            )
        }
        Verdict::Differs => put_text(
            out,
            format!(in alloc; "differs {path} {method}\n")?.as_str(),
        ),
    }
}
