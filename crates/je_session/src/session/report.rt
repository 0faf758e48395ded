//! Why a run stopped, and the line that tells it.

ghost use Rattle.std.specs.Prelude.{◌≡◌, IfOk, OnErr, string_bytes};
ghost use Rattle.je_session.specs.Cause.{NoScript, NotYetScript, NoClass, BadClass, WrongName};
ghost use Rattle.je_session.specs.Cause.{NotYetClass, NoLine, Refuses, ReadingFailed, NoMemory};
ghost use Rattle.je_session.specs.Cause.{line_bytes, refusal_line, TellsCause, Tells};

use crate::status::Status;
use je_base::{Memory, Text};
use je_class::ClassFault;
use std::alloc::{AllocError, Global};

/// The line of a run whose words are not those of a command line.
const USAGE_LINE: &str =
    "usage: classedit [--path DIRS] [--out DIR] [--mode edit|check|list|gen] SCRIPT\n";

/// A line that stands in the program, or one that was made.
#[derive(Debug, Drop)]
pub enum Line {
    Fixed(&'static str),
    Made(String),
}

impl Line {
    /// The line with its line feed.
    pub fn bytes(&self) -> &[u8]
        ensures { result.now ≡ line_bytes self.now }
    {
        match self {
            Line::Fixed(text) => text.as_bytes(),
            Line::Made(text) => text.as_bytes(),
        }
    }
}

/// The status of a run that did not do its work, and its line.
#[derive(Debug, Drop)]
pub struct Stop {
    pub status: Status,
    pub line: Line,
}

impl Stop {
    /// The words are not those of a command line.
    pub fn usage() -> Stop
        ensures { TellsCause NoLine result }
    {
        Stop {
            status: Status::Usage,
            line: Line::Fixed(USAGE_LINE),
        }
    }

    /// There is no script at the path.
    pub fn no_script(alloc: Global, path: &str) -> Stop
        ensures { Tells (Refuses (NoScript path.now)) result }
    {
        Stop::of(Status::Refused, format!(in alloc; "no script {path}\n"))
    }

    /// The script is none of a form that is read.
    pub fn not_yet_script() -> Stop
        ensures { TellsCause (Refuses NotYetScript) result }
    {
        Stop {
            status: Status::Refused,
            line: Line::Fixed("not yet script\n"),
        }
    }

    /// There is no class of the name.
    pub fn no_class(alloc: Global, name: &Text) -> Stop
        ensures { Tells (Refuses (NoClass name.now)) result }
    {
        match name.show() {
            Ok(name) => Stop::of(Status::Refused, format!(in alloc; "no class {name}\n")),
            Err(Memory) => Stop::memory(),
        }
    }

    /// The file of the class of this name is no class file.
    pub fn bad_class(alloc: Global, name: &Text, fault: ClassFault) -> Stop
        ensures { Tells (Refuses (BadClass name.now fault)) result }
    {
        match bad_class_line(alloc, name, fault) {
            Ok(line) => Stop::made(Status::Refused, line),
            Err(Memory) => Stop::memory(),
        }
    }

    /// The file of the class of this name has a class of another name.
    pub fn wrong_name(alloc: Global, name: &Text, found: &Text) -> Stop
        ensures { Tells (Refuses (WrongName name.now found.now)) result }
    {
        match wrong_name_line(alloc, name, found) {
            Ok(line) => Stop::made(Status::Refused, line),
            Err(Memory) => Stop::memory(),
        }
    }

    /// The class is none of a form that is edited.
    pub fn not_yet_class() -> Stop
        ensures { TellsCause (Refuses NotYetClass) result }
    {
        Stop {
            status: Status::Refused,
            line: Line::Fixed("not yet class\n"),
        }
    }

    /// The file at the path could not be read.
    pub fn reading(alloc: Global, path: &str) -> Stop
        ensures { Tells (ReadingFailed path.now) result }
    {
        Stop::of(
            Status::Outside,
            format!(in alloc; "outside fault: reading {path}\n"),
        )
    }

    /// There was not enough memory.
    pub fn memory() -> Stop
        ensures { TellsCause NoMemory result }
    {
        Stop {
            status: Status::Memory,
            line: Line::Fixed("out of memory\n"),
        }
    }

    // The status and the line, or that there was no memory for the line.
    fn of(status: Status, line: Result<String, AllocError>) -> Stop
        ensures made { IfOk line (λ made. (result.status ≡ status)
            × (line_bytes result.line ≡ string_bytes made)) }
        ensures memory { OnErr line (TellsCause NoMemory result) }
    {
        match line {
            Ok(line) => Stop::made(status, line),
            Err(_) => Stop::memory(),
        }
    }

    fn made(status: Status, line: String) -> Stop
        ensures status { result.status ≡ status }
        ensures line { line_bytes result.line ≡ string_bytes line }
    {
        Stop {
            status,
            line: Line::Made(line),
        }
    }
}

fn bad_class_line(alloc: Global, name: &Text, fault: ClassFault) -> Result<String, Memory>
    ensures { IfOk result (λ line. string_bytes line ≡ refusal_line (BadClass name.now fault)) }
{
    let name = name.show()?;
    let words = fault.words(alloc)?;
    Ok(format!(in alloc; "bad class {name} {words}\n")?)
}

fn wrong_name_line(alloc: Global, name: &Text, found: &Text) -> Result<String, Memory>
    ensures { IfOk result (λ line.
        string_bytes line ≡ refusal_line (WrongName name.now found.now)) }
{
    let name = name.show()?;
    let found = found.show()?;
    Ok(format!(in alloc; "wrong name {name} found {found}\n")?)
}

impl From<AllocError> for Stop {
    ghost from_gives = { λ _ stop. TellsCause NoMemory stop };

    fn from(_e: AllocError) -> Stop {
        Stop::memory()
    }
}

impl From<Memory> for Stop {
    ghost from_gives = { λ _ stop. TellsCause NoMemory stop };

    fn from(_e: Memory) -> Stop {
        Stop::memory()
    }
}
