//! Files by their paths, and lines on standard output.

use je_base::{FileStop, Files, Memory, Run, Sink};
use je_class::{ClassFault, ClassFile, MOST_BYTES, read_class};
use std::alloc::{AllocError, Global};

/// Why the work stopped.
#[derive(Clone, Copy, Debug, PartialEq, Eq)]
pub enum Stop {
    /// A line could not be put.
    Output,
    /// There was not enough memory.
    Memory,
}

impl From<AllocError> for Stop {
    fn from(_e: AllocError) -> Stop {
        Stop::Memory
    }
}

impl From<Memory> for Stop {
    fn from(_e: Memory) -> Stop {
        Stop::Memory
    }
}

/// What is wrong with the file at a path.
#[derive(Clone, Copy, Debug, PartialEq, Eq)]
pub enum FileFault {
    /// There is none.
    NoFile,
    /// It was not read.
    NotRead,
    /// It is no class file.
    Class(ClassFault),
    /// There was not enough memory.
    Memory,
}

impl From<Memory> for FileFault {
    fn from(_e: Memory) -> FileFault {
        FileFault::Memory
    }
}

impl From<ClassFault> for FileFault {
    fn from(fault: ClassFault) -> FileFault {
        match fault {
            ClassFault::Memory => FileFault::Memory,
            fault => FileFault::Class(fault),
        }
    }
}

impl FileFault {
    /// The fault in words; where memory ran out, there are none.
    pub fn words(self, alloc: Global) -> Result<String, Memory> {
        match self {
            FileFault::NoFile => Ok(format!(in alloc; "no file")?),
            FileFault::NotRead => Ok(format!(in alloc; "not read")?),
            FileFault::Class(fault) => fault.words(alloc),
            FileFault::Memory => Err(Memory),
        }
    }
}

/// The bytes of the file at a path.
pub fn bytes_at<F: Files>(alloc: Global, path: &str, files: &mut F) -> Result<Run, FileFault> {
    match files.read(path, MOST_BYTES + 1) {
        Ok(Some(bytes)) => Ok(Run::of_vec(alloc, bytes)?),
        Ok(None) => Err(FileFault::NoFile),
        Err(FileStop::Failed) => Err(FileFault::NotRead),
        Err(FileStop::Memory) => Err(FileFault::Memory),
    }
}

/// The class file at a path.
pub fn class_at<F: Files>(
    alloc: Global,
    path: &str,
    files: &mut F,
) -> Result<ClassFile, FileFault> {
    let bytes = bytes_at(alloc, path, files)?;
    Ok(read_class(alloc, &bytes)?)
}

/// Puts a text.
pub fn put_text<O: Sink>(out: &mut O, text: &str) -> Result<(), Stop> {
    match out.put(text.as_bytes()) {
        Ok(()) => Ok(()),
        Err(_) => Err(Stop::Output),
    }
}

/// Puts the line `fault PATH FAULT`, unless memory ran out.
pub fn put_fault<O: Sink>(
    alloc: Global,
    out: &mut O,
    path: &str,
    fault: FileFault,
) -> Result<(), Stop> {
    let words = fault.words(alloc)?;
    put_text(out, format!(in alloc; "fault {path} {words}\n")?.as_str())
}
