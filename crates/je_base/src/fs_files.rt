//! The files of the real file system.

ghost use Rattle.std.specs.Prelude.{◌≡◌, ◌≢◌, ◌≤◌, None, vec_len, IfOk, IfErr, IfSome, IsErrOf};
ghost use Rattle.std.specs.Prelude.{IsOkAnd, IsSomeAnd, OnOk, OnErr};
ghost use Rattle.std.specs.IoError.{error_kind};
ghost use Rattle.je_base.specs.Count.{raised, HasFault};
ghost use Rattle.std.specs.Io.KnownBytes.{Appends};
ghost use Rattle.je_base.specs.Streams.{IsFrontOf, GainsAll};

use crate::count::raised;
use crate::files::Files;
use crate::stop::{Failed, FileStop};
use crate::stream::{read_front, write_whole};
use std::alloc::Global;
use std::io::{ErrorKind, Read, Write};
use std::marker::Model;
use std::path::Path;
use std::{fs, io, rt};

/// The files of the real file system, over the part `R` of the runtime that reaches them. They tell
/// no content and no paths.
#[derive(Drop)]
pub struct FsFiles<R> {
    alloc: Global,
    system: R,
    reads: u64,
    writes: u64,
    faults: u64,
}

impl<R> Model for FsFiles<R> {
    ghost use Rattle.je_base.specs.FsFiles.{FilesCounts};

    ghost Value = { FilesCounts };

    ghost view = { λ f. record { reads = f.reads; writes = f.writes; faults = f.faults } };
}

impl<R: rt::Files> FsFiles<R> {
    /// The files that `system` reaches, with no reads, writes or faults yet.
    pub fn new(alloc: Global, system: R) -> FsFiles<R>
        ensures { result ≡ record { reads = 0; writes = 0; faults = 0 } }
    {
        FsFiles {
            alloc,
            system,
            reads: 0,
            writes: 0,
            faults: 0,
        }
    }

    /// How many reads there were.
    pub fn reads(&self) -> u64
        ensures { result ≡ self.now.reads }
    {
        self.reads
    }

    /// How many writes there were.
    pub fn writes(&self) -> u64
        ensures { result ≡ self.now.writes }
    {
        self.writes
    }

    /// How many reads and writes answered an error.
    pub fn faults(&self) -> u64
        ensures { result ≡ self.now.faults }
    {
        self.faults
    }
}

impl<R: rt::Files> Files for FsFiles<R> {
    ghost contents = { λ _. None };

    ghost asked = { λ _. None };

    ghost reads = { λ f. f.reads };

    ghost writes = { λ f. f.writes };

    ghost faults = { λ f. f.faults };

    fn read(&mut self, path: &str, limit: usize) -> Result<Option<Vec<u8>>, FileStop>
        // Each error is on record, want of memory too.
        ensures no_fault { OnOk result (self.new.faults ≡ self.old.faults) }
        ensures fault { OnErr result (self.new.faults ≡ raised self.old.faults) }

        // What each read does.
        ensures within { IfOk result (λ found. IfSome found (λ bytes. vec_len bytes ≤ limit)) }
        ensures counted { self.new.reads ≡ raised self.old.reads }
        ensures reads { self.old.reads ≤ self.new.reads }
        ensures writes { self.new.writes ≡ self.old.writes }
        ensures faults { self.old.faults ≤ self.new.faults }
        ensures failed { IsErrOf result FileStop.Failed → HasFault self.old.faults self.new.faults }
    {
        self.reads = raised(self.reads);
        let found = read_file(self.alloc, &self.system, path, limit);
        if found.is_err() {
            self.faults = raised(self.faults);
        }
        found
    }

    fn write(&mut self, path: &str, bytes: &[u8]) -> Result<(), Failed>
        // Each error is on record.
        ensures no_fault { OnOk result (self.new.faults ≡ self.old.faults) }
        ensures fault { OnErr result (self.new.faults ≡ raised self.old.faults) }

        // What each write does.
        ensures counted { self.new.writes ≡ raised self.old.writes }
        ensures writes { self.old.writes ≤ self.new.writes }
        ensures reads { self.new.reads ≡ self.old.reads }
        ensures faults { self.old.faults ≤ self.new.faults }
        ensures failed { OnErr result (HasFault self.old.faults self.new.faults) }
    {
        self.writes = raised(self.writes);
        let done = write_file(&self.system, path, bytes).map(|_file| ());
        if done.is_err() {
            self.faults = raised(self.faults);
        }
        done
    }
}

/// The first `limit` bytes of a file, or `None` where there is none.
fn read_file<R: rt::Files>(
    alloc: Global,
    system: &R,
    path: &str,
    limit: usize,
) -> Result<Option<Vec<u8>>, FileStop>
    ensures { IfOk result (λ found. IfSome found (λ bytes. vec_len bytes ≤ limit)) }
{
    read_opened(alloc, fs::open(system, path), limit)
}

/// The first `limit` bytes of a file that is open, or `None` where there was none to open.
fn read_opened<S: Read + Drop>(
    alloc: Global,
    opened: io::Result<S>,
    limit: usize,
) -> Result<Option<Vec<u8>>, FileStop>
    ensures missing { IfErr opened (λ e. error_kind e ≡ ErrorKind.NotFound
        → IsOkAnd result (λ found. found ≡ None)) }
    ensures failed { IfErr opened (λ e. error_kind e ≢ ErrorKind.NotFound
        → IsErrOf result FileStop.Failed) }
    ensures front { IfOk opened (λ file. IfOk result (λ found. IsSomeAnd found
        (λ bytes. IsFrontOf (S.remaining file) limit bytes.items))) }
    ensures within { IfOk result (λ found. IfSome found (λ bytes. vec_len bytes ≤ limit)) }
{
    match opened {
        Ok(file) => {
            let mut file = file;
            Ok(Some(read_front(alloc, &mut file, limit)?))
        }
        Err(e) if e.kind() == ErrorKind::NotFound => Ok(None),
        Err(_) => Err(FileStop::Failed),
    }
}

/// Makes the folders that are missing, and the file, and writes to it. Answers its stream.
fn write_file<R: rt::Files>(system: &R, path: &str, bytes: &[u8]) -> Result<R::File, Failed>
    ensures { IfOk result (λ file. GainsAll R.File.contents bytes.now file) }
{
    if let Some(folder) = Path::new(path).parent() {
        if fs::create_dir_all(system, folder).is_err() {
            return Err(Failed);
        }
    }
    write_created(fs::create(system, path), bytes)
}

/// Writes to a file that was made. Answers its stream, to which all the bytes were added.
fn write_created<W: Write + Drop>(created: io::Result<W>, bytes: &[u8]) -> Result<W, Failed>
    ensures gained { IfOk created (λ made. IfOk result (λ file.
        Appends (W.contents made) (W.contents file) bytes.now)) }
    ensures failed { OnErr created (OnOk result ⊥) }
{
    match created {
        Ok(file) => {
            let mut file = file;
            write_whole(&mut file, bytes)?;
            Ok(file)
        }
        Err(_) => Err(Failed),
    }
}
