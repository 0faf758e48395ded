//! Files in memory, which fail where they are told to.

ghost use Rattle.std.specs.Prelude.{◌≡◌, ℕ, ◌≤◌, [], ◌∷◌, ◌++◌, List, Option, Some, map, take};
ghost use Rattle.std.specs.Prelude.{vec_len, IfOk, IfSome, IsErrOf, IsTrue, OnOk, OnErr, ◌⊎◌, ◌↔◌};
ghost use Rattle.std.specs.Option.{option_map};
ghost use Rattle.std.specs.String.{string_bytes};
ghost use Rattle.std.specs.FinMap.{get, insert};
ghost use Rattle.je_base.specs.Count.{raised, HasFault};
ghost use Rattle.je_base.specs.Files.{Contents, Tells, AsksAndCounts, KeepsOthers};
ghost use Rattle.je_base.specs.MemFiles.{no_files, FailsNext, HasRoomFor, after_read};
ghost use Rattle.je_base.specs.MemFiles.{after_failed_read, after_write, after_failed_write};

use crate::count::raised;
use crate::files::Files;
use crate::stop::{Failed, FileStop, Memory};
use crate::store::Store;
use std::alloc::Global;
use std::marker::Model;

/// Files in memory. They tell everything, and fail exactly at the calls whose numbers were given to
/// `fail_at`, and at a write for which the room left is too small.
#[derive(Debug, Drop)]
pub struct MemFiles {
    alloc: Global,
    store: Store,
    asked: Vec<String>,
    failing: Vec<u64>,
    reads: u64,
    writes: u64,
    calls: u64,
    faults: u64,
}

impl Model for MemFiles {
    ghost use Rattle.std.specs.Prelude.{map};
    ghost use Rattle.std.specs.String.{string_bytes};
    ghost use Rattle.je_base.specs.MemFiles.{FilesState, coded_files};

    ghost Value = { FilesState };

    ghost coded = { coded_files };

    ghost view = { λ f. record {
      contents = f.store.contents;
      asked = map string_bytes f.asked.items;
      reads = f.reads;
      writes = f.writes;
      calls = f.calls;
      faults = f.faults;
      failing = f.failing.items;
      spare_writes = f.store.writes;
      spare_bytes = f.store.bytes;
    } };
}

impl MemFiles {
    /// No files, no room and no faults.
    pub fn new(alloc: Global) -> MemFiles
        ensures { result ≡ no_files }
    {
        MemFiles {
            alloc,
            store: Store::new(alloc),
            asked: Vec::new(alloc),
            failing: Vec::new(alloc),
            reads: 0,
            writes: 0,
            calls: 0,
            faults: 0,
        }
    }

    /// Puts a content at a path, in place of an older one. This is no write, and leaves the room.
    ///
    /// # Errors
    ///
    /// `Memory` where memory runs out.
    pub fn add(&mut self, path: &str, bytes: &[u8]) -> Result<(), Memory>
        ensures ok { OnOk result (self.new
            ≡ record self.old { contents = insert self.old.contents path.now bytes.now }) }
        ensures err { OnErr result (self.new ≡ self.old) }
    {
        self.store.add(path, bytes)
    }

    /// Makes the call of this number fail. Reads and writes are numbered together, from 1.
    ///
    /// # Errors
    ///
    /// `Memory` where memory runs out.
    pub fn fail_at(&mut self, call: u64) -> Result<(), Memory>
        ensures ok { OnOk result (self.new
            ≡ record self.old { failing = self.old.failing ++ call ∷ [] }) }
        ensures err { OnErr result (self.new ≡ self.old) }
    {
        self.failing.push(call)?;
        Ok(())
    }

    /// Makes room for so many further writes, whose paths and contents have so many bytes in all.
    /// This is then the room left.
    ///
    /// # Errors
    ///
    /// `Memory` where memory runs out.
    pub fn room(&mut self, writes: usize, bytes: usize) -> Result<(), Memory>
        ensures ok { OnOk result (self.new
            ≡ record self.old { spare_writes = writes; spare_bytes = bytes }) }
        ensures err { OnErr result (self.new ≡ self.old) }
    {
        self.store.reserve(writes, bytes)
    }

    /// What lies at a path.
    pub fn content(&self, path: &str) -> Option<&[u8]>
        ensures { option_map (λ content. content.now) result ≡ get self.now.contents path.now }
    {
        self.store.content(path)
    }

    /// The paths that were read, in order.
    pub fn asked(&self) -> &[String]
        ensures { map string_bytes result.now ≡ self.now.asked }
    {
        &self.asked
    }

    /// How many reads there were.
    pub fn reads(&self) -> u64
        ensures { result ≡ self.now.reads }
    {
        self.reads
    }

    /// How many writes there were.
    pub fn writes(&self) -> u64
        ensures { result ≡ self.now.writes }
    {
        self.writes
    }

    /// How many reads and writes failed.
    pub fn faults(&self) -> u64
        ensures { result ≡ self.now.faults }
    {
        self.faults
    }

    /// Whether the next call was told to fail.
    fn fails_next(&self) -> bool
        ensures { IsTrue result ↔ FailsNext self.now }
    {
        self.failing.contains(&raised(self.calls))
    }

    /// Whether the room left suffices for a write.
    fn has_room_for(&self, path: &str, bytes: &[u8]) -> bool
        ensures { IsTrue result ↔ HasRoomFor self.now path.now bytes.now }
    {
        self.store.has_room(path, bytes)
    }
}

impl Files for MemFiles {
    ghost contents = { λ f. Some f.contents };

    ghost asked = { λ f. Some f.asked };

    ghost reads = { λ f. f.reads };

    ghost writes = { λ f. f.writes };

    ghost faults = { λ f. f.faults };

    fn read(&mut self, path: &str, limit: usize) -> Result<Option<Vec<u8>>, FileStop>
        // It fails exactly where it was told to.
        ensures answers { OnOk result (FailsNext self.old → ⊥) }
        ensures fails { IsErrOf result FileStop.Failed → FailsNext self.old }

        // The files after it, which are as they were where memory ran out.
        ensures after { OnOk result (self.new ≡ after_read self.old path.now) }
        ensures after_failed { IsErrOf result FileStop.Failed
            → self.new ≡ after_failed_read self.old path.now }
        ensures after_memory { IsErrOf result FileStop.Memory → self.new ≡ self.old }

        // What each read does.
        ensures told { IfOk result (Tells (Some self.old.contents) path.now limit) }
        ensures within { IfOk result (λ found. IfSome found (λ bytes. vec_len bytes ≤ limit)) }
        ensures asked { AsksAndCounts path.now result
            (Some self.old.asked) self.old.reads (Some self.new.asked) self.new.reads }
        ensures reads { self.old.reads ≤ self.new.reads }
        ensures contents { Some self.new.contents ≡ Some self.old.contents }
        ensures writes { self.new.writes ≡ self.old.writes }
        ensures faults { self.old.faults ≤ self.new.faults }
        ensures failed { IsErrOf result FileStop.Failed → HasFault self.old.faults self.new.faults }
    {
        let asked = String::from_str(self.alloc, path).map_err(Memory::from)?;
        let found = front_at(self.alloc, &self.store, path, limit)?;
        let fails = self.fails_next();
        self.asked.push(asked).map_err(Memory::from)?;
        self.calls = raised(self.calls);
        self.reads = raised(self.reads);
        if fails {
            self.faults = raised(self.faults);
            return Err(FileStop::Failed);
        }
        Ok(found)
    }

    fn write(&mut self, path: &str, bytes: &[u8]) -> Result<(), Failed>
        // It is done exactly where it was not told to fail and the room suffices.
        ensures answers { OnOk result (FailsNext self.old → ⊥) }
        ensures fits { OnOk result (HasRoomFor self.old path.now bytes.now) }
        ensures not_done { OnErr result
            (FailsNext self.old ⊎ (HasRoomFor self.old path.now bytes.now → ⊥)) }

        // The files after it.
        ensures after { OnOk result (self.new ≡ after_write self.old path.now bytes.now) }
        ensures after_failed { OnErr result (self.new ≡ after_failed_write self.old) }

        // What each write does.
        ensures ok { OnOk result (Some self.new.contents
            ≡ option_map (λ files. insert files path.now bytes.now) (Some self.old.contents)) }
        ensures others { KeepsOthers path.now (Some self.old.contents) (Some self.new.contents) }
        ensures counted { self.new.writes ≡ raised self.old.writes }
        ensures writes { self.old.writes ≤ self.new.writes }
        ensures asked { Some self.new.asked ≡ Some self.old.asked }
        ensures reads { self.new.reads ≡ self.old.reads }
        ensures faults { self.old.faults ≤ self.new.faults }
        ensures failed { OnErr result (HasFault self.old.faults self.new.faults) }
    {
        let fails = self.fails_next() || !self.has_room_for(path, bytes);
        self.calls = raised(self.calls);
        self.writes = raised(self.writes);
        if fails {
            self.faults = raised(self.faults);
            return Err(Failed);
        }
        self.store.put(path, bytes);
        Ok(())
    }
}

/// A copy of the first `limit` bytes of what lies at a path.
fn front_at(
    alloc: Global,
    store: &Store,
    path: &str,
    limit: usize,
) -> Result<Option<Vec<u8>>, Memory>
    ensures { IfOk result (λ found. option_map (λ v. v.items) found
        ≡ option_map (take limit) (get store.now.contents path.now)) }
{
    match store.content(path) {
        None => Ok(None),
        Some(content) => {
            let front = &content[..limit.min(content.len())];
            Ok(Some(Vec::from_slice(alloc, front)?))
        }
    }
}
