ghost use Rattle.std.specs.Prelude.{◌≡◌, ℕ, ◌≤◌, List, Option, Some, vec_len, IfOk, IfSome};
ghost use Rattle.std.specs.Prelude.{IsErrOf, OnOk, OnErr};
ghost use Rattle.std.specs.Option.{option_map};
ghost use Rattle.std.specs.FinMap.{insert};
ghost use Rattle.je_base.specs.Count.{raised, HasFault};
ghost use Rattle.je_base.specs.Files.{Contents, Tells, AsksAndCounts, KeepsOthers};

use crate::stop::{Failed, FileStop};

/// Files that are read and written whole, each under a path.
///
/// The counts never fall, and stand still at the last value of a `u64`.
pub trait Files {
    /// What lies at each path, where that is told.
    ghost contents: { Self → Option Contents };

    /// The paths that were read, in order, where they are told.
    ghost asked: { Self → Option (List (List ℕ)) };

    /// How many reads there were.
    ghost reads: { Self → ℕ };

    /// How many writes there were, whatever each of them answered.
    ghost writes: { Self → ℕ };

    /// How many failures there were.
    ghost faults: { Self → ℕ };

    /// Reads the first `limit` bytes of the file at `path`, or answers `None` where there is no
    /// file.
    ///
    /// # Errors
    ///
    /// `FileStop::Failed` where the file cannot be read, with a fault on record, and
    /// `FileStop::Memory` where memory runs out.
    fn read(&mut self, path: &str, limit: usize) -> Result<Option<Vec<u8>>, FileStop>
        ensures told { IfOk result (Tells (contents self.old) path.now limit) }
        ensures within { IfOk result (λ found. IfSome found (λ bytes. vec_len bytes ≤ limit)) }
        ensures asked { AsksAndCounts path.now result
            (asked self.old) (reads self.old) (asked self.new) (reads self.new) }
        ensures reads { reads self.old ≤ reads self.new }

        // A read changes nothing that is written.
        ensures contents { contents self.new ≡ contents self.old }
        ensures writes { writes self.new ≡ writes self.old }

        // It fails only with a fault on record.
        ensures faults { faults self.old ≤ faults self.new }
        ensures failed { IsErrOf result FileStop.Failed
            → HasFault (faults self.old) (faults self.new) };

    /// Makes `bytes` the file at `path`.
    ///
    /// # Errors
    ///
    /// `Failed` where the file cannot be written, with a fault on record. What that one file holds
    /// then is open.
    fn write(&mut self, path: &str, bytes: &[u8]) -> Result<(), Failed>
        ensures ok { OnOk result (contents self.new
            ≡ option_map (λ files. insert files path.now bytes.now) (contents self.old)) }
        ensures others { KeepsOthers path.now (contents self.old) (contents self.new) }
        ensures counted { writes self.new ≡ raised (writes self.old) }
        ensures writes { writes self.old ≤ writes self.new }

        // A write reads nothing.
        ensures asked { asked self.new ≡ asked self.old }
        ensures reads { reads self.new ≡ reads self.old }

        // It fails only with a fault on record.
        ensures faults { faults self.old ≤ faults self.new }
        ensures failed { OnErr result (HasFault (faults self.old) (faults self.new)) };
}
