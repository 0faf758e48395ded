ghost use Rattle.std.specs.Prelude.{◌≡◌, ℕ, ◌≤◌, ◌++◌, List, Option, OnOk, OnErr};
ghost use Rattle.std.specs.Option.{option_map};
ghost use Rattle.je_base.specs.Count.{raised, HasFault};
ghost use Rattle.je_base.specs.Sink.{GainsFront};

use crate::stop::Failed;

/// What takes bytes in pieces, as a standard stream does.
///
/// The counts never fall, and stand still at the last value of a `u64`.
pub trait Sink {
    /// The bytes put so far, where they are told.
    ghost bytes: { Self → Option (List ℕ) };

    /// How many puts there were, whatever each of them answered.
    ghost puts: { Self → ℕ };

    /// How many failures there were.
    ghost faults: { Self → ℕ };

    /// Adds `piece` at the end.
    ///
    /// # Errors
    ///
    /// `Failed` where the sink does not take the whole piece, with a fault on record. A front of
    /// the piece was added then, which may be empty or all of it.
    fn put(&mut self, piece: &[u8]) -> Result<(), Failed>
        ensures ok { OnOk result (bytes self.new
            ≡ option_map (λ taken. taken ++ piece.now) (bytes self.old)) }
        ensures front { GainsFront piece.now (bytes self.old) (bytes self.new) }
        ensures counted { puts self.new ≡ raised (puts self.old) }
        ensures puts { puts self.old ≤ puts self.new }

        // It fails only with a fault on record.
        ensures faults { faults self.old ≤ faults self.new }
        ensures failed { OnErr result (HasFault (faults self.old) (faults self.new)) };
}
