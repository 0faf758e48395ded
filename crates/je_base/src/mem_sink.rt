//! A sink in memory, which fails where it is told to.

ghost use Rattle.std.specs.Prelude.{◌≡◌, ℕ, ◌≤◌, [], ◌∷◌, ◌++◌, List, Option, Some, OnOk, OnErr};
ghost use Rattle.std.specs.Prelude.{◌⊎◌};
ghost use Rattle.std.specs.Option.{option_map};
ghost use Rattle.je_base.specs.Count.{raised, HasFault};
ghost use Rattle.je_base.specs.Sink.{GainsFront};
ghost use Rattle.je_base.specs.MemSink.{empty_sink, FailsNext, HasRoomFor, after_put};
ghost use Rattle.je_base.specs.MemSink.{after_failed_put};

use crate::count::raised;
use crate::sink::Sink;
use crate::stop::{Failed, Memory};
use std::alloc::Global;
use std::marker::Model;

/// A sink in memory. It tells its bytes, and fails exactly at the puts whose numbers were given to
/// `fail_at`, and at a piece that is longer than the room left.
#[derive(Debug, Drop)]
pub struct MemSink {
    taken: Vec<u8>,
    failing: Vec<u64>,
    puts: u64,
    faults: u64,
    spare: usize,
}

impl Model for MemSink {
    ghost use Rattle.std.specs.Prelude.{◌+◌, ◌≤◌, vec_len};
    ghost use Rattle.std.specs.Vec.{vec_capacity};
    ghost use Rattle.je_base.specs.MemSink.{SinkState, coded_sink};

    ghost Value = { SinkState };

    ghost coded = { coded_sink };

    ghost view = { λ s. record {
      bytes = s.taken.items;
      puts = s.puts;
      faults = s.faults;
      failing = s.failing.items;
      spare = s.spare;
    } };

    ghost invariant = { λ s. vec_len s.taken + s.spare ≤ vec_capacity s.taken };
}

impl MemSink {
    /// Nothing taken, no room and no faults.
    pub fn new(alloc: Global) -> MemSink
        ensures { result ≡ empty_sink }
    {
        MemSink {
            taken: Vec::new(alloc),
            failing: Vec::new(alloc),
            puts: 0,
            faults: 0,
            spare: 0,
        }
    }

    /// Makes the put of this number fail. Puts are numbered from 1.
    ///
    /// # Errors
    ///
    /// `Memory` where memory runs out.
    pub fn fail_at(&mut self, call: u64) -> Result<(), Memory>
        ensures ok { OnOk result (self.new
            ≡ record self.old { failing = self.old.failing ++ call ∷ [] }) }
        ensures err { OnErr result (self.new ≡ self.old) }
    {
        self.failing.push(call)?;
        Ok(())
    }

    /// Makes room for so many further bytes. This is then the room left.
    ///
    /// # Errors
    ///
    /// `Memory` where memory runs out.
    pub fn room(&mut self, bytes: usize) -> Result<(), Memory>
        ensures ok { OnOk result (self.new ≡ record self.old { spare = bytes }) }
        ensures err { OnErr result (self.new ≡ self.old) }
    {
        self.taken.reserve(bytes)?;
        self.spare = bytes;
        Ok(())
    }

    /// The bytes put so far.
    pub fn bytes(&self) -> &[u8]
        ensures { result.now ≡ self.now.bytes }
    {
        &self.taken
    }

    /// How many puts there were.
    pub fn puts(&self) -> u64
        ensures { result ≡ self.now.puts }
    {
        self.puts
    }

    /// How many puts failed.
    pub fn faults(&self) -> u64
        ensures { result ≡ self.now.faults }
    {
        self.faults
    }
}

impl Sink for MemSink {
    ghost bytes = { λ s. Some s.bytes };

    ghost puts = { λ s. s.puts };

    ghost faults = { λ s. s.faults };

    fn put(&mut self, piece: &[u8]) -> Result<(), Failed>
        // It is done exactly where it was not told to fail and the room suffices.
        ensures answers { OnOk result (FailsNext self.old → ⊥) }
        ensures fits { OnOk result (HasRoomFor self.old piece.now) }
        ensures not_done { OnErr result (FailsNext self.old ⊎ (HasRoomFor self.old piece.now → ⊥)) }

        // The sink after it.
        ensures after { OnOk result (self.new ≡ after_put self.old piece.now) }
        ensures after_failed { OnErr result (self.new ≡ after_failed_put self.old) }

        // What each put does.
        ensures ok { OnOk result (Some self.new.bytes
            ≡ option_map (λ taken. taken ++ piece.now) (Some self.old.bytes)) }
        ensures front { GainsFront piece.now (Some self.old.bytes) (Some self.new.bytes) }
        ensures counted { self.new.puts ≡ raised self.old.puts }
        ensures puts { self.old.puts ≤ self.new.puts }
        ensures faults { self.old.faults ≤ self.new.faults }
        ensures failed { OnErr result (HasFault self.old.faults self.new.faults) }
    {
        let fails = self.failing.contains(&raised(self.puts)) || piece.len() > self.spare;
        self.puts = raised(self.puts);
        if fails {
            self.faults = raised(self.faults);
            return Err(Failed);
        }
        self.spare -= piece.len();
        let _ = self.taken.extend_from_slice(piece);
        Ok(())
    }
}
