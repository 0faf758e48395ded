//! The standard streams.

ghost use Rattle.std.specs.Prelude.{◌≡◌, ◌≤◌, None, OnOk, OnErr};
ghost use Rattle.std.specs.Io.KnownBytes.{Appends};
ghost use Rattle.je_base.specs.Count.{raised, HasFault};

use crate::count::raised;
use crate::sink::Sink;
use crate::stop::Failed;
use crate::stream::write_whole;
use std::io::{Stderr, Stdout, Write};
use std::marker::Model;

/// A standard stream `W`. It tells no bytes.
#[derive(Drop)]
pub struct StdSink<W: Write> {
    stream: W,
    puts: u64,
    faults: u64,
}

impl<W: Write> Model for StdSink<W> {
    ghost use Rattle.je_base.specs.StdSink.{SinkCounts};

    ghost Value = { SinkCounts };

    ghost view = { λ s. record { sent = W.contents s.stream; puts = s.puts; faults = s.faults } };
}

impl StdSink<Stdout> {
    /// The standard output, with no puts or faults yet.
    pub fn output(stream: Stdout) -> StdSink<Stdout>
        ensures puts { result.puts ≡ 0 }
        ensures faults { result.faults ≡ 0 }
    {
        StdSink::over(stream)
    }
}

impl StdSink<Stderr> {
    /// The standard error stream, with no puts or faults yet.
    pub fn error(stream: Stderr) -> StdSink<Stderr>
        ensures puts { result.puts ≡ 0 }
        ensures faults { result.faults ≡ 0 }
    {
        StdSink::over(stream)
    }
}

impl<W: Write> StdSink<W> {
    /// A stream with no puts or faults yet.
    fn over(stream: W) -> StdSink<W>
        ensures puts { result.puts ≡ 0 }
        ensures faults { result.faults ≡ 0 }
    {
        StdSink {
            stream,
            puts: 0,
            faults: 0,
        }
    }

    /// How many puts there were.
    pub fn puts(&self) -> u64
        ensures { result ≡ self.now.puts }
    {
        self.puts
    }

    /// How many puts failed.
    pub fn faults(&self) -> u64
        ensures { result ≡ self.now.faults }
    {
        self.faults
    }
}

impl<W: Write> Sink for StdSink<W> {
    ghost bytes = { λ _. None };

    ghost puts = { λ s. s.puts };

    ghost faults = { λ s. s.faults };

    fn put(&mut self, piece: &[u8]) -> Result<(), Failed>
        // The stream gets the whole piece, where it tells its bytes.
        ensures sent { OnOk result (Appends self.old.sent self.new.sent piece.now) }

        // Each error is on record.
        ensures no_fault { OnOk result (self.new.faults ≡ self.old.faults) }
        ensures fault { OnErr result (self.new.faults ≡ raised self.old.faults) }

        // What each put does.
        ensures counted { self.new.puts ≡ raised self.old.puts }
        ensures puts { self.old.puts ≤ self.new.puts }
        ensures faults { self.old.faults ≤ self.new.faults }
        ensures failed { OnErr result (HasFault self.old.faults self.new.faults) }
    {
        self.puts = raised(self.puts);
        let mut done = write_whole(&mut self.stream, piece);
        if done.is_ok() && self.stream.flush().is_err() {
            done = Err(Failed);
        }
        if done.is_err() {
            self.faults = raised(self.faults);
        }
        done
    }
}
