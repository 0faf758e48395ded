//! The top call, and what it is made of: what a run reads, makes, puts and writes.

ghost use Rattle.std.specs.Prelude.{◌≡◌, ℕ, ◌≤◌, List, Some, None, IsErrOf, OnOk, string_bytes};
ghost use Rattle.je_base.specs.Count.{HasFault};
ghost use Rattle.je_class.specs.Class.{Class};
ghost use Rattle.je_session.specs.declared.plan.Script.{Script};
ghost use Rattle.je_session.specs.Texts.{texts};
ghost use Rattle.je_session.specs.Forms.{IsLine};
ghost use Rattle.je_session.specs.Cause.{Refusal, IsQuiet, IsRefused, IsComplete};
ghost use Rattle.je_session.specs.Moment.{moment, files_of, sink_of};
ghost use Rattle.je_session.specs.Output.{Put, Write, PutFails, Goes, held, taken, put};
ghost use Rattle.je_session.specs.Outcome.{IsRun, IsDone};
ghost use Rattle.je_session.specs.Prepared.{output};

mod class_edit;
mod made;
mod paths;
mod prepare;
mod reading;
mod report;
mod source;
mod words;

use crate::session::made::Made;
use crate::session::prepare::prepare;
use crate::session::report::Stop;
use crate::status::Status;
use je_base::{Files, Sink};
use je_class::one_class;
use std::alloc::Global;

/// Edits a class by a script. `words` are those of the command line after the program's name.
///
/// In this order: the words are looked at, the script is read, then its class; the class is edited;
/// the bytes and the lines are made. From here on no memory is taken: the `edited` lines go to
/// `out` in one put, the class is written, its `wrote` line is put. The first failure ends the run.
///
/// | Status | When | On `out` | On `err` |
/// |---|---|---|---|
/// | `Done` | all is done | `edited CLASS.METHOD()V matched N`, `wrote PATH` | nothing |
/// | `Usage` | the words are no command line | nothing | the usage line |
/// | `Refused` | script or class is missing, or not of the form | nothing | the refusal |
/// | `Outside` | a read, a write or a put failed | what was put before | `outside fault: ..` |
/// | `Memory` | there was not enough memory | nothing | `out of memory` |
///
/// Each line ends with a line feed; where standard error fails, the status stays.
pub fn run<F: Files, O: Sink, E: Sink>(
    alloc: Global,
    words: &[String],
    files: &mut F,
    out: &mut O,
    err: &mut E,
) -> Status
    // All that is promised of a run is said of one outcome: each class that it edits, with its
    // source, its plans and its bytes; what it answers; what it put and wrote, in order; what it
    // told.
    ensures outcome { let before = moment (files_of F.contents F.writes F.faults files.old)
        (sink_of O.bytes O.puts O.faults out.old) (sink_of E.bytes E.puts E.faults err.old) in
        let after = moment (files_of F.contents F.writes F.faults files.new)
        (sink_of O.bytes O.puts O.faults out.new) (sink_of E.bytes E.puts E.faults err.new) in
        IsRun (texts words.now) before after result }

    // What follows from it, for who wants it by itself.
    //
    // The files are as before, but for the bytes of each edited class at its place.
    ensures done { result ≡ Status.Done →
        IsDone (texts words.now) (F.contents files.old) (F.contents files.new) }
    // Usage is answered exactly where the words are no line.
    ensures usage { ((path : List ℕ) → IsLine (texts words.now) path → ⊥) → result ≡ Status.Usage }
    ensures line { (path : List ℕ) → IsLine (texts words.now) path → result ≡ Status.Usage → ⊥ }
    // What is to be refused is refused, and what is to be done is done, unless something fails.
    ensures refused { (refusal : Refusal) →
        IsRefused (texts words.now) (F.contents files.old) refusal result }
    ensures complete { (script : Script) (source : Class) →
        IsComplete (texts words.now) (F.contents files.old)
        (HasFault (F.faults files.old) (F.faults files.new))
        (HasFault (O.faults out.old) (O.faults out.new)) script source result }
    // Nothing is written and nothing put where the run stops before its output.
    ensures unwritten { IsQuiet result → F.writes files.new ≡ F.writes files.old }
    ensures unchanged { IsQuiet result → F.contents files.new ≡ F.contents files.old }
    ensures silent { IsQuiet result → O.puts out.new ≡ O.puts out.old }
{
    // The law of the layer below that the proof stands on.
    one_class();

    match prepare(alloc, words, files) {
        Ok(made) => match finish(&made, files, out) {
            Ok(()) => Status::Done,
            Err(Fault::Writing) => tell(Status::Outside, made.writing_line.as_bytes(), err),
            Err(Fault::Output) => tell(Status::Outside, b"outside fault: standard output\n", err),
        },
        Err(stop) => tell(stop.status, stop.line.bytes(), err),
    }
}

/// Which of the outputs failed.
#[derive(Clone, Copy, Debug, PartialEq, Eq)]
enum Fault {
    Writing,
    Output,
}

// Puts and writes what was made, and takes no memory.
fn finish<F: Files, O: Sink>(made: &Made, files: &mut F, out: &mut O) -> Result<(), Fault>
    ensures done { let old = held (F.contents files.old) (F.writes files.old)
        (O.bytes out.old) (O.puts out.old) in
        let new = held (F.contents files.new) (F.writes files.new)
        (O.bytes out.new) (O.puts out.new) in
        OnOk result (Goes (output made.now) None old new) }
    ensures writing { let old = held (F.contents files.old) (F.writes files.old)
        (O.bytes out.old) (O.puts out.old) in
        let new = held (F.contents files.new) (F.writes files.new)
        (O.bytes out.new) (O.puts out.new) in
        let write = Write (string_bytes made.now.path) made.now.bytes.items in
        IsErrOf result Fault.Writing → Goes (output made.now) (Some write) old new }
    ensures writing_fault { IsErrOf result Fault.Writing
        → HasFault (F.faults files.old) (F.faults files.new) }
    ensures output { let old = held (F.contents files.old) (F.writes files.old)
        (O.bytes out.old) (O.puts out.old) in
        let new = held (F.contents files.new) (F.writes files.new)
        (O.bytes out.new) (O.puts out.new) in
        IsErrOf result Fault.Output →
        (piece : List ℕ) × Goes (output made.now) (Some (Put piece)) old new }
    ensures output_fault { IsErrOf result Fault.Output
        → HasFault (O.faults out.old) (O.faults out.new) }
    ensures faults { F.faults files.old ≤ F.faults files.new }
{
    if out.put(made.edited_line.as_bytes()).is_err() {
        return Err(Fault::Output);
    }
    if files.write(made.path.as_str(), &made.bytes).is_err() {
        return Err(Fault::Writing);
    }
    if out.put(made.wrote_line.as_bytes()).is_err() {
        return Err(Fault::Output);
    }
    Ok(())
}

// Puts a line; a failure of this changes no status.
fn tell<E: Sink>(status: Status, line: &[u8], err: &mut E) -> Status
    ensures status { result ≡ status }
    ensures put { PutFails line.now (taken (E.bytes err.old) (E.puts err.old))
        (taken (E.bytes err.new) (E.puts err.new)) }
    ensures whole { (HasFault (E.faults err.old) (E.faults err.new) → ⊥) →
        taken (E.bytes err.new) (E.puts err.new) ≡
        put line.now (taken (E.bytes err.old) (E.puts err.old)) }
{
    let _ = err.put(line);
    status
}
