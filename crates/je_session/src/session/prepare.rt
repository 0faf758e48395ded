//! All that a run does before its first output: it reads, edits, and makes the bytes and the lines.

ghost use Rattle.std.specs.Prelude.{◌≡◌, ℕ, ◌≤◌, List, length, IfOk, IfErr, IfSome, OnOk};
ghost use Rattle.je_base.specs.Count.{HasFault};
ghost use Rattle.je_session.specs.Texts.{texts};
ghost use Rattle.je_session.specs.Forms.{IsLine, Holds, ReadsScript, class_path};
ghost use Rattle.je_session.specs.Prepared.{HasAsciiNames, IsPrepared};
ghost use Rattle.je_session.specs.Cause.{Stopped, StoppedAtClass};

use crate::plan::Script;
use crate::script::{ScriptStop, parse_script};
use crate::session::class_edit::edit_class;
use crate::session::made::{Made, make};
use crate::session::paths::class_file;
use crate::session::reading::{NotRead, read_within};
use crate::session::report::Stop;
use crate::session::source::load_class;
use crate::session::words::script_path;
use crate::status::Status;
use je_base::{Files, Run};
use je_class::{ClassFault, MOST_BYTES};
use std::alloc::Global;

/// Scripts longer than this are not read: bytes.
const MOST_SCRIPT_BYTES: usize = 4_194_304;

/// Reads the script and its class, edits the class, and makes what is put and written.
pub fn prepare<F: Files>(alloc: Global, words: &[String], files: &mut F) -> Result<Made, Stop>
    ensures made { IfOk result (IsPrepared (texts words.now) (F.contents files.old)) }
    ensures stopped { IfErr result (Stopped (texts words.now) (F.contents files.old)
        (HasFault (F.faults files.old) (F.faults files.new))) }
    ensures no_line { IfErr result (λ stop.
        ((path : List ℕ) → IsLine (texts words.now) path → ⊥) → stop.status ≡ Status.Usage) }
    ensures contents { F.contents files.new ≡ F.contents files.old }
    ensures writes { F.writes files.new ≡ F.writes files.old }
    ensures faults { F.faults files.old ≤ F.faults files.new }
{
    let script = read_script(alloc, words, files)?;
    let bytes = read_class_bytes(alloc, &script, files)?;
    let mut class = load_class(alloc, &script, &bytes)?;
    let matched = edit_class(alloc, &mut class, &script.plan)?;
    make(alloc, &script, &class, matched)
}

// The script that the words name.
fn read_script<F: Files>(alloc: Global, words: &[String], files: &mut F) -> Result<Script, Stop>
    ensures found { IfOk result (λ script.
        IfSome (F.contents files.old) (λ before. ReadsScript (texts words.now) before script)) }
    ensures line { OnOk result ((path : List ℕ) × IsLine (texts words.now) path) }
    ensures no_line { IfErr result (λ stop.
        ((path : List ℕ) → IsLine (texts words.now) path → ⊥) → stop.status ≡ Status.Usage) }
    ensures names { IfOk result HasAsciiNames }
    ensures stopped { IfErr result (Stopped (texts words.now) (F.contents files.old)
        (HasFault (F.faults files.old) (F.faults files.new))) }
    ensures contents { F.contents files.new ≡ F.contents files.old }
    ensures writes { F.writes files.new ≡ F.writes files.old }
    ensures faults { F.faults files.old ≤ F.faults files.new }
{
    let Some(path) = script_path(words) else {
        return Err(Stop::usage());
    };
    let text = match read_within(files, path, MOST_SCRIPT_BYTES) {
        Ok(text) => text,
        Err(NotRead::Missing) => return Err(Stop::no_script(alloc, path)),
        Err(NotRead::TooLong) => return Err(Stop::not_yet_script()),
        Err(NotRead::Failed) => return Err(Stop::reading(alloc, path)),
        Err(NotRead::Memory) => return Err(Stop::memory()),
    };
    match parse_script(alloc, &text) {
        Ok(script) => Ok(script),
        Err(ScriptStop::NotYet) => Err(Stop::not_yet_script()),
        Err(ScriptStop::Memory) => Err(Stop::memory()),
    }
}

// The bytes of the script's class.
fn read_class_bytes<F: Files>(alloc: Global, script: &Script, files: &mut F) -> Result<Run, Stop>
    requires { HasAsciiNames script.now }
    ensures found { IfOk result (λ bytes.
        Holds (F.contents files.old) (class_path script.now.class_name) bytes) }
    ensures within { IfOk result (λ bytes. length bytes ≤ MOST_BYTES) }
    ensures stopped { IfErr result (StoppedAtClass script.now (F.contents files.old)
        (HasFault (F.faults files.old) (F.faults files.new))) }
    ensures contents { F.contents files.new ≡ F.contents files.old }
    ensures writes { F.writes files.new ≡ F.writes files.old }
    ensures faults { F.faults files.old ≤ F.faults files.new }
{
    let path = class_file(alloc, "./", script.class_name.bytes())?;
    match read_within(files, path.as_str(), MOST_BYTES) {
        Ok(bytes) => Ok(Run::of_vec(alloc, bytes)?),
        Err(NotRead::Missing) => Err(Stop::no_class(alloc, &script.class_name)),
        Err(NotRead::TooLong) => Err(Stop::bad_class(
            alloc,
            &script.class_name,
            ClassFault::TooLong,
        )),
        Err(NotRead::Failed) => Err(Stop::reading(alloc, path.as_str())),
        Err(NotRead::Memory) => Err(Stop::memory()),
    }
}
