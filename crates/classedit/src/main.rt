//! The command: edits class files by a script.
//!
//! Stands on je_base and je_session. It hands the real files, the standard streams and its words to
//! `run`, and ends with the status that comes back.
#![tactic(auto)]

use je_base::{FsFiles, Memory, StdSink};
use je_session::{Status, run};
use std::env;
use std::io::ErrorKind;
use std::process::ExitCode;

fn main(rt: HostRuntime) -> ExitCode {
    let Ok(words) = words(&rt) else {
        return ExitCode::from(Status::Memory as u8);
    };
    let mut files = FsFiles::new(rt.alloc(), &rt);
    let mut out = StdSink::output(rt.stdout());
    let mut err = StdSink::error(rt.stderr());
    let status = run(rt.alloc(), &words, &mut files, &mut out, &mut err);
    ExitCode::from(status as u8)
}

/// The words after the program's name. Where one of them is no text, there are none.
fn words(rt: &HostRuntime) -> Result<Vec<String>, Memory> {
    let mut words = Vec::new(rt.alloc());
    match env::args(rt) {
        Ok(all) => {
            for word in all.skip(1) {
                words.push(word)?;
            }
            Ok(words)
        }
        Err(e) if e.kind() == ErrorKind::InvalidData => Ok(words),
        Err(_) => Err(Memory),
    }
}
