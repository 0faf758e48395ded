//! The program `je_run`: runs methods on the machine, and tells what they do outside and how they
//! end.
//!
//! Stands on je_base, je_class, je_code, je_consts, je_heap, je_link, je_value and je_vm. `je_run
//! PATH` reads a file of lines, which the crate's page has, each of which adds to what is known of
//! classes, names a class file, a method of it, an argument or an answer, or runs the method.
#![tactic(auto)]

mod known;
mod lines;
mod method;
mod running;
mod setup;
mod shown;
mod stop;
mod watched;
mod words;

use je_base::{FsFiles, StdSink};
use lines::run_file;
use std::env;
use std::process::ExitCode;
use stop::Stop;

/// Ends with status 0 where all lines were read, 1 where one was not, or the file was not, 2 where
/// the words are not read, 3 where standard output fails, and 4 where memory runs out.
fn main(rt: HostRuntime) -> ExitCode {
    let Ok(all) = env::args(&rt) else {
        return ExitCode::from(2);
    };
    let mut words = Vec::new(rt.alloc());
    for word in all.skip(1) {
        if words.push(word).is_err() {
            return ExitCode::from(4);
        }
    }
    let [path] = words.as_slice() else {
        return ExitCode::from(2);
    };
    let mut files = FsFiles::new(rt.alloc(), &rt);
    let mut out = StdSink::output(rt.stdout());
    match run_file(rt.alloc(), path.as_str(), &mut files, &mut out) {
        Ok(()) => ExitCode::from(0),
        Err(Stop::NotRead) => ExitCode::from(1),
        Err(Stop::Output) => ExitCode::from(3),
        Err(Stop::Memory) => ExitCode::from(4),
    }
}
