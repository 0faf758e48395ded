//! The program `je_lens`: shows what the parts of the editor answer on real class files.
//!
//! Stands on the crates of the format and on je_code, je_instr and je_shapes. `je_lens reread
//! PATH..` reads class files and writes them again, `je_lens code PATH..` decodes the code of their
//! methods and assembles it again, and `je_lens tables PATH..` does so with the tables of the code;
//! `je_lens listing PATH..` prints what was decoded, and `je_lens rows PATH..` the rows of the
//! tables; `je_lens shapes PATH..` seeks the least shapes of the methods.
#![tactic(auto)]

mod again;
mod code;
mod code_parts;
mod files;
mod listing;
mod methods;
mod mnemonics;
mod reread;
mod rows;
mod same;
mod shapes;
mod tables;
mod verb;
mod verdict;

use again::{Part, all_again};
use files::Stop;
use je_base::{FsFiles, StdSink};
use listing::{Listed, list_all};
use reread::reread_all;
use shapes::shape_all;
use std::env;
use std::process::ExitCode;
use verb::Verb;

/// Ends with status 0 where nothing was amiss, 1 where something was, 2 where the words are not
/// read, 3 where standard output fails, and 4 where memory runs out.
fn main(rt: HostRuntime) -> ExitCode {
    let Ok(all) = env::args(&rt) else {
        return ExitCode::from(2);
    };
    let mut words = Vec::new(rt.alloc());
    for word in all.skip(1) {
        if words.push(word).is_err() {
            return ExitCode::from(4);
        }
    }
    let [word, paths @ ..] = words.as_slice() else {
        return ExitCode::from(2);
    };
    let Some(verb) = Verb::of(word.as_str()) else {
        return ExitCode::from(2);
    };
    let mut files = FsFiles::new(rt.alloc(), &rt);
    let mut out = StdSink::output(rt.stdout());
    let amiss = match verb {
        Verb::Reread => reread_all(rt.alloc(), paths, &mut files, &mut out),
        Verb::Code => all_again(rt.alloc(), Part::Code, paths, &mut files, &mut out),
        Verb::Tables => all_again(rt.alloc(), Part::Tables, paths, &mut files, &mut out),
        Verb::Listing => list_all(rt.alloc(), Listed::Instrs, paths, &mut files, &mut out),
        Verb::Rows => list_all(rt.alloc(), Listed::Rows, paths, &mut files, &mut out),
        Verb::Shapes => shape_all(rt.alloc(), paths, &mut files, &mut out),
    };
    match amiss {
        Ok(0) => ExitCode::from(0),
        Ok(_) => ExitCode::from(1),
        Err(Stop::Output) => ExitCode::from(3),
        Err(Stop::Memory) => ExitCode::from(4),
    }
}
