//! The program `je_scan`: the work of which a benchmark takes the time.
//!
//! Stands on je_base and je_tokens. `je_scan tokens ROUNDS PATH` cuts the text of a file into
//! tokens, so many times over; `je_scan characters ROUNDS PATH` goes over its characters.
#![tactic(auto)]

mod content;
mod work;

use content::content_at;
use je_base::FsFiles;
use std::env;
use std::process::ExitCode;
use work::{End, Work};

/// Ends with status 0 where all was done, 1 where the text has a fault, 2 where the words or the
/// file are not read, and 4 where memory runs out.
fn main(rt: HostRuntime) -> ExitCode {
    let Ok(all) = env::args(&rt) else {
        return ExitCode::from(2);
    };
    let mut words = Vec::new(rt.alloc());
    for word in all.skip(1) {
        if words.push(word).is_err() {
            return ExitCode::from(4);
        }
    }
    let [word, rounds, path] = words.as_slice() else {
        return ExitCode::from(2);
    };
    let (Some(work), Ok(rounds)) = (Work::of(word.as_str()), rounds.as_str().parse::<u32>()) else {
        return ExitCode::from(2);
    };
    let mut files = FsFiles::new(rt.alloc(), &rt);
    let Some(content) = content_at(path.as_str(), &mut files) else {
        return ExitCode::from(2);
    };
    let Ok(text) = std::str::from_utf8(content.as_slice()) else {
        return ExitCode::from(2);
    };
    match work.rounds(rt.alloc(), rounds, text) {
        End::Done => ExitCode::from(0),
        End::Fault => ExitCode::from(1),
        End::Memory => ExitCode::from(4),
    }
}
