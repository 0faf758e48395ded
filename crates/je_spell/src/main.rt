//! The program `je_spell`: the work of which a benchmark takes the time.
//!
//! Stands on je_base, je_desc and je_type. `je_spell types ROUNDS PATH` reads each line of a file
//! as a descriptor and writes it again, so many times over; `je_spell copies ROUNDS PATH` copies
//! the bytes of each line.
#![tactic(auto)]

mod lines;
mod work;

use je_base::FsFiles;
use lines::content_at;
use std::env;
use std::process::ExitCode;
use work::Work;

/// Ends with status 0 where all was done, 1 where a line is not written as it was read, 2 where the
/// words or the file are not read, and 4 where memory runs out.
fn main(rt: HostRuntime) -> ExitCode {
    let Ok(all) = env::args(&rt) else {
        return ExitCode::from(2);
    };
    let mut words = Vec::new(rt.alloc());
    for word in all.skip(1) {
        if words.push(word).is_err() {
            return ExitCode::from(4);
        }
    }
    let [word, rounds, path] = words.as_slice() else {
        return ExitCode::from(2);
    };
    let (Some(work), Ok(rounds)) = (Work::of(word.as_str()), rounds.as_str().parse::<u32>()) else {
        return ExitCode::from(2);
    };
    let mut files = FsFiles::new(rt.alloc(), &rt);
    let Some(content) = content_at(path.as_str(), &mut files) else {
        return ExitCode::from(2);
    };
    match work.rounds(rt.alloc(), rounds, content.as_slice()) {
        Ok(true) => ExitCode::from(0),
        Ok(false) => ExitCode::from(1),
        Err(_) => ExitCode::from(4),
    }
}
