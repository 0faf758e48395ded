//! The lines of a file, done one by one.

use crate::known::classes_of;
use crate::method::{bytes_at, class_at, program_named};
use crate::setup::Setup;
use crate::stop::Stop;
use crate::watched::shapes_named;
use je_base::{Files, Sink};
use je_heap::Classes;
use std::alloc::Global;

/// The most bytes of a file of lines.
const MOST_TEXT: usize = 1 << 30;

/// Puts a text.
fn put_text<O: Sink>(out: &mut O, text: &str) -> Result<(), Stop> {
    match out.put(text.as_bytes()) {
        Ok(()) => Ok(()),
        Err(_) => Err(Stop::Output),
    }
}

/// Takes the method of a name and a descriptor of the class file.
fn take_method(alloc: Global, setup: &mut Setup, name: &str, descriptor: &str) -> Result<(), Stop> {
    let Some(class) = &setup.class else {
        return Err(Stop::NotRead);
    };
    let program = program_named(alloc, class, name.as_bytes(), descriptor.as_bytes())?;
    setup.program = program;
    setup.shapes = None;
    Ok(())
}

/// Puts the line of a method that has no shapes.
fn put_bad<O: Sink>(alloc: Global, out: &mut O, at: u32) -> Result<(), Stop> {
    let mut line = String::new(alloc);
    write!(line, "bad {at}\n")?;
    put_text(out, line.as_str())
}

/// Takes the shapes of the method of a name and a descriptor, with which its runs are watched, or
/// puts the index of its first fault.
fn take_shapes<O: Sink>(
    alloc: Global,
    setup: &mut Setup,
    name: &str,
    descriptor: &str,
    out: &mut O,
) -> Result<(), Stop> {
    let Some(class) = &setup.class else {
        return Err(Stop::NotRead);
    };
    match shapes_named(alloc, class, name.as_bytes(), descriptor.as_bytes())? {
        Ok(found) => {
            setup.shapes = Some(found);
            Ok(())
        }
        Err(at) => put_bad(alloc, out, at),
    }
}

/// Runs the method, with at most so many steps, and puts its lines.
fn run_method<O: Sink>(
    alloc: Global,
    classes: &Classes,
    setup: &mut Setup,
    limit: &str,
    out: &mut O,
) -> Result<(), Stop> {
    let Ok(limit) = limit.parse::<u32>() else {
        return Err(Stop::NotRead);
    };
    let lines = setup.run(alloc, classes, limit)?;
    put_text(out, lines.as_str())
}

/// Does what a line says that is not of classes.
fn do_line<F: Files, O: Sink>(
    alloc: Global,
    classes: &Classes,
    setup: &mut Setup,
    words: &[&str],
    files: &mut F,
    out: &mut O,
) -> Result<(), Stop> {
    match words {
        [] | ["pair", _, _] | ["holder", _, _, _, _] => Ok(()),
        ["object", class] => setup.add_object(alloc, class),
        ["array", of, length] => setup.add_array(alloc, of, length),
        ["class", path] => {
            let class = class_at(alloc, path, files)?;
            setup.take_class(alloc, class);
            Ok(())
        }
        ["method", name, descriptor] => take_method(alloc, setup, name, descriptor),
        ["shapes", name, descriptor] => take_shapes(alloc, setup, name, descriptor, out),
        ["argument", word] => setup.add_argument(word),
        ["answer", word] => setup.add_reply(false, word),
        ["throw", word] => setup.add_reply(true, word),
        ["run", limit] => run_method(alloc, classes, setup, limit, out),
        _ => Err(Stop::NotRead),
    }
}

/// Does what the lines say.
fn do_lines<F: Files, O: Sink>(
    alloc: Global,
    text: &str,
    files: &mut F,
    out: &mut O,
) -> Result<(), Stop> {
    let classes = classes_of(alloc, text)?;
    let mut setup = Setup::new(alloc);
    for line in text.lines() {
        let words: Vec<&str> = line.split_whitespace().collect(alloc)?;
        do_line(alloc, &classes, &mut setup, words.as_slice(), files, out)?;
    }
    Ok(())
}

/// Does what the lines of the file at a path say.
pub fn run_file<F: Files, O: Sink>(
    alloc: Global,
    path: &str,
    files: &mut F,
    out: &mut O,
) -> Result<(), Stop> {
    let bytes = bytes_at(path, files, MOST_TEXT)?;
    match std::str::from_utf8(bytes.as_slice()) {
        Ok(text) => do_lines(alloc, text, files, out),
        Err(_) => Err(Stop::NotRead),
    }
}
