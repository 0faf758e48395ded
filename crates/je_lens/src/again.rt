//! Methods of class files, each read and written again.

use crate::code::verdict_of_code;
use crate::files::{Stop, class_at, put_fault, put_text};
use crate::methods::{is_code, method_words};
use crate::tables::verdict_of_tables;
use crate::verdict::{Counts, put_verdict};
use je_base::{Files, Sink};
use je_class::{ClassFile, Member};
use je_consts::Consts;
use std::alloc::Global;

/// What of a method is read and written again.
#[derive(Clone, Copy, Debug, PartialEq, Eq)]
pub enum Part {
    /// Its code alone.
    Code,
    /// Its code with all tables.
    Tables,
}

/// Counts the verdicts on the code of a method, and puts a line for each that is refused or
/// differs.
fn method_again<O: Sink>(
    alloc: Global,
    part: Part,
    path: &str,
    consts: &mut Consts,
    method: &Member,
    counts: &mut Counts,
    out: &mut O,
) -> Result<(), Stop> {
    for attribute in method.attributes.as_slice() {
        if is_code(consts, attribute) {
            let verdict = match part {
                Part::Code => verdict_of_code(alloc, attribute.bytes.as_slice(), consts)?,
                Part::Tables => verdict_of_tables(alloc, &attribute.bytes, consts)?,
            };
            counts.add(verdict);
            let words = method_words(alloc, consts, method)?;
            put_verdict(alloc, out, path, words.as_str(), verdict)?;
        }
    }
    Ok(())
}

/// Does so for each method of a class. What is written adds to a copy of its constants.
fn class_again<O: Sink>(
    alloc: Global,
    part: Part,
    path: &str,
    class: &ClassFile,
    counts: &mut Counts,
    out: &mut O,
) -> Result<(), Stop> {
    let mut consts = class.consts().copy()?;
    for method in class.methods() {
        method_again(alloc, part, path, &mut consts, method, counts, out)?;
    }
    Ok(())
}

/// The line with the numbers.
fn put_counts<O: Sink>(
    alloc: Global,
    part: Part,
    counts: &Counts,
    out: &mut O,
) -> Result<(), Stop> {
    let Counts {
        same,
        moved,
        refused,
        differ,
    } = *counts;
    let line = match part {
        Part::Code => format!(in alloc;
            "{same} same, {moved} moved, {refused} refused, {differ} differ\n"
        )?,
        Part::Tables => format!(in alloc; "{same} same, {refused} refused, {differ} differ\n")?,
    };
    put_text(out, line.as_str())
}

/// Puts a line for each class file with a fault and each method that is refused or differs, and one
/// with the numbers; answers how many lines there were before.
pub fn all_again<F: Files, O: Sink>(
    alloc: Global,
    part: Part,
    paths: &[String],
    files: &mut F,
    out: &mut O,
) -> Result<usize, Stop> {
    let mut faults = 0usize;
    let mut counts = Counts::none();
    for path in paths {
        match class_at(alloc, path.as_str(), files) {
            Ok(class) => class_again(alloc, part, path.as_str(), &class, &mut counts, out)?,
            Err(fault) => {
                faults = faults.saturating_add(1);
                put_fault(alloc, out, path.as_str(), fault)?;
            }
        }
    }
    put_counts(alloc, part, &counts, out)?;
    Ok(
        faults
            .saturating_add(counts.refused)
            .saturating_add(counts.differ),
    )
}
