//! What a file tells of classes.

use crate::stop::Stop;
use crate::words::run_of;
use je_base::Run;
use je_heap::{Classes, FieldKey};
use std::alloc::Global;

/// Adds what a line tells of classes: `pair CLASS ABOVE`, or `holder CLASS NAME DESCRIPTOR HOLDER`.
fn add_line(
    alloc: Global,
    words: &[&str],
    below: &mut Vec<(Run, Run)>,
    holders: &mut Vec<(FieldKey, Run)>,
) -> Result<(), Stop> {
    match words {
        ["pair", class, of] => {
            below.push((run_of(alloc, class)?, run_of(alloc, of)?))?;
            Ok(())
        }
        ["holder", class, name, descriptor, holder] => {
            let class = run_of(alloc, class)?;
            let name = run_of(alloc, name)?;
            let key = FieldKey::new(class, name, run_of(alloc, descriptor)?);
            holders.push((key, run_of(alloc, holder)?))?;
            Ok(())
        }
        _ => Ok(()),
    }
}

/// The classes of a file.
pub fn classes_of(alloc: Global, text: &str) -> Result<Classes, Stop> {
    let mut below = Vec::new(alloc);
    let mut holders = Vec::new(alloc);
    for line in text.lines() {
        let words: Vec<&str> = line.split_whitespace().collect(alloc)?;
        add_line(alloc, words.as_slice(), &mut below, &mut holders)?;
    }
    Ok(Classes::new(below, holders))
}
