//! Class files that are read and written again.

ghost use Rattle.std.specs.Prelude.{◌≡◌, ◌⊎◌, IsTrue, IfOk, IfErr, OnOk};
ghost use Rattle.je_class.specs.declared.fault.ClassFault.TheVariants as faults;
ghost use Rattle.je_class.specs.Class.{Class};
ghost use Rattle.je_class.specs.ClassBytes.{ClassBytes};
ghost use Rattle.je_class.specs.Faults.{FirstFault};

use crate::files::{FileFault, Stop, bytes_at, put_fault, put_text};
use je_base::{Files, Memory, Run, Sink};
use je_class::{ClassFault, read_class, write_class};
use std::alloc::Global;

/// Whether what is written of what was read are the bytes.
fn reread(alloc: Global, bytes: &Run) -> Result<bool, ClassFault>
    ensures same { IfOk result (λ same. IsTrue same) }
    ensures class { OnOk result ((c : Class) × ClassBytes bytes.now c) }
    ensures fault { IfErr result (λ e. (e ≡ faults.Memory) ⊎ FirstFault bytes.now e) }
{
    let class = match read_class(alloc, bytes) {
        Ok(class) => class,
        Err(fault) => return Err(fault),
    };
    match write_class(alloc, &class) {
        Ok(written) => Ok(written.as_slice() == bytes.as_slice()),
        Err(Memory) => Err(ClassFault::Memory),
    }
}

/// Whether the file at a path is written again as it was read.
fn is_same<F: Files>(alloc: Global, path: &str, files: &mut F) -> Result<bool, FileFault> {
    let bytes = bytes_at(alloc, path, files)?;
    Ok(reread(alloc, &bytes)?)
}

/// Puts a line for each path, and one with the numbers; answers how many faults there were.
pub fn reread_all<F: Files, O: Sink>(
    alloc: Global,
    paths: &[String],
    files: &mut F,
    out: &mut O,
) -> Result<usize, Stop> {
    let mut same = 0usize;
    let mut faults = 0usize;
    for path in paths {
        match is_same(alloc, path.as_str(), files) {
            Ok(true) => {
                same = same.saturating_add(1);
                put_text(out, format!(in alloc; "same {path}\n")?.as_str())?;
            }
            Ok(false) => {
                faults = faults.saturating_add(1);
                put_text(out, format!(in alloc; "fault {path} differs\n")?.as_str())?;
            }
            Err(fault) => {
                faults = faults.saturating_add(1);
                put_fault(alloc, out, path.as_str(), fault)?;
            }
        }
    }
    put_text(
        out,
        format!(in alloc; "{same} same, {faults} faults\n")?.as_str(),
    )?;
    Ok(faults)
}
