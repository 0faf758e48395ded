//! The least shapes of the methods of class files.

use crate::code_parts::{MethodFault, code_parts, program_of};
use crate::files::{Stop, class_at, put_fault, put_text};
use crate::methods::{is_code, method_words};
use je_base::{Files, Memory, Sink, Text};
use je_class::{ClassFile, Member};
use je_consts::Consts;
use je_desc::MethodType;
use je_least::ShapeFault;
use je_shape::entry_shape;
use je_shapes::shapes;
use je_type::parse_method;
use std::alloc::Global;

/// The flag of a static method (JVMS 4.6).
const STATIC: u16 = 0x0008;

/// The name of constructors (JVMS 2.9).
const CONSTRUCTOR: &[u8] = b"<init>";

/// What is found of a method with code.
#[derive(Clone, Copy, Debug)]
enum Shaping {
    /// It has shapes.
    Shaped,
    /// It has none: the index of the first instruction at fault.
    Bad(u32),
    /// Its code is not read.
    Refused(MethodFault),
    /// Its descriptor is not read.
    NoType,
}

/// How often each was found.
#[derive(Clone, Copy, Debug)]
struct Counts {
    shaped: usize,
    bad: usize,
    refused: usize,
}

impl Counts {
    /// Counts one more.
    fn add(&mut self, found: Shaping) {
        let count = match found {
            Shaping::Shaped => &mut self.shaped,
            Shaping::Bad(_) => &mut self.bad,
            Shaping::Refused(_) | Shaping::NoType => &mut self.refused,
        };
        *count = count.saturating_add(1);
    }
}

/// The type of a method, or `None` where its descriptor is none.
fn type_of(alloc: Global, consts: &Consts, method: &Member) -> Result<Option<MethodType>, Memory> {
    match consts.text(method.descriptor) {
        Some(text) => Ok(parse_method(alloc, text.bytes())?),
        None => Ok(None),
    }
}

/// Whether a method is a constructor.
fn is_constructor(consts: &Consts, method: &Member) -> bool {
    match consts.text(method.name) {
        Some(name) => name.bytes() == CONSTRUCTOR,
        None => false,
    }
}

/// Whether a method of this type has shapes, by its decoded code. No frames are given.
fn found_of_code(
    alloc: Global,
    class_name: &Text,
    consts: &Consts,
    method: &Member,
    types: &MethodType,
    code: &[u8],
) -> Result<Shaping, Memory> {
    let parts = match code_parts(alloc, code) {
        Ok(parts) => parts,
        Err(MethodFault::Memory) => return Err(Memory),
        Err(fault) => return Ok(Shaping::Refused(fault)),
    };
    let decoded = match program_of(alloc, &parts, consts) {
        Ok(decoded) => decoded,
        Err(MethodFault::Memory) => return Err(Memory),
        Err(fault) => return Ok(Shaping::Refused(fault)),
    };
    let is_static = method.access & STATIC != 0;
    let is_init = is_constructor(consts, method);
    let entry = entry_shape(alloc, class_name, is_static, is_init, types)?;
    let program = &decoded.program;
    match shapes(alloc, class_name, program, consts, &entry, &[], Some(types)) {
        Ok(_) => Ok(Shaping::Shaped),
        Err(ShapeFault::BadCode(at)) => Ok(Shaping::Bad(at)),
        Err(ShapeFault::Memory) => Err(Memory),
    }
}

/// What is found of a method with this code.
fn found(
    alloc: Global,
    class_name: &Text,
    consts: &Consts,
    method: &Member,
    code: &[u8],
) -> Result<Shaping, Memory> {
    match type_of(alloc, consts, method)? {
        Some(types) => found_of_code(alloc, class_name, consts, method, &types, code),
        None => Ok(Shaping::NoType),
    }
}

/// Puts a line where a method has no shapes or is refused.
fn put_found<O: Sink>(
    alloc: Global,
    out: &mut O,
    path: &str,
    method: &str,
    found: Shaping,
) -> Result<(), Stop> {
    let line = match found {
        Shaping::Shaped => return Ok(()),
        Shaping::Bad(at) => format!(in alloc; "bad {path} {method} {at}\n")?,
        Shaping::Refused(fault) => {
            let words = fault.words(alloc)?;
            format!(in alloc; "refused {path} {method} {words}\n")?
        }
        Shaping::NoType => format!(in alloc; "refused {path} {method} bad descriptor\n")?,
    };
    put_text(out, line.as_str())
}

/// Counts what is found of the methods of a class, and puts the lines.
fn put_class<O: Sink>(
    alloc: Global,
    path: &str,
    class: &ClassFile,
    counts: &mut Counts,
    out: &mut O,
) -> Result<(), Stop> {
    let consts = class.consts();
    let name = class.this_name();
    for method in class.methods() {
        for attribute in method.attributes.as_slice() {
            if is_code(consts, attribute) {
                let found = found(alloc, name, consts, method, attribute.bytes.as_slice())?;
                counts.add(found);
                let words = method_words(alloc, consts, method)?;
                put_found(alloc, out, path, words.as_str(), found)?;
            }
        }
    }
    Ok(())
}

/// Puts a line for each class file with a fault and each method that has no shapes or is refused,
/// and one with the numbers; answers how many lines there were before.
pub fn shape_all<F: Files, O: Sink>(
    alloc: Global,
    paths: &[String],
    files: &mut F,
    out: &mut O,
) -> Result<usize, Stop> {
    let mut faults = 0usize;
    let mut counts = Counts {
        shaped: 0,
        bad: 0,
        refused: 0,
    };
    for path in paths {
        match class_at(alloc, path.as_str(), files) {
            Ok(class) => put_class(alloc, path.as_str(), &class, &mut counts, out)?,
            Err(fault) => {
                faults = faults.saturating_add(1);
                put_fault(alloc, out, path.as_str(), fault)?;
            }
        }
    }
    let Counts {
        shaped,
        bad,
        refused,
    } = counts;
    let line = format!(in alloc; "{shaped} shaped, {bad} bad, {refused} refused\n")?;
    put_text(out, line.as_str())?;
    Ok(faults.saturating_add(bad).saturating_add(refused))
}
