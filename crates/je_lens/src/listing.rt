//! What was decoded, in words.

use crate::code_parts::{MethodFault, code_parts, program_of};
use crate::files::{Stop, class_at, put_fault, put_text};
use crate::methods::{is_code, method_words};
use crate::mnemonics::mnemonic;
use crate::rows::put_rows;
use je_base::{Files, Memory, Sink};
use je_class::Member;
use je_consts::Consts;
use je_instr::{Case, Decoded, Handler, Instr, InstrIndex};
use std::alloc::Global;

/// What of code is printed.
#[derive(Clone, Copy, Debug, PartialEq, Eq)]
pub enum Listed {
    /// Its instructions and handlers.
    Instrs,
    /// The rows of its tables.
    Rows,
}

/// The offset of the instruction of an index, or that of the end.
pub fn offset_of(offsets: &[u32], index: InstrIndex) -> u32 {
    match offsets.get(index as usize) {
        Some(offset) => *offset,
        None => u32::MAX,
    }
}

/// A tableswitch: the target of all other keys, the least key, and the targets.
fn put_table(
    text: &mut String,
    low: i32,
    targets: &[InstrIndex],
    fallback: InstrIndex,
    offsets: &[u32],
) -> Result<(), Memory> {
    write!(text, "tableswitch {} {low}", offset_of(offsets, fallback))?;
    for target in targets {
        write!(text, " {}", offset_of(offsets, *target))?;
    }
    Ok(())
}

/// A lookupswitch: the target of all other keys, and the keys with their targets.
fn put_lookup(
    text: &mut String,
    cases: &[Case],
    fallback: InstrIndex,
    offsets: &[u32],
) -> Result<(), Memory> {
    write!(text, "lookupswitch {}", offset_of(offsets, fallback))?;
    for case in cases {
        let key = case.key;
        write!(text, " {key}:{}", offset_of(offsets, case.target))?;
    }
    Ok(())
}

/// An instruction whose operands are no targets.
fn put_plain(text: &mut String, instr: &Instr) -> Result<(), Memory> {
    match instr {
        Instr::Simple(opcode) => write!(text, "{}", mnemonic(*opcode))?,
        Instr::IntPush(n) => write!(text, "push {n}")?,
        Instr::Ldc(index) => write!(text, "ldc #{index}")?,
        Instr::Ldc2(index) => write!(text, "ldc2_w #{index}")?,
        Instr::Local(opcode, slot) => write!(text, "{} {slot}", mnemonic(*opcode))?,
        Instr::Iinc(slot, by) => write!(text, "iinc {slot} {by}")?,
        Instr::Field(opcode, index) => write!(text, "{} #{index}", mnemonic(*opcode))?,
        Instr::Invoke(opcode, index) => write!(text, "{} #{index}", mnemonic(*opcode))?,
        Instr::InvokeInterface(index, count) => write!(text, "invokeinterface #{index} {count}")?,
        Instr::InvokeDynamic(index) => write!(text, "invokedynamic #{index}")?,
        Instr::New(index) => write!(text, "new #{index}")?,
        Instr::NewArray(code) => write!(text, "newarray {code}")?,
        Instr::ANewArray(index) => write!(text, "anewarray #{index}")?,
        Instr::CheckCast(index) => write!(text, "checkcast #{index}")?,
        Instr::InstanceOf(index) => write!(text, "instanceof #{index}")?,
        Instr::MultiNew(index, count) => write!(text, "multianewarray #{index} {count}")?,
        Instr::Branch(..) | Instr::Goto(_) | Instr::TableSwitch(..) | Instr::LookupSwitch(..) => {}
    }
    Ok(())
}

/// An instruction, with offsets as targets.
fn put_instr(text: &mut String, instr: &Instr, offsets: &[u32]) -> Result<(), Memory> {
    match instr {
        Instr::Branch(opcode, target) => {
            let target = offset_of(offsets, *target);
            write!(text, "{} {target}", mnemonic(*opcode))?;
            Ok(())
        }
        Instr::Goto(target) => {
            write!(text, "goto {}", offset_of(offsets, *target))?;
            Ok(())
        }
        Instr::TableSwitch(low, targets, fallback) => {
            put_table(text, *low, targets.as_slice(), *fallback, offsets)
        }
        Instr::LookupSwitch(cases, fallback) => {
            put_lookup(text, cases.as_slice(), *fallback, offsets)
        }
        plain => put_plain(text, plain),
    }
}

/// A handler, with offsets.
fn put_handler(text: &mut String, handler: &Handler, offsets: &[u32]) -> Result<(), Memory> {
    let start = offset_of(offsets, handler.start);
    let end = offset_of(offsets, handler.end);
    let target = offset_of(offsets, handler.target);
    let class = handler.catch_const;
    writeln!(text, "catch {start} {end} {target} #{class}")?;
    Ok(())
}

/// The lines of a program: each instruction behind its offset, and each handler.
fn put_program(text: &mut String, decoded: &Decoded) -> Result<(), Memory> {
    let offsets = decoded.offsets.as_slice();
    let mut behind = offsets;
    for instr in decoded.program.instrs.as_slice() {
        if let [offset, tail @ ..] = behind {
            write!(text, "{offset} ")?;
            behind = tail;
        }
        put_instr(text, instr, offsets)?;
        writeln!(text)?;
    }
    for handler in decoded.program.handlers.as_slice() {
        put_handler(text, handler, offsets)?;
    }
    Ok(())
}

/// The lines of the content of a Code attribute, or the line of its fault.
fn put_code(
    alloc: Global,
    text: &mut String,
    info: &[u8],
    consts: &Consts,
) -> Result<(), MethodFault> {
    let parts = code_parts(alloc, info)?;
    let decoded = program_of(alloc, &parts, consts)?;
    Ok(put_program(text, &decoded)?)
}

/// The lines of a method, behind one that names it.
fn lines_of(
    alloc: Global,
    listed: Listed,
    path: &str,
    consts: &Consts,
    method: &Member,
) -> Result<String, Memory> {
    let mut text = String::new(alloc);
    for attribute in method.attributes.as_slice() {
        if is_code(consts, attribute) {
            let words = method_words(alloc, consts, method)?;
            writeln!(text, "method {path} {words}")?;
            let put = match listed {
                Listed::Instrs => put_code(alloc, &mut text, attribute.bytes.as_slice(), consts),
                Listed::Rows => put_rows(alloc, &mut text, &attribute.bytes, consts),
            };
            match put {
                Ok(()) => {}
                Err(MethodFault::Memory) => return Err(Memory),
                Err(fault) => {
                    let words = fault.words(alloc)?;
                    writeln!(text, "refused {words}")?;
                }
            }
        }
    }
    Ok(text)
}

/// Puts the lines of the methods of each class file; answers how many have a fault.
pub fn list_all<F: Files, O: Sink>(
    alloc: Global,
    listed: Listed,
    paths: &[String],
    files: &mut F,
    out: &mut O,
) -> Result<usize, Stop> {
    let mut faults = 0usize;
    for path in paths {
        match class_at(alloc, path.as_str(), files) {
            Ok(class) => {
                for method in class.methods() {
                    let lines = lines_of(alloc, listed, path.as_str(), class.consts(), method)?;
                    put_text(out, lines.as_str())?;
                }
            }
            Err(fault) => {
                faults = faults.saturating_add(1);
                put_fault(alloc, out, path.as_str(), fault)?;
            }
        }
    }
    Ok(faults)
}
