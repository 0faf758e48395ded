//! Methods of class files as programs of the machine.

use crate::stop::Stop;
use je_base::{Files, Memory, Run};
use je_class::{Attribute, ClassFault, ClassFile, MOST_BYTES, Member, read_class};
use je_code::{CodeAttr, read_code};
use je_consts::{ConstIndex, Consts};
use je_instr::CodeFault;
use je_link::program_of;
use je_value::Program;
use std::alloc::Global;

/// The flag of a static method (JVMS table 4.6-A).
const ACC_STATIC: u16 = 0x0008;

/// The bytes of the file at a path.
pub fn bytes_at<F: Files>(path: &str, files: &mut F, limit: usize) -> Result<Vec<u8>, Stop> {
    match files.read(path, limit) {
        Ok(Some(bytes)) => Ok(bytes),
        _ => Err(Stop::NotRead),
    }
}

/// The class file at a path.
pub fn class_at<F: Files>(alloc: Global, path: &str, files: &mut F) -> Result<ClassFile, Stop> {
    let bytes = Run::of_vec(alloc, bytes_at(path, files, MOST_BYTES + 1)?)?;
    match read_class(alloc, &bytes) {
        Ok(class) => Ok(class),
        Err(ClassFault::Memory) => Err(Stop::Memory),
        Err(_) => Err(Stop::NotRead),
    }
}

/// Whether the text at an index is this one.
fn is_text(consts: &Consts, index: ConstIndex, word: &[u8]) -> bool {
    match consts.text(index) {
        Some(text) => text.bytes() == word,
        None => false,
    }
}

/// The first method of a name and a descriptor.
pub fn member_named<'a>(
    class: &'a ClassFile,
    name: &[u8],
    descriptor: &[u8],
) -> Option<&'a Member> {
    let consts = class.consts();
    for method in class.methods() {
        if is_text(consts, method.name, name) && is_text(consts, method.descriptor, descriptor) {
            return Some(method);
        }
    }
    None
}

/// The Code attribute of a method (JVMS 4.7.3).
pub fn code_of<'a>(consts: &Consts, method: &'a Member) -> Option<&'a Attribute> {
    for attribute in method.attributes.as_slice() {
        if is_text(consts, attribute.name, b"Code") {
            return Some(attribute);
        }
    }
    None
}

/// The code of the content of a Code attribute.
pub fn code_in(alloc: Global, info: &Run, consts: &Consts) -> Result<Option<CodeAttr>, Memory> {
    match read_code(alloc, info, consts) {
        Ok(code) => Ok(Some(code)),
        Err(CodeFault::Memory) => Err(Memory),
        Err(_) => Ok(None),
    }
}

/// The program of the method of a name and a descriptor, if there is one.
pub fn program_named(
    alloc: Global,
    class: &ClassFile,
    name: &[u8],
    descriptor: &[u8],
) -> Result<Option<Program>, Memory> {
    let consts = class.consts();
    let Some(method) = member_named(class, name, descriptor) else {
        return Ok(None);
    };
    let Some(attribute) = code_of(consts, method) else {
        return Ok(None);
    };
    let Some(code) = code_in(alloc, &attribute.bytes, consts)? else {
        return Ok(None);
    };
    let is_static = method.access & ACC_STATIC != 0;
    program_of(alloc, consts, is_static, descriptor, &code.decoded)
}
