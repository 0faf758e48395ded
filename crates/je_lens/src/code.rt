//! The code of methods, which is decoded and assembled again.

ghost use Rattle.je_instr.specs.Assembling.{IsProgram};

use crate::code_parts::{CodeParts, MethodFault, code_parts, program_of};
use crate::same::is_same_program;
use crate::verdict::Verdict;
use je_base::Memory;
use je_consts::Consts;
use je_instr::{CodeFault, Program, SizeFault, assemble, decode};
use std::alloc::Global;

/// What becomes of the program of these parts.
fn assembled(
    alloc: Global,
    parts: &CodeParts,
    program: &Program,
    consts: &Consts,
) -> Result<Verdict, Memory>
    requires { IsProgram program.now }
{
    let found = match assemble(alloc, program) {
        Ok(found) => found,
        Err(SizeFault::Memory) => return Err(Memory),
        Err(_) => return Ok(Verdict::Differs),
    };
    let (code, table) = (found.code.as_slice(), found.table.as_slice());
    if code == parts.code && table == parts.table.as_slice() {
        return Ok(Verdict::Same);
    }
    match decode(alloc, code, table, consts) {
        Ok(again) if is_same_program(program, &again.program) => Ok(Verdict::Moved),
        Err(CodeFault::Memory) => Err(Memory),
        _ => Ok(Verdict::Differs),
    }
}

/// What becomes of the code of the content of a Code attribute.
pub fn verdict_of_code(alloc: Global, info: &[u8], consts: &Consts) -> Result<Verdict, Memory> {
    let parts = match code_parts(alloc, info) {
        Ok(parts) => parts,
        Err(MethodFault::Memory) => return Err(Memory),
        Err(fault) => return Ok(Verdict::Refused(fault)),
    };
    match program_of(alloc, &parts, consts) {
        Ok(decoded) => assembled(alloc, &parts, &decoded.program, consts),
        Err(MethodFault::Memory) => Err(Memory),
        Err(fault) => Ok(Verdict::Refused(fault)),
    }
}
