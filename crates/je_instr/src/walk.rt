//! The instructions of code, each at its offset, whose targets are offsets (JVMS 4.9.1).

ghost use Rattle.std.specs.Prelude.{◌≡◌, ◌<◌, ◌^◌, ◌⊎◌, length, IfOk, IfErr};
ghost use Rattle.je_instr.specs.declared.fault.CodeFault.{CodeFault};
ghost use Rattle.je_instr.specs.Decoding.{Follow};
ghost use Rattle.je_instr.specs.Walking.{StopsAt};

use crate::allowed::is_allowed;
use crate::fault::CodeFault;
use crate::form::form_at;
use crate::instr::Instr;
use je_consts::Consts;
use std::alloc::Global;

/// The instructions of the code, and the offsets at which they begin.
pub(crate) fn walk(
    alloc: Global,
    code: &[u8],
    consts: &Consts,
) -> Result<(Vec<Instr>, Vec<u32>), CodeFault>
    requires { length code.now < 2 ^ 31 }
    ensures found { IfOk result (λ x.
        Follow consts.now code.now 0 x.0.items x.1.items (length code.now)) }
    ensures fault { IfErr result (λ e. (e ≡ CodeFault.Memory) ⊎ StopsAt consts.now code.now e) }
{
    let mut located = Vec::new(alloc);
    let mut starts = Vec::new(alloc);
    let mut at = 0;
    while at < code.len() {
        let (instr, end) = form_at(alloc, code, at)?;
        if !is_allowed(consts, &instr) {
            return Err(CodeFault::BadOperand(at));
        }
        located.push(instr)?;
        starts.push(at as u32)?;
        at = end;
    }
    Ok((located, starts))
}
