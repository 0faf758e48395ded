//! Which programs may have the constants that they name.

ghost use Rattle.std.specs.Prelude.{◌↔◌, IsTrue};
ghost use Rattle.std.specs.List.{AllByRecursion};
ghost use Rattle.je_instr.specs.Allowed.{IsAllowed};
ghost use Rattle.je_instr.specs.Assembling.{IsCaught, AllowsProgram};

use je_consts::Consts;
use je_instr::{Handler, Instr, Program, is_allowed};

/// Whether each instruction may have its operands.
fn are_allowed_instrs(consts: &Consts, instrs: &[Instr]) -> bool
    ensures { IsTrue result ↔ AllByRecursion (IsAllowed consts.now) instrs.now }
{
    let mut rest = instrs;
    while let Some((instr, behind)) = rest.split_first() {
        if !is_allowed(consts, instr) {
            return false;
        }
        rest = behind;
    }
    true
}

/// Whether a handler catches all, or a class.
fn is_caught(consts: &Consts, handler: &Handler) -> bool
    ensures { IsTrue result ↔ IsCaught consts.now handler.now }
{
    handler.catch_const == 0 || is_allowed(consts, &Instr::New(handler.catch_const))
}

/// Whether each handler catches all, or a class.
fn are_caught(consts: &Consts, handlers: &[Handler]) -> bool
    ensures { IsTrue result ↔ AllByRecursion (IsCaught consts.now) handlers.now }
{
    let mut rest = handlers;
    while let Some((handler, behind)) = rest.split_first() {
        if !is_caught(consts, handler) {
            return false;
        }
        rest = behind;
    }
    true
}

/// Whether each instruction may have its operands, and each handler catches all, or a class that is
/// no array (JVMS 4.7.3, 4.9.1 and 6.5).
pub fn allows_program(consts: &Consts, p: &Program) -> bool
    ensures { IsTrue result ↔ AllowsProgram consts.now p.now }
{
    are_allowed_instrs(consts, p.instrs.as_slice()) && are_caught(consts, p.handlers.as_slice())
}
