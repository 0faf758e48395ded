//! Programs that code is.

ghost use Rattle.std.specs.Prelude.{ℕ, List, length, Bool};
ghost use Rattle.std.specs.List.{AllByRecursion, AllZip};
ghost use Rattle.je_consts.specs.declared.place.Place.{Place};
ghost use Rattle.je_consts.specs.Pool.{IsPool};
ghost use Rattle.je_machine.specs.Operation.{Program};
ghost use Rattle.je_instr.specs.declared.program.Program as decoded;
ghost use Rattle.je_instr.specs.declared.program.RawHandler.{RawHandler};
ghost use Rattle.je_instr.specs.Assembling.{IsProgram};
ghost use Rattle.je_instr.specs.CodeProgram.{IsHandlerOf, CodeProgram};
ghost use Rattle.je_instr.specs.Resolves.{Resolves};
ghost use Rattle.je_fit.specs.Sound.{IsWellFormed};
ghost use Rattle.je_keep.specs.MethodCode.{StaysWithin};

use je_instr::decoded_again;

/// What the instructions of a program are keeps to the static constraints on code (JVMS 4.9.1) as
/// far as shapes rest on them.
pub fn programs_are_well_formed()
    ensures { (consts : List Place) (code : decoded.Program) (p : Program) → IsPool consts
        → IsProgram code → AllZip (Resolves consts) code.instrs p.operations
        → AllZip (IsHandlerOf consts) code.handlers p.handlers → IsWellFormed p }
{}

/// What the code of a method is decoded to keeps to the static constraints on code (JVMS 4.9.1) as
/// far as shapes rest on them.
pub fn code_is_well_formed()
    // Each constant that is pushed is one of its type, each array that is made is an array, and
    // each handler is within the code (JVMS 4.7.3).
    ensures formed { (consts : List Place) (is_static : Bool) (text code : List ℕ)
        (table : List RawHandler) (p : Program) → IsPool consts
        → CodeProgram consts is_static text code table p → IsWellFormed p }
    // So is the target of each jump.
    ensures targets { (consts : List Place) (is_static : Bool) (text code : List ℕ)
        (table : List RawHandler) (p : Program) → CodeProgram consts is_static text code table p
        → AllByRecursion (StaysWithin (length p.operations)) p.operations }
{
    // The law that the proof stands on.
    decoded_again();
}
