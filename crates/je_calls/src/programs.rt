//! Laws of programs in which calls are replaced.

ghost use Rattle.std.specs.Prelude.{ℕ, ◌<◌, length};
ghost use Rattle.je_machine.specs.Operation.{Program};
ghost use Rattle.je_shape.specs.Least.{Assignment};
ghost use Rattle.je_keep.specs.MethodCode.{AreFaultless};
ghost use Rattle.je_instr.specs.Assembling.{IsProgram, AllowsProgram};
ghost use Rattle.je_calls.specs.Chosen.{choices_from};
ghost use Rattle.je_calls.specs.Method.{Task, IsProgramOf, method_with, ArePlain};
ghost use Rattle.je_calls.specs.Result.{new_program};

/// The program in which a method's calls are replaced.
pub fn replaced_programs()
    // It has an instruction.
    ensures some { (t : Task) (program : Program) (x : Assignment) →
        let new = new_program t.code (choices_from t.rules x 0 program.operations) in
        IsProgramOf t program → AreFaultless (method_with t program) x
        → ArePlain t.rules x program → 0 < length t.code.instrs → 0 < length new.instrs }
    ensures program { (t : Task) (program : Program) (x : Assignment) →
        let new = new_program t.code (choices_from t.rules x 0 program.operations) in
        IsProgramOf t program → AreFaultless (method_with t program) x
        → ArePlain t.rules x program → IsProgram t.code → IsProgram new }
    // The constants allow what they allowed before.
    ensures allowed { (t : Task) (program : Program) (x : Assignment) →
        let new = new_program t.code (choices_from t.rules x 0 program.operations) in
        IsProgramOf t program → AllowsProgram t.consts t.code → AllowsProgram t.consts new }
{}
