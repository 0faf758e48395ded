//! The law of replaced calls.

ghost use Rattle.std.specs.Prelude.{ℕ, ◌<◌, length};
ghost use Rattle.je_consts.specs.Pool.{IsPool};
ghost use Rattle.je_machine.specs.Operation.{Program};
ghost use Rattle.je_instr.specs.Assembling.{IsProgram};
ghost use Rattle.je_shape.specs.Least.{Assignment};
ghost use Rattle.je_keep.specs.MethodCode.{AreFaultless};
ghost use Rattle.je_calls.specs.Chosen.{choices_from, chosen_at};
ghost use Rattle.je_calls.specs.Method.{Task, IsProgramOf, method_with, ArePlain};
ghost use Rattle.je_calls.specs.RefRun.{Agrees};
ghost use Rattle.je_calls.specs.Result.{new_program, with_code};

use je_fit::{least_shapes_are_sound, parameters_fit, runs_fit};
use je_keep::programs_are_well_formed;
use je_machine::{actions_do, calls_do};
use je_stay::instructions_stay;

/// The new program does what the reference run does in which each call that the rules choose has
/// its fragment's meaning: for all arguments, heaps, class relations and answers of the outside.
pub fn new_programs_agree()
    ensures { (t : Task) (program new : Program) (x : Assignment) → IsPool t.consts
        → IsProgram t.code → 0 < length t.code.instrs → IsProgramOf t program
        → AreFaultless (method_with t program) x → ArePlain t.rules x program
        → IsProgramOf
        (with_code t (new_program t.code (choices_from t.rules x 0 program.operations))) new
        → Agrees program (chosen_at program x t.rules) new }
{
    // The laws that the proof stands on.
    actions_do();
    calls_do();
    instructions_stay();
    least_shapes_are_sound();
    parameters_fit();
    programs_are_well_formed();
    runs_fit();
}
