//! Laws of where the instructions of a method go.

ghost use Rattle.std.specs.Prelude.{◌≡◌, ℕ, suc, ◌≤◌, List, length, Some, slice_get};
ghost use Rattle.je_instr.specs.declared.instr.Instr.{Instr};
ghost use Rattle.je_instr.specs.declared.program.Handler.{Handler};
ghost use Rattle.je_instr.specs.declared.program.Program.{Program};
ghost use Rattle.je_put.specs.declared.block.Block.{Block};
ghost use Rattle.je_splice.specs.InstrCodes.{redirected};
ghost use Rattle.je_calls.specs.declared.rule.Choice.{Choice};
ghost use Rattle.je_calls.specs.declared.rule.Choice.TheVariants.{Stays, Drops};
ghost use Rattle.je_calls.specs.Result.{new_program, new_place};

use je_instr::{Handler, Instr};
use je_put::Block;
use je_splice::{
    choices_are_marks, code_is_laid, indexes_rise, places_are_counted, places_are_indexes,
    replacements_stand_alone,
};

/// Where what stands at each index begins in the new code, by what becomes of the instruction.
pub fn instructions_are_mapped()
    // It is the first index for the first, never falls, and is the end for the end.
    ensures starts { (p : Program) (choices : List Choice) → new_place p choices 0 ≡ 0 }
    ensures rises { (p : Program) (choices : List Choice) (i j : ℕ) → i ≤ j
        → new_place p choices i ≤ new_place p choices j }
    ensures ends { (p : Program) (choices : List Choice) →
        new_place p choices (length p.instrs) ≡ length (new_program p choices).instrs }
    // One that stays stands there, with its targets where they went, and the next one behind it.
    ensures stays { (p : Program) (choices : List Choice) (i : ℕ) (instr : Instr) →
        slice_get p.instrs i ≡ Some instr → slice_get choices i ≡ Some Stays
        → slice_get (new_program p choices).instrs (new_place p choices i)
        ≡ Some (redirected (new_place p choices) instr) }
    ensures behind { (p : Program) (choices : List Choice) (i : ℕ) (instr : Instr) →
        slice_get p.instrs i ≡ Some instr → slice_get choices i ≡ Some Stays
        → new_place p choices (suc i) ≡ suc (new_place p choices i) }
    // One that is left out has nothing in its place.
    ensures drops { (p : Program) (choices : List Choice) (i : ℕ) (instr : Instr) →
        slice_get p.instrs i ≡ Some instr → slice_get choices i ≡ Some Drops
        → new_place p choices (suc i) ≡ new_place p choices i }
    // The exception table becomes no longer.
    ensures handlers { (p : Program) (choices : List Choice) →
        length (new_program p choices).handlers ≤ length p.handlers }
{
    // The laws that the proof stands on.
    choices_are_marks::<Block, Block>();
    code_is_laid::<Instr, Handler>();
    indexes_rise::<Instr, Block, Handler, Handler>();
    places_are_counted::<Instr, Block, Handler>();
    places_are_indexes::<Block, Handler>();
    replacements_stand_alone::<Block, Handler>();
}
