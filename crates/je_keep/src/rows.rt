//! Small methods, computed.

ghost use Rattle.std.specs.Prelude.{ℕ, List, [], ◌∷◌, true, codes};
ghost use Rattle.je_consts.specs.declared.place.Place.{Place};
ghost use Rattle.je_machine.specs.Operation.{Program};
ghost use Rattle.je_instr.specs.CodeProgram.{CodeProgram};
ghost use Rattle.je_instr.specs.Sample.{push_and_return};
ghost use Rattle.je_shape.specs.Flow.{shape_of};
ghost use Rattle.je_shape.specs.Sample.{at_two};
ghost use Rattle.je_keep.specs.MethodCode.{IsMethodOf, AreFaultless};
ghost use Rattle.je_keep.specs.Sample.{nop_code, nop_method};

use je_instr::{one_decoding, programs_mean};

/// A small method that a class file has, with its shapes, and code that is no program.
pub fn small_codes()
    ensures method { IsMethodOf nop_code nop_method }
    ensures faultless { AreFaultless nop_method (at_two (shape_of [] [])) }
    // No handler is the end of the code: the code has four bytes.
    ensures no_end { (consts : List Place) (p : Program) →
        CodeProgram consts true (codes "()V") push_and_return
        (record { start = 0; end = 3; target = 4; catch_const = 0 } ∷ []) p → ⊥ }
{
    // The laws that the proof stands on.
    je_fit::small_methods();
    je_shape::small_methods();
    one_decoding();
    programs_mean();
}
