//! Laws of methods of class files into which pieces are put.

ghost use Rattle.std.specs.Prelude.{ℕ, ◌<◌, List, length};
ghost use Rattle.je_machine.specs.Value.{Value};
ghost use Rattle.je_machine.specs.Heap.{Heap};
ghost use Rattle.je_machine.specs.Classes.{Classes};
ghost use Rattle.je_machine.specs.Outside.{Answer};
ghost use Rattle.je_machine.specs.Operation.{Handler};
ghost use Rattle.je_machine.specs.Machine.{start_of, run_of};
ghost use Rattle.je_machine.specs.View.{AgreeingRuns};
ghost use Rattle.je_shape.specs.Least.{Method, Assignment};
ghost use Rattle.je_keep.specs.MethodCode.{MethodCode, IsMethodOf, AreFaultless};
ghost use Rattle.je_splice.specs.Reference.{body_of};
ghost use Rattle.je_splice.specs.Laid.{Fragment};
ghost use Rattle.je_splice.specs.Marks.{Marks, marked, spliced};
ghost use Rattle.je_stay.specs.Marked.{PiecesKeep, KeepsMarked, FitsMarked};

use crate::marks::instructions_stay;
use crate::spliced::spliced_methods_keep;
use je_fit::least_shapes_are_sound;
use je_keep::{code_is_well_formed, code_keeps_to_shapes};

/// A method that a class file has, whose least shapes have no fault, and pieces that keep to them.
pub fn class_methods_keep()
    ensures keeps { (f : MethodCode) (m : Method) (x : Assignment)
        (marks : Marks Fragment Handler) → IsMethodOf f m → AreFaultless m x
        → PiecesKeep m x marks → KeepsMarked m x marks }
    // With the blocks of the pieces in place it does what the marked method means, whatever the
    // other classes, the arguments, the heap and the answers of the outside are.
    ensures agrees { (limit : ℕ) (f : MethodCode) (m : Method) (x : Assignment)
        (marks : Marks Fragment Handler) (classes : Classes) (arguments : List Value)
        (heap : Heap) (answers : List Answer) →
        let start = start_of m.program arguments heap answers in
        IsMethodOf f m → AreFaultless m x → 0 < length f.code
        → PiecesKeep m x marks → FitsMarked limit m x marks
        → AgreeingRuns
        (λ n. body_of (marked m.program marks) classes n start.frame.locals start.outside)
        (run_of (spliced m.program marks) classes arguments heap answers) }
{
    // The laws that the proof stands on.
    code_is_well_formed();
    code_keeps_to_shapes();
    instructions_stay();
    least_shapes_are_sound();
    spliced_methods_keep();
}
