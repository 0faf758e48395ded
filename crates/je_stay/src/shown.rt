//! A method with a loop and two handlers with pieces put into it, computed, and pieces that do not
//! keep to its shapes.

ghost use Rattle.std.specs.Prelude.{◌≡◌, ℕ, pos, List, [], ◌∷◌, map, IsTrue};
ghost use Rattle.je_machine.specs.Value.{Value, Int};
ghost use Rattle.je_machine.specs.Heap.{Heap};
ghost use Rattle.je_machine.specs.Classes.{Classes};
ghost use Rattle.je_machine.specs.Outside.{Answer, Outside};
ghost use Rattle.je_machine.specs.Operation.{Push};
ghost use Rattle.je_machine.specs.Frame.{frame_of};
ghost use Rattle.je_machine.specs.Machine.{enter, run_of};
ghost use Rattle.je_machine.specs.View.{AgreeingRuns};
ghost use Rattle.je_machine.specs.Sample.{before};
ghost use Rattle.je_shape.specs.Shape.{Known, Nothing, Has};
ghost use Rattle.je_shape.specs.Least.{IsLeast};
ghost use Rattle.je_fit.specs.Fits.{fits_known};
ghost use Rattle.je_fit.specs.Sound.{IsWellFormed, IsSound};
ghost use Rattle.je_splice.specs.Reference.{Means, body_of};
ghost use Rattle.je_splice.specs.Marks.{marked, spliced};
ghost use Rattle.je_splice.specs.Sample.{nothing, proceeding};
ghost use Rattle.je_stay.specs.Marked.{known_at, KeepsAt, PiecesKeep, KeepsMarked, FitsMarked};
ghost use Rattle.je_stay.specs.Sample.{turning, turning_shapes, turning_marks, counted, tested};
ghost use Rattle.je_stay.specs.Sample.{thrown, turning_indexes};
ghost use Rattle.je_stay.specs.Inner.{ProgramKeeps};

use crate::inner::laid_code_keeps;
use crate::spliced::spliced_methods_keep;

/// The method meets each premise, so that with its pieces in place it does what is meant.
pub fn turning_is_spliced()
    ensures least { IsLeast turning turning_shapes }
    ensures sound { IsSound turning turning_shapes }
    ensures formed { IsWellFormed turning.program }
    ensures keeps { KeepsMarked turning turning_shapes turning_marks }
    ensures fits { FitsMarked 1 turning turning_shapes turning_marks }
    // Twelve places have the shapes of their nine indexes.
    ensures places { map (known_at turning_marks turning_shapes 9)
        (0 ∷ 1 ∷ 2 ∷ 3 ∷ 4 ∷ 5 ∷ 6 ∷ 7 ∷ 8 ∷ 9 ∷ 10 ∷ 11 ∷ 12 ∷ [])
        ≡ Has counted ∷ Has counted ∷ Has tested ∷ Has counted ∷ Has counted ∷ Has counted
        ∷ Has counted ∷ Has counted ∷ Has counted ∷ Has thrown ∷ Has thrown ∷ Has counted
        ∷ Nothing ∷ [] }
    ensures begins { (arguments : List Value) → IsTrue (fits_known (turning_shapes 0)
        (frame_of [] (enter turning.program.parameters arguments))) }
    ensures agrees { (classes : Classes) (arguments : List Value) (heap : Heap)
        (answers : List Answer) →
        AgreeingRuns
        (λ n. body_of (marked turning.program turning_marks) classes n
        (enter turning.program.parameters arguments) (before heap answers))
        (run_of (spliced turning.program turning_marks) classes arguments heap answers) }
    // With its pieces in place its code has shapes too: eleven instructions.
    ensures code { ProgramKeeps turning.result turning_indexes
        (spliced turning.program turning_marks) }
    ensures indexes { map turning_indexes
        (0 ∷ 1 ∷ 2 ∷ 3 ∷ 4 ∷ 5 ∷ 6 ∷ 7 ∷ 8 ∷ 9 ∷ 10 ∷ 11 ∷ [])
        ≡ Has counted ∷ Has counted ∷ Has tested ∷ Has counted ∷ Has counted ∷ Has counted
        ∷ Has counted ∷ Has counted ∷ Has thrown ∷ Has thrown ∷ Has counted ∷ Nothing ∷ [] }
{
    // The laws that the proof stands on.
    laid_code_keeps();
    spliced_methods_keep();
}

/// Pieces that do not keep to its shapes.
pub fn wrong_pieces()
    // One that leaves a value more, before the loop.
    ensures left_over { (classes : Classes) (outside : Outside) →
        KeepsAt turning turning_shapes 0 (turning_shapes 0)
        (Means (proceeding (Push (Int (pos 1))))) → ⊥ }
    // Nothing in place of what pushes a value.
    ensures nothing { (classes : Classes) (outside : Outside) →
        KeepsAt turning turning_shapes 0 (turning_shapes 1) (Means nothing) → ⊥ }
{}
