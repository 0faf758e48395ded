//! Laws of spliced methods whose pieces keep to the shapes of their indexes.

ghost use Rattle.std.specs.Prelude.{◌≡◌, ℕ, suc, ◌<◌, ◌≤◌, List, [], length, Option};
ghost use Rattle.std.specs.Prelude.{IsTrue};
ghost use Rattle.je_machine.specs.Value.{Kind, Value};
ghost use Rattle.je_machine.specs.Heap.{Heap};
ghost use Rattle.je_machine.specs.Classes.{Classes};
ghost use Rattle.je_machine.specs.Outside.{Answer};
ghost use Rattle.je_machine.specs.Operation.{Operation, Return, Handler};
ghost use Rattle.je_machine.specs.Frame.{Frame, frame_of};
ghost use Rattle.je_machine.specs.Machine.{State, start_of, run_of};
ghost use Rattle.je_machine.specs.View.{AgreeingRuns};
ghost use Rattle.je_shape.specs.Shape.{Shape, Nothing, Has};
ghost use Rattle.je_shape.specs.Least.{Method, Assignment};
ghost use Rattle.je_fit.specs.Fits.{fits_shape, fits_known};
ghost use Rattle.je_fit.specs.Sound.{IsSound};
ghost use Rattle.je_splice.specs.Comes.{Does};
ghost use Rattle.je_splice.specs.Reference.{reference_step, body_of};
ghost use Rattle.je_splice.specs.Layout.{operation_codes};
ghost use Rattle.je_splice.specs.Laid.{Fragment};
ghost use Rattle.je_splice.specs.Marks.{Marks, first_of, stand, marked_items, marked, spliced};
ghost use Rattle.je_stay.specs.Visits.{Visits};
ghost use Rattle.je_stay.specs.Marked.{known_at, StaysAt, KeepsMarked, FitsMarked};

use je_fit::runs_fit;
use je_splice::spliced_methods;

/// A state to which the reference comes from one that fits, at a place of an index.
pub fn marked_runs_keep()
    // It is as deep as the shape of the index,
    ensures depth { (m : Method) (x : Assignment) (marks : Marks Fragment Handler)
        (classes : Classes) (count bound left at : ℕ) (s t : State) (shape : Shape) →
        KeepsMarked m x marks
        → IsTrue (fits_known (known_at marks x (length m.program.operations) s.place) s.frame)
        → Visits (reference_step (marked m.program marks) classes) count bound s left t
        → at < length m.program.operations
        → first_of marks at ≤ t.place → t.place < first_of marks (suc at)
        → x at ≡ Has shape → length t.frame.stack ≡ length shape.stack }
    // and so at a return that stays.
    ensures returns { (m : Method) (x : Assignment) (marks : Marks Fragment Handler)
        (classes : Classes) (count bound left at : ℕ) (s t : State) (kind : Option Kind)
        (shape : Shape) → KeepsMarked m x marks
        → IsTrue (fits_known (known_at marks x (length m.program.operations) s.place) s.frame)
        → Visits (reference_step (marked m.program marks) classes) count bound s left t
        → StaysAt m marks at (Return kind) → t.place ≡ stand marks at
        → x at ≡ Has shape → length t.frame.stack ≡ length shape.stack }
    // An index to which nothing comes is never reached.
    ensures known { (m : Method) (x : Assignment) (marks : Marks Fragment Handler)
        (classes : Classes) (count bound left at : ℕ) (s t : State) →
        KeepsMarked m x marks
        → IsTrue (fits_known (known_at marks x (length m.program.operations) s.place) s.frame)
        → Visits (reference_step (marked m.program marks) classes) count bound s left t
        → at < length m.program.operations
        → first_of marks at ≤ t.place → t.place < first_of marks (suc at)
        → x at ≡ Nothing → ⊥ }
{}

/// A method with the blocks of its pieces in place does what the marked method means, where pieces
/// keep to the shapes of their indexes and blocks do what is meant with each frame of that shape.
pub fn spliced_methods_keep()
    // Arguments have the shape of the entry, and so that of the first index.
    ensures begins { (m : Method) (x : Assignment) (frame : Frame) → IsSound m x
        → 0 < length m.program.operations → IsTrue (fits_shape m.entry frame)
        → IsTrue (fits_known (x 0) frame) }
    ensures does { (limit : ℕ) (m : Method) (x : Assignment) (marks : Marks Fragment Handler)
        (classes : Classes) → KeepsMarked m x marks → FitsMarked limit m x marks →
        Does (spliced m.program marks) classes limit
        (length (marked_items {A = Operation} operation_codes marks m.program.operations))
        (suc (length (marked_items {A = Operation} operation_codes marks m.program.operations)))
        (λ locals. fits_known (x 0) (frame_of [] locals))
        (body_of (marked m.program marks) classes) }
    ensures agrees { (limit : ℕ) (m : Method) (x : Assignment) (marks : Marks Fragment Handler)
        (classes : Classes) (arguments : List Value) (heap : Heap) (answers : List Answer) →
        let start = start_of m.program arguments heap answers in
        KeepsMarked m x marks → FitsMarked limit m x marks → IsTrue (fits_known (x 0) start.frame)
        → AgreeingRuns
        (λ n. body_of (marked m.program marks) classes n start.frame.locals start.outside)
        (run_of (spliced m.program marks) classes arguments heap answers) }
{
    // The laws that the proof stands on.
    runs_fit();
    spliced_methods();
}
