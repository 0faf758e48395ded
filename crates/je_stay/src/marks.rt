//! Laws of methods with marks, whose pieces keep to the shapes of their indexes.

ghost use Rattle.std.specs.Prelude.{◌≡◌, ℕ, suc, ◌<◌, ◌≤◌, length, Some, IsTrue, slice_get};
ghost use Rattle.je_machine.specs.Value.{Value};
ghost use Rattle.je_machine.specs.Classes.{Classes};
ghost use Rattle.je_machine.specs.Outside.{Outside};
ghost use Rattle.je_machine.specs.Acts.{is_reference};
ghost use Rattle.je_machine.specs.Operation.{Operation, Handler};
ghost use Rattle.je_machine.specs.Frame.{Frame};
ghost use Rattle.je_shape.specs.Least.{Method, Assignment};
ghost use Rattle.je_fit.specs.Fits.{fits_known};
ghost use Rattle.je_fit.specs.Sound.{IsWellFormed, IsSound};
ghost use Rattle.je_splice.specs.Reference.{Performs};
ghost use Rattle.je_splice.specs.Layout.{operation_codes};
ghost use Rattle.je_splice.specs.Laid.{Fragment, Fits};
ghost use Rattle.je_splice.specs.Marks.{Marks, first_of, marked_items, marked_handlers, marked};
ghost use Rattle.je_stay.specs.Keeping.{ThrowKeeps, IsShaped};
ghost use Rattle.je_stay.specs.Marked.{known_at, thrown_from, KeepsAt, PiecesKeep, KeepsMarked};
ghost use Rattle.je_stay.specs.Marked.{FitsMarked};

/// What a method's own instructions keep, where its shapes are sound, as its least ones are that
/// have no fault.
pub fn instructions_stay()
    ensures stays { (m : Method) (x : Assignment) (at : ℕ) (operation : Operation) → IsSound m x
        → IsWellFormed m.program → slice_get m.program.operations at ≡ Some operation
        → KeepsAt m x at (x (suc at)) (Performs operation) }
    // What is thrown at an index, with local variables of its shape, enters each handler in a frame
    // that has the handler's shape.
    ensures throws { (m : Method) (x : Assignment) (classes : Classes) (at : ℕ)
        (operation : Operation) (frame : Frame) (reference : Value) (outside : Outside) →
        IsSound m x → IsWellFormed m.program → slice_get m.program.operations at ≡ Some operation
        → IsTrue (is_reference reference) → IsTrue (fits_known (x at) frame)
        → ThrowKeeps x (thrown_from m at classes outside.heap reference) reference frame.locals }
    // So nothing but the pieces is left to show.
    ensures marked { (m : Method) (x : Assignment) (marks : Marks Fragment Handler) → IsSound m x
        → IsWellFormed m.program → PiecesKeep m x marks → KeepsMarked m x marks }
{}

/// Where pieces keep to the shapes of their indexes, the marked method keeps to those of its
/// places.
pub fn marked_methods_keep()
    // What is known of a place is what is known of its index.
    ensures places { (x : Assignment) (marks : Marks Fragment Handler) (count at place : ℕ) →
        at < count → first_of marks at ≤ place → place < first_of marks (suc at)
        → known_at marks x count place ≡ x at }
    ensures shaped { (m : Method) (x : Assignment) (marks : Marks Fragment Handler) →
        KeepsMarked m x marks
        → IsShaped m.result (known_at marks x (length m.program.operations))
        (marked m.program marks) }
    // It begins with the shape of the first index.
    ensures begins { (m : Method) (x : Assignment) (marks : Marks Fragment Handler)
        (frame : Frame) → KeepsMarked m x marks → IsTrue (fits_known (x 0) frame)
        → IsTrue (fits_known (known_at marks x (length m.program.operations) 0) frame) }
    // Where blocks do what is meant with each frame that has the shape of their index, each premise
    // of the law of spliced code is met.
    ensures fits { (limit : ℕ) (m : Method) (x : Assignment) (marks : Marks Fragment Handler) →
        KeepsMarked m x marks → FitsMarked limit m x marks
        → Fits limit (λ place. fits_known (known_at marks x (length m.program.operations) place))
        m.program.parameters (marked_items operation_codes marks m.program.operations)
        (marked_handlers operation_codes marks m.program.handlers) }
{}
