//! Laws of pieces: small ones, and those that are given as lists.

ghost use Rattle.std.specs.Prelude.{ℕ, List, Option, Bool, IsTrue};
ghost use Rattle.std.specs.List.{AllByRecursion};
ghost use Rattle.je_machine.specs.Value.{Kind};
ghost use Rattle.je_machine.specs.Classes.{Classes};
ghost use Rattle.je_machine.specs.Operation.{Basic, Operation, Do, Handler};
ghost use Rattle.je_machine.specs.Frame.{Frame};
ghost use Rattle.je_machine.specs.Machine.{Outer};
ghost use Rattle.je_machine.specs.Slots.{UsesBelow};
ghost use Rattle.je_shape.specs.Shape.{Known};
ghost use Rattle.je_shape.specs.Least.{Method, Assignment};
ghost use Rattle.je_fit.specs.Fits.{fits_known};
ghost use Rattle.je_splice.specs.Reference.{Performs, Means};
ghost use Rattle.je_splice.specs.Laid.{Fragment};
ghost use Rattle.je_splice.specs.Put.{PutAt, PutBefore, marks_of};
ghost use Rattle.je_splice.specs.Sample.{no_code, one_instruction, nothing, proceeding};
ghost use Rattle.je_stay.specs.Keeping.{DoingKeeps};
ghost use Rattle.je_stay.specs.Marked.{StaysAt, MeetsPiece, PiecesKeep, FitsMarked};
ghost use Rattle.je_stay.specs.Inner.{BlockKeeps, one_known, two_known};
ghost use Rattle.je_stay.specs.Listed.{ListsKeep, ListsFit};

/// The piece without code keeps to all that what is known before it gives, and an instruction alone
/// to what the instruction keeps.
pub fn small_pieces_keep()
    ensures nothing { (kind : Option (Option Kind)) (x : Assignment) (before next : Known)
        (outer : Classes → Outer) →
        ((frame : Frame) → IsTrue (fits_known before frame) → IsTrue (fits_known next frame))
        → DoingKeeps kind x before next outer (Means nothing) }
    ensures proceeds { (kind : Option (Option Kind)) (x : Assignment) (before next : Known)
        (outer : Classes → Outer) (basic : Basic) →
        DoingKeeps kind x before next outer (Performs (Do basic))
        → DoingKeeps kind x before next outer (Means (proceeding basic)) }
    // So do their blocks.
    ensures empty { (kind : Option (Option Kind)) (x : Assignment) (place next : ℕ)
        (outer : Classes → Outer) →
        ((frame : Frame) → IsTrue (fits_known (x place) frame) → IsTrue (fits_known (x next) frame))
        → BlockKeeps kind x (one_known (x place)) place next outer no_code }
    ensures alone { (kind : Option (Option Kind)) (x : Assignment) (place next : ℕ)
        (outer : Classes → Outer) (basic : Basic) →
        DoingKeeps kind x (x place) (x next) outer (Means (proceeding basic))
        → BlockKeeps kind x (two_known (x place) (x next)) place next outer
        (one_instruction basic) }
{}

/// What is asked of the pieces of a method is asked of each that is put into it.
pub fn listed_pieces_keep()
    // An entry of the exception table that meets a piece meets one that is there.
    ensures meets { (completes : Fragment → Bool) (places : List (PutAt Fragment))
        (entries : List (PutBefore Fragment Handler)) (handlers : List Handler) →
        AllByRecursion (MeetsPiece (marks_of (λ h. h.target) completes places entries)) handlers }
    ensures keep { (m : Method) (x : Assignment) (completes : Fragment → Bool)
        (places : List (PutAt Fragment)) (entries : List (PutBefore Fragment Handler)) →
        ListsKeep m x completes places entries
        → PiecesKeep m x (marks_of (λ h. h.target) completes places entries) }
    ensures fit { (limit : ℕ) (m : Method) (x : Assignment) (completes : Fragment → Bool)
        (places : List (PutAt Fragment)) (entries : List (PutBefore Fragment Handler)) →
        ListsFit limit x places entries
        → ((at : ℕ) (operation : Operation) →
        StaysAt m (marks_of {X = Fragment} {H = Handler} (λ h. h.target) completes places entries)
        at operation → UsesBelow limit operation)
        → FitsMarked limit m x (marks_of (λ h. h.target) completes places entries) }
{}
