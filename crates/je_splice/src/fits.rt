//! Laws of what is asked of a marked method.

ghost use Rattle.std.specs.Prelude.{◌≡◌, ℕ, List, Some, None, option_map, slice_get, Bool};
ghost use Rattle.std.specs.List.{AllByRecursion};
ghost use Rattle.je_machine.specs.Operation.{Operation, Handler, Program};
ghost use Rattle.je_machine.specs.Frame.{Frame};
ghost use Rattle.je_machine.specs.Slots.{UsesBelow};
ghost use Rattle.je_splice.specs.Layout.{Item};
ghost use Rattle.je_splice.specs.Laid.{Fragment, FitsItem, FitsAnywhere, Fits};
ghost use Rattle.je_splice.specs.Marks.{Marks, OnlyInstead, EachPut, IsKeptBy};
ghost use Rattle.je_splice.specs.Put.{PutAt, PutBefore, marks_of};
ghost use Rattle.je_splice.specs.Resolved.{fragment_items};

/// Each item of a marked method fits where its operations use no local variable from the limit on
/// and its fragments do what is meant with any frame.
pub fn marked_items_fit<Y>()
    ensures each { (fragment_of : Y → Fragment) (limit : ℕ) (ok : Frame → Bool)
        (n : Marks Y Handler) (operations : List Operation) →
        AllByRecursion (UsesBelow limit) operations
        → EachPut (λ y. FitsAnywhere limit (fragment_of y)) n
        → (place : ℕ) (item : Item Operation Fragment) →
        slice_get (fragment_items fragment_of n operations) place ≡ Some item
        → FitsItem limit ok item }
    // So it is with what lists put.
    ensures lists { (fragment_of : Y → Fragment) (limit : ℕ) (target_of : Handler → ℕ)
        (goes_on : Y → Bool) (places : List (PutAt Y)) (entries : List (PutBefore Y Handler)) →
        AllByRecursion (λ put. FitsAnywhere limit (fragment_of put.piece)) places
        → AllByRecursion (λ put. FitsAnywhere limit (fragment_of put.piece)) entries
        → EachPut (λ y. FitsAnywhere limit (fragment_of y))
        (marks_of target_of goes_on places entries) }
    // There is such a limit for each list of operations.
    ensures limit { (operations : List Operation) →
        (limit : ℕ) × AllByRecursion (UsesBelow limit) operations }
{}

/// What is asked of a method of which some instructions give way, by its own indexes.
pub fn replaced_methods_fit<Y>()
    ensures { (fragment_of : Y → Fragment) (limit : ℕ) (ok : ℕ → Frame → Bool) (n : Marks Y Handler)
        (p : Program) →
        OnlyInstead n → ((h : Handler) → n.entry_of h ≡ None)
        → AllByRecursion (UsesBelow limit) p.operations
        → EachPut (λ y. FitsAnywhere limit (fragment_of y)) n
        → IsKeptBy ok p (λ i. option_map fragment_of (n.instead i))
        → Fits limit ok p.parameters (fragment_items fragment_of n p.operations) p.handlers }
{}
