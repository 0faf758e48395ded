//! Laws of pieces that are put at the indexes of instructions: where they stand, to where they
//! lead, and where throws go.

ghost use Rattle.std.specs.Prelude.{◌≡◌, ℕ, suc, ◌+◌, ◌<◌, ◌≤◌, List, length, Some, None, true};
ghost use Rattle.std.specs.Prelude.{[], slice_get, option_map, find, Bool};
ghost use Rattle.std.specs.List.{AllByRecursion};
ghost use Rattle.je_machine.specs.Value.{Value};
ghost use Rattle.je_machine.specs.Heap.{Heap};
ghost use Rattle.je_machine.specs.Classes.{Classes};
ghost use Rattle.je_machine.specs.Operation.{Handler, Program};
ghost use Rattle.je_machine.specs.Machine.{catcher, is_handler_of};
ghost use Rattle.je_splice.specs.Block.{Piece};
ghost use Rattle.je_splice.specs.Laid.{Fragment, reference_of};
ghost use Rattle.je_splice.specs.Layout.{Codes, operation_codes, Item, Keeps, laid_code};
ghost use Rattle.je_splice.specs.Marks.{Marks, OnlyInstead, first_of, arrive, stand, fall_to};
ghost use Rattle.je_splice.specs.Marks.{marked_items, new_index, marked_handlers, marked_target};
ghost use Rattle.je_splice.specs.Marks.{IsPut, IsKept, replaced};
ghost use Rattle.je_splice.specs.Resolved.{fragment_items};
ghost use Rattle.je_splice.specs.Put.{PutAt, marks_of, StandsInstead};

/// The places of indexes rise, and there is one for each item.
pub fn places_are_counted<A, X, H>()
    ensures rises { (m : Marks X H) (i j : ℕ) → i ≤ j → first_of m i ≤ first_of m j }
    ensures last { (m : Marks X H) (i : ℕ) → suc (stand m i) ≡ first_of m (suc i) }
    ensures length { (codes : Codes A H) (m : Marks X H) (code : List A) →
        length (marked_items {X = X} codes m code) ≡ first_of m (length code) }
{}

/// Where what stands at each index begins in the new code never falls, and is within it.
pub fn indexes_rise<A, X, H, G>()
    ensures rises { (m : Marks X H) (items : List (Item A (Piece A G))) (i j : ℕ) → i ≤ j
        → new_index m items i ≤ new_index m items j }
    ensures within { (m : Marks X H) (codes : Codes A G) (items : List (Item A (Piece A G)))
        (i : ℕ) →
        new_index m items i ≤ length (laid_code codes items) }
{}

/// Where nothing is put but in the place of instructions, their places are their indexes.
pub fn places_are_indexes<X, H>()
    ensures arrive { (m : Marks X H) → OnlyInstead m → (i : ℕ) → arrive m i ≡ i }
    ensures stand { (m : Marks X H) → OnlyInstead m → (i : ℕ) → stand m i ≡ i }
{}

/// What is put at an index stands in this order: what is in the way of handlers, what jumps pass
/// by, what they meet, and the instruction or what is in its place.
pub fn pieces_are_placed<A, X, H>()
    // What is in the way of handlers leads to where jumps to the index arrive.
    ensures entries { (codes : Codes A H) (m : Marks X H) (code : List A) (i k : ℕ) (a : A)
        (x : X) →
        slice_get code i ≡ Some a → slice_get (m.entries i) k ≡ Some x
        → IsPut (marked_items codes m code) (first_of m i + k) x (m.completes x) (arrive m i) }
    ensures passed { (codes : Codes A H) (m : Marks X H) (code : List A) (i k : ℕ) (a : A)
        (x : X) →
        slice_get code i ≡ Some a → slice_get (m.passed i) k ≡ Some x
        → IsPut (marked_items codes m code) (fall_to m i + k) x true (suc (fall_to m i + k)) }
    ensures met { (codes : Codes A H) (m : Marks X H) (code : List A) (i k : ℕ) (a : A) (x : X) →
        slice_get code i ≡ Some a → slice_get (m.met i) k ≡ Some x
        → IsPut (marked_items codes m code) (arrive m i + k) x true (suc (arrive m i + k)) }
    // The instruction goes on behind what is in the way of handlers at the next index. Its targets
    // are where jumps to an index arrive.
    ensures instructions { (codes : Codes A H) (m : Marks X H) (code : List A) (i : ℕ) (a : A) →
        slice_get code i ≡ Some a → m.instead i ≡ None
        → IsKept {X = X} (marked_items codes m code) (stand m i) (codes.keep (arrive m) a)
        (codes.falls a) (fall_to m (suc i)) }
    ensures instead { (codes : Codes A H) (m : Marks X H) (code : List A) (i : ℕ) (a : A) (x : X) →
        slice_get code i ≡ Some a → m.instead i ≡ Some x
        → IsPut (marked_items codes m code) (stand m i) x (m.completes x) (fall_to m (suc i)) }
    // The method begins behind what is in the way of handlers at its first index.
    ensures begins { (codes : Codes A H) (m : Marks X H) (code : List A) (more : ℕ) →
        length (m.entries 0) ≡ suc more
        → slice_get (marked_items {X = X} codes m code) 0
        ≡ Some (Keeps 0 (codes.jump 0 (fall_to m 0))) }
    ensures begins_there { (m : Marks X H) → length (m.entries 0) ≡ 0 → fall_to m 0 ≡ 0 }
{}

/// What is thrown at a place of an index goes where the entries sent it that cover the index: to
/// the piece in the way, or to where jumps arrive.
pub fn throws_are_placed<X>()
    ensures { (m : Marks X Handler) (classes : Classes) (heap : Heap) (reference : Value)
        (handlers : List Handler) (i place : ℕ) →
        first_of m i ≤ place → place < first_of m (suc i)
        → catcher (marked_handlers operation_codes m handlers) classes place heap reference
        ≡ option_map (marked_target m)
        (find (is_handler_of classes heap reference i) handlers) }
{}

/// What a list puts in the place of instructions is put there alone.
pub fn replacements_stand_alone<X, H>()
    ensures { (target_of : H → ℕ) (completes : X → Bool) (places : List (PutAt X)) →
        AllByRecursion StandsInstead places
        → OnlyInstead (marks_of {X = X} {H = H} target_of completes places []) }
{}

/// Where nothing is put but in the place of instructions, what is meant by the marked method is
/// said by its own indexes.
pub fn methods_are_replaced<Y>()
    ensures { (fragment_of : Y → Fragment) (p : Program) (m : Marks Y Handler) →
        OnlyInstead m → ((h : Handler) → m.entry_of h ≡ None)
        → reference_of p.parameters (fragment_items fragment_of m p.operations)
        (marked_handlers operation_codes m p.handlers)
        ≡ replaced p (λ i. option_map fragment_of (m.instead i)) }
{}
