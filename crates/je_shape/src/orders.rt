//! Laws of the order of slots and shapes.

ghost use Rattle.std.specs.Prelude.{◌≡◌, ℕ, List};
ghost use Rattle.je_shape.specs.Slot.{Slot, Top, HasNames, IsBelow, IsItemBelow};
ghost use Rattle.je_shape.specs.Shape.{Shape, StackBelow, LocalsBelow, ShapeBelow, Known};
ghost use Rattle.je_shape.specs.Shape.{KnownBelow, local_at};
ghost use Rattle.je_shape.specs.Canonical.{IsCanonicalNames, IsCanonicalSlot, IsCanonicalShape};
ghost use Rattle.je_shape.specs.Canonical.{IsCanonical};

/// The order of slots, of local variables and on the stack (JVMS 4.10.1.2).
pub fn slots_are_ordered()
    ensures reflexive { (s : Slot) → IsBelow s s }
    ensures transitive { (s t u : Slot) → IsBelow s t → IsBelow t u → IsBelow s u }
    ensures top { (s : Slot) → IsBelow s Top }
    ensures items_reflexive { (s : Slot) → IsItemBelow s s }
    ensures items_transitive { (s t u : Slot) → IsItemBelow s t → IsItemBelow t u
        → IsItemBelow s u }
    ensures items { (s t : Slot) → IsItemBelow s t → IsBelow s t }
{}

/// The order of stacks, of local variables, of shapes, and of what is known of an index.
pub fn shapes_are_ordered()
    ensures stacks_reflexive { (s : List Slot) → StackBelow s s }
    ensures stacks_transitive { (s t u : List Slot) → StackBelow s t → StackBelow t u
        → StackBelow s u }
    ensures locals_reflexive { (s : List Slot) → LocalsBelow s s }
    ensures locals_transitive { (s t u : List Slot) → LocalsBelow s t → LocalsBelow t u
        → LocalsBelow s u }
    ensures shapes_reflexive { (s : Shape) → ShapeBelow s s }
    ensures shapes_transitive { (s t u : Shape) → ShapeBelow s t → ShapeBelow t u
        → ShapeBelow s u }
    ensures reflexive { (s : Known) → KnownBelow s s }
    ensures transitive { (s t u : Known) → KnownBelow s t → KnownBelow t u → KnownBelow s u }
{}

/// Names in their order and each once, and no Top at the end of the local variables, make what is
/// below each other one.
pub fn canonical_shapes_are_one()
    ensures names { (a b : List (List ℕ)) → IsCanonicalNames a → IsCanonicalNames b
        → HasNames a b → HasNames b a → a ≡ b }
    ensures slots { (s t : Slot) → IsCanonicalSlot s → IsCanonicalSlot t → IsBelow s t
        → IsBelow t s → s ≡ t }
    ensures shapes { (s t : Shape) → IsCanonicalShape s → IsCanonicalShape t → ShapeBelow s t
        → ShapeBelow t s → s ≡ t }
    ensures known { (s t : Known) → IsCanonical s → IsCanonical t → KnownBelow s t
        → KnownBelow t s → s ≡ t }
{}
