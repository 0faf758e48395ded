//! Laws of joins: they are least upper bounds.

ghost use Rattle.std.specs.Prelude.{◌≡◌, ℕ, List, [], ◌∷◌, Option, Some, None};
ghost use Rattle.je_shape.specs.Slot.{Word, Slot, Top, Is, Reference, IsBelow};
ghost use Rattle.je_shape.specs.Shape.{Shape, local_at, Known, Nothing, Has, Broken, ShapeBelow};
ghost use Rattle.je_shape.specs.Shape.{KnownBelow};
ghost use Rattle.je_shape.specs.Joined.{IsUnion, IsSlotJoin, IsItemJoin, IsLocalsJoin};
ghost use Rattle.je_shape.specs.Joined.{IsStackJoin, IsShapeJoin, IsKnownJoin};

/// Items that are alike have a join, and no others (JVMS 4.10.1.2); local variables always have.
pub fn slots_are_joined()
    ensures same { (w : Word) → IsItemJoin (Is w) (Is w) (Some (Is w)) }
    ensures differ { (v w : Word) → (v ≡ w → ⊥) → IsItemJoin (Is v) (Is w) None }
    // References have the names of both.
    ensures references { (a b joined : List (List ℕ)) → IsUnion a b joined
        → IsItemJoin (Reference a) (Reference b) (Some (Reference joined)) }
    ensures apart { (w : Word) (names : List (List ℕ)) → IsItemJoin (Is w) (Reference names) None }
    // Local variables of different sorts become Top.
    ensures kept { (a b joined : Slot) → IsItemJoin a b (Some joined) → IsSlotJoin a b joined }
    ensures lost { (a b : Slot) → IsItemJoin a b None → IsSlotJoin a b Top }
{}

/// Shapes are joined slot by slot, and have no join where depths or items of the stack differ.
pub fn shapes_are_joined()
    ensures locals { (a b joined : List Slot) →
        ((slot : ℕ) → IsSlotJoin (local_at a slot) (local_at b slot) (local_at joined slot))
        → IsLocalsJoin a b joined }
    ensures items { (x y z : Slot) (a b joined : List Slot) → IsItemJoin x y (Some z)
        → IsStackJoin a b (Some joined) → IsStackJoin (x ∷ a) (y ∷ b) (Some (z ∷ joined)) }
    ensures item_differs { (x y : Slot) (a b : List Slot) → IsItemJoin x y None
        → IsStackJoin (x ∷ a) (y ∷ b) None }
    ensures rest_differs { (x y : Slot) (a b : List Slot) → IsStackJoin a b None
        → IsStackJoin (x ∷ a) (y ∷ b) None }
    ensures depth_differs { (x : Slot) (a : List Slot) → IsStackJoin (x ∷ a) [] None }
    ensures shapes { (a b joined : Shape) → IsStackJoin a.stack b.stack (Some joined.stack)
        → IsLocalsJoin a.locals b.locals joined.locals → IsShapeJoin a b (Some joined) }
    // Of an index to which both come, that is known; where they have no join it is broken.
    ensures known { (a b joined : Shape) → IsShapeJoin a b (Some joined)
        → IsKnownJoin (Has a) (Has b) (Has joined) }
    ensures broken { (a b : Shape) → IsShapeJoin a b None → IsKnownJoin (Has a) (Has b) Broken }
    // Two joins say the same.
    ensures one { (a b c d : Known) → IsKnownJoin a b c → IsKnownJoin a b d → KnownBelow c d }
{}
