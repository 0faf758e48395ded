//! Laws of the least assignment of shapes.

ghost use Rattle.std.specs.Prelude.{◌≡◌, ℕ, List, [], ◌∷◌, None};
ghost use Rattle.je_machine.specs.Operation.{Operation, Do, Nop, Drop, Return};
ghost use Rattle.je_shape.specs.Shape.{Shape, Has, Broken, KnownBelow};
ghost use Rattle.je_shape.specs.Canonical.{IsCanonical};
ghost use Rattle.je_shape.specs.Flow.{shape_of, flow};
ghost use Rattle.je_shape.specs.Least.{Method, Assignment, IsLeast, IsClosed, IsFault};
ghost use Rattle.je_shape.specs.Least.{IsFirstFault};
ghost use Rattle.je_shape.specs.Least.{Passes, Serves, Sends, caught};
ghost use Rattle.je_shape.specs.Sample.{plain_method, at_two};

/// A method has one least assignment (JVMS 4.10.1.6).
pub fn one_least()
    // Each says no more than the other.
    ensures below { (m : Method) (x y : Assignment) → IsLeast m x → IsLeast m y
        → (at : ℕ) → KnownBelow (x at) (y at) }
    // Where both are in canonical form they are equal.
    ensures same { (m : Method) (x y : Assignment) → IsLeast m x → IsLeast m y
        → (at : ℕ) → IsCanonical (x at) → IsCanonical (y at) → x at ≡ y at }
    // They have the same faults, and one first fault.
    ensures faults { (m : Method) (x y : Assignment) → IsLeast m x → IsLeast m y
        → (at : ℕ) → IsFault m x at → IsFault m y at }
    ensures first { (m : Method) (x y : Assignment) (i j : ℕ) → IsLeast m x → IsLeast m y
        → IsFirstFault m x i → IsFirstFault m y j → i ≡ j }
{}

/// What a closed assignment does with a shape at an index is decided by whether it serves.
pub fn flow_is_decided()
    ensures served { (m : Method) (x : Assignment) (at : ℕ) (o : Operation) (s : Shape) →
        Passes m x at o (Has s) → Serves m at o s
        → Sends m x at o (Has (flow m.class at o s)) (λ h. Has (caught h s)) }
    ensures unserved { (m : Method) (x : Assignment) (at : ℕ) (o : Operation) (s : Shape) →
        Passes m x at o (Has s) → (Serves m at o s → ⊥) → Sends m x at o Broken (λ _. Broken) }
{}

/// The least shapes and the first faults of small methods.
pub fn small_methods()
    // Both instructions are reached.
    ensures reached { IsLeast (plain_method (Do Nop ∷ Return None ∷ [])) (at_two (shape_of [] [])) }
    // A first instruction that nothing serves is the first fault.
    ensures first { (o : Operation) (rest : List Operation) (x : Assignment) →
        IsClosed (plain_method (o ∷ rest)) x
        → (Serves (plain_method (o ∷ rest)) 0 o (shape_of [] []) → ⊥)
        → IsFirstFault (plain_method (o ∷ rest)) x 0 }
    ensures lone_pop { (x : Assignment) → IsClosed (plain_method (Do (Drop 1) ∷ [])) x
        → IsFirstFault (plain_method (Do (Drop 1) ∷ [])) x 0 }
    // The next instruction is outside the code.
    ensures lone_nop { (x : Assignment) → IsClosed (plain_method (Do Nop ∷ [])) x
        → IsFirstFault (plain_method (Do Nop ∷ [])) x 0 }
{}
