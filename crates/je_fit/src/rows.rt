//! Small frames and instructions, computed.

ghost use Rattle.std.specs.Prelude.{◌≡◌, [], ◌∷◌, ℕ, ◌≤◌, ℤ, pos, negsuc, List, length, Some};
ghost use Rattle.std.specs.Prelude.{None, true, false};
ghost use Rattle.je_desc.specs.FieldType.{Base};
ghost use Rattle.je_desc.specs.FieldType as types;
ghost use Rattle.je_machine.specs.Content.{Str, Integer};
ghost use Rattle.je_machine.specs.Value.{IntKind, Value, Int, Long, Flt, Null, Obj, Const};
ghost use Rattle.je_machine.specs.Heap.{Heap};
ghost use Rattle.je_machine.specs.Classes.{Classes};
ghost use Rattle.je_machine.specs.Action.{NewArray};
ghost use Rattle.je_machine.specs.Outside.{Outside};
ghost use Rattle.je_machine.specs.Operation.{Operation, Handler, Do, Act, Copy, Drop, Nop};
ghost use Rattle.je_machine.specs.Operation.{Push, Return};
ghost use Rattle.je_machine.specs.Frame.{frame_of, perform};
ghost use Rattle.je_machine.specs.Step.{Returned, Thrown, Stops};
ghost use Rattle.je_machine.specs.Sample.{call_without_result, before, value_answer, outcome};
ghost use Rattle.je_shape.specs.Slot.{Slot, Top, Is, Reference, UninitThis, Uninit};
ghost use Rattle.je_shape.specs.Shape.{Shape, Has};
ghost use Rattle.je_shape.specs.Flow.{shape_of};
ghost use Rattle.je_shape.specs.Least.{Method, Assignment};
ghost use Rattle.je_shape.specs.Sample.{int, long, object, plain_method, at_two};
ghost use Rattle.je_fit.specs.Fits.{fits, fits_shape, FlowFits};
ghost use Rattle.je_fit.specs.Sound.{EndFits, OutcomeFits, StepFits, IsSound, IsWellFormed};
ghost use Rattle.je_fit.specs.Sample.{method_of};

/// Which frames have which shapes.
pub fn frames_are_tested()
    // A long is one value of the stack.
    ensures stack { fits_shape (shape_of (long ∷ int ∷ []) [])
        (frame_of (Long (pos 1) ∷ Int (pos 2) ∷ []) []) ≡ true }
    ensures other_order { fits_shape (shape_of (long ∷ int ∷ []) [])
        (frame_of (Int (pos 2) ∷ Long (pos 1) ∷ []) []) ≡ false }
    ensures too_deep { (v : Value) → fits_shape (shape_of [] []) (frame_of (v ∷ []) []) ≡ false }
    ensures too_flat { (s : Slot) → fits_shape (shape_of (s ∷ []) []) (frame_of [] []) ≡ false }
    ensures range { fits int (Int (pos 2147483648)) ≡ false }
    // Nothing on the stack is Top, and any local variable may be.
    ensures top_item { (v : Value) →
        fits_shape (shape_of (Top ∷ []) []) (frame_of (v ∷ []) []) ≡ false }
    ensures top_local { (v : Value) →
        fits_shape (shape_of [] (Top ∷ int ∷ [])) (frame_of [] (v ∷ Int (negsuc 0) ∷ [])) ≡ true }
    // A long takes two local variables, and behind the last slot there may be more.
    ensures locals { (v w : Value) →
        fits_shape (shape_of [] (long ∷ Top ∷ int ∷ []))
        (frame_of [] (Long (pos 7) ∷ v ∷ Int (pos 8) ∷ w ∷ [])) ≡ true }
    ensures other_local { (v : Value) →
        fits_shape (shape_of [] (long ∷ Top ∷ int ∷ []))
        (frame_of [] (Long (pos 7) ∷ v ∷ Flt 8 ∷ [])) ≡ false }
    // What nothing was written to is Int 0.
    ensures unwritten { fits_shape (shape_of [] (int ∷ [])) (frame_of [] []) ≡ true }
    ensures unwritten_reference { (name : List ℕ) →
        fits_shape (shape_of [] (object name ∷ [])) (frame_of [] []) ≡ false }
    // References are of no name, and one may wait for its constructor.
    ensures references { (names : List (List ℕ)) (n : ℕ) → fits (Reference names) (Obj n) ≡ true }
    ensures null { (names : List (List ℕ)) → fits (Reference names) Null ≡ true }
    ensures waiting { (new n : ℕ) → fits (Is (Uninit new)) (Obj n) ≡ true }
    ensures this { (n : ℕ) → fits (Is UninitThis) (Obj n) ≡ true }
    ensures text { (names : List (List ℕ)) (text : List ℕ) →
        fits (Reference names) (Const (Str text)) ≡ true }
    ensures no_reference { (names : List (List ℕ)) (n : ℤ) →
        fits (Reference names) (Const (Integer n)) ≡ false }
{}

/// What single instructions leave, with the shape that it has.
pub fn instructions_are_tested()
    // dup2 of a long is one more long.
    ensures long_copied { (classes : Classes) (o : Outside) →
        FlowFits (Do (Copy 2 0)) (shape_of (long ∷ long ∷ []) [])
        (perform classes (Do (Copy 2 0)) (frame_of (Long (pos 5) ∷ []) []) o) }
    ensures two_copied { (classes : Classes) (o : Outside) →
        FlowFits (Do (Copy 2 0)) (shape_of (int ∷ int ∷ int ∷ int ∷ []) [])
        (perform classes (Do (Copy 2 0)) (frame_of (Int (pos 5) ∷ Int (pos 6) ∷ []) []) o) }
    ensures over_long { (classes : Classes) (o : Outside) →
        FlowFits (Do (Copy 1 2)) (shape_of (int ∷ long ∷ int ∷ []) [])
        (perform classes (Do (Copy 1 2)) (frame_of (Int (pos 5) ∷ Long (pos 6) ∷ []) []) o) }
    // A call without a result pushes nothing, whatever it is answered.
    ensures no_result { (classes : Classes) (heap after : Heap) →
        FlowFits (Do (Act call_without_result)) (shape_of [] [])
        (perform classes (Do (Act call_without_result)) (frame_of (Null ∷ []) [])
        (before heap (value_answer (Int (pos 9)) after ∷ []))) }
{}

/// How methods may end.
pub fn endings_are_tested()
    ensures nothing { EndFits (plain_method (Return None ∷ [])) (Returned None) }
    ensures no_result { (v : Value) →
        EndFits (plain_method (Return None ∷ [])) (Returned (Some v)) → ⊥ }
    // A result is of the kind of a return, and of the method's.
    ensures result { EndFits (method_of (Some (Some IntKind)) (Return (Some IntKind) ∷ []))
        (Returned (Some (Int (pos 5)))) }
    ensures other_kind { (n : ℤ) →
        EndFits (method_of None (Return (Some IntKind) ∷ [])) (Returned (Some (Long n))) → ⊥ }
    ensures other_method { (v : Value) →
        EndFits (method_of (Some None) (Return (Some IntKind) ∷ [])) (Returned (Some v)) → ⊥ }
    // What is thrown is a reference that is not null.
    ensures thrown { (m : Method) (n : ℕ) → EndFits m (Thrown (Obj n)) }
    ensures no_null { (m : Method) → EndFits m (Thrown Null) → ⊥ }
    ensures no_number { (m : Method) (n : ℤ) → EndFits m (Thrown (Int n)) → ⊥ }
    // An outcome that goes on has no ending, and one that has is held to it, in a step too.
    ensures goes_on { (m : Method) (left : ℕ) (locals : List Value) (o : Outside) →
        OutcomeFits m (outcome None left locals o) }
    ensures ended { (m : Method) (left : ℕ) (locals : List Value) (o : Outside) →
        OutcomeFits m (outcome (Some (Thrown Null)) left locals o) → ⊥ }
    ensures stopped { (m : Method) (x : Assignment) (left : ℕ) (locals : List Value)
        (o : Outside) → StepFits m x (Stops (outcome (Some (Thrown Null)) left locals o)) → ⊥ }
{}

/// A small method whose shapes are sound, and what shows that others are not.
pub fn small_methods()
    ensures sound { IsSound (plain_method (Do Nop ∷ Return None ∷ [])) (at_two (shape_of [] [])) }
    ensures formed { IsWellFormed (plain_method (Do Nop ∷ Return None ∷ [])).program }
    // Shapes that know something behind the code, or that a fault is in, are not sound.
    ensures behind { (x : Assignment) (s : Shape) → x 1 ≡ Has s
        → IsSound (plain_method (Return None ∷ [])) x → ⊥ }
    ensures at_fault { (x : Assignment) → IsSound (plain_method (Do (Drop 1) ∷ [])) x → ⊥ }
    // A constant is in its range, an array is made of an array's type, and a handler is within the
    // code.
    ensures wide { IsWellFormed (plain_method (Do (Push (Int (pos 2147483648))) ∷ [])).program → ⊥ }
    ensures no_array { IsWellFormed (plain_method (Do (Act (NewArray (Base types.Int) 1))
        ∷ [])).program → ⊥ }
    ensures handler_behind { (operations : List Operation) (h : Handler) →
        length operations ≤ h.target
        → IsWellFormed (record { parameters = []; operations = operations; handlers = h ∷ [] })
        → ⊥ }
{}
