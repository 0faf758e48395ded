//! Laws of single instructions, over all frames and outsides.

ghost use Rattle.std.specs.Prelude.{◌≡◌, ℕ, List, ◌++◌, not};
ghost use Rattle.je_machine.specs.Value.{Value};
ghost use Rattle.je_machine.specs.Classes.{Classes};
ghost use Rattle.je_machine.specs.Condition.{Condition, inverse, is_met};
ghost use Rattle.je_machine.specs.Outside.{Outside};
ghost use Rattle.je_machine.specs.Operation.{Operation};
ghost use Rattle.je_machine.specs.Frame.{Frame, frame_of, perform, local_at, with_local};
ghost use Rattle.je_machine.specs.Moved.{retargeted, moved_flow};
ghost use Rattle.je_machine.specs.Slots.{AgreeBelow, UsesBelow, Writes, KeepsLocal, AlikeFlows};
ghost use Rattle.je_machine.specs.Under.{HasOperands, over};

/// An operation whose targets are moved does the same, and jumps to where they were moved.
pub fn relocation()
    ensures { (classes : Classes) (to : ℕ → ℕ) (operation : Operation) (frame : Frame)
        (outside : Outside) →
        perform classes (retargeted to operation) frame outside
        ≡ moved_flow to (perform classes operation frame outside) }
{}

/// What lies under the operands is neither read nor changed.
pub fn under_operands()
    ensures { (classes : Classes) (operation : Operation) (stack under locals : List Value)
        (outside : Outside) →
        HasOperands operation stack
        → perform classes operation (frame_of (stack ++ under) locals) outside
        ≡ over under (perform classes operation (frame_of stack locals) outside) }
{}

/// An operation reads and writes its own local variables alone (JVMS 2.6.1).
pub fn own_slots()
    // Frames that are alike below a limit stay so.
    ensures reads { (classes : Classes) (limit : ℕ) (operation : Operation) (stack a b : List Value)
        (outside : Outside) →
        UsesBelow limit operation → AgreeBelow limit a b → AlikeFlows limit
        (perform classes operation (frame_of stack a) outside)
        (perform classes operation (frame_of stack b) outside) }
    ensures writes { (classes : Classes) (slot : ℕ) (operation : Operation) (frame : Frame)
        (outside : Outside) →
        (Writes slot operation → ⊥) →
        KeepsLocal slot frame.locals (perform classes operation frame outside) }
    // What was written is read, and no other local variable is changed.
    ensures written { (locals : List Value) (slot : ℕ) (value : Value) →
        local_at (with_local locals slot value) slot ≡ value }
    ensures other { (locals : List Value) (own slot : ℕ) (value : Value) → (own ≡ slot → ⊥)
        → local_at (with_local locals own value) slot ≡ local_at locals slot }
{}

/// The inverse of a condition is met exactly where the condition is not.
pub fn inverse_conditions()
    ensures inverse { (condition : Condition) (operands : List Value) →
        is_met (inverse condition) operands ≡ not (is_met condition operands) }
    ensures twice { (condition : Condition) → inverse (inverse condition) ≡ condition }
{}
