//! Laws of single instructions and steps of a method whose shapes are sound.

ghost use Rattle.std.specs.Prelude.{◌≡◌, ℕ, suc, ◌<◌, length, Some, Bool, IsTrue, slice_get};
ghost use Rattle.std.specs.List.{AllByRecursion};
ghost use Rattle.je_machine.specs.Classes.{Classes};
ghost use Rattle.je_machine.specs.Outside.{Outside};
ghost use Rattle.je_machine.specs.Operation.{Operation};
ghost use Rattle.je_machine.specs.Frame.{Frame, perform};
ghost use Rattle.je_machine.specs.Machine.{State, take_step};
ghost use Rattle.je_shape.specs.Shape.{Shape, Nothing, Has};
ghost use Rattle.je_shape.specs.Least.{Method, Assignment, Reaches, IsLeast, IsFault, successors};
ghost use Rattle.je_fit.specs.Fits.{fits_shape, fits_known, GoesTo};
ghost use Rattle.je_fit.specs.Sound.{IsWellFormed, IsSound, FlowKeeps, StepFits};

/// Shapes are sound where they are the least and none is at fault (JVMS 4.10.1.6).
pub fn least_shapes_are_sound()
    ensures sound { (m : Method) (x : Assignment) → IsLeast m x
        → ((at : ℕ) → IsFault m x at → ⊥) → IsSound m x }
{}

/// What the instruction of an index comes to, by itself: whatever leads there, and wherever it is
/// then said to go on.
pub fn instructions_keep()
    // From a frame that fits, whatever the other classes and the outside are, what it goes on in
    // fits the next index or the target, a throw each handler that covers it, and an ending the
    // method.
    ensures keeps { (m : Method) (x : Assignment) (classes : Classes) (at : ℕ) (o : Operation)
        (frame : Frame) (outside : Outside) → IsSound m x → IsWellFormed m.program
        → slice_get m.program.operations at ≡ Some o → IsTrue (fits_known (x at) frame)
        → FlowKeeps m x at frame.locals (perform classes o frame outside) }
    // It goes on at a successor.
    ensures leads { (ok : ℕ → Bool) (at : ℕ) (classes : Classes) (o : Operation) (frame : Frame)
        (outside : Outside) → AllByRecursion (λ to. IsTrue (ok to)) (successors at o)
        → GoesTo (λ to. IsTrue (ok to)) (suc at) (perform classes o frame outside) }
    // A frame of a shape that comes to an index of the code fits what is known there.
    ensures arrives { (m : Method) (x : Assignment) (to : ℕ) (s : Shape) (frame : Frame) →
        IsSound m x → to < length m.program.operations → Reaches m x to (Has s)
        → IsTrue (fits_shape s frame) → IsTrue (fits_known (x to) frame) }
{}

/// A state whose frame fits what is known of its index, and the next one.
pub fn steps_fit()
    // Whatever the other classes are, the next state's frame fits, or the ending does.
    ensures step { (m : Method) (x : Assignment) (classes : Classes) (left : ℕ) (s : State) →
        IsSound m x → IsWellFormed m.program → IsTrue (fits_known (x s.place) s.frame)
        → StepFits m x (take_step m.program classes (suc left) s) }
    // The state is within the code.
    ensures inside { (m : Method) (x : Assignment) (s : State) → IsSound m x
        → IsTrue (fits_known (x s.place) s.frame) → s.place < length m.program.operations }
    // It is at no index to which nothing comes.
    ensures known { (x : Assignment) (s : State) →
        IsTrue (fits_known (x s.place) s.frame) → x s.place ≡ Nothing → ⊥ }
    // Its stack has as many values as the shape has items.
    ensures depth { (x : Assignment) (s : State) (shape : Shape) →
        IsTrue (fits_known (x s.place) s.frame) → x s.place ≡ Has shape
        → length s.frame.stack ≡ length shape.stack }
{}
