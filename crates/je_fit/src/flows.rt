//! Laws of single instructions: a frame that has a shape.

ghost use Rattle.std.specs.Prelude.{ℕ, List, [], ◌∷◌, IsTrue};
ghost use Rattle.je_machine.specs.Value.{Value};
ghost use Rattle.je_machine.specs.Classes.{Classes};
ghost use Rattle.je_machine.specs.Outside.{Outside};
ghost use Rattle.je_machine.specs.Acts.{is_reference};
ghost use Rattle.je_machine.specs.Operation.{Operation, Handler};
ghost use Rattle.je_machine.specs.Frame.{Frame, frame_of, perform};
ghost use Rattle.je_shape.specs.Shape.{Shape};
ghost use Rattle.je_shape.specs.Flow.{flow};
ghost use Rattle.je_shape.specs.Serves.{ServesOperation};
ghost use Rattle.je_shape.specs.Least.{caught};
ghost use Rattle.je_fit.specs.Fits.{fits_shape, FlowFits};
ghost use Rattle.je_fit.specs.Sound.{is_well_formed};

/// What an instruction comes to has the shape that flows from it (JVMS 4.10.1.9 and 6.5).
pub fn flows_fit()
    // From a frame of a shape that serves it, whatever the other classes and the outside are.
    ensures performed { (operations : List Operation) (own : List ℕ) (at : ℕ) (classes : Classes)
        (o : Operation) (s : Shape) (frame : Frame) (outside : Outside) →
        IsTrue (is_well_formed o) → ServesOperation operations at o s
        → IsTrue (fits_shape s frame)
        → FlowFits o (flow own at o s) (perform classes o frame outside) }
    // A handler is entered with what it catches alone on the stack, and the local variables from
    // before (JVMS 2.10).
    ensures caught { (h : Handler) (s : Shape) (frame : Frame) (reference : Value) →
        IsTrue (is_reference reference) → IsTrue (fits_shape s frame)
        → IsTrue (fits_shape (caught h s) (frame_of (reference ∷ []) frame.locals)) }
{}
