//! Laws of frames that have shapes.

ghost use Rattle.std.specs.Prelude.{◌↔◌, ℕ, List, IsTrue};
ghost use Rattle.je_machine.specs.Value.{Value};
ghost use Rattle.je_machine.specs.Frame.{Frame};
ghost use Rattle.je_machine.specs.Frame as frame;
ghost use Rattle.je_shape.specs.Slot.{Slot};
ghost use Rattle.je_shape.specs.Shape.{Shape, ShapeBelow};
ghost use Rattle.je_shape.specs.Shape as shape;
ghost use Rattle.je_shape.specs.Least.{Agrees};
ghost use Rattle.je_fit.specs.Fits.{fits, fits_locals, fits_shape};

/// When a frame has a shape (JVMS 4.10.1.4).
pub fn frames_fit()
    // The local variable of each index fits the slot of that index.
    ensures locals { (slots : List Slot) (locals : List Value) →
        IsTrue (fits_locals slots locals)
        ↔ ((i : ℕ) → IsTrue (fits (shape.local_at slots i) (frame.local_at locals i))) }
    // A frame that has a shape has each that says no more,
    ensures above { (s t : Shape) (f : Frame) → ShapeBelow s t → IsTrue (fits_shape s f)
        → IsTrue (fits_shape t f) }
    // and each that it agrees with (JVMS 4.7.4).
    ensures agrees { (s t : Shape) (f : Frame) → Agrees s t → IsTrue (fits_shape s f)
        → IsTrue (fits_shape t f) }
{}
