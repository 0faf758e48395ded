//! Runs of methods that class files have.

ghost use Rattle.std.specs.Prelude.{◌≡◌, ℕ, ◌<◌, List, length, IsTrue};
ghost use Rattle.je_machine.specs.Value.{Value};
ghost use Rattle.je_machine.specs.Heap.{Heap};
ghost use Rattle.je_machine.specs.Classes.{Classes};
ghost use Rattle.je_machine.specs.Outside.{Answer};
ghost use Rattle.je_machine.specs.Step.{Chain};
ghost use Rattle.je_machine.specs.Machine.{State, machine_step, start_of, run_of};
ghost use Rattle.je_shape.specs.Shape.{Shape, Nothing, Has};
ghost use Rattle.je_shape.specs.Least.{Method, Assignment};
ghost use Rattle.je_fit.specs.Fits.{fits_shape, fits_known};
ghost use Rattle.je_fit.specs.Sound.{IsWellFormed, IsSound, OutcomeFits};
ghost use Rattle.je_keep.specs.MethodCode.{MethodCode, IsMethodOf, AreFaultless};

use crate::formed::code_is_well_formed;
use je_fit::{least_shapes_are_sound, parameters_fit, runs_fit};
use je_instr::one_program;

/// How a run of a method that a class file has begins.
fn runs_begin()
    ensures formed { (f : MethodCode) (m : Method) → IsMethodOf f m → IsWellFormed m.program }
    ensures sound { (m : Method) (x : Assignment) → AreFaultless m x → IsSound m x }
    // The arguments have the shape of the entry, whatever they are (JVMS 2.6.1).
    ensures entered { (f : MethodCode) (m : Method) (arguments : List Value) (heap : Heap)
        (answers : List Answer) → IsMethodOf f m
        → IsTrue (fits_shape m.entry (start_of m.program arguments heap answers).frame) }
    // Code that is not empty has a first instruction, whose shape that is.
    ensures begins { (f : MethodCode) (m : Method) (x : Assignment) (arguments : List Value)
        (heap : Heap) (answers : List Answer) → IsMethodOf f m → AreFaultless m x
        → 0 < length f.code
        → IsTrue (fits_known (x 0) (start_of m.program arguments heap answers).frame) }
{
    // The laws that the proof stands on.
    code_is_well_formed();
    one_program();
    least_shapes_are_sound();
    parameters_fit();
    runs_fit();
}

/// Every run of a method that a class file has keeps to the shapes of the method, where these are
/// without a fault: whatever the other classes, the arguments, the heap and the answers of the
/// outside are, and at every bound (JVMS 4.10.1).
pub fn code_keeps_to_shapes()
    // It begins in a frame that has the shape of the first index.
    ensures begins { (f : MethodCode) (m : Method) (x : Assignment) (arguments : List Value)
        (heap : Heap) (answers : List Answer) → IsMethodOf f m → AreFaultless m x
        → 0 < length f.code
        → IsTrue (fits_known (x 0) (start_of m.program arguments heap answers).frame) }
    // Each state that is reached has the shape of its index,
    ensures reached { (f : MethodCode) (m : Method) (x : Assignment) (classes : Classes)
        (arguments : List Value) (heap : Heap) (answers : List Answer) (count : ℕ) (t : State) →
        IsMethodOf f m → AreFaultless m x → 0 < length f.code
        → Chain (machine_step m.program classes) count (start_of m.program arguments heap answers) t
        → IsTrue (fits_known (x t.place) t.frame) }
    // is within the code,
    ensures inside { (f : MethodCode) (m : Method) (x : Assignment) (classes : Classes)
        (arguments : List Value) (heap : Heap) (answers : List Answer) (count : ℕ) (t : State) →
        IsMethodOf f m → AreFaultless m x → 0 < length f.code
        → Chain (machine_step m.program classes) count (start_of m.program arguments heap answers) t
        → t.place < length m.program.operations }
    // at no index to which nothing comes,
    ensures known { (f : MethodCode) (m : Method) (x : Assignment) (classes : Classes)
        (arguments : List Value) (heap : Heap) (answers : List Answer) (count : ℕ) (t : State) →
        IsMethodOf f m → AreFaultless m x → 0 < length f.code
        → Chain (machine_step m.program classes) count (start_of m.program arguments heap answers) t
        → x t.place ≡ Nothing → ⊥ }
    // and as deep as its shape.
    ensures depth { (f : MethodCode) (m : Method) (x : Assignment) (classes : Classes)
        (arguments : List Value) (heap : Heap) (answers : List Answer) (count : ℕ) (t : State)
        (s : Shape) → IsMethodOf f m → AreFaultless m x → 0 < length f.code
        → Chain (machine_step m.program classes) count (start_of m.program arguments heap answers) t
        → x t.place ≡ Has s → length t.frame.stack ≡ length s.stack }
    // If it ends, it is with a result of the method's kind, or with a throw.
    ensures ends { (f : MethodCode) (m : Method) (x : Assignment) (classes : Classes)
        (arguments : List Value) (heap : Heap) (answers : List Answer) (bound : ℕ) →
        IsMethodOf f m → AreFaultless m x
        → OutcomeFits m (run_of m.program classes arguments heap answers bound) }
{
    // The laws that the proof stands on.
    runs_begin();
    runs_fit();
}
