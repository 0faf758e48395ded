//! Laws of runs of a method whose shapes are sound.

ghost use Rattle.std.specs.Prelude.{◌≡◌, ℕ, ◌<◌, List, [], ◌∷◌, map, length, Bool, true, false};
ghost use Rattle.std.specs.Prelude.{IsTrue};
ghost use Rattle.je_desc.specs.Descriptor.{MethodTypes};
ghost use Rattle.je_machine.specs.Value.{ReferenceKind, Value, kind_of};
ghost use Rattle.je_machine.specs.Heap.{Heap};
ghost use Rattle.je_machine.specs.Classes.{Classes};
ghost use Rattle.je_machine.specs.Outside.{Answer};
ghost use Rattle.je_machine.specs.Frame.{Frame, frame_of};
ghost use Rattle.je_machine.specs.Step.{Chain, iterate_all};
ghost use Rattle.je_machine.specs.Machine.{State, machine_step, enter, start_of, run_of};
ghost use Rattle.je_shape.specs.Entry.{entry_of};
ghost use Rattle.je_shape.specs.Shape.{Shape, Nothing, Has};
ghost use Rattle.je_shape.specs.Least.{Method, Assignment};
ghost use Rattle.je_fit.specs.Fits.{fits_shape, fits_known};
ghost use Rattle.je_fit.specs.Sound.{IsWellFormed, IsSound, OutcomeFits};

/// The arguments of a method, whatever they are, have the shape with which it begins (JVMS 2.6.1).
pub fn parameters_fit()
    ensures of_static { (own : List ℕ) (is_init : Bool) (types : MethodTypes)
        (arguments : List Value) →
        IsTrue (fits_shape (entry_of own true is_init types)
        (frame_of [] (enter (map kind_of types.params) arguments))) }
    // `this` is the first, also where it waits for its constructor.
    ensures of_instance { (own : List ℕ) (is_init : Bool) (types : MethodTypes)
        (arguments : List Value) →
        IsTrue (fits_shape (entry_of own false is_init types)
        (frame_of [] (enter (ReferenceKind ∷ map kind_of types.params) arguments))) }
{}

/// Every run of a method keeps to its shapes, at every bound.
pub fn runs_fit()
    // A frame of the shape with which the method begins fits what is known of the first index.
    ensures begins { (m : Method) (x : Assignment) (frame : Frame) → IsSound m x
        → 0 < length m.program.operations → IsTrue (fits_shape m.entry frame)
        → IsTrue (fits_known (x 0) frame) }
    // From a state that fits each state that is reached fits.
    ensures reached { (m : Method) (x : Assignment) (classes : Classes) (count : ℕ) (s t : State) →
        IsSound m x → IsWellFormed m.program → IsTrue (fits_known (x s.place) s.frame)
        → Chain (machine_step m.program classes) count s t
        → IsTrue (fits_known (x t.place) t.frame) }
    // So none is outside the code,
    ensures inside { (m : Method) (x : Assignment) (classes : Classes) (count : ℕ) (s t : State) →
        IsSound m x → IsWellFormed m.program → IsTrue (fits_known (x s.place) s.frame)
        → Chain (machine_step m.program classes) count s t
        → t.place < length m.program.operations }
    // nor at an index to which nothing comes,
    ensures known { (m : Method) (x : Assignment) (classes : Classes) (count : ℕ) (s t : State) →
        IsSound m x → IsWellFormed m.program → IsTrue (fits_known (x s.place) s.frame)
        → Chain (machine_step m.program classes) count s t → x t.place ≡ Nothing → ⊥ }
    // and each has the depth of its shape.
    ensures depth { (m : Method) (x : Assignment) (classes : Classes) (count : ℕ) (s t : State)
        (shape : Shape) → IsSound m x → IsWellFormed m.program
        → IsTrue (fits_known (x s.place) s.frame)
        → Chain (machine_step m.program classes) count s t → x t.place ≡ Has shape
        → length t.frame.stack ≡ length shape.stack }
    // How a run ends fits the method.
    ensures ends { (m : Method) (x : Assignment) (classes : Classes) (bound : ℕ) (s : State) →
        IsSound m x → IsWellFormed m.program → IsTrue (fits_known (x s.place) s.frame)
        → OutcomeFits m (iterate_all (machine_step m.program classes) bound s) }
    // So does every run from its first instruction, where the arguments have the entry's shape.
    ensures whole { (m : Method) (x : Assignment) (classes : Classes) (arguments : List Value)
        (heap : Heap) (answers : List Answer) (bound : ℕ) → IsSound m x → IsWellFormed m.program
        → IsTrue (fits_shape m.entry (start_of m.program arguments heap answers).frame)
        → OutcomeFits m (run_of m.program classes arguments heap answers bound) }
{}
