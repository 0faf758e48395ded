//! Laws of programs that keep to shapes, and of code that is laid out, inside blocks too.

ghost use Rattle.std.specs.Prelude.{◌≡◌, ℕ, suc, ◌+◌, ◌<◌, List, length, Option, Some, IsTrue};
ghost use Rattle.std.specs.Prelude.{slice_get};
ghost use Rattle.je_machine.specs.Value.{Kind};
ghost use Rattle.je_machine.specs.Classes.{Classes};
ghost use Rattle.je_machine.specs.Operation.{Operation, Handler, Program};
ghost use Rattle.je_machine.specs.Frame.{Frame};
ghost use Rattle.je_machine.specs.Step.{Chain, iterate_all};
ghost use Rattle.je_machine.specs.Machine.{State, catcher, machine_step};
ghost use Rattle.je_shape.specs.Shape.{Shape, Has};
ghost use Rattle.je_shape.specs.Least.{Assignment};
ghost use Rattle.je_fit.specs.Fits.{fits_known};
ghost use Rattle.je_splice.specs.Layout.{Item, Puts, moved_to};
ghost use Rattle.je_splice.specs.Laid.{Fragment, reference_of, blocks_of, laid};
ghost use Rattle.je_stay.specs.Keeping.{MayComeTo, IsShaped};
ghost use Rattle.je_stay.specs.Inner.{known_along, BlockKeeps, LaidKeeps, ProgramKeeps};

/// Every run of a program whose instructions keep to shapes does.
pub fn programs_keep()
    // Each state that is reached fits,
    ensures reached { (kind : Option (Option Kind)) (x : Assignment) (q : Program)
        (classes : Classes) (count : ℕ) (s t : State) → ProgramKeeps kind x q
        → IsTrue (fits_known (x s.place) s.frame) → Chain (machine_step q classes) count s t
        → IsTrue (fits_known (x t.place) t.frame) }
    // is within the code,
    ensures inside { (kind : Option (Option Kind)) (x : Assignment) (q : Program)
        (classes : Classes) (count : ℕ) (s t : State) → ProgramKeeps kind x q
        → IsTrue (fits_known (x s.place) s.frame) → Chain (machine_step q classes) count s t
        → t.place < length q.operations }
    // and is as deep as the shape there.
    ensures depth { (kind : Option (Option Kind)) (x : Assignment) (q : Program)
        (classes : Classes) (count : ℕ) (s t : State) (shape : Shape) → ProgramKeeps kind x q
        → IsTrue (fits_known (x s.place) s.frame) → Chain (machine_step q classes) count s t
        → x t.place ≡ Has shape → length t.frame.stack ≡ length shape.stack }
    // If the run ends, it is as the method may.
    ensures ends { (kind : Option (Option Kind)) (x : Assignment) (q : Program)
        (classes : Classes) (bound : ℕ) (s : State) → ProgramKeeps kind x q
        → IsTrue (fits_known (x s.place) s.frame)
        → MayComeTo kind (iterate_all (machine_step q classes) bound s) }
{}

/// Where items keep to shapes, so does the program in which they are laid out.
pub fn laid_code_keeps()
    // Items do where their reference does, and the code of each block.
    ensures items { (kind : Option (Option Kind)) (x : Assignment) (inner : ℕ → Assignment)
        (parameters : List Kind) (items : List (Item Operation Fragment))
        (handlers : List Handler) → IsShaped kind x (reference_of parameters items handlers)
        → ((place over : ℕ) (fragment : Fragment) →
        slice_get items place ≡ Some (Puts over fragment)
        → BlockKeeps kind x (inner place) place (suc place + over)
        (λ classes. catcher handlers classes place) fragment.block)
        → LaidKeeps kind x inner (blocks_of items) handlers }
    ensures keeps { (kind : Option (Option Kind)) (x : Assignment) (inner : ℕ → Assignment)
        (parameters : List Kind) (items : List (Item Operation Fragment))
        (handlers : List Handler) → LaidKeeps kind x inner (blocks_of items) handlers
        → ProgramKeeps kind (known_along x inner 0 (blocks_of items))
        (laid parameters items handlers) }
    // Where a place begins in the new code, each frame that fits the place fits.
    ensures begins { (kind : Option (Option Kind)) (x : Assignment) (inner : ℕ → Assignment)
        (items : List (Item Operation Fragment)) (handlers : List Handler) (place : ℕ)
        (frame : Frame) → LaidKeeps kind x inner (blocks_of items) handlers
        → IsTrue (fits_known (x place) frame) → IsTrue (fits_known
        (known_along x inner 0 (blocks_of items) (moved_to (blocks_of items) place)) frame) }
{}
