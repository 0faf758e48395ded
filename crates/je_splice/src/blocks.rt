//! Laws of blocks: that small ones do what is meant, and methods with blocks in place.

ghost use Rattle.std.specs.Prelude.{◌≡◌, ℕ, suc, ◌-◌, List, [], length, Bool, IsTrue};
ghost use Rattle.je_machine.specs.Value.{Kind, Value};
ghost use Rattle.je_machine.specs.Heap.{Heap};
ghost use Rattle.je_machine.specs.Classes.{Classes};
ghost use Rattle.je_machine.specs.Outside.{Answer, Outside};
ghost use Rattle.je_machine.specs.Operation.{Basic, Operation, Handler, Program};
ghost use Rattle.je_machine.specs.Frame.{Frame, frame_of};
ghost use Rattle.je_machine.specs.Step.{Goes};
ghost use Rattle.je_machine.specs.Machine.{State, enter, run_of};
ghost use Rattle.je_machine.specs.View.{AgreeingRuns};
ghost use Rattle.je_splice.specs.Means.{BlockMeans};
ghost use Rattle.je_splice.specs.Comes.{Does};
ghost use Rattle.je_splice.specs.Reference.{take_reference, body_of};
ghost use Rattle.je_splice.specs.Embeds.{Embeds};
ghost use Rattle.je_splice.specs.Layout.{operation_codes, Item, moved_to};
ghost use Rattle.je_splice.specs.Laid.{Fragment, reference_of, blocks_of, laid, Fits};
ghost use Rattle.je_splice.specs.Laid.{inside, AreClosed};
ghost use Rattle.je_splice.specs.Marks.{Marks, marked_items, marked_handlers, marked, spliced};
ghost use Rattle.je_splice.specs.Sample.{no_code, nothing, one_instruction, proceeding};

/// The block without code does nothing, and an instruction alone does what it does, with any frame.
pub fn blocks_mean()
    ensures nothing { (limit : ℕ) (ok : Frame → Bool) → BlockMeans limit ok no_code nothing }
    ensures proceeds { (limit : ℕ) (ok : Frame → Bool) (basic : Basic) →
        BlockMeans limit ok (one_instruction basic) (proceeding basic) }
{}

/// The program in which the items of a reference are laid out has at each place what the reference
/// does there, and so does what the reference does.
pub fn laid_programs()
    ensures embeds { (limit : ℕ) (ok : ℕ → Frame → Bool) (parameters : List Kind)
        (items : List (Item Operation Fragment)) (handlers : List Handler) →
        Fits limit ok parameters items handlers →
        Embeds (reference_of parameters items handlers) (laid parameters items handlers)
        (moved_to (blocks_of items)) limit ok (λ place. length items - place) (length items) }
    ensures does { (limit : ℕ) (ok : ℕ → Frame → Bool) (parameters : List Kind)
        (items : List (Item Operation Fragment)) (handlers : List Handler) →
        Fits limit ok parameters items handlers → (classes : Classes) →
        Does (laid parameters items handlers) classes limit (length items) (suc (length items))
        (λ locals. ok 0 (frame_of [] locals))
        (body_of (reference_of parameters items handlers) classes) }
{}

/// Where all to which items and entries lead is the place of an item, no step leaves them. So the
/// test on frames may be that alone, where blocks do what is meant with any frame.
pub fn places_are_kept()
    ensures { (parameters : List Kind) (items : List (Item Operation Fragment))
        (handlers : List Handler) →
        AreClosed items handlers → (classes : Classes) (bound left : ℕ) (s t : State) →
        IsTrue (inside items s.place)
        → take_reference (reference_of parameters items handlers) classes bound s ≡ Goes left t
        → IsTrue (inside items t.place) }
{}

/// A method with the blocks of its marks in place does what the marked method means, and shows what
/// that shows, and no more.
pub fn spliced_methods()
    ensures does { (limit : ℕ) (ok : ℕ → Frame → Bool) (p : Program) (m : Marks Fragment Handler) →
        Fits limit ok p.parameters (marked_items operation_codes m p.operations)
        (marked_handlers operation_codes m p.handlers) →
        (classes : Classes) →
        Does (spliced p m) classes limit
        (length (marked_items {A = Operation} operation_codes m p.operations))
        (suc (length (marked_items {A = Operation} operation_codes m p.operations)))
        (λ locals. ok 0 (frame_of [] locals)) (body_of (marked p m) classes) }
    ensures agrees { (limit : ℕ) (ok : ℕ → Frame → Bool) (p : Program)
        (m : Marks Fragment Handler) →
        Fits limit ok p.parameters (marked_items operation_codes m p.operations)
        (marked_handlers operation_codes m p.handlers) →
        (classes : Classes) (arguments : List Value) (heap : Heap) (answers : List Answer) →
        IsTrue (ok 0 (frame_of [] (enter p.parameters arguments))) → AgreeingRuns
        (λ n. body_of (marked p m) classes n (enter p.parameters arguments)
        (record { heap = heap; events = []; answers = answers }))
        (run_of (spliced p m) classes arguments heap answers) }
{}
