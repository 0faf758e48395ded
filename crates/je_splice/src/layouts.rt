//! Laws of code that is laid out: what stands where, and where throws go.

ghost use Rattle.std.specs.Prelude.{◌≡◌, ℕ, suc, ◌+◌, ◌<◌, ◌≤◌, List, length, Some, slice_get};
ghost use Rattle.std.specs.Prelude.{option_map};
ghost use Rattle.std.specs.Option.{option_or};
ghost use Rattle.je_machine.specs.Value.{Value};
ghost use Rattle.je_machine.specs.Heap.{Heap};
ghost use Rattle.je_machine.specs.Classes.{Classes};
ghost use Rattle.je_machine.specs.Operation.{Operation, Handler};
ghost use Rattle.je_machine.specs.Machine.{catcher};
ghost use Rattle.je_splice.specs.Block.{Piece, Block};
ghost use Rattle.je_splice.specs.Layout.{Codes, operation_codes, Item, Keeps, Puts, Within};
ghost use Rattle.je_splice.specs.Layout.{over_of, body_width, width, moved_to, shut, body_code};
ghost use Rattle.je_splice.specs.Layout.{laid_code, laid_handlers};

/// What stands where in code that is laid out, of instructions and entries of any type.
pub fn code_is_laid<A, H>()
    // A place begins behind the one before it, so that no later one begins before it.
    ensures starts { (items : List (Item A (Piece A H))) → moved_to items 0 ≡ 0 }
    ensures begins { (items : List (Item A (Piece A H))) (place : ℕ) (item : Item A (Piece A H)) →
        slice_get items place ≡ Some item
        → moved_to items (suc place) ≡ moved_to items place + width item }
    ensures rises { (items : List (Item A (Piece A H))) (a b : ℕ) → a ≤ b
        → moved_to items a ≤ moved_to items b }
    ensures length { (codes : Codes A H) (items : List (Item A (Piece A H))) →
        length (laid_code codes items) ≡ moved_to items (length items) }
    // Its own code stands there, and behind it the jump, where places are passed.
    ensures body { (codes : Codes A H) (items : List (Item A (Piece A H))) (place k : ℕ)
        (item : Item A (Piece A H)) (a : A) →
        slice_get items place ≡ Some item
        → slice_get (body_code codes (moved_to items) (moved_to items place) item) k ≡ Some a
        → slice_get (laid_code codes items) (moved_to items place + k) ≡ Some a }
    ensures jump { (codes : Codes A H) (items : List (Item A (Piece A H))) (place over : ℕ)
        (item : Item A (Piece A H)) →
        slice_get items place ≡ Some item → over_of item ≡ suc over
        → slice_get (laid_code codes items) (moved_to items place + body_width item)
        ≡ Some (codes.jump place (moved_to items (suc place + over_of item))) }
    // A range ends behind its last place's own code, and before the jump.
    ensures shuts { (items : List (Item A (Piece A H))) (last : ℕ) (item : Item A (Piece A H)) →
        slice_get items last ≡ Some item
        → shut items (suc last) ≡ moved_to items last + body_width item }
{}

/// Where throws go in code that is laid out (JVMS 2.10).
pub fn throws_are_laid()
    // At an instruction they go where the entries sent them, moved.
    ensures instructions { (classes : Classes) (heap : Heap) (reference : Value)
        (items : List (Item Operation Block)) (handlers : List Handler) (place over : ℕ)
        (operation : Operation) →
        slice_get items place ≡ Some (Keeps over operation)
        → ((i : ℕ) (x : Item Operation Block) → slice_get items i ≡ Some x → Within x)
        → catcher (laid_handlers operation_codes items handlers) classes (moved_to items place)
        heap reference
        ≡ option_map (moved_to items) (catcher handlers classes place heap reference) }
    // In a piece its own entries come first.
    ensures pieces { (classes : Classes) (heap : Heap) (reference : Value)
        (items : List (Item Operation Block)) (handlers : List Handler) (place over k : ℕ)
        (block : Block) →
        slice_get items place ≡ Some (Puts over block)
        → ((i : ℕ) (x : Item Operation Block) → slice_get items i ≡ Some x → Within x)
        → k < length block.code
        → catcher (laid_handlers operation_codes items handlers) classes
        (moved_to items place + k) heap reference
        ≡ option_or
        (option_map (λ target. moved_to items place + target)
        (catcher block.handlers classes k heap reference))
        (option_map (moved_to items) (catcher handlers classes place heap reference)) }
{}
