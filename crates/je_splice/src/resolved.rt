//! Laws of code as a class file has it, with pieces put into it: it is the program with blocks.

ghost use Rattle.std.specs.Prelude.{◌≡◌, ℕ, suc, List, [], length, Bool, IsTrue};
ghost use Rattle.std.specs.Prelude.{option_map};
ghost use Rattle.std.specs.List.{AllZip};
ghost use Rattle.je_consts.specs.declared.place.Place.{Place};
ghost use Rattle.je_machine.specs.Value.{Value};
ghost use Rattle.je_machine.specs.Heap.{Heap};
ghost use Rattle.je_machine.specs.Classes.{Classes};
ghost use Rattle.je_machine.specs.Outside.{Answer};
ghost use Rattle.je_machine.specs.Operation.{Operation, Handler, Program};
ghost use Rattle.je_machine.specs.Frame.{Frame, frame_of};
ghost use Rattle.je_machine.specs.Machine.{enter, run_of};
ghost use Rattle.je_machine.specs.View.{AgreeingRuns};
ghost use Rattle.je_machine.specs.IndexMap.{may_fall};
ghost use Rattle.je_machine.specs.Moved.{retargeted};
ghost use Rattle.je_instr.specs.declared.instr.Instr.{Instr};
ghost use Rattle.je_instr.specs.declared.program.Decoded.{Decoded};
ghost use Rattle.je_instr.specs.declared.program.RawHandler.{RawHandler};
ghost use Rattle.je_instr.specs.CodeProgram.{IsHandlerOf, CodeProgram};
ghost use Rattle.je_instr.specs.Decoding.{Decodes};
ghost use Rattle.je_instr.specs.Resolves.{Resolves};
ghost use Rattle.je_splice.specs.InstrCodes.{redirected, leads_on, moved_entry_of, covers_some};
ghost use Rattle.je_splice.specs.InstrCodes.{instr_codes};
ghost use Rattle.je_splice.specs.Layout.{moved_entry, has_range, operation_codes, Item, laid_code};
ghost use Rattle.je_splice.specs.Layout.{laid_handlers};
ghost use Rattle.je_splice.specs.Marks.{Marks, marked_items, marked_handlers, replaced};
ghost use Rattle.je_splice.specs.Comes.{Does};
ghost use Rattle.je_splice.specs.Reference.{body_of};
ghost use Rattle.je_splice.specs.Laid.{Fragment, Fits};
ghost use Rattle.je_splice.specs.Put.{PutAt, PutBefore, marks_of};
ghost use Rattle.je_splice.specs.Resolved.{Entry, CodePiece, AreProgram, AreMeant, AreMarksOf};
ghost use Rattle.je_splice.specs.Resolved.{IsPlacedAs, IsMetAs, IsWoven, GivesWay, piece_items};
ghost use Rattle.je_splice.specs.Resolved.{fragment_items};

/// An instruction whose targets are moved is its operation moved, and an entry of the exception
/// table that is moved is its handler moved (JVMS 4.7.3 and 6.5).
pub fn instructions_move()
    ensures operation { (consts : List Place) (to : ℕ → ℕ) (i : Instr) (o : Operation) →
        Resolves consts i o → Resolves consts (redirected to i) (retargeted to o) }
    // It may lead to the next one exactly where the operation may.
    ensures falls { (consts : List Place) (i : Instr) (o : Operation) →
        Resolves consts i o → leads_on i ≡ may_fall o }
    ensures entry { (consts : List Place) (start end target : ℕ → ℕ) (e : Entry) (h : Handler) →
        IsHandlerOf consts e h
        → IsHandlerOf consts (moved_entry_of start end target e) (moved_entry start end target h) }
    ensures ranges { (consts : List Place) (e : Entry) (h : Handler) →
        IsHandlerOf consts e h → covers_some e ≡ has_range h }
{}

/// The program that a method's bytes are is that of what they are decoded to (JVMS 4.7.3).
pub fn programs_resolve()
    ensures { (consts : List Place) (is_static : Bool) (text code : List ℕ)
        (table : List RawHandler) (d : Decoded) (p : Program) →
        Decodes consts code table d → CodeProgram consts is_static text code table p
        → AreProgram consts d.program.instrs d.program.handlers p }
{}

/// Code and its exception table, laid out of items with pieces, are the program that has the blocks
/// in place, and do what the reference does, for every meaning of the blocks, every relation of
/// classes, heap and answers.
pub fn code_is_woven()
    ensures { (consts : List Place) (items : List (Item Instr CodePiece)) (table : List Entry) →
        IsWoven consts items table (laid_code instr_codes items)
        (laid_handlers instr_codes items table) }
{}

/// What is put at the indexes of instructions is what is meant at the indexes of their operations,
/// so that the marked method is meant by the items of the code.
pub fn marks_are_meant<X, Y>()
    ensures meant { (consts : List Place) (piece_of : X → CodePiece) (fragment_of : Y → Fragment)
        (m : Marks X Entry) (n : Marks Y Handler) (code : List Instr) (table : List Entry)
        (p : Program) →
        AreProgram consts code table p
        → AreMarksOf consts piece_of fragment_of m table n p.handlers
        → AreMeant consts (piece_items piece_of m code) (marked_handlers instr_codes m table)
        (fragment_items fragment_of n p.operations)
        (marked_handlers operation_codes n p.handlers) }
    // Marks that have the fragments themselves are those of the marked method.
    ensures fragments { (n : Marks Fragment Handler) (operations : List Operation) →
        fragment_items (λ fragment. fragment) n operations
        ≡ marked_items operation_codes n operations }
{}

/// Lists that put the same at the same indexes make marks of the same.
pub fn puts_are_marks<X, Y>()
    ensures { (consts : List Place) (piece_of : X → CodePiece) (fragment_of : Y → Fragment)
        (completes : X → Bool) (goes_on : Y → Bool) (table : List Entry) (handlers : List Handler)
        (places : List (PutAt X)) (fragments : List (PutAt Y))
        (entries : List (PutBefore X Entry)) (others : List (PutBefore Y Handler)) →
        AllZip (IsHandlerOf consts) table handlers
        → AllZip (IsPlacedAs consts piece_of fragment_of completes goes_on) places fragments
        → AllZip (IsMetAs consts piece_of fragment_of completes goes_on table handlers) entries
        others
        → AreMarksOf consts piece_of fragment_of
        (marks_of (λ e. e.target) completes places entries) table
        (marks_of (λ h. h.target) goes_on fragments others) handlers }
{}

/// Code of which some instructions give way to pieces shows what the method shows that does there
/// what is meant, by its own indexes, and no more.
pub fn replaced_methods<X, Y>()
    ensures does { (consts : List Place) (piece_of : X → CodePiece) (fragment_of : Y → Fragment)
        (m : Marks X Entry) (code : List Instr) (table : List Entry) (n : Marks Y Handler)
        (p q : Program) (limit : ℕ) (ok : ℕ → Frame → Bool) →
        GivesWay consts piece_of fragment_of m code table n p
        → Fits limit ok q.parameters (fragment_items fragment_of n p.operations) p.handlers
        → q.parameters ≡ p.parameters
        → AreProgram consts (laid_code instr_codes (piece_items piece_of m code))
        (laid_handlers instr_codes (piece_items piece_of m code)
        (marked_handlers instr_codes m table)) q
        → (classes : Classes) → Does q classes limit (length p.operations)
        (suc (length p.operations)) (λ locals. ok 0 (frame_of [] locals))
        (body_of (replaced p (λ i. option_map fragment_of (n.instead i))) classes) }
    ensures agrees { (consts : List Place) (piece_of : X → CodePiece) (fragment_of : Y → Fragment)
        (m : Marks X Entry) (code : List Instr) (table : List Entry) (n : Marks Y Handler)
        (p q : Program) (limit : ℕ) (ok : ℕ → Frame → Bool) →
        GivesWay consts piece_of fragment_of m code table n p
        → Fits limit ok q.parameters (fragment_items fragment_of n p.operations) p.handlers
        → q.parameters ≡ p.parameters
        → AreProgram consts (laid_code instr_codes (piece_items piece_of m code))
        (laid_handlers instr_codes (piece_items piece_of m code)
        (marked_handlers instr_codes m table)) q
        → (classes : Classes) (arguments : List Value) (heap : Heap) (answers : List Answer) →
        IsTrue (ok 0 (frame_of [] (enter p.parameters arguments))) → AgreeingRuns
        (λ bound. body_of (replaced p (λ i. option_map fragment_of (n.instead i))) classes bound
        (enter p.parameters arguments)
        (record { heap = heap; events = []; answers = answers }))
        (run_of q classes arguments heap answers) }
{}
