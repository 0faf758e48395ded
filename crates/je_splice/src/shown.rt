//! Small layouts, and a method with a loop and two handlers with pieces put into it, computed.

ghost use Rattle.std.specs.Prelude.{◌≡◌, ℕ, pos, List, [], ◌∷◌, Some, None};
ghost use Rattle.je_machine.specs.Value.{IntKind, Value, Int, Obj};
ghost use Rattle.je_machine.specs.Heap.{Heap};
ghost use Rattle.je_machine.specs.Classes.{Classes};
ghost use Rattle.je_machine.specs.Outside.{Answer};
ghost use Rattle.je_machine.specs.Operation.{Nop, Drop, Act, Do, Goto, Return, Program};
ghost use Rattle.je_machine.specs.Step.{Returned};
ghost use Rattle.je_machine.specs.Machine.{enter, run_of};
ghost use Rattle.je_machine.specs.View.{AgreeingRuns};
ghost use Rattle.je_machine.specs.Sample.{before, seen, value_answer, throw_answer, outcome};
ghost use Rattle.je_machine.specs.Sample.{c_below_d, entry};
ghost use Rattle.je_splice.specs.Reference.{body_of};
ghost use Rattle.je_splice.specs.Layout.{operation_codes, Keeps, Puts, laid_code, laid_handlers};
ghost use Rattle.je_splice.specs.Laid.{Fits, inside};
ghost use Rattle.je_splice.specs.Marks.{marked_items, marked_handlers, marked, spliced, replaced};
ghost use Rattle.je_splice.specs.InstrCodes.{instr_codes};
ghost use Rattle.je_splice.specs.Resolved.{AreProgram, AreMarksOf, GivesWay, piece_items};
ghost use Rattle.je_splice.specs.LoopCode.{loop_pool, loop_code, loop_table, piece_marks};
ghost use Rattle.je_splice.specs.LoopCode.{loop_items, spliced_code, spliced_table, call_marks};
ghost use Rattle.je_splice.specs.LoopCode.{call_piece_marks, replaced_code, replaced_table};
ghost use Rattle.je_splice.specs.LoopCode.{replaced_loop};
ghost use Rattle.je_splice.specs.Loop.{call, guarded_call, loop_method, loop_marks, spliced_loop};
ghost use Rattle.je_splice.specs.Sample.{no_code};

/// The method with its pieces in place, that it meets all premises, and what its runs come to.
pub fn loop_is_spliced()
    ensures laid { spliced loop_method loop_marks ≡ spliced_loop }
    ensures fits { let items = marked_items operation_codes loop_marks loop_method.operations in
        Fits 1 (λ place frame. inside items place) loop_method.parameters items
        (marked_handlers operation_codes loop_marks loop_method.handlers) }
    ensures agrees { (classes : Classes) (arguments : List Value) (heap : Heap)
        (answers : List Answer) →
        AgreeingRuns
        (λ n. body_of (marked loop_method loop_marks) classes n
        (enter loop_method.parameters arguments) (before heap answers))
        (run_of spliced_loop classes arguments heap answers) }
    // One turn, with one call.
    ensures turned { (heap after : Heap) →
        run_of spliced_loop c_below_d (Int (pos 1) ∷ []) heap
        (value_answer (Int (pos 9)) after ∷ []) 12
        ≡ outcome (Some (Returned None)) 0 (Int (pos 0) ∷ []) (seen call [] heap after []) }
    ensures turn_is_meant { (heap after : Heap) →
        body_of (marked loop_method loop_marks) c_below_d 12 (Int (pos 1) ∷ [])
        (before heap (value_answer (Int (pos 9)) after ∷ []))
        ≡ outcome (Some (Returned None)) 0 (Int (pos 0) ∷ []) (seen call [] heap after []) }
    // What the call throws goes to the handler of its index.
    ensures thrown { (heap after : Heap) →
        run_of spliced_loop c_below_d (Int (pos 1) ∷ []) heap (throw_answer (Obj 8) after ∷ []) 6
        ≡ outcome (Some (Returned None)) 0 (Int (pos 1) ∷ []) (seen call [] heap after []) }
    ensures throw_is_meant { (heap after : Heap) →
        body_of (marked loop_method loop_marks) c_below_d 6 (Int (pos 1) ∷ [])
        (before heap (throw_answer (Obj 8) after ∷ []))
        ≡ outcome (Some (Returned None)) 0 (Int (pos 1) ∷ []) (seen call [] heap after []) }
{}

/// Small layouts: of a block with an entry of its own, and of one without code.
pub fn small_layouts()
    ensures code { laid_code operation_codes
        (Keeps 0 (Do Nop) ∷ Puts 0 guarded_call ∷ Keeps 0 (Goto 1) ∷ [])
        ≡ Do Nop ∷ Do (Act call) ∷ Goto 4 ∷ Do (Drop 1) ∷ Goto 1 ∷ [] }
    // Its own entry comes first. The old one covers all of it, and leads to where its target is.
    ensures handlers { laid_handlers operation_codes
        (Keeps 0 (Do Nop) ∷ Puts 0 guarded_call ∷ Keeps 0 (Return None) ∷ []) (entry 0 2 2 ∷ [])
        ≡ entry 1 2 3 ∷ entry 0 4 4 ∷ [] }
    // An entry that covers nothing any more is left out.
    ensures left_out { laid_handlers operation_codes
        (Puts 0 no_code ∷ Keeps 0 (Return None) ∷ []) (entry 0 1 1 ∷ entry 0 2 1 ∷ [])
        ≡ entry 0 1 0 ∷ [] }
    // The jump behind a place is covered by none.
    ensures jump { laid_code operation_codes
        (Keeps 1 (Do Nop) ∷ Puts 0 guarded_call ∷ Keeps 0 (Return None) ∷ [])
        ≡ Do Nop ∷ Goto 5 ∷ Do (Act call) ∷ Goto 5 ∷ Do (Drop 1) ∷ Return None ∷ [] }
    ensures before_jump { laid_handlers operation_codes
        (Keeps 1 (Do Nop) ∷ Keeps 0 (Do Nop) ∷ Keeps 0 (Return None) ∷ []) (entry 0 1 2 ∷ [])
        ≡ entry 0 1 3 ∷ [] }
{}

/// The same method as code has it, over a small pool: it is that method, and with its pieces in
/// place it is the one with its blocks.
pub fn loop_code_is_spliced()
    ensures program { AreProgram loop_pool loop_code loop_table loop_method }
    ensures marks { AreMarksOf loop_pool (λ piece. piece) (λ fragment. fragment) piece_marks
        loop_table loop_marks loop_method.handlers }
    ensures code { laid_code instr_codes loop_items ≡ spliced_code }
    ensures table { laid_handlers instr_codes loop_items
        (marked_handlers instr_codes piece_marks loop_table) ≡ spliced_table }
    ensures spliced { AreProgram loop_pool spliced_code spliced_table spliced_loop }
    ensures only { (p : Program) → p.parameters ≡ IntKind ∷ []
        → AreProgram loop_pool spliced_code spliced_table p → p ≡ spliced_loop }
{}

/// Its two calls give way, the first to itself and the second to nothing: the code that comes of
/// it, that all premises are met, and so what its runs show.
pub fn loop_calls_give_way()
    ensures gives_way { GivesWay loop_pool (λ piece. piece) (λ fragment. fragment) call_piece_marks
        loop_code loop_table call_marks loop_method }
    ensures fits { let items = marked_items operation_codes call_marks loop_method.operations in
        Fits 1 (λ place frame. inside items place) loop_method.parameters items
        loop_method.handlers }
    ensures code { laid_code instr_codes (piece_items (λ piece. piece) call_piece_marks loop_code)
        ≡ replaced_code }
    ensures table { laid_handlers instr_codes
        (piece_items (λ piece. piece) call_piece_marks loop_code)
        (marked_handlers instr_codes call_piece_marks loop_table) ≡ replaced_table }
    ensures program { AreProgram loop_pool replaced_code replaced_table replaced_loop }
    ensures agrees { (classes : Classes) (arguments : List Value) (heap : Heap)
        (answers : List Answer) →
        AgreeingRuns
        (λ n. body_of (replaced loop_method call_marks.instead) classes n
        (enter loop_method.parameters arguments) (before heap answers))
        (run_of replaced_loop classes arguments heap answers) }
{}
