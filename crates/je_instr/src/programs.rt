//! The program that the code of a method is, and what it shows, computed.

ghost use Rattle.std.specs.Prelude.{◌≡◌, ℕ, List, [], ◌∷◌, Some, None, true, false, codes};
ghost use Rattle.je_consts.specs.declared.place.Place.{Place};
ghost use Rattle.je_desc.specs.FieldType.{FieldType, Base, Object};
ghost use Rattle.je_desc.specs.FieldType as types;
ghost use Rattle.je_desc.specs.Names.{IsClassName};
ghost use Rattle.je_consts.specs.declared.constant.MemberTag.TheVariants.{Method};
ghost use Rattle.je_machine.specs.Content.{Class, Member};
ghost use Rattle.je_machine.specs.Heap.{Heap};
ghost use Rattle.je_machine.specs.Operation.{Program};
ghost use Rattle.je_machine.specs.Sample.{value_answer, throw_answer};
ghost use Rattle.je_machine.specs.Step.{Returned, Thrown};
ghost use Rattle.je_machine.specs.Value.{LongKind, ReferenceKind, Value, Obj};
ghost use Rattle.je_instr.specs.declared.instr.Instr.TheVariants as instr;
ghost use Rattle.je_instr.specs.declared.opcodes.TheConstants as op;
ghost use Rattle.je_instr.specs.declared.fault.CodeFault.TheVariants.{BadRange};
ghost use Rattle.je_instr.specs.CodeProgram.{CodeProgram, IsHandlerOf, HasTargets, parameters_of};
ghost use Rattle.je_instr.specs.Content.{content_at};
ghost use Rattle.je_instr.specs.Decoding.{Decodes, FirstFault};
ghost use Rattle.je_instr.specs.Sample.{push_and_return, pushed_with, push_program};
ghost use Rattle.je_instr.specs.Sample.{CallsPlain, IsTwoCalls, Shows, call_event};

/// The parameters, the handlers and the targets of programs (JVMS 4.7.3 and 2.6.1).
pub fn programs_mean()
    ensures parameters { (name : List ℕ) →
        parameters_of true (record { params = Base types.Long ∷ Object name ∷ []; result = None })
        ≡ LongKind ∷ ReferenceKind ∷ [] }
    ensures this { (name : List ℕ) →
        parameters_of false (record { params = Base types.Long ∷ Object name ∷ []; result = None })
        ≡ ReferenceKind ∷ LongKind ∷ ReferenceKind ∷ [] }
    // An entry of the table with indexes in the place of offsets. Code is an instruction of three
    // bytes, and one behind it.
    ensures handler { (consts : List Place) →
        Decodes consts push_and_return
        (record { start = 0; end = 3; target = 3; catch_const = 0 } ∷ [])
        (pushed_with (record { start = 0; end = 1; target = 1; catch_const = 0 })) }
    // A range may reach to the end.
    ensures to_end { (consts : List Place) →
        Decodes consts push_and_return
        (record { start = 3; end = 4; target = 0; catch_const = 0 } ∷ [])
        (pushed_with (record { start = 1; end = 2; target = 0; catch_const = 0 })) }
    // No target is the end, and no range is empty.
    ensures no_target { (consts : List Place) →
        FirstFault consts push_and_return
        (record { start = 0; end = 3; target = 4; catch_const = 0 } ∷ []) (BadRange 0) }
    ensures no_range { (consts : List Place) →
        FirstFault consts push_and_return
        (record { start = 3; end = 3; target = 0; catch_const = 0 } ∷ []) (BadRange 0) }
    // No place within an instruction starts one.
    ensures within { (consts : List Place) →
        FirstFault consts push_and_return
        (record { start = 1; end = 3; target = 3; catch_const = 0 } ∷ []) (BadRange 0) }
    // A class stands in the place of its constant, and nothing in the place of 0.
    ensures caught { (consts : List Place) (catch : ℕ) (name : List ℕ) →
        content_at consts catch ≡ Some (Class name) → IsClassName name →
        IsHandlerOf consts (record { start = 0; end = 1; target = 1; catch_const = catch })
        (record { start = 0; end = 1; target = 1; catch_class = Some name }) }
    ensures caught_all { (consts : List Place) →
        IsHandlerOf consts (record { start = 0; end = 1; target = 1; catch_const = 0 })
        (record { start = 0; end = 1; target = 1; catch_class = None }) }
    // A method without parameters and handlers.
    ensures whole { (consts : List Place) →
        CodeProgram consts true (codes "()V") push_and_return [] push_program }
    ensures jump { HasTargets 3 (instr.Goto 2) }
    ensures no_jump { HasTargets 3 (instr.Branch op.IFEQ 3) → ⊥ }
{}

/// What a method shows that calls a method, does nothing, calls another and returns.
pub fn two_calls_are_shown()
    // The first call is seen with the first heap, the second with the one that the first left.
    ensures returned { (consts : List Place) (i j : ℕ) (class name text other_class other_name
        other_text : List ℕ) (p : Program) (heap middle last : Heap) (u v : Value) →
        CallsPlain consts i class name text → CallsPlain consts j other_class other_name other_text
        → IsTwoCalls consts i j p
        → Shows p heap (value_answer u middle ∷ value_answer v last ∷ [])
        (call_event (Member Method class name text) heap
        ∷ call_event (Member Method other_class other_name other_text) middle ∷ [])
        (Some (Returned None, last)) }
    // A throw ends it, and nothing more is called.
    ensures thrown { (consts : List Place) (i j : ℕ) (class name text other_class other_name
        other_text : List ℕ) (p : Program) (heap middle last : Heap) (u : Value) (number : ℕ) →
        CallsPlain consts i class name text → CallsPlain consts j other_class other_name other_text
        → IsTwoCalls consts i j p
        → Shows p heap (throw_answer (Obj number) middle ∷ value_answer u last ∷ [])
        (call_event (Member Method class name text) heap ∷ [])
        (Some (Thrown (Obj number), middle)) }
    // Without an answer the call is seen, and the run goes no further.
    ensures waits { (consts : List Place) (i j : ℕ) (class name text other_class other_name
        other_text : List ℕ) (p : Program) (heap middle : Heap) (u : Value) →
        CallsPlain consts i class name text → CallsPlain consts j other_class other_name other_text
        → IsTwoCalls consts i j p
        → Shows p heap (value_answer u middle ∷ [])
        (call_event (Member Method class name text) heap
        ∷ call_event (Member Method other_class other_name other_text) middle ∷ []) None }
{}
