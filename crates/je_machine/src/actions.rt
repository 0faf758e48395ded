//! Laws of actions, over all heaps, operands and answers.

ghost use Rattle.std.specs.Prelude.{◌≡◌, ◌↔◌, ◌<◌, ◌^◌, ℤ, List, ◌∷◌, Some, None, true};
ghost use Rattle.std.specs.Prelude.{false, ◌&&◌, IsTrue, FitsSigned, codes};
ghost use Rattle.std.specs.Int.{w32, w64};
ghost use Rattle.je_desc.specs.FieldType.{FieldType};
ghost use Rattle.je_desc.specs.Descriptor.{MethodTypes};
ghost use Rattle.je_machine.specs.Content.{Content};
ghost use Rattle.je_machine.specs.Value.{Kind, IntKind, LongKind, Value, Int, Long, zero_of, admit};
ghost use Rattle.je_machine.specs.Value.{kind_of, is_of_kind, admit_all, value_at, is_null};
ghost use Rattle.je_machine.specs.Heap.{Heap, array_length};
ghost use Rattle.je_machine.specs.Classes.{Classes};
ghost use Rattle.je_machine.specs.Action.{Action, ArrayLength, Invoke, Sort, operands_of};
ghost use Rattle.je_machine.specs.Action.{result_of, has_target, has_receiver};
ghost use Rattle.je_machine.specs.Outside.{Outside, Answer, Gave, Threw, raise};
ghost use Rattle.je_machine.specs.Acting.{answer, act_on, act};
ghost use Rattle.je_machine.specs.Acts.{HasKept, GivesKind, are_of_kinds, is_own, is_reference};
ghost use Rattle.je_machine.specs.Acts.{is_right, after_call};
ghost use Rattle.je_machine.specs.Sample.{value_answer, throw_answer};

/// What is a value of a kind, and what counts as one (JVMS 2.3, 2.4 and 2.11.1).
pub fn kinds_of_values()
    ensures right { (kind : Kind) (value : Value) →
        IsTrue (is_of_kind kind value) → admit kind value ≡ value }
    ensures wrong { (kind : Kind) (value : Value) →
        is_of_kind kind value ≡ false → admit kind value ≡ zero_of kind }
    ensures admitted { (kind : Kind) (value : Value) → IsTrue (is_of_kind kind (admit kind value)) }
    // The ranges of int and long.
    ensures ints { (n : ℤ) → IsTrue (is_of_kind IntKind (Int n)) ↔ FitsSigned w32 n }
    ensures longs { (n : ℤ) → IsTrue (is_of_kind LongKind (Long n)) ↔ FitsSigned w64 n }
{}

/// What every action does (JVMS 6.5).
pub fn actions_do()
    // It only adds events and only takes answers from the front, and what it throws is a reference
    // that is not null.
    ensures keeps { (classes : Classes) (action : Action) (operands : List Value)
        (outside : Outside) →
        HasKept outside (act classes action operands outside) }
    // What it gives is of the kind of its result, and an action without a result gives none.
    ensures gives { (classes : Classes) (action : Action) (operands : List Value)
        (outside : Outside) →
        GivesKind (result_of action) (act classes action operands outside) }
    // Operands of the right kinds are taken as they are.
    ensures right_operands { (classes : Classes) (action : Action) (operands : List Value)
        (outside : Outside) →
        IsTrue (are_of_kinds (operands_of action) operands)
        → act classes action operands outside ≡ act_on classes action operands outside }
    // A result of the right kind is given as it is; and so is a throw, and a wait.
    ensures right_results { (classes : Classes) (action : Action) (operands : List Value)
        (outside : Outside) →
        IsTrue (are_of_kinds (operands_of action) operands)
        → has_target action && is_null (value_at operands 0) ≡ false
        → IsTrue (is_right (result_of action) (answer classes action operands outside))
        → act classes action operands outside ≡ answer classes action operands outside }
    // On operands of the right kinds the machine's own results are of the right kinds.
    ensures own_results { (classes : Classes) (action : Action) (operands : List Value)
        (outside : Outside) →
        IsTrue (are_of_kinds (operands_of action) operands) → is_own action ≡ true
        → IsTrue (is_right (result_of action) (answer classes action operands outside)) }
    // So is the length of an array that an int can say.
    ensures lengths { (classes : Classes) (operands : List Value) (outside : Outside) →
        array_length outside.heap (value_at operands 0) < 2 ^ 31
        → IsTrue (is_right (Some IntKind) (answer classes ArrayLength operands outside)) }
    // A null target throws a new NullPointerException, and nothing else is done.
    ensures null_targets { (classes : Classes) (action : Action) (operands : List Value)
        (outside : Outside) →
        has_target action ≡ true → is_null (value_at (admit_all (operands_of action) operands) 0)
        ≡ true
        → act classes action operands outside
        ≡ raise (codes "java/lang/NullPointerException") outside }
{}

/// What a call is answered (JVMS 6.5, invokevirtual to invokedynamic).
pub fn calls_do()
    // A value of the result's kind is given as it is.
    ensures given { (classes : Classes) (sort : Sort) (method : Content) (types : MethodTypes)
        (operands : List Value) (before : Outside) (value : Value) (result : FieldType)
        (heap : Heap) (answers : List Answer) →
        IsTrue (are_of_kinds (operands_of (Invoke sort method types)) operands)
        → has_receiver sort && is_null (value_at operands 0) ≡ false
        → before.answers ≡ value_answer value heap ∷ answers
        → types.result ≡ Some result → IsTrue (is_of_kind (kind_of result) value)
        → act classes (Invoke sort method types) operands before
        ≡ Gave (Some value) (after_call (Invoke sort method types) operands before heap answers) }
    // Without a result nothing is given, whatever the value.
    ensures nothing { (classes : Classes) (sort : Sort) (method : Content) (types : MethodTypes)
        (operands : List Value) (before : Outside) (value : Value) (heap : Heap)
        (answers : List Answer) →
        IsTrue (are_of_kinds (operands_of (Invoke sort method types)) operands)
        → has_receiver sort && is_null (value_at operands 0) ≡ false
        → before.answers ≡ value_answer value heap ∷ answers
        → types.result ≡ None
        → act classes (Invoke sort method types) operands before
        ≡ Gave None (after_call (Invoke sort method types) operands before heap answers) }
    // A reference that is thrown is thrown as it is.
    ensures thrown { (classes : Classes) (sort : Sort) (method : Content) (types : MethodTypes)
        (operands : List Value) (before : Outside) (reference : Value) (heap : Heap)
        (answers : List Answer) →
        IsTrue (are_of_kinds (operands_of (Invoke sort method types)) operands)
        → has_receiver sort && is_null (value_at operands 0) ≡ false
        → before.answers ≡ throw_answer reference heap ∷ answers
        → IsTrue (is_reference reference)
        → act classes (Invoke sort method types) operands before
        ≡ Threw reference (after_call (Invoke sort method types) operands before heap answers) }
{}
