//! Small cases of actions, computed.

ghost use Rattle.std.specs.Prelude.{◌≡◌, [], ◌∷◌, ℕ, pos, negsuc, List, Some, None, codes};
ghost use Rattle.je_desc.specs.FieldType.{Base};
ghost use Rattle.je_desc.specs.FieldType as types;
ghost use Rattle.je_machine.specs.Content.{Str};
ghost use Rattle.je_machine.specs.Value.{LongKind, ReferenceKind, Int, Long, Flt, Null, Obj, Const};
ghost use Rattle.je_machine.specs.Heap.{Fields, Heap, Array, new_instance};
ghost use Rattle.je_machine.specs.Classes.{Classes};
ghost use Rattle.je_machine.specs.Calculation.{Binary, IntWhole, Divide};
ghost use Rattle.je_machine.specs.Condition.{Ints};
ghost use Rattle.je_machine.specs.Action.{Calculate, LoadElement, StoreElement, ArrayLength, New};
ghost use Rattle.je_machine.specs.Action.{NewArray, CheckCast, InstanceOf, MonitorEnter};
ghost use Rattle.je_machine.specs.Action.{MonitorExit, PutField, Bytes, Chars, Shorts, Ints, Longs};
ghost use Rattle.je_machine.specs.Action.{References, Static, Virtual, operands_of};
ghost use Rattle.je_machine.specs.Outside.{Answer, Gave, Threw, Waits};
ghost use Rattle.je_machine.specs.Acting.{act};
ghost use Rattle.je_machine.specs.Sample.{bytes, c_array, throws_new, ints, arguments, null_thrown};
ghost use Rattle.je_machine.specs.Sample.{no_objects, objects_alone, one_object, two_objects};
ghost use Rattle.je_machine.specs.Sample.{three_objects, array_of, c_below_d, before, seen};
ghost use Rattle.je_machine.specs.Sample.{value_answer, throw_answer, call_of, float_sum};
ghost use Rattle.je_machine.specs.Sample.{float_comparison};

/// Elements as arrays keep them, and exceptions in their order (JVMS 6.5).
pub fn arrays_are_used()
    ensures boolean { (classes : Classes) →
        act classes (StoreElement Bytes) (Obj 0 ∷ Int (pos 0) ∷ Int (pos 2) ∷ [])
        (one_object (array_of (codes "[Z") (pos 5)))
        ≡ Gave None (one_object (array_of (codes "[Z") (pos 0))) }
    ensures byte { (classes : Classes) →
        act classes (StoreElement Bytes) (Obj 0 ∷ Int (pos 0) ∷ Int (pos 200) ∷ [])
        (one_object (array_of (codes "[B") (pos 5)))
        ≡ Gave None (one_object (array_of (codes "[B") (negsuc 55))) }
    ensures char { (classes : Classes) →
        act classes (StoreElement Chars) (Obj 0 ∷ Int (pos 0) ∷ Int (negsuc 0) ∷ [])
        (one_object (array_of (codes "[C") (pos 5)))
        ≡ Gave None (one_object (array_of (codes "[C") (pos 65535))) }
    ensures short { (classes : Classes) →
        act classes (StoreElement Shorts) (Obj 0 ∷ Int (pos 0) ∷ Int (pos 40000) ∷ [])
        (one_object (array_of (codes "[S") (pos 5)))
        ≡ Gave None (one_object (array_of (codes "[S") (negsuc 25535))) }
    ensures int { (classes : Classes) →
        act classes (StoreElement Ints) (Obj 0 ∷ Int (pos 0) ∷ Int (negsuc 69999) ∷ [])
        (one_object (array_of (codes "[I") (pos 5)))
        ≡ Gave None (one_object (array_of (codes "[I") (negsuc 69999))) }
    ensures loaded { (classes : Classes) →
        act classes (LoadElement Bytes) (Obj 0 ∷ Int (pos 0) ∷ []) (one_object bytes)
        ≡ Gave (Some (Int (pos 5))) (one_object bytes) }
    ensures length { (classes : Classes) →
        act classes ArrayLength (Obj 0 ∷ []) (one_object bytes)
        ≡ Gave (Some (Int (pos 1))) (one_object bytes) }
    ensures second_element { (classes : Classes) →
        act classes (StoreElement Ints) (Obj 0 ∷ Int (pos 1) ∷ Int (pos 9) ∷ [])
        (one_object (Array (codes "[I") (Int (pos 1) ∷ Int (pos 2) ∷ Int (pos 3) ∷ [])))
        ≡ Gave None
        (one_object (Array (codes "[I") (Int (pos 1) ∷ Int (pos 9) ∷ Int (pos 3) ∷ []))) }
    ensures second_loaded { (classes : Classes) →
        act classes (LoadElement Ints) (Obj 0 ∷ Int (pos 1) ∷ [])
        (one_object (Array (codes "[I") (Int (pos 1) ∷ Int (pos 2) ∷ Int (pos 3) ∷ [])))
        ≡ Gave (Some (Int (pos 2)))
        (one_object (Array (codes "[I") (Int (pos 1) ∷ Int (pos 2) ∷ Int (pos 3) ∷ []))) }
    ensures long { (classes : Classes) →
        act classes (StoreElement Longs) (Obj 0 ∷ Int (pos 0) ∷ Long (pos 4294967296) ∷ [])
        (one_object (Array (codes "[J") (Long (pos 0) ∷ [])))
        ≡ Gave None (one_object (Array (codes "[J") (Long (pos 4294967296) ∷ []))) }
    ensures other_kind { (classes : Classes) →
        act classes (LoadElement Longs) (Obj 0 ∷ Int (pos 0) ∷ []) (one_object bytes)
        ≡ Gave (Some (Long (pos 0))) (one_object bytes) }
    // What stands in an array is read as it is.
    ensures wide_element { (classes : Classes) →
        act classes (LoadElement Bytes) (Obj 0 ∷ Int (pos 0) ∷ [])
        (one_object (array_of (codes "[B") (pos 300)))
        ≡ Gave (Some (Int (pos 300))) (one_object (array_of (codes "[B") (pos 300))) }
    // What is no array has the length 0.
    ensures no_array { (classes : Classes) →
        act classes ArrayLength (Obj 0 ∷ []) (one_object (new_instance (codes "C")))
        ≡ Gave (Some (Int (pos 0))) (one_object (new_instance (codes "C"))) }
    ensures no_object { (classes : Classes) →
        act classes ArrayLength (Obj 5 ∷ []) (one_object bytes)
        ≡ Gave (Some (Int (pos 0))) (one_object bytes) }
    ensures constant { (classes : Classes) →
        act classes (LoadElement Bytes) (Const (Str []) ∷ Int (pos 0) ∷ []) (one_object bytes)
        ≡ throws_new bytes (codes "java/lang/ArrayIndexOutOfBoundsException") }
    ensures null_first { (classes : Classes) →
        act classes (LoadElement Bytes) (Null ∷ Int (negsuc 0) ∷ []) (one_object bytes)
        ≡ throws_new bytes (codes "java/lang/NullPointerException") }
    ensures negative_index { (classes : Classes) →
        act classes (LoadElement Bytes) (Obj 0 ∷ Int (negsuc 0) ∷ []) (one_object bytes)
        ≡ throws_new bytes (codes "java/lang/ArrayIndexOutOfBoundsException") }
    ensures past_the_end { (classes : Classes) →
        act classes (StoreElement Bytes) (Obj 0 ∷ Int (pos 1) ∷ Int (pos 1) ∷ []) (one_object bytes)
        ≡ throws_new bytes (codes "java/lang/ArrayIndexOutOfBoundsException") }
    ensures wrong_class { act c_below_d (StoreElement References) (Obj 0 ∷ Int (pos 0) ∷ Obj 0 ∷ [])
        (one_object c_array)
        ≡ throws_new c_array (codes "java/lang/ArrayStoreException") }
    ensures index_before_class { act c_below_d (StoreElement References)
        (Obj 0 ∷ Int (pos 1) ∷ Obj 0 ∷ [])
        (one_object c_array)
        ≡ throws_new c_array (codes "java/lang/ArrayIndexOutOfBoundsException") }
    ensures subclass_is_stored { act c_below_d (StoreElement References)
        (Obj 0 ∷ Int (pos 0) ∷ Obj 1 ∷ [])
        (two_objects (Array (codes "[LD;") (Null ∷ [])) (new_instance (codes "C")))
        ≡ Gave None (two_objects (Array (codes "[LD;") (Obj 1 ∷ [])) (new_instance (codes "C"))) }
    ensures superclass_is_not { act c_below_d (StoreElement References)
        (Obj 0 ∷ Int (pos 0) ∷ Obj 1 ∷ [])
        (two_objects c_array (new_instance (codes "D")))
        ≡ Threw (Obj 2) (three_objects c_array (new_instance (codes "D"))
        (new_instance (codes "java/lang/ArrayStoreException"))) }
    ensures array_is_stored { (classes : Classes) →
        act classes (StoreElement References) (Obj 0 ∷ Int (pos 0) ∷ Obj 1 ∷ [])
        (two_objects (Array (codes "[[B") (Null ∷ [])) bytes)
        ≡ Gave None (two_objects (Array (codes "[[B") (Obj 1 ∷ [])) bytes) }
    ensures no_references { (classes : Classes) →
        act classes (StoreElement References) (Obj 0 ∷ Int (pos 0) ∷ Obj 0 ∷ []) (one_object bytes)
        ≡ Gave None (one_object (Array (codes "[B") (Obj 0 ∷ []))) }
    ensures null_is_stored { act c_below_d (StoreElement References)
        (Obj 0 ∷ Int (pos 0) ∷ Null ∷ [])
        (one_object c_array)
        ≡ Gave None (one_object c_array) }
{}

/// New objects and arrays, and where they go (JVMS 6.5).
pub fn objects_are_made()
    ensures object { (classes : Classes) →
        act classes (New (codes "C")) [] (one_object bytes)
        ≡ Gave (Some (Obj 1)) (two_objects bytes (new_instance (codes "C"))) }
    ensures array { (classes : Classes) →
        act classes (NewArray ints 1) (Int (pos 2) ∷ []) (one_object bytes)
        ≡ Gave (Some (Obj 1))
        (two_objects bytes (Array (codes "[I") (Int (pos 0) ∷ Int (pos 0) ∷ []))) }
    ensures negative_size { (classes : Classes) →
        act classes (NewArray ints 1) (Int (negsuc 0) ∷ []) (one_object bytes)
        ≡ throws_new bytes (codes "java/lang/NegativeArraySizeException") }
    ensures any_negative { (classes : Classes) →
        act classes (NewArray (types.Array ints) 2) (Int (pos 0) ∷ Int (negsuc 0) ∷ [])
        (one_object bytes)
        ≡ throws_new bytes (codes "java/lang/NegativeArraySizeException") }
    ensures elements_first { (classes : Classes) →
        act classes (NewArray (types.Array ints) 2) (Int (pos 1) ∷ Int (pos 0) ∷ [])
        (one_object bytes)
        ≡ Gave (Some (Obj 2))
        (three_objects bytes (Array (codes "[I") []) (Array (codes "[[I") (Obj 1 ∷ []))) }
    ensures both_elements { (classes : Classes) →
        act classes (NewArray (types.Array ints) 2) (Int (pos 2) ∷ Int (pos 1) ∷ [])
        (one_object bytes)
        ≡ Gave (Some (Obj 3))
        (objects_alone (bytes ∷ array_of (codes "[I") (pos 0) ∷ array_of (codes "[I") (pos 0)
        ∷ Array (codes "[[I") (Obj 1 ∷ Obj 2 ∷ []) ∷ [])) }
    ensures no_elements { (classes : Classes) →
        act classes (NewArray (types.Array ints) 2) (Int (pos 0) ∷ Int (pos 3) ∷ [])
        (one_object bytes)
        ≡ Gave (Some (Obj 1)) (two_objects bytes (Array (codes "[[I") [])) }
    // Dimensions without a size are not made.
    ensures outer_dimensions { (classes : Classes) →
        act classes (NewArray (types.Array (types.Array ints)) 2) (Int (pos 1) ∷ Int (pos 1) ∷ [])
        (one_object bytes)
        ≡ Gave (Some (Obj 2)) (three_objects bytes (Array (codes "[[I") (Null ∷ []))
        (Array (codes "[[[I") (Obj 1 ∷ []))) }
    ensures longs { (classes : Classes) →
        act classes (NewArray (types.Array (Base types.Long)) 1) (Int (pos 1) ∷ [])
        (one_object bytes)
        ≡ Gave (Some (Obj 1)) (two_objects bytes (Array (codes "[J") (Long (pos 0) ∷ []))) }
    ensures references { (classes : Classes) →
        act classes (NewArray (types.Array (types.Object (codes "C"))) 1) (Int (pos 1) ∷ [])
        (one_object bytes)
        ≡ Gave (Some (Obj 1)) (two_objects bytes c_array) }
    ensures cast { act c_below_d (CheckCast (codes "D")) (Obj 0 ∷ [])
        (one_object (new_instance (codes "C")))
        ≡ Gave (Some (Obj 0)) (one_object (new_instance (codes "C"))) }
    ensures wrong_cast { act c_below_d (CheckCast (codes "C")) (Obj 0 ∷ [])
        (one_object (new_instance (codes "D")))
        ≡ throws_new (new_instance (codes "D")) (codes "java/lang/ClassCastException") }
    ensures null_cast { act c_below_d (CheckCast (codes "C")) (Null ∷ []) (one_object bytes)
        ≡ Gave (Some Null) (one_object bytes) }
    ensures constant_cast { (classes : Classes) →
        act classes (CheckCast (codes "java/lang/String")) (Const (Str []) ∷ []) (one_object bytes)
        ≡ Gave (Some (Const (Str []))) (one_object bytes) }
    ensures no_instance { act c_below_d (InstanceOf (codes "C")) (Obj 0 ∷ [])
        (one_object (new_instance (codes "D")))
        ≡ Gave (Some (Int (pos 0))) (one_object (new_instance (codes "D"))) }
    ensures instance { act c_below_d (InstanceOf (codes "D")) (Obj 0 ∷ [])
        (one_object (new_instance (codes "C")))
        ≡ Gave (Some (Int (pos 1))) (one_object (new_instance (codes "C"))) }
    ensures null_is_none { act c_below_d (InstanceOf (codes "D")) (Null ∷ []) (one_object bytes)
        ≡ Gave (Some (Int (pos 0))) (one_object bytes) }
    ensures by_zero { (classes : Classes) →
        act classes (Calculate (Binary IntWhole Divide)) (Int (pos 1) ∷ Int (pos 0) ∷ [])
        (one_object bytes)
        ≡ throws_new bytes (codes "java/lang/ArithmeticException") }
{}

/// Calls, float operations and monitors, and what they take of the answers (JVMS 6.5).
pub fn answers_are_taken()
    ensures call { (classes : Classes) (heap after : Heap) →
        act classes (call_of Static) arguments (before heap (value_answer (Int (pos 9)) after ∷ []))
        ≡ Gave (Some (Int (pos 9))) (seen (call_of Static) arguments heap after []) }
    ensures other_kind { (classes : Classes) (heap after : Heap) →
        act classes (call_of Static) arguments (before heap (value_answer (Flt 9) after ∷ []))
        ≡ Gave (Some (Int (pos 0))) (seen (call_of Static) arguments heap after []) }
    ensures throws { (classes : Classes) (heap after : Heap) →
        act classes (call_of Static) arguments (before heap (throw_answer (Obj 8) after ∷ []))
        ≡ Threw (Obj 8) (seen (call_of Static) arguments heap after []) }
    ensures throws_null { (classes : Classes) (heap : Heap) (fields : Fields) →
        act classes (call_of Static) arguments
        (before heap (throw_answer Null (no_objects fields) ∷ []))
        ≡ Threw (Obj 0) (seen (call_of Static) arguments heap (null_thrown fields) []) }
    ensures target { (classes : Classes) (heap after : Heap) →
        act classes (call_of Virtual) (Obj 1 ∷ arguments)
        (before heap (value_answer (Int (pos 9)) after ∷ []))
        ≡ Gave (Some (Int (pos 9))) (seen (call_of Virtual) (Obj 1 ∷ arguments) heap after []) }
    ensures other_operands { (classes : Classes) (heap after : Heap) →
        act classes (call_of Static) (Flt 3 ∷ Long (pos 4) ∷ [])
        (before heap (value_answer (Int (pos 9)) after ∷ []))
        ≡ Gave (Some (Int (pos 9)))
        (seen (call_of Static) (Int (pos 0) ∷ Long (pos 4) ∷ []) heap after []) }
    ensures waits { (classes : Classes) (heap : Heap) →
        act classes (call_of Static) arguments (before heap [])
        ≡ Waits (seen (call_of Static) arguments heap heap []) }
    ensures null_target { (classes : Classes) (fields : Fields) (answers : List Answer) →
        act classes (call_of Virtual) (Null ∷ arguments) (before (no_objects fields) answers)
        ≡ Threw (Obj 0) (before (null_thrown fields) answers) }
    ensures float { (classes : Classes) (heap after : Heap) →
        act classes float_sum (Flt 1 ∷ Flt 2 ∷ []) (before heap (value_answer (Flt 3) after ∷ []))
        ≡ Gave (Some (Flt 3)) (seen float_sum (Flt 1 ∷ Flt 2 ∷ []) heap heap []) }
    ensures float_first { (classes : Classes) (heap after : Heap) (answers : List Answer) →
        act classes float_sum (Flt 1 ∷ Flt 2 ∷ [])
        (before heap (value_answer (Flt 3) after ∷ value_answer (Flt 4) after ∷ answers))
        ≡ Gave (Some (Flt 3))
        (seen float_sum (Flt 1 ∷ Flt 2 ∷ []) heap heap (value_answer (Flt 4) after ∷ answers)) }
    ensures float_kind { (classes : Classes) (heap after : Heap) →
        act classes float_sum (Flt 1 ∷ Flt 2 ∷ []) (before heap (value_answer Null after ∷ []))
        ≡ Gave (Some (Flt 0)) (seen float_sum (Flt 1 ∷ Flt 2 ∷ []) heap heap []) }
    ensures float_thrown { (classes : Classes) (heap after : Heap) →
        act classes float_sum (Flt 1 ∷ Flt 2 ∷ []) (before heap (throw_answer (Obj 8) after ∷ []))
        ≡ Gave (Some (Flt 0)) (seen float_sum (Flt 1 ∷ Flt 2 ∷ []) heap heap []) }
    ensures float_throws_number { (classes : Classes) (heap after : Heap) →
        act classes float_sum (Flt 1 ∷ Flt 2 ∷ []) (before heap (throw_answer (Flt 3) after ∷ []))
        ≡ Gave (Some (Flt 0)) (seen float_sum (Flt 1 ∷ Flt 2 ∷ []) heap heap []) }
    ensures float_compares { (classes : Classes) (heap after : Heap) →
        act classes float_comparison (Flt 1 ∷ Flt 2 ∷ [])
        (before heap (value_answer (Int (negsuc 0)) after ∷ []))
        ≡ Gave (Some (Int (negsuc 0))) (seen float_comparison (Flt 1 ∷ Flt 2 ∷ []) heap heap []) }
    ensures float_waits { (classes : Classes) (heap : Heap) →
        act classes float_sum (Flt 1 ∷ Flt 2 ∷ []) (before heap [])
        ≡ Waits (seen float_sum (Flt 1 ∷ Flt 2 ∷ []) heap heap []) }
    ensures monitor { (classes : Classes) (heap : Heap) (answers : List Answer) →
        act classes MonitorEnter (Obj 2 ∷ []) (before heap answers)
        ≡ Gave None (seen MonitorEnter (Obj 2 ∷ []) heap heap answers) }
    ensures monitor_left { (classes : Classes) (heap : Heap) (answers : List Answer) →
        act classes MonitorExit (Obj 2 ∷ []) (before heap answers)
        ≡ Gave None (seen MonitorExit (Obj 2 ∷ []) heap heap answers) }
    ensures operand_kinds { (class name : List ℕ) →
        operands_of (PutField (record { class = class; name = name; type = Base types.Long }))
        ≡ ReferenceKind ∷ LongKind ∷ [] }
{}
