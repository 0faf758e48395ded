//! Small cases of single instructions, computed, and the kinds of operands and results.

ghost use Rattle.std.specs.Prelude.{◌≡◌, [], ◌∷◌, ℕ, ℤ, pos, negsuc, List, map, Some, None, true};
ghost use Rattle.std.specs.Prelude.{false, codes};
ghost use Rattle.je_desc.specs.FieldType.{Base};
ghost use Rattle.je_desc.specs.FieldType as types;
ghost use Rattle.je_machine.specs.Value.{IntKind, LongKind, FloatKind, DoubleKind, ReferenceKind};
ghost use Rattle.je_machine.specs.Value.{Value, Int, Long, Null, Obj, kind_of};
ghost use Rattle.je_machine.specs.Heap.{Fields, Heap};
ghost use Rattle.je_machine.specs.Classes.{Classes};
ghost use Rattle.je_machine.specs.Calculation.{Binary, Shift, Negate, Extend, Truncate, Keep};
ghost use Rattle.je_machine.specs.Calculation.{CompareLongs, IntWhole, LongWhole, Add, ShiftLeft};
ghost use Rattle.je_machine.specs.Calculation.{BytePart, calculation_operands, calculation_result};
ghost use Rattle.je_machine.specs.Condition.{Zero, Equals, IsLess, IsNull};
ghost use Rattle.je_machine.specs.Condition as condition;
ghost use Rattle.je_machine.specs.Action.{Calculate, ArrayLength, LoadElement, StoreElement};
ghost use Rattle.je_machine.specs.Action.{GetField, PutField, GetStatic, PutStatic, New};
ghost use Rattle.je_machine.specs.Action.{NewArray, CheckCast, InstanceOf, MonitorEnter};
ghost use Rattle.je_machine.specs.Action.{MonitorExit, Bytes, Chars, Shorts, Ints, Longs, Floats};
ghost use Rattle.je_machine.specs.Action.{Doubles, References, Virtual, Special, Static, Interface};
ghost use Rattle.je_machine.specs.Action.{Dynamic, operands_of, result_of, has_target};
ghost use Rattle.je_machine.specs.Outside.{Outside};
ghost use Rattle.je_machine.specs.Operation.{Nop, Push, Drop, Copy, Act, Throw, Do, Load};
ghost use Rattle.je_machine.specs.Operation.{Store, Increment, Branch, Goto, Switch, Return};
ghost use Rattle.je_machine.specs.Frame.{Falls, Jumps, Leaves, Raises, Halts, frame_of, perform};
ghost use Rattle.je_machine.specs.Sample.{ints, no_objects, null_thrown, before, seen};
ghost use Rattle.je_machine.specs.Sample.{value_answer, throw_answer, call_of, call_without_result};
ghost use Rattle.je_machine.specs.Sample.{float_comparison, long_field};

/// Local variables are read and written by their slots (JVMS 6.5, iload to aload, istore to astore
/// and iinc).
pub fn locals_are_used()
    ensures loaded { (classes : Classes) (u v : Value) (s : List Value) (o : Outside) →
        perform classes (Load ReferenceKind 1) (frame_of s (u ∷ v ∷ [])) o
        ≡ Falls (frame_of (v ∷ s) (u ∷ v ∷ [])) o }
    ensures never_written { (classes : Classes) (u : Value) (s : List Value) (o : Outside) →
        perform classes (Load ReferenceKind 1) (frame_of s (u ∷ [])) o
        ≡ Falls (frame_of (Int (pos 0) ∷ s) (u ∷ [])) o }
    // One slot is written, and the one behind it is left.
    ensures stored { (classes : Classes) (u v w x : Value) (s : List Value) (o : Outside) →
        perform classes (Store LongKind 1) (frame_of (x ∷ s) (u ∷ v ∷ w ∷ [])) o
        ≡ Falls (frame_of s (u ∷ x ∷ w ∷ [])) o }
    ensures stored_behind { (classes : Classes) (u v : Value) (s : List Value) (o : Outside) →
        perform classes (Store IntKind 2) (frame_of (v ∷ s) (u ∷ [])) o
        ≡ Falls (frame_of s (u ∷ Int (pos 0) ∷ v ∷ [])) o }
    ensures incremented { (classes : Classes) (u : Value) (s : List Value) (o : Outside) →
        perform classes (Increment 1 (negsuc 9)) (frame_of s (u ∷ Int (pos 7) ∷ [])) o
        ≡ Falls (frame_of s (u ∷ Int (negsuc 2) ∷ [])) o }
    ensures increment_wraps { (classes : Classes) (s : List Value) (o : Outside) →
        perform classes (Increment 0 (pos 1)) (frame_of s (Int (pos 2147483647) ∷ [])) o
        ≡ Falls (frame_of s (Int (negsuc 2147483647) ∷ [])) o }
    ensures no_int_incremented { (classes : Classes) (s : List Value) (o : Outside) →
        perform classes (Increment 0 (pos 5)) (frame_of s (Long (pos 3) ∷ [])) o
        ≡ Falls (frame_of s (Int (pos 5) ∷ [])) o }
{}

/// Where jumps and returns lead, and what they leave on the stack (JVMS 6.5).
pub fn jumps_are_taken()
    ensures met { (classes : Classes) (s l : List Value) (o : Outside) →
        perform classes (Branch (Zero Equals) 9) (frame_of (Int (pos 0) ∷ s) l) o
        ≡ Jumps 9 (frame_of s l) o }
    ensures not_met { (classes : Classes) (s l : List Value) (o : Outside) →
        perform classes (Branch (Zero Equals) 9) (frame_of (Int (pos 1) ∷ s) l) o
        ≡ Falls (frame_of s l) o }
    // The deepest is the first.
    ensures of_two { (classes : Classes) (s l : List Value) (o : Outside) →
        perform classes (Branch (condition.Ints IsLess) 9)
        (frame_of (Int (pos 2) ∷ Int (pos 1) ∷ s) l) o
        ≡ Jumps 9 (frame_of s l) o }
    ensures of_reference { (classes : Classes) (s l : List Value) (o : Outside) →
        perform classes (Branch (IsNull false) 9) (frame_of (Null ∷ s) l) o
        ≡ Falls (frame_of s l) o }
    ensures goes { (classes : Classes) (s l : List Value) (o : Outside) →
        perform classes (Goto 9) (frame_of s l) o ≡ Jumps 9 (frame_of s l) o }
    ensures switched { (classes : Classes) (s l : List Value) (o : Outside) →
        perform classes (Switch ((negsuc 1, 7) ∷ (pos 4, 8) ∷ []) 9)
        (frame_of (Int (pos 4) ∷ s) l) o
        ≡ Jumps 8 (frame_of s l) o }
    ensures defaulted { (classes : Classes) (s l : List Value) (o : Outside) →
        perform classes (Switch ((negsuc 1, 7) ∷ (pos 4, 8) ∷ []) 9)
        (frame_of (Int (pos 5) ∷ s) l) o
        ≡ Jumps 9 (frame_of s l) o }
    ensures leaves { (classes : Classes) (s l : List Value) (o : Outside) →
        perform classes (Return None) (frame_of s l) o ≡ Leaves None o }
    // The value is returned as it is.
    ensures leaves_with { (classes : Classes) (v : Value) (s l : List Value) (o : Outside) →
        perform classes (Return (Some LongKind)) (frame_of (v ∷ s) l) o ≡ Leaves (Some v) o }
    // There is null on an empty stack.
    ensures leaves_with_null { (classes : Classes) (l : List Value) (o : Outside) →
        perform classes (Return (Some LongKind)) (frame_of [] l) o ≡ Leaves (Some Null) o }
{}

/// What instructions that work on the stack leave on it, and when they throw or wait (JVMS 6.5).
pub fn stacks_are_used()
    ensures nothing { (classes : Classes) (s l : List Value) (o : Outside) →
        perform classes (Do Nop) (frame_of s l) o ≡ Falls (frame_of s l) o }
    ensures pushed { (classes : Classes) (v : Value) (s l : List Value) (o : Outside) →
        perform classes (Do (Push v)) (frame_of s l) o ≡ Falls (frame_of (v ∷ s) l) o }
    ensures dropped { (classes : Classes) (a : ℤ) (s l : List Value) (o : Outside) →
        perform classes (Do (Drop 1)) (frame_of (Int a ∷ s) l) o ≡ Falls (frame_of s l) o }
    ensures copied { (classes : Classes) (a b : ℤ) (s l : List Value) (o : Outside) →
        perform classes (Do (Copy 1 1)) (frame_of (Int a ∷ Int b ∷ s) l) o
        ≡ Falls (frame_of (Int a ∷ Int b ∷ Int a ∷ s) l) o }
    ensures thrown { (classes : Classes) (k : ℕ) (s l : List Value) (o : Outside) →
        perform classes (Do Throw) (frame_of (Obj k ∷ s) l) o ≡ Raises (Obj k) o }
    ensures null_thrown { (classes : Classes) (fields : Fields) (s l : List Value) →
        perform classes (Do Throw) (frame_of (Null ∷ s) l) (before (no_objects fields) [])
        ≡ Raises (Obj 0) (before (null_thrown fields) []) }
    // Operands are taken, the deepest first, and a result is pushed.
    ensures called { (classes : Classes) (heap after : Heap) (s l : List Value) →
        perform classes (Do (Act (call_of Static)))
        (frame_of (Long (pos 4) ∷ Int (pos 3) ∷ s) l)
        (before heap (value_answer (Int (pos 9)) after ∷ []))
        ≡ Falls (frame_of (Int (pos 9) ∷ s) l)
        (seen (call_of Static) (Int (pos 3) ∷ Long (pos 4) ∷ []) heap after []) }
    ensures no_result { (classes : Classes) (heap after : Heap) (s l : List Value) →
        perform classes (Do (Act call_without_result)) (frame_of (Null ∷ s) l)
        (before heap (value_answer (Int (pos 9)) after ∷ []))
        ≡ Falls (frame_of s l) (seen call_without_result (Null ∷ []) heap after []) }
    ensures call_throws { (classes : Classes) (heap after : Heap) (s l : List Value) →
        perform classes (Do (Act call_without_result)) (frame_of (Null ∷ s) l)
        (before heap (throw_answer (Obj 8) after ∷ []))
        ≡ Raises (Obj 8) (seen call_without_result (Null ∷ []) heap after []) }
    ensures call_waits { (classes : Classes) (heap : Heap) (s l : List Value) →
        perform classes (Do (Act call_without_result)) (frame_of (Null ∷ s) l) (before heap [])
        ≡ Halts (seen call_without_result (Null ∷ []) heap heap []) }
{}

/// The kinds of the operands and results of each action (JVMS 6.5).
pub fn kinds_are_known()
    ensures types { map kind_of (Base types.Boolean ∷ Base types.Byte ∷ Base types.Char
        ∷ Base types.Short ∷ Base types.Int ∷ Base types.Long ∷ Base types.Float
        ∷ Base types.Double ∷ types.Object (codes "C") ∷ ints ∷ [])
        ≡ IntKind ∷ IntKind ∷ IntKind ∷ IntKind ∷ IntKind ∷ LongKind ∷ FloatKind ∷ DoubleKind
        ∷ ReferenceKind ∷ ReferenceKind ∷ [] }
    ensures calculated { map calculation_operands (Binary LongWhole Add ∷ Shift IntWhole ShiftLeft
        ∷ Shift LongWhole ShiftLeft ∷ Negate LongWhole ∷ Extend ∷ Truncate ∷ Keep BytePart
        ∷ CompareLongs ∷ [])
        ≡ (LongKind ∷ LongKind ∷ []) ∷ (IntKind ∷ IntKind ∷ []) ∷ (LongKind ∷ IntKind ∷ [])
        ∷ (LongKind ∷ []) ∷ (IntKind ∷ []) ∷ (LongKind ∷ []) ∷ (IntKind ∷ [])
        ∷ (LongKind ∷ LongKind ∷ []) ∷ [] }
    ensures calculated_results { map calculation_result (Binary LongWhole Add
        ∷ Shift LongWhole ShiftLeft ∷ Negate LongWhole ∷ Extend ∷ Truncate ∷ Keep BytePart
        ∷ CompareLongs ∷ [])
        ≡ LongKind ∷ LongKind ∷ LongKind ∷ LongKind ∷ IntKind ∷ IntKind ∷ IntKind ∷ [] }
    ensures loaded { map (λ e. result_of (LoadElement e)) (Bytes ∷ Chars ∷ Shorts ∷ Ints ∷ Longs
        ∷ Floats ∷ Doubles ∷ References ∷ [])
        ≡ Some IntKind ∷ Some IntKind ∷ Some IntKind ∷ Some IntKind ∷ Some LongKind
        ∷ Some FloatKind ∷ Some DoubleKind ∷ Some ReferenceKind ∷ [] }
    ensures operands { map operands_of (Calculate Extend
        ∷ float_comparison ∷ ArrayLength
        ∷ LoadElement Longs ∷ StoreElement Longs ∷ GetField long_field ∷ PutField long_field
        ∷ GetStatic long_field ∷ PutStatic long_field ∷ New (codes "C") ∷ NewArray ints 1
        ∷ CheckCast (codes "C") ∷ InstanceOf (codes "C") ∷ MonitorEnter ∷ MonitorExit ∷ [])
        ≡ (IntKind ∷ []) ∷ (FloatKind ∷ FloatKind ∷ []) ∷ (ReferenceKind ∷ [])
        ∷ (ReferenceKind ∷ IntKind ∷ []) ∷ (ReferenceKind ∷ IntKind ∷ LongKind ∷ [])
        ∷ (ReferenceKind ∷ []) ∷ (ReferenceKind ∷ LongKind ∷ [])
        ∷ [] ∷ (LongKind ∷ []) ∷ [] ∷ (IntKind ∷ [])
        ∷ (ReferenceKind ∷ []) ∷ (ReferenceKind ∷ []) ∷ (ReferenceKind ∷ [])
        ∷ (ReferenceKind ∷ []) ∷ [] }
    ensures sizes { operands_of (NewArray (types.Array ints) 2) ≡ IntKind ∷ IntKind ∷ [] }
    ensures called { map (λ sort. operands_of (call_of sort)) (Virtual ∷ Special ∷ Static
        ∷ Interface ∷ Dynamic ∷ [])
        ≡ (ReferenceKind ∷ IntKind ∷ LongKind ∷ []) ∷ (ReferenceKind ∷ IntKind ∷ LongKind ∷ [])
        ∷ (IntKind ∷ LongKind ∷ []) ∷ (ReferenceKind ∷ IntKind ∷ LongKind ∷ [])
        ∷ (IntKind ∷ LongKind ∷ []) ∷ [] }
    ensures results { map result_of (Calculate Extend
        ∷ float_comparison ∷ ArrayLength
        ∷ StoreElement Longs ∷ GetField long_field ∷ PutField long_field
        ∷ GetStatic long_field ∷ PutStatic long_field ∷ call_of Static ∷ call_without_result
        ∷ New (codes "C") ∷ NewArray ints 1 ∷ CheckCast (codes "C") ∷ InstanceOf (codes "C")
        ∷ MonitorEnter ∷ MonitorExit ∷ [])
        ≡ Some LongKind ∷ Some IntKind ∷ Some IntKind ∷ None ∷ Some LongKind ∷ None
        ∷ Some LongKind ∷ None ∷ Some IntKind ∷ None ∷ Some ReferenceKind ∷ Some ReferenceKind
        ∷ Some ReferenceKind ∷ Some IntKind ∷ None ∷ None ∷ [] }
    ensures targets { map has_target (ArrayLength ∷ LoadElement Ints ∷ StoreElement Ints
        ∷ GetField long_field ∷ PutField long_field ∷ call_of Virtual ∷ call_of Special
        ∷ call_of Interface ∷ MonitorEnter ∷ MonitorExit ∷ [])
        ≡ true ∷ true ∷ true ∷ true ∷ true ∷ true ∷ true ∷ true ∷ true ∷ true ∷ [] }
    ensures no_targets { map has_target (Calculate Extend
        ∷ float_comparison ∷ GetStatic long_field
        ∷ PutStatic long_field ∷ call_of Static ∷ call_of Dynamic ∷ New (codes "C")
        ∷ NewArray ints 1 ∷ CheckCast (codes "C") ∷ InstanceOf (codes "C") ∷ [])
        ≡ false ∷ false ∷ false ∷ false ∷ false ∷ false ∷ false ∷ false ∷ false ∷ false ∷ [] }
{}
