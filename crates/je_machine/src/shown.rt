//! Small cases of values, the stack, conditions, classes and runs, computed.

ghost use Rattle.std.specs.Prelude.{◌≡◌, ◌^◌, [], ◌∷◌, ℕ, ℤ, pos, negsuc, List, map, Some, None};
ghost use Rattle.std.specs.Prelude.{true, false, codes};
ghost use Rattle.je_consts.specs.declared.constant.MemberTag.{MemberTag};
ghost use Rattle.je_consts.specs.declared.constant.MemberTag.TheVariants.{Method, InterfaceMethod};
ghost use Rattle.je_machine.specs.Content.{Integer, Class, Str};
ghost use Rattle.je_machine.specs.Content.{MethodHandle, MethodType};
ghost use Rattle.je_machine.specs.Value.{IntKind, LongKind, FloatKind, DoubleKind, ReferenceKind};
ghost use Rattle.je_machine.specs.Value.{Value, Int, Long, Flt, Dbl, Null, Obj, Const, admit};
ghost use Rattle.je_machine.specs.Value.{admit_all};
ghost use Rattle.je_machine.specs.Heap.{FieldKey, Fields, Heap, Instance, Array, new_instance};
ghost use Rattle.je_machine.specs.Classes.{Classes, class_of_reference, is_subclass, holder_of};
ghost use Rattle.je_machine.specs.Classes.{is_instance, class_named};
ghost use Rattle.je_machine.specs.Calculation.{Binary, IntWhole, Subtract};
ghost use Rattle.je_machine.specs.Condition.{Zero, Ints, Same, IsNull, Equals, IsLess, IsGreater};
ghost use Rattle.je_machine.specs.Condition.{IsNotGreater, is_met};
ghost use Rattle.je_machine.specs.Action.{Calculate, Ints, Static};
ghost use Rattle.je_machine.specs.Outside.{Outside};
ghost use Rattle.je_machine.specs.Acting.{field_key};
ghost use Rattle.je_machine.specs.Operation.{Swap, Act};
ghost use Rattle.je_machine.specs.Frame.{Stands, copied, under_places, perform_basic, chosen_case};
ghost use Rattle.je_machine.specs.Frame.{frame_of};
ghost use Rattle.je_machine.specs.Step.{Returned, Thrown, Goes};
ghost use Rattle.je_machine.specs.Machine.{enter, covers, catcher, enter_handler, state_at, run_of};
ghost use Rattle.je_machine.specs.Sample.{ints, handle, int_field, long_field, met, no_objects};
ghost use Rattle.je_machine.specs.Sample.{c_below_d, before, seen, throw_answer, call_of, entry};
ghost use Rattle.je_machine.specs.Sample.{catching, caught, uncaught, counter, outcome};

/// The ranges of values, and what counts as zero (JVMS 2.3 and 2.4).
pub fn values_are_admitted()
    ensures reference { admit ReferenceKind (Int (pos 7)) ≡ Null }
    ensures greatest_int { admit IntKind (Int (pos 2147483647)) ≡ Int (pos 2147483647) }
    ensures least_int { admit IntKind (Int (negsuc 2147483647)) ≡ Int (negsuc 2147483647) }
    ensures above_ints { admit IntKind (Int (pos 2147483648)) ≡ Int (pos 0) }
    ensures below_ints { admit IntKind (Int (negsuc 2147483648)) ≡ Int (pos 0) }
    ensures greatest_long { admit LongKind (Long (pos 9223372036854775807))
        ≡ Long (pos 9223372036854775807) }
    ensures above_longs { admit LongKind (Long (pos 9223372036854775808)) ≡ Long (pos 0) }
    ensures least_long { admit LongKind (Long (negsuc 9223372036854775807))
        ≡ Long (negsuc 9223372036854775807) }
    ensures below_longs { admit LongKind (Long (negsuc 9223372036854775808)) ≡ Long (pos 0) }
    ensures int_for_long { admit LongKind (Int (pos 7)) ≡ Long (pos 0) }
    ensures null_for_double { admit DoubleKind Null ≡ Dbl 0 }
    ensures float_for_int { admit IntKind (Flt 5) ≡ Int (pos 0) }
    ensures float_bits { admit FloatKind (Flt (2 ^ 32)) ≡ Flt 0 }
    ensures greatest_float_bits { admit FloatKind (Flt 4294967295) ≡ Flt 4294967295 }
    ensures double_bits { admit DoubleKind (Dbl (2 ^ 64)) ≡ Dbl 0 }
    ensures greatest_double_bits { admit DoubleKind (Dbl 18446744073709551615)
        ≡ Dbl 18446744073709551615 }
    ensures object { (number : ℕ) → admit ReferenceKind (Obj number) ≡ Obj number }
    ensures string { (t : List ℕ) → admit ReferenceKind (Const (Str t)) ≡ Const (Str t) }
    ensures method_type { (t : List ℕ) →
        admit ReferenceKind (Const (MethodType t))
        ≡ Const (MethodType t) }
    ensures no_reference { (n : ℤ) → admit ReferenceKind (Const (Integer n)) ≡ Null }
    ensures missing { admit_all (IntKind ∷ ReferenceKind ∷ []) (Int (pos 4) ∷ [])
        ≡ Int (pos 4) ∷ Null ∷ [] }
    ensures too_many { admit_all (IntKind ∷ []) (Int (pos 4) ∷ Int (pos 5) ∷ [])
        ≡ Int (pos 4) ∷ [] }
{}

/// All forms of dup, pop2 and swap (JVMS 6.5).
pub fn values_are_copied()
    ensures dup { (a b c d : ℤ) (x y : ℕ) (s : List Value) →
        copied 1 0 (Int a ∷ s)
        ≡ Int a ∷ Int a ∷ s }
    ensures dup_x1 { (a b c d : ℤ) (x y : ℕ) (s : List Value) →
        copied 1 1 (Int a ∷ Int b ∷ s)
        ≡ Int a ∷ Int b ∷ Int a ∷ s }
    ensures dup_x2 { (a b c d : ℤ) (x y : ℕ) (s : List Value) →
        copied 1 2 (Int a ∷ Int b ∷ Int c ∷ s)
        ≡ Int a ∷ Int b ∷ Int c ∷ Int a ∷ s }
    ensures dup_x2_long { (a b c d : ℤ) (x y : ℕ) (s : List Value) →
        copied 1 2 (Int a ∷ Long b ∷ s)
        ≡ Int a ∷ Long b ∷ Int a ∷ s }
    ensures dup2 { (a b c d : ℤ) (x y : ℕ) (s : List Value) →
        copied 2 0 (Int a ∷ Int b ∷ s)
        ≡ Int a ∷ Int b ∷ Int a ∷ Int b ∷ s }
    ensures dup2_double { (a b c d : ℤ) (x y : ℕ) (s : List Value) →
        copied 2 0 (Dbl x ∷ s)
        ≡ Dbl x ∷ Dbl x ∷ s }
    ensures dup2_x1 { (a b c d : ℤ) (x y : ℕ) (s : List Value) →
        copied 2 1 (Int a ∷ Int b ∷ Int c ∷ s)
        ≡ Int a ∷ Int b ∷ Int c ∷ Int a ∷ Int b ∷ s }
    ensures dup2_x1_long { (a b c d : ℤ) (x y : ℕ) (s : List Value) →
        copied 2 1 (Long a ∷ Int b ∷ s)
        ≡ Long a ∷ Int b ∷ Long a ∷ s }
    ensures dup2_x2 { (a b c d : ℤ) (x y : ℕ) (s : List Value) →
        copied 2 2 (Int a ∷ Int b ∷ Int c ∷ Int d ∷ s)
        ≡ Int a ∷ Int b ∷ Int c ∷ Int d ∷ Int a ∷ Int b ∷ s }
    ensures dup2_x2_long { (a b c d : ℤ) (x y : ℕ) (s : List Value) →
        copied 2 2 (Long a ∷ Int b ∷ Int c ∷ s)
        ≡ Long a ∷ Int b ∷ Int c ∷ Long a ∷ s }
    ensures dup2_x2_under { (a b c d : ℤ) (x y : ℕ) (s : List Value) →
        copied 2 2 (Int a ∷ Int b ∷ Dbl x ∷ s)
        ≡ Int a ∷ Int b ∷ Dbl x ∷ Int a ∷ Int b ∷ s }
    ensures dup2_x2_both { (a b c d : ℤ) (x y : ℕ) (s : List Value) →
        copied 2 2 (Long a ∷ Dbl y ∷ s)
        ≡ Long a ∷ Dbl y ∷ Long a ∷ s }
    ensures pop2 { (a b c d : ℤ) (x y : ℕ) (s : List Value) →
        under_places 2 (Int a ∷ Int b ∷ s)
        ≡ s }
    ensures pop2_long { (a b c d : ℤ) (x y : ℕ) (s : List Value) → under_places 2 (Long a ∷ s) ≡ s }
    ensures swap { (classes : Classes) (u v : Value) (s : List Value) (o : Outside) →
        perform_basic classes Swap (u ∷ v ∷ s) o
        ≡ Stands (v ∷ u ∷ s) o }
    ensures operands { (classes : Classes) (s : List Value) (o : Outside) →
        perform_basic classes (Act (Calculate (Binary IntWhole Subtract)))
        (Int (pos 3) ∷ Int (pos 10) ∷ s) o
        ≡ Stands (Int (pos 7) ∷ s) o }
{}

/// Conditions on signs, on two ints and on references (JVMS 6.5).
pub fn conditions_are_met()
    ensures zero { is_met (Zero Equals) (Int (pos 0) ∷ []) ≡ true }
    ensures negative { is_met (Zero IsLess) (Int (negsuc 0) ∷ []) ≡ true }
    ensures not_negative { is_met (Zero IsLess) (Int (pos 0) ∷ []) ≡ false }
    ensures positive { is_met (Zero IsGreater) (Int (pos 1) ∷ []) ≡ true }
    ensures zero_is_not { is_met (Zero IsNotGreater) (Int (pos 0) ∷ []) ≡ true }
    ensures order { is_met (Ints IsLess) (Int (pos 1) ∷ Int (pos 2) ∷ []) ≡ true }
    ensures other_order { is_met (Ints IsLess) (Int (pos 2) ∷ Int (pos 1) ∷ []) ≡ false }
    // each of =, ≠, <, ≥, > and ≤, where the first is less, where it is equal, and where it is
    // greater
    ensures less { met (λ c. Ints c) (Int (negsuc 0) ∷ Int (pos 2) ∷ [])
        ≡ false ∷ true ∷ true ∷ false ∷ false ∷ true ∷ [] }
    ensures equal { met (λ c. Ints c) (Int (negsuc 0) ∷ Int (negsuc 0) ∷ [])
        ≡ true ∷ false ∷ false ∷ true ∷ false ∷ true ∷ [] }
    ensures greater { met (λ c. Ints c) (Int (pos 2) ∷ Int (negsuc 0) ∷ [])
        ≡ false ∷ true ∷ false ∷ true ∷ true ∷ false ∷ [] }
    ensures below_zero { met (λ c. Zero c) (Int (negsuc 0) ∷ [])
        ≡ false ∷ true ∷ true ∷ false ∷ false ∷ true ∷ [] }
    ensures at_zero { met (λ c. Zero c) (Int (pos 0) ∷ [])
        ≡ true ∷ false ∷ false ∷ true ∷ false ∷ true ∷ [] }
    ensures above_zero { met (λ c. Zero c) (Int (pos 3) ∷ [])
        ≡ false ∷ true ∷ false ∷ true ∷ true ∷ false ∷ [] }
    ensures null { is_met (IsNull true) (Null ∷ []) ≡ true }
    ensures not_null { is_met (IsNull true) (Obj 0 ∷ []) ≡ false }
    ensures one_object { is_met (Same true) (Obj 1 ∷ Obj 1 ∷ []) ≡ true }
    ensures two_nulls { is_met (Same true) (Null ∷ Null ∷ []) ≡ true }
    ensures null_and_object { is_met (Same true) (Null ∷ Obj 0 ∷ []) ≡ false }
    ensures object_and_constant { is_met (Same true) (Obj 0 ∷ Const (Str []) ∷ []) ≡ false }
    ensures objects { is_met (Same true) (Obj 1 ∷ Obj 2 ∷ []) ≡ false }
    ensures other_objects { is_met (Same false) (Obj 1 ∷ Obj 2 ∷ []) ≡ true }
    ensures one_constant { is_met (Same true)
        (Const (Str (codes "a")) ∷ Const (Str (codes "a")) ∷ [])
        ≡ true }
    ensures two_constants { is_met (Same true)
        (Const (Str (codes "a")) ∷ Const (Class (codes "a")) ∷ [])
        ≡ false }
    ensures other_content { is_met (Same true)
        (Const (Str (codes "a")) ∷ Const (Str (codes "b")) ∷ [])
        ≡ false }
    ensures class_and_type { is_met (Same true)
        (Const (Class (codes "a")) ∷ Const (MethodType (codes "a")) ∷ [])
        ≡ false }
    ensures other_class { is_met (Same true)
        (Const (Class (codes "a")) ∷ Const (Class (codes "b")) ∷ [])
        ≡ false }
    ensures other_type { is_met (Same true)
        (Const (MethodType (codes "()V")) ∷ Const (MethodType (codes "()I")) ∷ [])
        ≡ false }
    ensures one_type { is_met (Same true)
        (Const (MethodType (codes "()V")) ∷ Const (MethodType (codes "()V")) ∷ [])
        ≡ true }
    // a method handle, and those that differ from it in one part
    ensures handles { map (λ h. is_met (Same true)
        (handle 5 Method (codes "C") (codes "m") (codes "()V") ∷ h ∷ []))
        (handle 5 Method (codes "C") (codes "m") (codes "()V")
        ∷ handle 6 Method (codes "C") (codes "m") (codes "()V")
        ∷ handle 5 InterfaceMethod (codes "C") (codes "m") (codes "()V")
        ∷ handle 5 Method (codes "D") (codes "m") (codes "()V")
        ∷ handle 5 Method (codes "C") (codes "n") (codes "()V")
        ∷ handle 5 Method (codes "C") (codes "m") (codes "()I") ∷ [])
        ≡ true ∷ false ∷ false ∷ false ∷ false ∷ false ∷ [] }
    ensures first_case { chosen_case ((negsuc 1, 7) ∷ (pos 0, 8) ∷ []) 9 (negsuc 1) ≡ 7 }
    ensures second_case { chosen_case ((negsuc 1, 7) ∷ (pos 0, 8) ∷ []) 9 (pos 0) ≡ 8 }
    ensures no_case { chosen_case ((negsuc 1, 7) ∷ (pos 0, 8) ∷ []) 9 (negsuc 0) ≡ 9 }
{}

/// Of what class a reference is, and who holds a field (JVMS 5.4.3.2 and 6.5).
pub fn classes_are_known()
    ensures missing { (statics : Fields) →
        class_of_reference (no_objects statics) (Obj 0)
        ≡ Some (codes "java/lang/Object") }
    ensures class { (heap : Heap) (t : List ℕ) →
        class_of_reference heap (Const (Class t))
        ≡ Some (codes "java/lang/Class") }
    ensures string { (heap : Heap) (t : List ℕ) →
        class_of_reference heap (Const (Str t))
        ≡ Some (codes "java/lang/String") }
    ensures handle { (heap : Heap) (k : ℕ) (tag : MemberTag) (c n d : List ℕ) →
        class_of_reference heap (Const (MethodHandle k tag c n d))
        ≡ Some (codes "java/lang/invoke/MethodHandle") }
    ensures method_type { (heap : Heap) (t : List ℕ) →
        class_of_reference heap (Const (MethodType t))
        ≡ Some (codes "java/lang/invoke/MethodType") }
    ensures below { is_subclass c_below_d (codes "C") (codes "D") ≡ true }
    ensures not_above { is_subclass c_below_d (codes "D") (codes "C") ≡ false }
    ensures not_chained { (holders : List (FieldKey × List ℕ)) →
        is_subclass (record {
          below = (codes "C", codes "D") ∷ (codes "D", codes "E") ∷ [];
          holders = holders;
        }) (codes "C") (codes "E")
        ≡ false }
    ensures all_are_objects { is_subclass c_below_d (codes "[I") (codes "java/lang/Object") ≡ true }
    ensures first_holder { holder_of c_below_d (codes "C", codes "f", codes "I") ≡ codes "D" }
    ensures other_descriptor { holder_of c_below_d (codes "C", codes "f", codes "J") ≡ codes "C" }
    ensures object { (fields others : Fields) →
        class_of_reference (record {
          objects = Instance (codes "C") fields ∷ Array (codes "[I") [] ∷ [];
          statics = others;
        }) (Obj 0)
        ≡ Some (codes "C") }
    ensures array { (fields others : Fields) →
        class_of_reference (record {
          objects = Instance (codes "C") fields ∷ Array (codes "[I") [] ∷ [];
          statics = others;
        }) (Obj 1)
        ≡ Some (codes "[I") }
    ensures equal_names { is_subclass c_below_d (codes "E") (codes "E") ≡ true }
    ensures not_listed { is_subclass c_below_d (codes "[I") (codes "java/lang/Cloneable") ≡ false }
    ensures key { field_key c_below_d int_field ≡ (codes "D", codes "f", codes "I") }
    ensures other_key { field_key c_below_d long_field ≡ (codes "C", codes "g", codes "J") }
    ensures component { class_named (codes "LC;") ≡ Some (codes "C") }
    ensures array_component { class_named (codes "[I") ≡ Some (codes "[I") }
    ensures no_class { class_named (codes "I") ≡ None }
    ensures instance_of_null { (heap : Heap) →
        is_instance c_below_d heap Null (codes "java/lang/Object")
        ≡ false }
{}

/// What whole runs come to: entering a method, throws and their handlers, and the end (JVMS 2.6
/// and 2.10).
pub fn runs_are_shown()
    ensures two_places { enter (LongKind ∷ ReferenceKind ∷ []) (Flt 1 ∷ Obj 5 ∷ Obj 6 ∷ [])
        ≡ Long (pos 0) ∷ Int (pos 0) ∷ Obj 5 ∷ [] }
    ensures no_argument { enter (DoubleKind ∷ ReferenceKind ∷ []) []
        ≡ Dbl 0 ∷ Int (pos 0) ∷ Null ∷ [] }
    ensures at_handler { (left : ℕ) (v : Value) (locals : List Value) (o : Outside) →
        enter_handler (Some 6) left v locals o
        ≡ Goes left (state_at 6 (frame_of (v ∷ []) locals) o) }
    ensures at_start { covers 3 (entry 3 5 9) ≡ true }
    ensures before_start { covers 2 (entry 3 5 9) ≡ false }
    ensures last_place { covers 4 (entry 3 5 9) ≡ true }
    ensures at_end { covers 5 (entry 3 5 9) ≡ false }
    ensures first_fits { (heap : Heap) →
        catcher (entry 0 9 1 ∷ entry 0 9 2 ∷ []) c_below_d 4 heap (Obj 0)
        ≡ Some 1 }
    ensures class_fits { (fields : Fields) →
        catcher (catching (codes "C") 1 ∷ catching (codes "D") 2 ∷ []) c_below_d 0
        (record { objects = new_instance (codes "D") ∷ []; statics = fields }) (Obj 0)
        ≡ Some 2 }
    ensures none_fits { (heap : Heap) →
        catcher (catching (codes "C") 1 ∷ entry 1 9 2 ∷ []) c_below_d 0 heap Null ≡ None }
    ensures handled { (heap : Heap) →
        run_of caught c_below_d (Int (pos 6) ∷ []) heap (throw_answer (Obj 8) heap ∷ []) 6
        ≡ outcome (Some (Returned (Some (Obj 8)))) 0 (Int (pos 6) ∷ Int (pos 4) ∷ [])
        (seen (call_of Static) (Int (pos 6) ∷ Long (pos 0) ∷ []) heap heap []) }
    ensures uncaught { (heap : Heap) →
        run_of (uncaught) c_below_d (Int (pos 6) ∷ []) heap [] 9
        ≡ outcome (Some (Thrown (Const (Str (codes "s"))))) 7 (Int (pos 6) ∷ []) (before heap []) }
    // an answer does not come at any bound
    ensures waiting { (heap : Heap) →
        run_of caught c_below_d (Int (pos 6) ∷ []) heap [] 9
        ≡ outcome None 4 (Int (pos 6) ∷ Int (pos 4) ∷ [])
        (seen (call_of Static) (Int (pos 6) ∷ Long (pos 0) ∷ []) heap heap []) }
    ensures past_the_code { (heap : Heap) →
        run_of (record { parameters = []; operations = []; handlers = [] }) c_below_d [] heap [] 3
        ≡ outcome None 2 [] (before heap []) }
    ensures counted { (heap : Heap) →
        run_of counter c_below_d [] heap [] 4
        ≡ outcome None 0 (Int (pos 2) ∷ []) (before heap []) }
{}
