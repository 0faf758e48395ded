//! Arithmetic, computed at the edges.

ghost use Rattle.std.specs.Prelude.{◌≡◌, List, [], ◌∷◌, pos, negsuc, Some, None, IfSome, IsTrue};
ghost use Rattle.je_machine.specs.Value.{Value, Int, Long, is_of_kind};
ghost use Rattle.je_machine.specs.Calculation.{Calculation, Binary, Shift, Negate, Extend};
ghost use Rattle.je_machine.specs.Calculation.{Truncate, Keep, CompareLongs, IntWhole, LongWhole};
ghost use Rattle.je_machine.specs.Calculation.{Add, Subtract, Multiply, Divide, Remainder, And, Or};
ghost use Rattle.je_machine.specs.Calculation.{Xor, ShiftLeft, ShiftRight, ShiftRightUnsigned};
ghost use Rattle.je_machine.specs.Calculation.{BytePart, CharPart, ShortPart, calculation_operands};
ghost use Rattle.je_machine.specs.Calculation.{calculation_result, calculate};
ghost use Rattle.je_machine.specs.Acts.{are_of_kinds};

/// What is computed of operands of the right kinds, within the ranges of their types, is of the
/// right kind (JVMS 2.11.3 and 2.11.4).
pub fn results_keep_kinds()
    ensures { (calculation : Calculation) (operands : List Value) →
        IsTrue (are_of_kinds (calculation_operands calculation) operands)
        → IfSome (calculate calculation operands)
        (λ v. IsTrue (is_of_kind (calculation_result calculation) v)) }
{}

/// What instructions on ints compute at the edges (JVMS 6.5).
pub fn ints_are_computed()
    ensures sum_wraps { calculate (Binary IntWhole Add) (Int (pos 2147483647) ∷ Int (pos 1) ∷ [])
        ≡ Some (Int (negsuc 2147483647)) }
    ensures difference { calculate (Binary IntWhole Subtract) (Int (pos 3) ∷ Int (pos 10) ∷ [])
        ≡ Some (Int (negsuc 6)) }
    ensures product_wraps { calculate (Binary IntWhole Multiply)
        (Int (pos 65536) ∷ Int (pos 65537) ∷ [])
        ≡ Some (Int (pos 65536)) }
    ensures quotient { calculate (Binary IntWhole Divide) (Int (negsuc 6) ∷ Int (pos 2) ∷ [])
        ≡ Some (Int (negsuc 2)) }
    ensures quotient_by_negative { calculate (Binary IntWhole Divide)
        (Int (pos 7) ∷ Int (negsuc 1) ∷ [])
        ≡ Some (Int (negsuc 2)) }
    ensures least_by_minus_one { calculate (Binary IntWhole Divide)
        (Int (negsuc 2147483647) ∷ Int (negsuc 0) ∷ [])
        ≡ Some (Int (negsuc 2147483647)) }
    ensures remainder { calculate (Binary IntWhole Remainder) (Int (negsuc 6) ∷ Int (pos 2) ∷ [])
        ≡ Some (Int (negsuc 0)) }
    ensures remainder_by_negative { calculate (Binary IntWhole Remainder)
        (Int (pos 7) ∷ Int (negsuc 1) ∷ [])
        ≡ Some (Int (pos 1)) }
    ensures least_remains_none { calculate (Binary IntWhole Remainder)
        (Int (negsuc 2147483647) ∷ Int (negsuc 0) ∷ [])
        ≡ Some (Int (pos 0)) }
    ensures divided_by_zero { calculate (Binary IntWhole Divide) (Int (pos 1) ∷ Int (pos 0) ∷ [])
        ≡ None }
    ensures remainder_by_zero { calculate (Binary IntWhole Remainder)
        (Int (pos 1) ∷ Int (pos 0) ∷ [])
        ≡ None }
    ensures conjunction { calculate (Binary IntWhole And) (Int (negsuc 0) ∷ Int (pos 255) ∷ [])
        ≡ Some (Int (pos 255)) }
    ensures disjunction { calculate (Binary IntWhole Or) (Int (negsuc 255) ∷ Int (pos 15) ∷ [])
        ≡ Some (Int (negsuc 240)) }
    ensures exclusive { calculate (Binary IntWhole Xor) (Int (negsuc 0) ∷ Int (pos 255) ∷ [])
        ≡ Some (Int (negsuc 255)) }
    ensures least_negated { calculate (Negate IntWhole) (Int (negsuc 2147483647) ∷ [])
        ≡ Some (Int (negsuc 2147483647)) }
{}

/// Shifts and conversions of ints at the edges (JVMS 6.5).
pub fn ints_are_shifted()
    ensures left { calculate (Shift IntWhole ShiftLeft) (Int (pos 1) ∷ Int (pos 33) ∷ [])
        ≡ Some (Int (pos 2)) }
    ensures left_by_minus_one { calculate (Shift IntWhole ShiftLeft)
        (Int (pos 1) ∷ Int (negsuc 0) ∷ [])
        ≡ Some (Int (negsuc 2147483647)) }
    ensures right { calculate (Shift IntWhole ShiftRight) (Int (negsuc 6) ∷ Int (pos 1) ∷ [])
        ≡ Some (Int (negsuc 3)) }
    ensures right_unsigned { calculate (Shift IntWhole ShiftRightUnsigned)
        (Int (negsuc 7) ∷ Int (pos 28) ∷ [])
        ≡ Some (Int (pos 15)) }
    ensures not_at_all { calculate (Shift IntWhole ShiftRightUnsigned)
        (Int (negsuc 7) ∷ Int (pos 32) ∷ [])
        ≡ Some (Int (negsuc 7)) }
    ensures extended { calculate (Extend) (Int (negsuc 0) ∷ []) ≡ Some (Long (negsuc 0)) }
    ensures byte { calculate (Keep BytePart) (Int (pos 200) ∷ []) ≡ Some (Int (negsuc 55)) }
    ensures char { calculate (Keep CharPart) (Int (negsuc 0) ∷ []) ≡ Some (Int (pos 65535)) }
    ensures short { calculate (Keep ShortPart) (Int (pos 40000) ∷ []) ≡ Some (Int (negsuc 25535)) }
{}

/// What instructions on longs compute at the edges (JVMS 6.5).
pub fn longs_are_computed()
    ensures sum_wraps { calculate (Binary LongWhole Add)
        (Long (pos 9223372036854775807) ∷ Long (pos 1) ∷ [])
        ≡ Some (Long (negsuc 9223372036854775807)) }
    ensures product { calculate (Binary LongWhole Multiply)
        (Long (pos 4294967296) ∷ Long (pos 2147483648) ∷ [])
        ≡ Some (Long (negsuc 9223372036854775807)) }
    ensures least_by_minus_one { calculate (Binary LongWhole Divide)
        (Long (negsuc 9223372036854775807) ∷ Long (negsuc 0) ∷ [])
        ≡ Some (Long (negsuc 9223372036854775807)) }
    ensures remainder { calculate (Binary LongWhole Remainder) (Long (negsuc 6) ∷ Long (pos 4) ∷ [])
        ≡ Some (Long (negsuc 2)) }
    ensures divided_by_zero { calculate (Binary LongWhole Divide) (Long (pos 1) ∷ Long (pos 0) ∷ [])
        ≡ None }
    ensures left { calculate (Shift LongWhole ShiftLeft) (Long (pos 1) ∷ Int (pos 65) ∷ [])
        ≡ Some (Long (pos 2)) }
    ensures right { calculate (Shift LongWhole ShiftRight)
        (Long (negsuc 9223372036854775807) ∷ Int (pos 63) ∷ [])
        ≡ Some (Long (negsuc 0)) }
    ensures right_unsigned { calculate (Shift LongWhole ShiftRightUnsigned)
        (Long (negsuc 0) ∷ Int (pos 63) ∷ [])
        ≡ Some (Long (pos 1)) }
    ensures truncated { calculate (Truncate) (Long (pos 6442450944) ∷ [])
        ≡ Some (Int (negsuc 2147483647)) }
    ensures less { calculate (CompareLongs) (Long (negsuc 0) ∷ Long (pos 1) ∷ [])
        ≡ Some (Int (negsuc 0)) }
    ensures equal { calculate (CompareLongs) (Long (pos 5) ∷ Long (pos 5) ∷ [])
        ≡ Some (Int (pos 0)) }
    ensures greater { calculate (CompareLongs) (Long (pos 1) ∷ Long (negsuc 0) ∷ [])
        ≡ Some (Int (pos 1)) }
{}
