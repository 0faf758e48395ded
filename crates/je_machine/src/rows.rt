//! Arithmetic as a JVM printed it, over the edges of int and long.
//!
//! The tables are in the specification, and `checks/machine_rows` compares them with a JVM.

ghost use Rattle.std.specs.Prelude.{◌≡◌, ℤ, [], ◌∷◌, pos, None};
ghost use Rattle.je_machine.specs.Value.{Int, Long};
ghost use Rattle.je_machine.specs.Calculation.{Binary, Shift, Negate, Extend, Truncate, Keep};
ghost use Rattle.je_machine.specs.Calculation.{CompareLongs, IntWhole, LongWhole, Add, Subtract};
ghost use Rattle.je_machine.specs.Calculation.{Multiply, Divide, Remainder, And, Or, Xor};
ghost use Rattle.je_machine.specs.Calculation.{ShiftLeft, ShiftRight, ShiftRightUnsigned, BytePart};
ghost use Rattle.je_machine.specs.Calculation.{CharPart, ShortPart, calculate};
ghost use Rattle.je_machine.specs.Rows.{int_edges, int_divisors, long_edges, long_divisors};
ghost use Rattle.je_machine.specs.Rows.{distances, of_one, of_two, given, given_each};
ghost use Rattle.je_machine.specs.IntRows.{int_sums, int_differences, int_products, int_quotients};
ghost use Rattle.je_machine.specs.IntRows.{int_remainders, int_negations};
ghost use Rattle.je_machine.specs.IntBitRows.{int_ands, int_ors, int_xors, int_lefts, int_rights};
ghost use Rattle.je_machine.specs.IntBitRows.{int_unsigned_rights, extended_ints, byte_parts};
ghost use Rattle.je_machine.specs.IntBitRows.{char_parts, short_parts};
ghost use Rattle.je_machine.specs.LongRows.{long_sums, long_differences, long_products};
ghost use Rattle.je_machine.specs.LongRows.{long_quotients, long_remainders, long_negations};
ghost use Rattle.je_machine.specs.LongBitRows.{long_ands, long_ors, long_xors, long_lefts};
ghost use Rattle.je_machine.specs.LongBitRows.{long_rights, long_unsigned_rights, truncated_longs};
ghost use Rattle.je_machine.specs.LongBitRows.{compared_longs};

/// Arithmetic of ints (JVMS 6.5, iadd to irem and ineg).
pub fn int_rows()
    ensures sums { of_two (Binary IntWhole Add) Int Int int_edges int_edges
        ≡ given_each Int int_sums }
    ensures differences { of_two (Binary IntWhole Subtract) Int Int int_edges int_edges
        ≡ given_each Int int_differences }
    ensures products { of_two (Binary IntWhole Multiply) Int Int int_edges int_edges
        ≡ given_each Int int_products }
    ensures quotients { of_two (Binary IntWhole Divide) Int Int int_edges int_divisors
        ≡ given_each Int int_quotients }
    ensures remainders { of_two (Binary IntWhole Remainder) Int Int int_edges int_divisors
        ≡ given_each Int int_remainders }
    ensures divided_by_zero { (x : ℤ) →
        calculate (Binary IntWhole Divide) (Int x ∷ Int (pos 0) ∷ [])
        ≡ None }
    ensures remainder_by_zero { (x : ℤ) →
        calculate (Binary IntWhole Remainder) (Int x ∷ Int (pos 0) ∷ [])
        ≡ None }
    ensures negations { of_one (Negate IntWhole) Int int_edges ≡ given Int int_negations }
{}

/// Bits of ints (JVMS 6.5, iand to ixor, ishl to iushr, i2l, i2b, i2c and i2s).
pub fn int_bit_rows()
    ensures conjunctions { of_two (Binary IntWhole And) Int Int int_edges int_edges
        ≡ given_each Int int_ands }
    ensures disjunctions { of_two (Binary IntWhole Or) Int Int int_edges int_edges
        ≡ given_each Int int_ors }
    ensures exclusives { of_two (Binary IntWhole Xor) Int Int int_edges int_edges
        ≡ given_each Int int_xors }
    ensures left { of_two (Shift IntWhole ShiftLeft) Int Int int_edges distances
        ≡ given_each Int int_lefts }
    ensures right { of_two (Shift IntWhole ShiftRight) Int Int int_edges distances
        ≡ given_each Int int_rights }
    ensures right_unsigned { of_two (Shift IntWhole ShiftRightUnsigned) Int Int int_edges distances
        ≡ given_each Int int_unsigned_rights }
    ensures extended { of_one Extend Int int_edges ≡ given Long extended_ints }
    ensures bytes { of_one (Keep BytePart) Int int_edges ≡ given Int byte_parts }
    ensures chars { of_one (Keep CharPart) Int int_edges ≡ given Int char_parts }
    ensures shorts { of_one (Keep ShortPart) Int int_edges ≡ given Int short_parts }
{}

/// Arithmetic of longs (JVMS 6.5, ladd to lrem and lneg).
pub fn long_rows()
    ensures sums { of_two (Binary LongWhole Add) Long Long long_edges long_edges
        ≡ given_each Long long_sums }
    ensures differences { of_two (Binary LongWhole Subtract) Long Long long_edges long_edges
        ≡ given_each Long long_differences }
    ensures products { of_two (Binary LongWhole Multiply) Long Long long_edges long_edges
        ≡ given_each Long long_products }
    ensures quotients { of_two (Binary LongWhole Divide) Long Long long_edges long_divisors
        ≡ given_each Long long_quotients }
    ensures remainders { of_two (Binary LongWhole Remainder) Long Long long_edges long_divisors
        ≡ given_each Long long_remainders }
    ensures divided_by_zero { (x : ℤ) →
        calculate (Binary LongWhole Divide) (Long x ∷ Long (pos 0) ∷ [])
        ≡ None }
    ensures remainder_by_zero { (x : ℤ) →
        calculate (Binary LongWhole Remainder) (Long x ∷ Long (pos 0) ∷ [])
        ≡ None }
    ensures negations { of_one (Negate LongWhole) Long long_edges ≡ given Long long_negations }
{}

/// Bits of longs (JVMS 6.5, land to lxor, lshl to lushr, l2i), and their order (lcmp).
pub fn long_bit_rows()
    ensures conjunctions { of_two (Binary LongWhole And) Long Long long_edges long_edges
        ≡ given_each Long long_ands }
    ensures disjunctions { of_two (Binary LongWhole Or) Long Long long_edges long_edges
        ≡ given_each Long long_ors }
    ensures exclusives { of_two (Binary LongWhole Xor) Long Long long_edges long_edges
        ≡ given_each Long long_xors }
    ensures left { of_two (Shift LongWhole ShiftLeft) Long Int long_edges distances
        ≡ given_each Long long_lefts }
    ensures right { of_two (Shift LongWhole ShiftRight) Long Int long_edges distances
        ≡ given_each Long long_rights }
    ensures right_unsigned { of_two (Shift LongWhole ShiftRightUnsigned) Long Int
        long_edges distances
        ≡ given_each Long long_unsigned_rights }
    ensures truncated { of_one Truncate Long long_edges ≡ given Int truncated_longs }
    ensures compared { of_two CompareLongs Long Long long_edges long_edges
        ≡ given_each Int compared_longs }
{}
