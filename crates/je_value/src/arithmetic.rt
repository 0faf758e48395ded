//! Arithmetic on ints and longs.

ghost use Rattle.std.specs.Prelude.{◌≡◌, ◌<◌, int_div};
ghost use Rattle.std.specs.Int.{w32, w64, int_wrap, IsNonZero};
ghost use Rattle.je_machine.specs.Calculation.{distance, shifted, kept, compared, bits_of};
ghost use Rattle.je_value.specs.Calculation.{whole_in, binary_in, shift_in, part_in, binary_result};

use crate::calculation::{BinaryOp, Part, ShiftOp, Whole};

/// The quotient of two ints, truncated towards zero. The least int by -1 gives itself.
fn int_quotient(x: i32, y: i32) -> i32
    requires { IsNonZero w32 y }
    ensures { result ≡ int_wrap w32 (int_div x y) }
{
    x.wrapping_div(y)
}

/// The quotient of two longs, truncated towards zero. The least long by -1 gives itself.
fn long_quotient(x: i64, y: i64) -> i64
    requires { IsNonZero w64 y }
    ensures { result ≡ int_wrap w64 (int_div x y) }
{
    x.wrapping_div(y)
}

/// What is computed of two ints, and `None` where one is divided by zero.
pub(crate) fn binary_int(op: BinaryOp, x: i32, y: i32) -> Option<i32>
    ensures { result ≡ binary_result w32 (binary_in op) x y }
{
    match op {
        BinaryOp::Add => Some(x.wrapping_add(y)),
        BinaryOp::Subtract => Some(x.wrapping_sub(y)),
        BinaryOp::Multiply => Some(x.wrapping_mul(y)),
        BinaryOp::Divide if y == 0 => None,
        BinaryOp::Divide => Some(int_quotient(x, y)),
        BinaryOp::Remainder if y == 0 => None,
        BinaryOp::Remainder => Some(x.wrapping_rem(y)),
        BinaryOp::And => Some(x & y),
        BinaryOp::Or => Some(x | y),
        BinaryOp::Xor => Some(x ^ y),
    }
}

/// What is computed of two longs, and `None` where one is divided by zero.
pub(crate) fn binary_long(op: BinaryOp, x: i64, y: i64) -> Option<i64>
    ensures { result ≡ binary_result w64 (binary_in op) x y }
{
    match op {
        BinaryOp::Add => Some(x.wrapping_add(y)),
        BinaryOp::Subtract => Some(x.wrapping_sub(y)),
        BinaryOp::Multiply => Some(x.wrapping_mul(y)),
        BinaryOp::Divide if y == 0 => None,
        BinaryOp::Divide => Some(long_quotient(x, y)),
        BinaryOp::Remainder if y == 0 => None,
        BinaryOp::Remainder => Some(x.wrapping_rem(y)),
        BinaryOp::And => Some(x & y),
        BinaryOp::Or => Some(x | y),
        BinaryOp::Xor => Some(x ^ y),
    }
}

/// The distance of a shift: its low five bits of an int's, its low six bits of a long's.
pub(crate) fn distance(whole: Whole, n: i32) -> u32
    ensures value { result ≡ distance (whole_in whole) n }
    ensures bound { result < bits_of (whole_in whole) }
{
    match whole {
        Whole::Int => n.rem_euclid(32) as u32,
        Whole::Long => n.rem_euclid(64) as u32,
    }
}

/// An int that is shifted.
pub(crate) fn shifted_int(op: ShiftOp, x: i32, by: u32) -> i32
    requires { by < 32 }
    ensures { result ≡ shifted w32 (shift_in op) x by }
{
    match op {
        ShiftOp::Left => x << by,
        ShiftOp::Right => x >> by,
        ShiftOp::RightUnsigned => (x.cast_unsigned() >> by).cast_signed(),
    }
}

/// A long that is shifted.
pub(crate) fn shifted_long(op: ShiftOp, x: i64, by: u32) -> i64
    requires { by < 64 }
    ensures { result ≡ shifted w64 (shift_in op) x by }
{
    match op {
        ShiftOp::Left => x << by,
        ShiftOp::Right => x >> by,
        ShiftOp::RightUnsigned => (x.cast_unsigned() >> by).cast_signed(),
    }
}

/// The low 32 bits of a long, as an int.
pub(crate) fn truncated(n: i64) -> i32
    ensures { result ≡ int_wrap w32 n }
{
    (n.rem_euclid(0x1_0000_0000) as u32).cast_signed()
}

/// What is kept of an int by i2b, i2c and i2s (JVMS 6.5).
pub fn kept(part: Part, n: i32) -> i32
    ensures { result ≡ kept (part_in part) n }
{
    match part {
        Part::Byte => (n.rem_euclid(0x100) as u8).cast_signed() as i32,
        Part::Char => n.rem_euclid(0x1_0000),
        Part::Short => (n.rem_euclid(0x1_0000) as u16).cast_signed() as i32,
    }
}

/// 1, 0 or -1 as the first is greater, equal or less.
pub(crate) fn compared(x: i64, y: i64) -> i32
    ensures { result ≡ compared x y }
{
    if x < y {
        -1
    } else if y < x {
        1
    } else {
        0
    }
}
