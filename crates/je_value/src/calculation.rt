//! What the instructions on ints and longs compute.

ghost use Rattle.std.specs.Prelude.{◌≡◌, [], ◌∷◌, IfOk, Option, Some, None};
ghost use Rattle.je_machine.specs.Value.{IntKind, LongKind, admit_all};
ghost use Rattle.je_machine.specs.Value as machine;
ghost use Rattle.je_machine.specs.Calculation.{calculation_operands, calculation_result};
ghost use Rattle.je_machine.specs.Calculation.{kind_of_whole, calculate};
ghost use Rattle.je_machine.specs.Calculation.{IntWhole, LongWhole};
ghost use Rattle.je_value.specs.Calculation.{whole_in, binary_in, shift_in, calculation_in};
ghost use Rattle.je_value.specs.Calculation.{whole_at};
ghost use Rattle.je_value.specs.Calculation.{binary_value, shifted_value};

use crate::admission::{admitted_int, admitted_long};
use crate::arithmetic::{
    binary_int, binary_long, compared, distance, kept, shifted_int, shifted_long, truncated,
};
use crate::kind::{Kind, KindForm};
use crate::kinds::{one, two};
use crate::value::{Value, ValueForm};
use je_base::Memory;
use sqlite_items::{Items, at};
use std::alloc::Global;

/// Which of the two whole types.
#[derive(Clone, Copy, Debug, PartialEq, Eq)]
pub enum Whole {
    Int,
    Long,
}

/// What is computed of two numbers of a whole type.
#[derive(Clone, Copy, Debug, PartialEq, Eq)]
pub enum BinaryOp {
    Add,
    Subtract,
    Multiply,
    Divide,
    Remainder,
    And,
    Or,
    Xor,
}

/// How bits are shifted.
#[derive(Clone, Copy, Debug, PartialEq, Eq)]
pub enum ShiftOp {
    Left,
    Right,
    RightUnsigned,
}

/// What is kept of an int by i2b, i2c and i2s.
#[derive(Clone, Copy, Debug, PartialEq, Eq)]
pub enum Part {
    Byte,
    Char,
    Short,
}

/// What an instruction on ints or longs computes (JVMS 2.11.3, 2.11.4 and 6.5).
#[derive(Clone, Copy, Debug, PartialEq, Eq)]
pub enum Calculation {
    /// iadd to lrem, iand to lxor.
    Binary(Whole, BinaryOp),
    /// ishl to lushr.
    Shift(Whole, ShiftOp),
    /// ineg, lneg.
    Negate(Whole),
    /// i2l.
    Extend,
    /// l2i.
    Truncate,
    /// i2b, i2c, i2s.
    Keep(Part),
    /// lcmp.
    CompareLongs,
}

/// The kind of the values of a whole type.
fn kind_of_whole(whole: Whole) -> Kind
    ensures { result ≡ kind_of_whole (whole_in whole) }
{
    match whole {
        Whole::Int => Kind::of(KindForm::Int),
        Whole::Long => Kind::of(KindForm::Long),
    }
}

/// The kinds of the operands, the deepest first.
///
/// # Errors
///
/// `Memory` where memory runs out.
pub fn calculation_operands(alloc: Global, calculation: Calculation) -> Result<Items<Kind>, Memory>
    ensures { IfOk result (λ kinds. kinds ≡ calculation_operands (calculation_in calculation)) }
{
    match calculation {
        Calculation::Binary(whole, _) => two(alloc, kind_of_whole(whole), kind_of_whole(whole)),
        Calculation::Shift(whole, _) => two(alloc, kind_of_whole(whole), Kind::of(KindForm::Int)),
        Calculation::Negate(whole) => one(alloc, kind_of_whole(whole)),
        Calculation::Extend => one(alloc, Kind::of(KindForm::Int)),
        Calculation::Truncate => one(alloc, Kind::of(KindForm::Long)),
        Calculation::Keep(_) => one(alloc, Kind::of(KindForm::Int)),
        Calculation::CompareLongs => {
            two(alloc, Kind::of(KindForm::Long), Kind::of(KindForm::Long))
        }
    }
}

/// The kind of the result.
pub fn calculation_result(calculation: Calculation) -> Kind
    ensures { result ≡ calculation_result (calculation_in calculation) }
{
    match calculation {
        Calculation::Binary(whole, _) | Calculation::Shift(whole, _) | Calculation::Negate(whole) =>
            kind_of_whole(whole),
        Calculation::Extend => Kind::of(KindForm::Long),
        _ => Kind::of(KindForm::Int),
    }
}

/// The operand at an index, as an int.
#[tactic(auto, using(crate::proofs::OperandLemmas::value_at_is))]
fn int_at(operands: &[Value], i: usize) -> i32
    ensures { result ≡ whole_at IntKind operands.now i }
{
    match at(operands, i) {
        Some(value) => admitted_int(value),
        None => 0,
    }
}

/// The operand at an index, as a long.
#[tactic(auto, using(crate::proofs::OperandLemmas::value_at_is))]
fn long_at(operands: &[Value], i: usize) -> i64
    ensures { result ≡ whole_at LongKind operands.now i }
{
    match at(operands, i) {
        Some(value) => admitted_long(value),
        None => 0,
    }
}

/// The int as a value.
fn int(n: i32) -> Value
    ensures { result ≡ machine.Int n }
{
    Value::of(ValueForm::Int(n))
}

/// The long as a value.
fn long(n: i64) -> Value
    ensures { result ≡ machine.Long n }
{
    Value::of(ValueForm::Long(n))
}

/// What is computed of two ints, as a value.
#[tactic(auto, using(crate::proofs::ArithmeticLemmas::mapped))]
fn int_of_two(op: BinaryOp, x: i32, y: i32) -> Option<Value>
    ensures { result ≡ binary_value IntWhole (binary_in op) x y }
{
    binary_int(op, x, y).map(int)
}

/// What is computed of two longs, as a value.
#[tactic(auto, using(crate::proofs::ArithmeticLemmas::mapped))]
fn long_of_two(op: BinaryOp, x: i64, y: i64) -> Option<Value>
    ensures { result ≡ binary_value LongWhole (binary_in op) x y }
{
    binary_long(op, x, y).map(long)
}

/// An int that is shifted by the distance of another.
fn int_shifted(op: ShiftOp, x: i32, n: i32) -> Value
    ensures { result ≡ shifted_value IntWhole (shift_in op) x n }
{
    int(shifted_int(op, x, distance(Whole::Int, n)))
}

/// A long that is shifted by the distance of an int.
fn long_shifted(op: ShiftOp, x: i64, n: i32) -> Value
    ensures { result ≡ shifted_value LongWhole (shift_in op) x n }
{
    long(shifted_long(op, x, distance(Whole::Long, n)))
}

/// What is computed of the first two operands.
fn binary(whole: Whole, op: BinaryOp, operands: &[Value]) -> Option<Value>
    ensures { let kind = kind_of_whole (whole_in whole) in
        result ≡ binary_value (whole_in whole) (binary_in op) (whole_at kind operands.now 0)
        (whole_at kind operands.now 1) }
{
    match whole {
        Whole::Int => int_of_two(op, int_at(operands, 0), int_at(operands, 1)),
        Whole::Long => long_of_two(op, long_at(operands, 0), long_at(operands, 1)),
    }
}

/// The first operand, shifted by the distance of the second.
fn shift(whole: Whole, op: ShiftOp, operands: &[Value]) -> Value
    ensures { result ≡ shifted_value (whole_in whole) (shift_in op)
        (whole_at (kind_of_whole (whole_in whole)) operands.now 0)
        (whole_at IntKind operands.now 1) }
{
    match whole {
        Whole::Int => int_shifted(op, int_at(operands, 0), int_at(operands, 1)),
        Whole::Long => long_shifted(op, long_at(operands, 0), int_at(operands, 1)),
    }
}

/// What is computed of operands of the right kinds, and `None` where an int or a long is divided
/// by zero. An operand of another kind counts as zero.
#[tactic(auto, using(crate::proofs::OperandLemmas::operands_are))]
pub fn calculate(calculation: Calculation, operands: &[Value]) -> Option<Value>
    ensures { let c = calculation_in calculation in
        result ≡ calculate c (admit_all (calculation_operands c) operands.now) }
{
    match calculation {
        Calculation::Binary(whole, op) => binary(whole, op, operands),
        Calculation::Shift(whole, op) => Some(shift(whole, op, operands)),
        Calculation::Negate(Whole::Int) => Some(int(int_at(operands, 0).wrapping_neg())),
        Calculation::Negate(Whole::Long) => Some(long(long_at(operands, 0).wrapping_neg())),
        Calculation::Extend => Some(long(int_at(operands, 0) as i64)),
        Calculation::Truncate => Some(int(truncated(long_at(operands, 0)))),
        Calculation::Keep(part) => Some(int(kept(part, int_at(operands, 0)))),
        Calculation::CompareLongs => {
            Some(int(compared(long_at(operands, 0), long_at(operands, 1))))
        }
    }
}
