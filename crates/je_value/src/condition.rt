//! The conditions of jumps.

ghost use Rattle.std.specs.Prelude.{◌≡◌, IfOk};
ghost use Rattle.je_machine.specs.Condition.{condition_operands, is_met, is_so, opposite, inverse};
ghost use Rattle.je_machine.specs.Condition.{is_wanted};
ghost use Rattle.je_value.specs.Condition.{comparison_in, condition_in};

use crate::kind::{Kind, KindForm};
use crate::operands::{is_null_at, is_same_reference_at, number_at};
use crate::value::Value;
use je_base::Memory;
use sqlite_items::Items;
use std::alloc::Global;

/// How two numbers are compared.
#[derive(Clone, Copy, Debug, PartialEq, Eq)]
pub enum Comparison {
    Equals,
    Differs,
    IsLess,
    IsNotLess,
    IsGreater,
    IsNotGreater,
}

/// The condition of a jump (JVMS 6.5, ifeq to if_acmpne, ifnull and ifnonnull).
#[derive(Clone, Copy, Debug, PartialEq, Eq)]
pub enum Condition {
    /// An int compared with 0 (ifeq to ifle).
    Zero(Comparison),
    /// Two ints (if_icmpeq to if_icmple).
    Ints(Comparison),
    /// Two references are the same, or are not (if_acmpeq, if_acmpne).
    Same(bool),
    /// A reference is null, or is not (ifnull, ifnonnull).
    IsNull(bool),
}

/// The kinds of the operands, the deepest first.
///
/// # Errors
///
/// `Memory` where memory runs out.
pub fn condition_operands(alloc: Global, condition: Condition) -> Result<Items<Kind>, Memory>
    ensures { IfOk result (λ kinds. kinds ≡ condition_operands (condition_in condition)) }
{
    let mut kinds = Items::new(alloc);
    match condition {
        Condition::Zero(_) => kinds.push(Kind::of(KindForm::Int))?,
        Condition::Ints(_) => {
            kinds.push(Kind::of(KindForm::Int))?;
            kinds.push(Kind::of(KindForm::Int))?;
        }
        Condition::Same(_) => {
            kinds.push(Kind::of(KindForm::Reference))?;
            kinds.push(Kind::of(KindForm::Reference))?;
        }
        Condition::IsNull(_) => kinds.push(Kind::of(KindForm::Reference))?,
    }
    Ok(kinds)
}

/// Whether two numbers compare so.
fn is_so(comparison: Comparison, x: i64, y: i64) -> bool
    ensures { result ≡ is_so (comparison_in comparison) x y }
{
    match comparison {
        Comparison::Equals => x == y,
        Comparison::Differs => x != y,
        Comparison::IsLess => x < y,
        Comparison::IsNotLess => x >= y,
        Comparison::IsGreater => x > y,
        Comparison::IsNotGreater => x <= y,
    }
}

/// Whether what holds is what is wanted.
fn is_wanted(wanted: bool, holds: bool) -> bool
    ensures { result ≡ is_wanted wanted holds }
{
    if wanted { holds } else { !holds }
}

/// Whether the condition is met by the operands, the deepest first.
pub fn is_met(condition: Condition, operands: &[Value]) -> bool
    ensures { result ≡ is_met (condition_in condition) operands.now }
{
    match condition {
        Condition::Zero(comparison) => is_so(comparison, number_at(operands, 0), 0),
        Condition::Ints(comparison) => {
            is_so(comparison, number_at(operands, 0), number_at(operands, 1))
        }
        Condition::Same(wanted) => is_wanted(wanted, is_same_reference_at(operands, 0, 1)),
        Condition::IsNull(wanted) => is_wanted(wanted, is_null_at(operands, 0)),
    }
}

/// The comparison that holds exactly where the other does not.
fn opposite(comparison: Comparison) -> Comparison
    ensures { comparison_in result ≡ opposite (comparison_in comparison) }
{
    match comparison {
        Comparison::Equals => Comparison::Differs,
        Comparison::Differs => Comparison::Equals,
        Comparison::IsLess => Comparison::IsNotLess,
        Comparison::IsNotLess => Comparison::IsLess,
        Comparison::IsGreater => Comparison::IsNotGreater,
        Comparison::IsNotGreater => Comparison::IsGreater,
    }
}

/// The condition that is met exactly where the other is not.
pub fn inverse(condition: Condition) -> Condition
    ensures { condition_in result ≡ inverse (condition_in condition) }
{
    match condition {
        Condition::Zero(comparison) => Condition::Zero(opposite(comparison)),
        Condition::Ints(comparison) => Condition::Ints(opposite(comparison)),
        Condition::Same(wanted) => Condition::Same(!wanted),
        Condition::IsNull(wanted) => Condition::IsNull(!wanted),
    }
}
