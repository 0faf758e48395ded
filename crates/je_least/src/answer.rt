//! The least shapes of a method, or its first fault.

ghost use Rattle.std.specs.Prelude.{◌≡◌, ◌↔◌, ℕ, length, map, IfOk, IsTrue};
ghost use Rattle.std.specs.Prelude.{MatchOption, MatchResult};
ghost use Rattle.je_shape.specs.Least.{IsLeast, IsFaultOf, IsFault, IsFirstFault};
ghost use Rattle.je_least.specs.Answer.{method_of, IsShapes, IsBadCode};
ghost use Rattle.je_shape.specs.Views.{shapes_seen};
ghost use Rattle.je_least.specs.Knowns.{known_seen, shape_in};
ghost use Rattle.je_least.specs.Plans.{plan_seen};
ghost use Rattle.je_least.specs.Searching.{assigned};

use crate::known::Known;
use crate::plan::{Plan, serves_method, successors};
use crate::search::least_known;
use je_base::{Memory, Text};
use je_shape::Shape;
use je_value::{Kind, Operation, Program};
use sqlite_items::Items;
use std::alloc::Global;
use thiserror::Error;

/// The shapes of a method: one item for each instruction, `None` where it is not reached.
#[derive(Debug, Drop)]
pub struct Shapes {
    pub list: Items<Option<Shape>>,
}

/// Why a method has no shapes.
#[derive(Clone, Copy, Debug, PartialEq, Eq, Error)]
pub enum ShapeFault {
    /// The first instruction that its shape does not serve, or to which shapes come that have
    /// nothing in common.
    #[error("bad code {0}")]
    BadCode(u32),
    /// There was not enough memory.
    #[error("memory")]
    Memory,
}

/// Whether the instruction at an index of which so much is known is a fault.
fn is_faulty(
    alloc: Global,
    plan: &Plan<'_>,
    at: u32,
    operation: &Operation,
    there: &Known,
) -> Result<bool, Memory>
    ensures { IfOk result (λ faulty. IsTrue faulty
        ↔ IsFaultOf (plan_seen plan.now) at operation.now (known_seen there.now)) }
{
    match there {
        Known::Nothing => Ok(false),
        Known::Has(s) => {
            let next = successors(alloc, at, operation)?;
            let served = serves_method(alloc, plan, at, operation, &next, s)?;
            Ok(!served)
        }
        Known::Broken => Ok(true),
    }
}

/// The index of the first fault.
fn first_fault(alloc: Global, plan: &Plan<'_>, table: &[Known]) -> Result<Option<u32>, Memory>
    requires { length table.now ≡ length plan.now.program.now.operations }
    ensures { IfOk result (λ found. MatchOption found
        ((at : ℕ) → IsFault (plan_seen plan.now) (assigned (map known_seen table.now)) at → ⊥)
        (λ at. IsFirstFault (plan_seen plan.now) (assigned (map known_seen table.now)) at)) }
{
    for (index, operation) in plan.program.operations().iter().enumerate() {
        let Ok(at) = u32::try_from(index) else {
            return Err(Memory);
        };
        if is_faulty(alloc, plan, at, operation, &table[index])? {
            return Ok(Some(at));
        }
    }
    Ok(None)
}

/// The shapes that are known.
fn shapes_of(alloc: Global, table: Vec<Known>) -> Result<Items<Option<Shape>>, Memory>
    ensures { IfOk result (λ list.
        shapes_seen list ≡ map shape_in (map known_seen table.items)) }
{
    let mut list = Vec::new(alloc);
    for there in table {
        list.push(match there {
            Known::Has(s) => Some(s),
            _ => None,
        })?;
    }
    Ok(Items::from_vec(list))
}

/// The shapes of a method, or its first fault.
fn answer(alloc: Global, plan: &Plan<'_>) -> Result<Result<Items<Option<Shape>>, u32>, Memory>
    ensures { IfOk result (λ found. MatchResult found
        (λ list. IsShapes (plan_seen plan.now) (shapes_seen list))
        (λ at. IsBadCode (plan_seen plan.now) at)) }
{
    let table = least_known(alloc, plan)?;
    match first_fault(alloc, plan, &table)? {
        Some(at) => Ok(Err(at)),
        None => {
            let list = shapes_of(alloc, table)?;
            Ok(Ok(list))
        }
    }
}

/// The least shapes of a method of a class (JVMS 4.10.1), by its program, the shape with which it
/// begins, the frames that its StackMapTable gives for indexes, of which the first of an index
/// counts, and the kind of its result, or none of it, where its returns are to be of that kind.
///
/// # Errors
///
/// `BadCode` with the index of the first fault; `Memory` where memory runs out. What no class file
/// has is answered so too: more than 2^32 instructions, and classes whose names are no text.
pub fn least_shapes(
    alloc: Global,
    class_name: &Text,
    program: &Program,
    entry: &Shape,
    frames: &[(u32, Shape)],
    returned: Option<Option<Kind>>,
) -> Result<Shapes, ShapeFault>
    ensures shapes { IfOk result (λ s. IsShapes
        (method_of class_name.now program.now entry.now frames.now returned)
        (shapes_seen s.list)) }
    ensures bad { (at : ℕ) → result ≡ Err (ShapeFault.BadCode at) → IsBadCode
        (method_of class_name.now program.now entry.now frames.now returned) at }
{
    let plan = Plan {
        class_name,
        program,
        entry,
        frames,
        returned,
    };
    match answer(alloc, &plan) {
        Ok(Ok(list)) => Ok(Shapes { list }),
        Ok(Err(at)) => Err(ShapeFault::BadCode(at)),
        Err(_) => Err(ShapeFault::Memory),
    }
}
