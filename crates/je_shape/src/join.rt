//! What two slots and two shapes have in common.

ghost use Rattle.std.specs.Prelude.{◌≡◌, IfOk, map, option_map};
ghost use Rattle.je_shape.specs.Joined.{IsSlotJoin, IsItemJoin, IsLocalsJoin, IsStackJoin};
ghost use Rattle.je_shape.specs.Joined.{IsShapeJoin};
ghost use Rattle.je_shape.specs.Flow.{shape_of};
ghost use Rattle.je_shape.specs.Views.{slot_seen, shape_seen};

use crate::names::union;
use crate::slot::{Shape, Slot};
use crate::view::{View, of_names, of_word, seen};
use je_base::Memory;
use sqlite_items::Items;
use std::alloc::Global;

/// What two items of the stack have in common, or `None` where there is no such slot.
///
/// # Errors
///
/// `Memory` where memory runs out.
pub fn join_items(alloc: Global, a: &Slot, b: &Slot) -> Result<Option<Slot>, Memory>
    ensures { IfOk result (λ slot.
        IsItemJoin (slot_seen a.now) (slot_seen b.now) (option_map slot_seen slot)) }
{
    match (seen(a), seen(b)) {
        (View::Unused, View::Unused) => Ok(Some(Slot::Top)),
        (View::Alone(v), View::Alone(w)) => {
            if v == w {
                Ok(Some(of_word(v)))
            } else {
                Ok(None)
            }
        }
        (View::Names(m), View::Names(n)) => {
            let names = union(alloc, m, n)?;
            let slot = of_names(alloc, names)?;
            Ok(Some(slot))
        }
        _ => Ok(None),
    }
}

/// What two local variables have in common, which is `Top` where there is nothing else.
///
/// # Errors
///
/// `Memory` where memory runs out.
#[tactic(auto, using(crate::proofs::JoinLemmas::item_joins, crate::proofs::JoinLemmas::no_item))]
pub fn join_slots(alloc: Global, a: &Slot, b: &Slot) -> Result<Slot, Memory>
    ensures { IfOk result (λ slot.
        IsSlotJoin (slot_seen a.now) (slot_seen b.now) (slot_seen slot)) }
{
    match join_items(alloc, a, b)? {
        Some(slot) => Ok(slot),
        None => Ok(Slot::Top),
    }
}

/// What local variables have in common.
///
/// # Errors
///
/// `Memory` where memory runs out.
pub fn join_locals(alloc: Global, a: &[Slot], b: &[Slot]) -> Result<Vec<Slot>, Memory>
    ensures { IfOk result (λ locals.
        IsLocalsJoin (map slot_seen a.now) (map slot_seen b.now) (map slot_seen locals.items)) }
{
    let mut joined = Vec::new(alloc);
    let mut left = a;
    let mut right = b;
    while let Some((x, xs)) = left.split_first() {
        match right.split_first() {
            Some((y, ys)) => {
                let slot = join_slots(alloc, x, y)?;
                joined.push(slot)?;
                left = xs;
                right = ys;
            }
            None => return Ok(joined),
        }
    }
    Ok(joined)
}

/// What stacks have in common, or `None` where their depths or items differ.
///
/// # Errors
///
/// `Memory` where memory runs out.
pub fn join_stacks(alloc: Global, a: &[Slot], b: &[Slot]) -> Result<Option<Vec<Slot>>, Memory>
    ensures { IfOk result (λ stack. IsStackJoin (map slot_seen a.now) (map slot_seen b.now)
        (option_map (λ joined. map slot_seen joined.items) stack)) }
{
    let mut joined = Vec::new(alloc);
    let mut left = a;
    let mut right = b;
    while let Some((x, xs)) = left.split_first() {
        match right.split_first() {
            Some((y, ys)) => match join_items(alloc, x, y)? {
                Some(slot) => {
                    joined.push(slot)?;
                    left = xs;
                    right = ys;
                }
                None => return Ok(None),
            },
            None => return Ok(None),
        }
    }
    match right.split_first() {
        Some(_) => Ok(None),
        None => Ok(Some(joined)),
    }
}

/// What the shape of a stack and local variables has in common with another, or `None` where depths
/// or items of the stack differ.
///
/// # Errors
///
/// `Memory` where memory runs out.
pub fn join_parts(
    alloc: Global,
    stack: &[Slot],
    locals: &[Slot],
    there: &Shape,
) -> Result<Option<Shape>, Memory>
    ensures { IfOk result (λ shape. IsShapeJoin
        (shape_of (map slot_seen stack.now) (map slot_seen locals.now)) (shape_seen there.now)
        (option_map shape_seen shape)) }
{
    match join_stacks(alloc, stack, there.stack.as_slice())? {
        Some(stack) => {
            let locals = join_locals(alloc, locals, there.locals.as_slice())?;
            Ok(Some(Shape {
                stack: Items::from_vec(stack),
                locals: Items::from_vec(locals),
            }))
        }
        None => Ok(None),
    }
}

/// What two shapes have in common, or `None` where depths or items of the stack differ.
///
/// # Errors
///
/// `Memory` where memory runs out.
pub fn join_shapes(alloc: Global, a: &Shape, b: &Shape) -> Result<Option<Shape>, Memory>
    ensures { IfOk result (λ shape.
        IsShapeJoin (shape_seen a.now) (shape_seen b.now) (option_map shape_seen shape)) }
{
    let shape = join_parts(alloc, a.stack.as_slice(), a.locals.as_slice(), b)?;
    Ok(shape)
}
