//! Which shapes serve an instruction (JVMS 4.10.1.9).

ghost use Rattle.std.specs.Prelude.{◌≡◌, [], ◌∷◌, ◌↔◌, IsTrue, IfOk, map, reverse, slice_get};
ghost use Rattle.std.specs.List.{AllByRecursion};
ghost use Rattle.je_machine.specs.Action.{New};
ghost use Rattle.je_machine.specs.Operation.{Do, Act};
ghost use Rattle.je_value.specs.Condition.{condition_in};
ghost use Rattle.je_shape.specs.Shape.{local_at};
ghost use Rattle.je_shape.specs.Flow.{constructor, top_item, below_top, under_places};
ghost use Rattle.je_shape.specs.Serves.{Meets, StackMeets, IsItem, HasPlaces, IsTarget, IsNotMade};
ghost use Rattle.je_shape.specs.Serves.{ServesNew, ServesAct, ServesBasic, ServesOperation};
ghost use Rattle.je_shape.specs.Serves.{wants_of_condition, wants_of_return};
ghost use Rattle.je_flow.specs.Seen.{want_in};
ghost use Rattle.je_shape.specs.Views.{slot_seen, shape_seen};

use crate::locals::local_at;
use crate::making::constructor;
use crate::stack::{below_top, top_item, under_items, under_places, width};
use crate::wants::{
    Want, int, meets, moved, stack_meets, wants_of, wants_of_condition, wants_of_parameters,
};
use je_base::{Memory, Run};
use je_shape::{Shape, Slot};
use je_value::{
    Action, ActionForm, Basic, BasicForm, Condition, Kind, KindForm, Operation, OperationForm,
};
use sqlite_items::at;
use std::alloc::Global;

/// Whether the slot can be taken as an item, as Top cannot.
fn is_item(slot: &Slot) -> bool
    ensures { IsTrue result ↔ IsItem (slot_seen slot.now) }
{
    !matches!(slot, Slot::Top)
}

/// Whether there are items in so many places from the top, and none stands in more than these.
fn has_places(places: usize, stack: &[Slot]) -> bool
    ensures { IsTrue result ↔ HasPlaces places (map slot_seen stack.now) }
{
    if places == 0 {
        return true;
    }
    match stack.split_first() {
        None => false,
        Some((slot, rest)) => {
            let taken = width(slot);
            is_item(slot) && taken <= places && has_places(places - taken, rest)
        }
    }
}

/// Whether the instruction makes an object of the class.
fn is_new(operation: &Operation, class: &Run) -> bool
    ensures { IsTrue result ↔ operation.now ≡ Do (Act (New class.now)) }
{
    match operation.form() {
        OperationForm::Do(basic) => is_new_basic(basic, class),
        _ => false,
    }
}

/// Whether what works on the stack and the outside alone makes an object of the class.
fn is_new_basic(basic: &Basic, class: &Run) -> bool
    ensures { IsTrue result ↔ basic.now ≡ Act (New class.now) }
{
    match basic.form() {
        BasicForm::Act(action) => is_new_action(action, class),
        _ => false,
    }
}

/// Whether the action makes an object of the class.
fn is_new_action(action: &Action, class: &Run) -> bool
    ensures { IsTrue result ↔ action.now ≡ New class.now }
{
    match action.form() {
        ActionForm::New(name) => name.as_slice() == class.as_slice(),
        _ => false,
    }
}

/// Whether the instruction at an index is there and makes an object of the class.
fn is_new_at(operations: &[Operation], new: u32, class: &Run) -> bool
    ensures { IsTrue result ↔ slice_get operations.now new ≡ Some (Do (Act (New class.now))) }
{
    match at(operations, new as usize) {
        Some(operation) => is_new(operation, class),
        None => false,
    }
}

/// Whether a constructor of the class may be called on the slot.
fn is_target(operations: &[Operation], class: &Run, slot: &Slot) -> bool
    ensures { IsTrue result ↔ IsTarget operations.now class.now (slot_seen slot.now) }
{
    match slot {
        Slot::UninitThis => true,
        Slot::Uninit(new) => is_new_at(operations, *new, class),
        Slot::Top
        | Slot::Int
        | Slot::Float
        | Slot::Long
        | Slot::Double
        | Slot::Null
        | Slot::Ref(_) => false,
    }
}

/// Whether the slot is not what the `new` at this index makes.
fn is_not_made(at: u32, slot: &Slot) -> bool
    ensures { IsTrue result ↔ IsNotMade at (slot_seen slot.now) }
{
    match slot {
        Slot::Uninit(new) => *new != at,
        Slot::Top
        | Slot::Int
        | Slot::Float
        | Slot::Long
        | Slot::Double
        | Slot::Null
        | Slot::UninitThis
        | Slot::Ref(_) => true,
    }
}

/// Whether none of the slots is what the `new` at this index makes.
fn none_is_made(at: u32, stack: &[Slot]) -> bool
    ensures { IsTrue result ↔ AllByRecursion (IsNotMade at) (map slot_seen stack.now) }
{
    let mut left = stack;
    while let Some((slot, rest)) = left.split_first() {
        if !is_not_made(at, slot) {
            return false;
        }
        left = rest;
    }
    true
}

/// Whether the stack serves a `new`, where the action is one.
fn serves_new(at: u32, action: &Action, stack: &[Slot]) -> bool
    ensures { IsTrue result ↔ ServesNew at action.now (map slot_seen stack.now) }
{
    match action.form() {
        ActionForm::New(_) => none_is_made(at, stack),
        _ => true,
    }
}

/// Whether a constructor of the class may be called on the item at the top.
fn is_top_target(operations: &[Operation], class: &Run, stack: &[Slot]) -> bool
    ensures { IsTrue result
        ↔ IsTarget operations.now class.now (top_item (map slot_seen stack.now)) }
{
    match top_item(stack) {
        Some(slot) => is_target(operations, class, slot),
        None => false,
    }
}

/// Whether the stack serves an action.
fn serves_act(
    alloc: Global,
    operations: &[Operation],
    at: u32,
    action: &Action,
    stack: &[Slot],
) -> Result<bool, Memory>
    ensures { IfOk result (λ ok. IsTrue ok ↔ ServesAct operations.now at action.now
        (constructor action.now) (map slot_seen stack.now)) }
{
    match constructor(action) {
        Some((class, count)) => {
            let wants = wants_of_parameters(alloc, action)?;
            let target = under_items(count, stack);
            Ok(stack_meets(wants.as_slice(), stack) && is_top_target(operations, class, target))
        }
        None => {
            let wants = wants_of(alloc, action)?;
            Ok(stack_meets(wants.as_slice(), stack) && serves_new(at, action, stack))
        }
    }
}

/// Whether the item at the top is what is wanted.
fn top_meets(want: Want, stack: &[Slot]) -> bool
    ensures { IsTrue result ↔ StackMeets (want_in want ∷ []) (map slot_seen stack.now) }
{
    match stack.split_first() {
        Some((slot, _)) => meets(want, slot),
        None => false,
    }
}

/// Whether there are items in so many places, and in so many more under these.
fn has_both(places: usize, deep: usize, stack: &[Slot]) -> bool
    ensures { IsTrue result ↔ (HasPlaces places (map slot_seen stack.now)
        × HasPlaces deep (under_places places (map slot_seen stack.now))) }
{
    has_places(places, stack) && has_places(deep, under_places(places, stack))
}

/// Whether there are two items of one place at the top.
fn has_two(stack: &[Slot]) -> bool
    ensures { IsTrue result ↔ (HasPlaces 1 (map slot_seen stack.now)
        × HasPlaces 1 (below_top (map slot_seen stack.now))) }
{
    has_places(1, stack) && has_places(1, below_top(stack))
}

/// Whether the stack serves an instruction that works on it and the outside alone.
fn serves_basic(
    alloc: Global,
    operations: &[Operation],
    at: u32,
    basic: &Basic,
    stack: &[Slot],
) -> Result<bool, Memory>
    ensures { IfOk result (λ ok. IsTrue ok
        ↔ ServesBasic operations.now at basic.now (map slot_seen stack.now)) }
{
    match basic.form() {
        BasicForm::Nop | BasicForm::Push(_) => Ok(true),
        BasicForm::Drop(places) => Ok(has_places(*places, stack)),
        BasicForm::Copy(places, deep) => Ok(has_both(*places, *deep, stack)),
        BasicForm::Swap => Ok(has_two(stack)),
        BasicForm::Act(action) => serves_act(alloc, operations, at, action, stack),
        BasicForm::Throw => Ok(top_meets(Want::Of(Kind::of(KindForm::Reference)), stack)),
    }
}

/// Whether the local variable of an index is what is wanted.
fn local_meets(want: Want, locals: &[Slot], slot: usize) -> bool
    ensures { IsTrue result
        ↔ Meets (want_in want) (local_at (map slot_seen locals.now) slot) }
{
    match local_at(locals, slot) {
        Some(s) => meets(want, s),
        None => false,
    }
}

/// Whether the stack serves a jump under a condition.
fn serves_branch(alloc: Global, condition: Condition, stack: &[Slot]) -> Result<bool, Memory>
    ensures { IfOk result (λ ok. IsTrue ok ↔ StackMeets
        (reverse (wants_of_condition (condition_in condition))) (map slot_seen stack.now)) }
{
    let wants = wants_of_condition(alloc, condition)?;
    Ok(stack_meets(wants.as_slice(), stack))
}

/// Whether the stack serves a return of a kind.
fn serves_return(kind: Option<Kind>, stack: &[Slot]) -> bool
    ensures { IsTrue result ↔ StackMeets (wants_of_return kind) (map slot_seen stack.now) }
{
    match kind {
        Some(kind) => top_meets(Want::Of(kind), stack),
        None => true,
    }
}

/// Whether a shape serves the instruction at an index of these (JVMS 4.10.1.9).
///
/// # Errors
///
/// `Memory` where memory runs out.
pub fn serves(
    alloc: Global,
    operations: &[Operation],
    at: u32,
    operation: &Operation,
    s: &Shape,
) -> Result<bool, Memory>
    ensures { IfOk result (λ ok. IsTrue ok
        ↔ ServesOperation operations.now at operation.now (shape_seen s.now)) }
{
    let stack = s.stack.as_slice();
    let locals = s.locals.as_slice();
    match operation.form() {
        OperationForm::Do(basic) => serves_basic(alloc, operations, at, basic, stack),
        OperationForm::Load(kind, slot) => Ok(local_meets(moved(*kind), locals, *slot)),
        OperationForm::Store(kind, _) => Ok(top_meets(moved(*kind), stack)),
        OperationForm::Increment(slot, _) => Ok(local_meets(int(), locals, *slot)),
        OperationForm::Branch(condition, _) => serves_branch(alloc, *condition, stack),
        OperationForm::Goto(_) => Ok(true),
        OperationForm::Switch(_, _) => Ok(top_meets(int(), stack)),
        OperationForm::Return(kind) => Ok(serves_return(*kind, stack)),
    }
}
