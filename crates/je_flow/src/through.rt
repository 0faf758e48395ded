//! How a shape flows through an instruction (JVMS 4.10.1.9 and 6.5).

ghost use Rattle.std.specs.Prelude.{◌≡◌, [], ◌∷◌, IfOk, length, map, option_map};
ghost use Rattle.std.specs.Option.{option_copied};
ghost use Rattle.je_machine.specs.Action.{kind_of_element};
ghost use Rattle.je_machine.specs.Condition.{condition_operands};
ghost use Rattle.je_value.specs.Action.{element_in};
ghost use Rattle.je_value.specs.Condition.{condition_in};
ghost use Rattle.je_shape.specs.Shape.{AreAlike, local_at};
ghost use Rattle.je_shape.specs.Flow.{slot_of_kind, slot_of_type, component_name, names_of};
ghost use Rattle.je_shape.specs.Flow.{top_item, below_top, under_items, stored, given, left_by};
ghost use Rattle.je_shape.specs.Flow.{copied, constructed};
ghost use Rattle.je_shape.specs.Flow.{acted, constructor, act_flow, flow_basic, flow, shape_of};
ghost use Rattle.je_flow.specs.Alike.{AreSlotsAlike, AreGivenAlike};
ghost use Rattle.je_shape.specs.Views.{slot_seen, shape_seen};

use crate::classes::{components, object_of, slot_of_kind, slot_of_type, slot_of_value};
use crate::locals::{local_at, stored};
use crate::making::{constructed, constructor, forgot_all};
use crate::stack::{below_top, copied, pushed, top_item, under_items, under_places};
use je_base::{Memory, Run, Text};
use je_shape::{Shape, Slot, copy_slots, of_names};
use je_value::{
    Action, ActionForm, Basic, BasicForm, Condition, Element, FieldType, Kind, Operation,
    OperationForm, condition_operands, kind_of_element,
};
use sqlite_items::Items;
use std::alloc::Global;

/// The item at the top, and Top from nothing.
fn copy_top(stack: &[Slot]) -> Result<Slot, Memory>
    ensures { IfOk result (λ s. slot_seen s ≡ top_item (map slot_seen stack.now)) }
{
    match top_item(stack) {
        Some(slot) => slot.copy(),
        None => Ok(Slot::Top),
    }
}

/// The local variable of an index.
fn copy_local(locals: &[Slot], slot: usize) -> Result<Slot, Memory>
    ensures { IfOk result (λ s. slot_seen s ≡ local_at (map slot_seen locals.now) slot) }
{
    match local_at(locals, slot) {
        Some(slot) => slot.copy(),
        None => Ok(Slot::Top),
    }
}

/// The names of a reference, and none of every other slot.
fn names_of(slot: &Slot) -> &[Text]
    ensures { result.now ≡ names_of (slot_seen slot.now) }
{
    match slot {
        Slot::Ref(names) => names.as_slice(),
        Slot::Top
        | Slot::Int
        | Slot::Float
        | Slot::Long
        | Slot::Double
        | Slot::Null
        | Slot::UninitThis
        | Slot::Uninit(_) => &[],
    }
}

/// The names of the item at the top, if it is a reference.
fn top_names(stack: &[Slot]) -> &[Text]
    ensures { result.now ≡ names_of (top_item (map slot_seen stack.now)) }
{
    match top_item(stack) {
        Some(slot) => names_of(slot),
        None => &[],
    }
}

/// What is known of an element that is loaded from the array under the top.
fn loaded(alloc: Global, element: Element, stack: &[Slot]) -> Result<Slot, Memory>
    ensures { IfOk result (λ slot. AreSlotsAlike (slot_seen slot)
        (slot_of_kind (kind_of_element (element_in element))
        (map component_name (names_of (top_item (below_top (map slot_seen stack.now))))))) }
{
    let names = components(alloc, top_names(below_top(stack)))?;
    let of = of_names(alloc, names)?;
    Ok(slot_of_kind(kind_of_element(element), of))
}

/// What is known of a value of a type, if there is one.
fn slot_of_answer(alloc: Global, of: Option<&FieldType>) -> Result<Option<Slot>, Memory>
    ensures { IfOk result (λ slot.
        option_map slot_seen slot ≡ option_map slot_of_type (option_copied of.entry)) }
{
    match of {
        Some(of) => Ok(Some(slot_of_type(alloc, of)?)),
        None => Ok(None),
    }
}

/// What is known of a value of a kind that names no class, if there is one.
fn slot_of_result(kind: Option<Kind>) -> Option<Slot>
    ensures { option_map slot_seen result ≡ option_map (λ kind. slot_of_kind kind []) kind }
{
    match kind {
        Some(kind) => Some(slot_of_kind(kind, Slot::Null)),
        None => None,
    }
}

/// What is pushed for the result of an action.
#[tactic(auto, using(crate::proofs::AlikeLemmas::given_alike))]
fn given(alloc: Global, at: u32, action: &Action, stack: &[Slot]) -> Result<Option<Slot>, Memory>
    ensures { IfOk result (λ slot. AreGivenAlike (option_map slot_seen slot)
        (given at action.now (map slot_seen stack.now))) }
{
    match action.form() {
        ActionForm::LoadElement(element) => Ok(Some(loaded(alloc, *element, stack)?)),
        ActionForm::GetField(field) => Ok(Some(slot_of_type(alloc, field.field_type())?)),
        ActionForm::GetStatic(field) => Ok(Some(slot_of_type(alloc, field.field_type())?)),
        ActionForm::Invoke(_, _, types) => slot_of_answer(alloc, types.answer()),
        ActionForm::New(_) => Ok(Some(Slot::Uninit(at))),
        ActionForm::NewArray(of, _) => Ok(Some(slot_of_type(alloc, of)?)),
        ActionForm::CheckCast(class) => Ok(Some(object_of(alloc, class)?)),
        _ => Ok(slot_of_result(action.result_of())),
    }
}

/// The local variables behind an action.
fn left_by(alloc: Global, at: u32, action: &Action, locals: &[Slot]) -> Result<Items<Slot>, Memory>
    ensures { IfOk result (λ all.
        map slot_seen all ≡ left_by at action.now (map slot_seen locals.now)) }
{
    match action.form() {
        ActionForm::New(_) => forgot_all(alloc, at, locals),
        _ => copy_slots(alloc, locals),
    }
}

/// What a shape becomes by an action that calls no constructor.
fn acted(alloc: Global, at: u32, action: &Action, s: &Shape) -> Result<Shape, Memory>
    ensures { IfOk result (λ t. AreAlike (shape_seen t) (acted at action.now (shape_seen s.now))) }
{
    let slot = given(alloc, at, action, s.stack.as_slice())?;
    let kinds = action.operands_of(alloc)?;
    let count = kinds.len();
    let stack = pushed(alloc, slot, under_items(count, s.stack.as_slice()))?;
    let locals = left_by(alloc, at, action, s.locals.as_slice())?;
    Ok(Shape { stack, locals })
}

/// What a shape becomes by a call of a constructor of a class with so many parameters.
fn constructor_called(
    alloc: Global,
    own: &Text,
    class: &Run,
    count: usize,
    s: &Shape,
) -> Result<Shape, Memory>
    ensures { IfOk result (λ t. shape_seen t ≡ (
        let target = under_items count (map slot_seen s.now.stack) in
        constructed own.now class.now (top_item target)
        (shape_of (below_top target) (map slot_seen s.now.locals)))) }
{
    let target = under_items(count, s.stack.as_slice());
    let stack = below_top(target);
    match top_item(target) {
        Some(slot) => constructed(alloc, own, class, slot, stack, s.locals.as_slice()),
        None => with_stack(alloc, stack, s),
    }
}

/// What a shape becomes by an action.
#[tactic(auto, using(crate::proofs::AlikeLemmas::same_alike))]
fn act_flow(alloc: Global, own: &Text, at: u32, action: &Action, s: &Shape) -> Result<Shape, Memory>
    ensures { IfOk result (λ t. AreAlike (shape_seen t)
        (act_flow own.now at action.now (constructor action.now) (shape_seen s.now))) }
{
    match constructor(action) {
        Some((class, count)) => constructor_called(alloc, own, class, count, s),
        None => acted(alloc, at, action, s),
    }
}

/// The shape with another stack.
fn with_stack(alloc: Global, stack: &[Slot], s: &Shape) -> Result<Shape, Memory>
    ensures { IfOk result (λ t.
        shape_seen t ≡ shape_of (map slot_seen stack.now) (map slot_seen s.now.locals)) }
{
    let stack = copy_slots(alloc, stack)?;
    let locals = copy_slots(alloc, s.locals.as_slice())?;
    Ok(Shape { stack, locals })
}

/// The shape with a slot above a part of its stack.
fn with_top(alloc: Global, slot: Slot, stack: &[Slot], s: &Shape) -> Result<Shape, Memory>
    ensures { IfOk result (λ t. shape_seen t
        ≡ shape_of (slot_seen slot ∷ map slot_seen stack.now) (map slot_seen s.now.locals)) }
{
    let stack = pushed(alloc, Some(slot), stack)?;
    let locals = copy_slots(alloc, s.locals.as_slice())?;
    Ok(Shape { stack, locals })
}

/// The shape with the two items at its top turned round.
fn swapped(alloc: Global, s: &Shape) -> Result<Shape, Memory>
    ensures { IfOk result (λ t. shape_seen t ≡ (
        let stack = map slot_seen s.now.stack in
        shape_of (top_item (below_top stack) ∷ top_item stack ∷ below_top (below_top stack))
        (map slot_seen s.now.locals))) }
{
    let under = below_top(s.stack.as_slice());
    let second = copy_top(s.stack.as_slice())?;
    let rest = pushed(alloc, Some(second), below_top(under))?;
    with_top(alloc, copy_top(under)?, rest.as_slice(), s)
}

/// The shape with places of its stack once more.
fn with_copied(alloc: Global, places: usize, deep: usize, s: &Shape) -> Result<Shape, Memory>
    ensures { IfOk result (λ t. shape_seen t ≡ shape_of
        (copied places deep (map slot_seen s.now.stack)) (map slot_seen s.now.locals)) }
{
    let stack = copied(alloc, places, deep, s.stack.as_slice())?;
    let locals = copy_slots(alloc, s.locals.as_slice())?;
    Ok(Shape { stack, locals })
}

/// What a shape becomes by an instruction that works on the stack and the outside alone.
#[tactic(auto, using(crate::proofs::AlikeLemmas::same_alike))]
fn flow_basic(alloc: Global, own: &Text, at: u32, basic: &Basic, s: &Shape) -> Result<Shape, Memory>
    ensures { IfOk result (λ t. AreAlike (shape_seen t)
        (flow_basic own.now at basic.now (shape_seen s.now))) }
{
    let stack = s.stack.as_slice();
    match basic.form() {
        BasicForm::Nop => s.copy(alloc),
        BasicForm::Push(value) => with_top(alloc, slot_of_value(alloc, value)?, stack, s),
        BasicForm::Drop(places) => with_stack(alloc, under_places(*places, stack), s),
        BasicForm::Copy(places, deep) => with_copied(alloc, *places, *deep, s),
        BasicForm::Swap => swapped(alloc, s),
        BasicForm::Act(action) => act_flow(alloc, own, at, action, s),
        BasicForm::Throw => with_stack(alloc, below_top(stack), s),
    }
}

/// The shape with the item at its top in a local variable.
fn with_stored(alloc: Global, slot: usize, s: &Shape) -> Result<Shape, Memory>
    ensures { IfOk result (λ t. shape_seen t ≡ (let stack = map slot_seen s.now.stack in
        shape_of (below_top stack)
        (stored slot (top_item stack) (map slot_seen s.now.locals)))) }
{
    let locals = copy_slots(alloc, s.locals.as_slice())?;
    let locals = stored(slot, copy_top(s.stack.as_slice())?, locals)?;
    let stack = copy_slots(alloc, below_top(s.stack.as_slice()))?;
    Ok(Shape { stack, locals })
}

/// The shape without the operands of a condition.
fn without_operands(alloc: Global, condition: Condition, s: &Shape) -> Result<Shape, Memory>
    ensures { IfOk result (λ t. shape_seen t ≡ shape_of
        (under_items (length (condition_operands (condition_in condition)))
        (map slot_seen s.now.stack)) (map slot_seen s.now.locals)) }
{
    let kinds = condition_operands(alloc, condition)?;
    let count = kinds.len();
    with_stack(alloc, under_items(count, s.stack.as_slice()), s)
}

/// What a shape becomes by the instruction at an index, in a method of a class (JVMS 4.10.1.9).
///
/// # Errors
///
/// `Memory` where memory runs out, and where a name that the instruction gives is in no modified
/// UTF-8, as no name of a class file is.
#[tactic(auto, using(crate::proofs::AlikeLemmas::same_alike))]
pub fn flow_through(
    alloc: Global,
    class_name: &Text,
    at: u32,
    operation: &Operation,
    s: &Shape,
) -> Result<Shape, Memory>
    ensures { IfOk result (λ t. AreAlike (shape_seen t)
        (flow class_name.now at operation.now (shape_seen s.now))) }
{
    let stack = s.stack.as_slice();
    match operation.form() {
        OperationForm::Do(basic) => flow_basic(alloc, class_name, at, basic, s),
        OperationForm::Load(_, slot) => {
            with_top(alloc, copy_local(s.locals.as_slice(), *slot)?, stack, s)
        }
        OperationForm::Store(_, slot) => with_stored(alloc, *slot, s),
        OperationForm::Branch(condition, _) => without_operands(alloc, *condition, s),
        OperationForm::Switch(_, _) | OperationForm::Return(Some(_)) => {
            with_stack(alloc, below_top(stack), s)
        }
        OperationForm::Increment(_, _) | OperationForm::Goto(_) | OperationForm::Return(None) => {
            s.copy(alloc)
        }
    }
}
