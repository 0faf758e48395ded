//! What one instruction does (JVMS 2.6 and 6.5).

ghost use Rattle.std.specs.Prelude.{◌≡◌, ◌∷◌, ℕ, ℤ, length, option_map, IfOk};
ghost use Rattle.std.specs.List.{find};
ghost use Rattle.std.specs.Ordering.{int_eq};
ghost use Rattle.je_machine.specs.Value.{number_of};
ghost use Rattle.je_machine.specs.Condition.{is_met, condition_operands};
ghost use Rattle.je_machine.specs.Operation as operations;
ghost use Rattle.je_machine.specs.Frame.{top, below, popped, under, local_at, with_local};
ghost use Rattle.je_machine.specs.Frame.{incremented, stacked, perform_basic, frame_of, flow_of};
ghost use Rattle.je_machine.specs.Frame.{branch, chosen_case, perform};
ghost use Rattle.je_heap.specs.Response.{response_of};
ghost use Rattle.je_value.specs.Condition.{condition_in};
ghost use Rattle.je_vm.specs.Frame.{stacked_of, flow_in};

use crate::acting::act;
use crate::locals::{incremented, local_at, with_local};
use crate::stack::{above, below, copied, popped, push, top, under, under_places};
use je_base::Memory;
use je_heap::{Classes, Outside, Response, copy_values, throw_reference};
use je_value::{
    Action, Basic, BasicForm, Condition, Operation, OperationForm, SwitchCase, Value,
    condition_operands, is_met,
};
use sqlite_items::Items;
use std::alloc::Global;
use std::marker::Model;

/// The stack, whose top comes first, and the local variables. Contracts see it as the definition's
/// `Frame`.
#[derive(Debug, Drop)]
pub struct Frame {
    stack: Items<Value>,
    locals: Items<Value>,
}

impl Model for Frame {
    ghost use Rattle.je_machine.specs.Frame as machine;

    ghost Value = { machine.Frame };

    ghost use Rattle.je_vm.specs.FrameCode.{frame_code};

    ghost coded = { frame_code };

    ghost view = { λ f. record { stack = f.stack; locals = f.locals } };
}

impl Frame {
    /// The frame of this stack and these local variables.
    pub fn of(stack: Items<Value>, locals: Items<Value>) -> Frame
        ensures { result ≡ frame_of stack locals }
    {
        Frame { stack, locals }
    }

    /// The stack, whose top comes first.
    pub fn stack(&self) -> &[Value]
        ensures { result.now ≡ self.now.stack }
    {
        self.stack.as_slice()
    }

    /// The local variables by their slots.
    pub fn locals(&self) -> &[Value]
        ensures { result.now ≡ self.now.locals }
    {
        self.locals.as_slice()
    }

    /// The stack and the local variables.
    pub fn into_parts(self) -> (Items<Value>, Items<Value>)
        ensures { self ≡ frame_of result.0 result.1 }
    {
        (self.stack, self.locals)
    }
}

/// What a basic operation comes to: another stack, a throw, or a wait.
#[derive(Debug, Drop)]
pub enum Stacked {
    Stands(Items<Value>, Outside),
    Breaks(Value, Outside),
    Stalls(Outside),
}

/// What a response comes to above the rest of a stack.
fn stacked_on(alloc: Global, rest: &[Value], response: Response) -> Result<Stacked, Memory>
    ensures { IfOk result (λ s. stacked_of s ≡ stacked rest.now (response_of response)) }
{
    match response {
        Response::Gave(value, after) => {
            let rest = copy_values(alloc, rest)?;
            Ok(Stacked::Stands(push(alloc, value, rest)?, after))
        }
        Response::Threw(reference, after) => Ok(Stacked::Breaks(reference, after)),
        Response::Waits(after) => Ok(Stacked::Stalls(after)),
    }
}

/// The stack with its two values at the top turned round.
fn swapped(alloc: Global, stack: &[Value]) -> Result<Items<Value>, Memory>
    ensures { IfOk result (λ s. s
        ≡ top (below stack.now) ∷ top stack.now ∷ below (below stack.now)) }
{
    let rest = copy_values(alloc, below(below(stack)))?;
    let rest = above(alloc, top(stack)?, rest)?;
    above(alloc, top(below(stack))?, rest)
}

/// What an action comes to on the operands on a stack.
fn act_on_stack(
    alloc: Global,
    classes: &Classes,
    action: &Action,
    stack: &[Value],
    outside: Outside,
) -> Result<Stacked, Memory>
    ensures { IfOk result (λ s. stacked_of s
        ≡ perform_basic classes.now (operations.Act action.now) stack.now outside) }
{
    let kinds = action.operands_of(alloc)?;
    let count = kinds.len();
    let operands = popped(alloc, count, stack)?;
    let response = act(alloc, classes, action, operands.as_slice(), outside)?;
    stacked_on(alloc, under(count, stack), response)
}

/// What a basic operation does.
///
/// # Errors
///
/// `Memory` where memory runs out.
pub fn perform_basic(
    alloc: Global,
    classes: &Classes,
    basic: &Basic,
    stack: &[Value],
    outside: Outside,
) -> Result<Stacked, Memory>
    ensures { IfOk result (λ s. stacked_of s
        ≡ perform_basic classes.now basic.now stack.now outside) }
{
    match basic.form() {
        BasicForm::Nop => Ok(Stacked::Stands(copy_values(alloc, stack)?, outside)),
        BasicForm::Push(value) => {
            let stack = copy_values(alloc, stack)?;
            Ok(Stacked::Stands(above(alloc, value.copy()?, stack)?, outside))
        }
        BasicForm::Drop(places) => {
            let stack = copy_values(alloc, under_places(*places, stack))?;
            Ok(Stacked::Stands(stack, outside))
        }
        BasicForm::Copy(places, deep) => {
            let stack = copied(alloc, *places, *deep, stack)?;
            Ok(Stacked::Stands(stack, outside))
        }
        BasicForm::Swap => Ok(Stacked::Stands(swapped(alloc, stack)?, outside)),
        BasicForm::Act(action) => act_on_stack(alloc, classes, action, stack, outside),
        BasicForm::Throw => {
            let response = throw_reference(alloc, top(stack)?, outside)?;
            stacked_on(alloc, below(stack), response)
        }
    }
}

/// Where an instruction leads: to the next one, to a target, out of the method with a result if it
/// has one, to a handler or out by a throw, or nowhere as long as no answer comes.
#[derive(Debug, Drop)]
pub enum Flow {
    Falls(Frame, Outside),
    Jumps(usize, Frame, Outside),
    Leaves(Option<Value>, Outside),
    Raises(Value, Outside),
    Halts(Outside),
}

/// Where a basic operation leads.
fn flow_of(locals: Items<Value>, stacked: Stacked) -> Flow
    ensures { flow_in result ≡ flow_of locals (stacked_of stacked) }
{
    match stacked {
        Stacked::Stands(stack, outside) => Flow::Falls(Frame::of(stack, locals), outside),
        Stacked::Breaks(reference, outside) => Flow::Raises(reference, outside),
        Stacked::Stalls(outside) => Flow::Halts(outside),
    }
}

/// Where a jump under a condition leads.
fn branch(is_met: bool, target: usize, frame: Frame, outside: Outside) -> Flow
    ensures { flow_in result ≡ branch is_met target frame outside }
{
    if is_met {
        Flow::Jumps(target, frame, outside)
    } else {
        Flow::Falls(frame, outside)
    }
}

/// The target of the first case of this key, if there is one.
fn found_case(cases: &[SwitchCase], key: i64) -> Option<usize>
    ensures { result ≡ option_map (λ (c : ℤ × ℕ). c.1) (find (λ c. int_eq c.0 key) cases.now) }
{
    cases.iter().find(|c| c.0 as i64 == key).map(|c| c.1)
}

/// The target of the first case of this key, and the fallback where there is none.
fn chosen_case(cases: &[SwitchCase], fallback: usize, key: i64) -> usize
    ensures { result ≡ chosen_case cases.now fallback key }
{
    match found_case(cases, key) {
        Some(target) => target,
        None => fallback,
    }
}

/// What an instruction comes to that tests a condition.
fn branch_on(
    alloc: Global,
    condition: Condition,
    target: usize,
    frame: Frame,
    outside: Outside,
) -> Result<Flow, Memory>
    ensures { IfOk result (λ f. flow_in f
        ≡ (let count = length (condition_operands (condition_in condition)) in
        branch (is_met (condition_in condition) (popped count frame.stack)) target
        (frame_of (under count frame.stack) frame.locals) outside)) }
{
    let kinds = condition_operands(alloc, condition)?;
    let count = kinds.len();
    let operands = popped(alloc, count, frame.stack())?;
    let is = is_met(condition, operands.as_slice());
    let stack = copy_values(alloc, under(count, frame.stack()))?;
    let (_, locals) = frame.into_parts();
    Ok(branch(is, target, Frame::of(stack, locals), outside))
}

/// The frame with a local variable above its stack.
fn with_loaded(alloc: Global, slot: usize, frame: Frame) -> Result<Frame, Memory>
    ensures { IfOk result (λ f. f
        ≡ frame_of (local_at frame.locals slot ∷ frame.stack) frame.locals) }
{
    let (stack, locals) = frame.into_parts();
    let value = local_at(locals.as_slice(), slot)?;
    let stack = above(alloc, value, stack)?;
    Ok(Frame::of(stack, locals))
}

/// The frame with the top of its stack in a local variable.
fn with_stored(alloc: Global, slot: usize, frame: Frame) -> Result<Frame, Memory>
    ensures { IfOk result (λ f. f ≡ frame_of (below frame.stack)
        (with_local frame.locals slot (top frame.stack))) }
{
    let (stack, locals) = frame.into_parts();
    let value = top(stack.as_slice())?;
    let locals = with_local(locals, slot, value)?;
    let stack = copy_values(alloc, below(stack.as_slice()))?;
    Ok(Frame::of(stack, locals))
}

/// The frame with a number added to a local variable.
fn with_sum(slot: usize, by: i32, frame: Frame) -> Result<Frame, Memory>
    ensures { IfOk result (λ f. f ≡ frame_of frame.stack
        (with_local frame.locals slot (incremented by (local_at frame.locals slot)))) }
{
    let (stack, locals) = frame.into_parts();
    let value = local_at(locals.as_slice(), slot)?;
    let sum = incremented(by, &value);
    let locals = with_local(locals, slot, sum)?;
    Ok(Frame::of(stack, locals))
}

/// The frame without the top of its stack.
fn without_top(alloc: Global, frame: Frame) -> Result<Frame, Memory>
    ensures { IfOk result (λ f. f ≡ frame_of (below frame.stack) frame.locals) }
{
    let (stack, locals) = frame.into_parts();
    let stack = copy_values(alloc, below(stack.as_slice()))?;
    Ok(Frame::of(stack, locals))
}

/// The number of the int or long at the top.
fn number_on_top(stack: &[Value]) -> Result<i64, Memory>
    ensures { IfOk result (λ n. n ≡ number_of (top stack.now)) }
{
    let value = top(stack)?;
    Ok(value.number_of())
}

/// What an instruction does that works on the stack and the outside alone.
fn perform_do(
    alloc: Global,
    classes: &Classes,
    basic: &Basic,
    frame: Frame,
    outside: Outside,
) -> Result<Flow, Memory>
    ensures { IfOk result (λ f. flow_in f
        ≡ flow_of frame.locals (perform_basic classes.now basic.now frame.stack outside)) }
{
    let (stack, locals) = frame.into_parts();
    let stacked = perform_basic(alloc, classes, basic, stack.as_slice(), outside)?;
    Ok(flow_of(locals, stacked))
}

/// What one instruction does.
///
/// # Errors
///
/// `Memory` where memory runs out.
pub fn perform(
    alloc: Global,
    classes: &Classes,
    operation: &Operation,
    frame: Frame,
    outside: Outside,
) -> Result<Flow, Memory>
    ensures { IfOk result (λ f. flow_in f
        ≡ perform classes.now operation.now frame outside) }
{
    match operation.form() {
        OperationForm::Do(basic) => perform_do(alloc, classes, basic, frame, outside),
        OperationForm::Load(_, slot) => {
            Ok(Flow::Falls(with_loaded(alloc, *slot, frame)?, outside))
        }
        OperationForm::Store(_, slot) => {
            Ok(Flow::Falls(with_stored(alloc, *slot, frame)?, outside))
        }
        OperationForm::Increment(slot, by) => {
            Ok(Flow::Falls(with_sum(*slot, *by, frame)?, outside))
        }
        OperationForm::Branch(condition, target) => {
            branch_on(alloc, *condition, *target, frame, outside)
        }
        OperationForm::Goto(target) => Ok(Flow::Jumps(*target, frame, outside)),
        OperationForm::Switch(cases, fallback) => {
            let key = number_on_top(frame.stack())?;
            let target = chosen_case(cases.as_slice(), *fallback, key);
            Ok(Flow::Jumps(target, without_top(alloc, frame)?, outside))
        }
        OperationForm::Return(None) => Ok(Flow::Leaves(None, outside)),
        OperationForm::Return(Some(_)) => { Ok(Flow::Leaves(Some(top(frame.stack())?), outside)) }
    }
}
