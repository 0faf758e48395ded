//! The machine: what a program does in a step and in at most so many (JVMS 2.6, 2.10 and 6.5).

ghost use Rattle.std.specs.Prelude.{◌≡◌, suc, Some, IfOk};
ghost use Rattle.std.specs.Option.{option_copied};
ghost use Rattle.je_machine.specs.Frame.{frame_of};
ghost use Rattle.je_machine.specs.Machine.{state_at, catches, covers, is_handler_of, catcher};
ghost use Rattle.je_machine.specs.Machine.{enter_handler, follow, perform_at, take_step, run_of};
ghost use Rattle.je_machine.specs.Machine.{machine_step};
ghost use Rattle.je_machine.specs.Step.{iterate_all, ends, goes_on};
ghost use Rattle.je_vm.specs.Frame.{flow_in};
ghost use Rattle.je_vm.specs.Machine.{ending_in, outcome_in, progress_in, paused_at};

use crate::frame::{Flow, Frame, perform};
use crate::stack::above;
use crate::start::start_of;
use crate::state::State;
use je_base::{Memory, Run};
use je_heap::{Answer, Classes, Heap, Outside, copy_values, is_instance};
use je_value::{Handler, Operation, Program, Value};
use sqlite_items::Items;
use std::alloc::Global;

/// How a method ends: it returns, with a result if it has one, or throws a reference.
#[derive(Debug, Drop)]
pub enum Ending {
    Returned(Option<Value>),
    Thrown(Value),
}

/// What a run has come to: how it ended, or none where it goes on, what is left of the bound, and
/// the locals and the outside as they are then.
#[derive(Debug, Drop)]
pub struct Outcome {
    pub ending: Option<Ending>,
    pub left: u64,
    pub locals: Items<Value>,
    pub outside: Outside,
}

/// What a step comes to: it goes on in another state with this bound left, or stops, since the
/// method ended, the bound is used up, or no answer comes.
#[derive(Debug, Drop)]
pub enum Progress {
    Goes(u64, State),
    Stops(Outcome),
}

/// A run that ends.
fn ends(ending: Ending, left: u64, locals: Items<Value>, outside: Outside) -> Progress
    ensures { progress_in result ≡ ends (ending_in ending) left locals outside }
{
    Progress::Stops(Outcome {
        ending: Some(ending),
        left,
        locals,
        outside,
    })
}

/// A run that has not ended.
fn goes_on(left: u64, locals: Items<Value>, outside: Outside) -> Progress
    ensures { progress_in result ≡ goes_on left locals outside }
{
    Progress::Stops(Outcome {
        ending: None,
        left,
        locals,
        outside,
    })
}

/// Whether a handler of this class, or of all where it is none, catches a reference.
fn catches(classes: &Classes, heap: &Heap, reference: &Value, class: Option<&Run>) -> bool
    ensures { result ≡ catches classes.now heap.now reference.now (option_copied class.entry) }
{
    match class {
        None => true,
        Some(class) => is_instance(classes, heap, reference, class.as_slice()),
    }
}

/// Whether the handler covers the place.
fn covers(place: usize, handler: &Handler) -> bool
    ensures { result ≡ covers place handler.now }
{
    handler.start() <= place && place < handler.end()
}

/// Whether the handler covers the place and its class fits.
fn is_handler_of(
    classes: &Classes,
    heap: &Heap,
    reference: &Value,
    place: usize,
    handler: &Handler,
) -> bool
    ensures { result ≡ is_handler_of classes.now heap.now reference.now place handler.now }
{
    covers(place, handler) && catches(classes, heap, reference, handler.catch_class())
}

/// The target of the first handler that covers the place and fits.
pub fn catcher(
    handlers: &[Handler],
    classes: &Classes,
    place: usize,
    heap: &Heap,
    reference: &Value,
) -> Option<usize>
    ensures { result ≡ catcher handlers.now classes.now place heap.now reference.now }
{
    handlers
        .iter()
        .find(|h| is_handler_of(classes, heap, reference, place, *h))
        .map(|h| h.target())
}

/// What a throw comes to: the handler at the target is entered with the exception alone on its
/// stack, or the method ends.
fn enter_handler(
    alloc: Global,
    target: Option<usize>,
    left: u64,
    reference: Value,
    locals: Items<Value>,
    outside: Outside,
) -> Result<Progress, Memory>
    ensures { IfOk result (λ p. progress_in p
        ≡ enter_handler target left reference locals outside) }
{
    match target {
        Some(target) => {
            let stack = above(alloc, reference, Items::new(alloc))?;
            let frame = Frame::of(stack, locals);
            Ok(Progress::Goes(left, State::of(target, frame, outside)))
        }
        None => Ok(ends(Ending::Thrown(reference), left, locals, outside)),
    }
}

/// Where a throw at a place leads.
fn raised(
    alloc: Global,
    handlers: &[Handler],
    classes: &Classes,
    place: usize,
    left: u64,
    locals: Items<Value>,
    reference: Value,
    outside: Outside,
) -> Result<Progress, Memory>
    ensures { IfOk result (λ p. progress_in p
        ≡ enter_handler (catcher handlers.now classes.now place outside.heap reference) left
        reference locals outside) }
{
    let target = catcher(handlers, classes, place, outside.heap(), &reference);
    enter_handler(alloc, target, left, reference, locals, outside)
}

/// What follows an instruction, by the place behind it, the handlers, the place, what is left of
/// the bound, and the locals before it.
fn follow(
    alloc: Global,
    next: usize,
    handlers: &[Handler],
    classes: &Classes,
    place: usize,
    left: u64,
    locals: Items<Value>,
    flow: Flow,
) -> Result<Progress, Memory>
    ensures { IfOk result (λ p. progress_in p
        ≡ follow next (catcher handlers.now classes.now place) left locals (flow_in flow)) }
{
    match flow {
        Flow::Falls(frame, outside) => Ok(Progress::Goes(left, State::of(next, frame, outside))),
        Flow::Jumps(target, frame, outside) => {
            Ok(Progress::Goes(left, State::of(target, frame, outside)))
        }
        Flow::Leaves(answer, outside) => {
            Ok(ends(Ending::Returned(answer), left, locals, outside))
        }
        Flow::Raises(reference, outside) => raised(
            alloc, handlers, classes, place, left, locals, reference, outside,
        ),
        Flow::Halts(outside) => Ok(goes_on(left, locals, outside)),
    }
}

/// What an instruction at a state's place does.
fn perform_here(
    alloc: Global,
    handlers: &[Handler],
    classes: &Classes,
    next: usize,
    left: u64,
    operation: &Operation,
    state: State,
) -> Result<Progress, Memory>
    ensures { IfOk result (λ p. progress_in p
        ≡ perform_at classes.now next (catcher handlers.now classes.now state.place) left
        (Some operation.now) state) }
{
    let (place, frame, outside) = state.into_parts();
    let locals = copy_values(alloc, frame.locals())?;
    let flow = perform(alloc, classes, operation, frame, outside)?;
    follow(alloc, next, handlers, classes, place, left, locals, flow)
}

/// What a state comes to where nothing happens.
fn rests(left: u64, state: State) -> Progress
    ensures { progress_in result ≡ goes_on left state.frame.locals state.outside }
{
    let (_, frame, outside) = state.into_parts();
    let (_, locals) = frame.into_parts();
    goes_on(left, locals, outside)
}

/// What a program does in one step from a state, with so much left of the bound behind it.
fn step_from(
    alloc: Global,
    program: &Program,
    classes: &Classes,
    left: u64,
    state: State,
) -> Result<Progress, Memory>
    ensures { IfOk result (λ p. progress_in p
        ≡ take_step program.now classes.now (suc left) state) }
{
    let place = state.place();
    match program.operations().get(place) {
        Some(operation) => {
            let next = place + 1;
            let handlers = program.handlers();
            let progress = perform_here(alloc, handlers, classes, next, left, operation, state)?;
            Ok(progress)
        }
        None => Ok(rests(left, state)),
    }
}

/// What a program does in one step from a state, with so much left of the bound.
///
/// # Errors
///
/// `Memory` where memory runs out.
pub fn take_step(
    alloc: Global,
    program: &Program,
    classes: &Classes,
    bound: u64,
    state: State,
) -> Result<Progress, Memory>
    ensures { IfOk result (λ p. progress_in p
        ≡ take_step program.now classes.now bound state) }
{
    if bound == 0 {
        Ok(rests(0, state))
    } else {
        let progress = step_from(alloc, program, classes, bound - 1, state)?;
        Ok(progress)
    }
}

/// What has neither ended nor gone on.
fn paused(left: u64, state: State) -> Outcome
    ensures { outcome_in result ≡ paused_at left state }
{
    let (_, frame, outside) = state.into_parts();
    let (_, locals) = frame.into_parts();
    Outcome {
        ending: None,
        left,
        locals,
        outside,
    }
}

/// At most so many steps of a program from a state, until one stops.
///
/// # Errors
///
/// `Memory` where memory runs out.
pub fn iterate(
    alloc: Global,
    program: &Program,
    classes: &Classes,
    bound: u64,
    state: State,
) -> Result<Outcome, Memory>
    ensures { IfOk result (λ o. outcome_in o
        ≡ iterate_all (machine_step program.now classes.now) bound state) }
{
    let mut left = bound;
    let mut here = state;
    for _ in 0..bound {
        match take_step(alloc, program, classes, left, here)? {
            Progress::Goes(less, next) => {
                left = less;
                here = next;
            }
            Progress::Stops(outcome) => return Ok(outcome),
        }
    }
    Ok(paused(left, here))
}

/// At most `bound` instructions of the program, from its first.
///
/// # Errors
///
/// `Memory` where memory runs out.
pub fn run_of(
    alloc: Global,
    program: &Program,
    classes: &Classes,
    arguments: &[Value],
    heap: Heap,
    answers: Items<Answer>,
    bound: u64,
) -> Result<Outcome, Memory>
    ensures { IfOk result (λ o. outcome_in o
        ≡ run_of program.now classes.now arguments.now heap answers bound) }
{
    let state = start_of(alloc, program, arguments, heap, answers)?;
    iterate(alloc, program, classes, bound, state)
}
