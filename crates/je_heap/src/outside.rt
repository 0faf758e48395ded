//! What a method's run shares with the world outside of it.

ghost use Rattle.std.specs.Prelude.{◌≡◌, [], ◌++◌, IfOk, IfNone, codes, option_to_list};
ghost use Rattle.je_machine.specs.Outside.{with_heap, raise, throw_admitted, throw_reference};
ghost use Rattle.je_machine.specs.Outside.{reply_in, with_event, next_reply, invoke, next_number};
ghost use Rattle.je_machine.specs.Outside.{float_operation, monitor_operation};
ghost use Rattle.je_heap.specs.Outside.{reply_of};
ghost use Rattle.je_heap.specs.Response.{response_of, is_thrown};

use crate::discard::discard;
use crate::event::{Answer, Event, Reply, value_or_zero};
use crate::heap::{Heap, allocate, next_object};
use crate::object::{copy_values, new_instance};
use je_base::{Memory, Run};
use je_value::{Action, Kind, KindForm, Value, ValueForm, admit};
use sqlite_items::Items;
use std::alloc::Global;
use std::marker::Model;

/// The heap, the events that were caused, the first one first, and the answers that are still to
/// come, the next one first. Contracts see it as the definition's `Outside`.
#[derive(Debug, Drop)]
pub struct Outside {
    heap: Heap,
    events: Items<Event>,
    answers: Items<Answer>,
}

impl Model for Outside {
    ghost use Rattle.je_machine.specs.Outside as machine;
    ghost use Rattle.je_heap.specs.OutsideCode.{outside_code};

    ghost Value = { machine.Outside };

    ghost coded = { outside_code };

    ghost view = { λ o. record { heap = o.heap; events = o.events; answers = o.answers } };
}

/// What an action comes to: a value if it has a result, a throw, or no answer, since all are used
/// up. Then the run waits.
#[derive(Debug, Drop)]
pub enum Response {
    Gave(Option<Value>, Outside),
    Threw(Value, Outside),
    Waits(Outside),
}

impl Outside {
    /// The outside with this heap, after these events and before these answers.
    pub fn new(heap: Heap, events: Items<Event>, answers: Items<Answer>) -> Outside
        ensures { result ≡ record { heap = heap; events = events; answers = answers } }
    {
        Outside {
            heap,
            events,
            answers,
        }
    }

    /// The heap.
    pub fn heap(&self) -> &Heap
        ensures { result.now ≡ self.now.heap }
    {
        &self.heap
    }

    /// The events, the first one first.
    pub fn events(&self) -> &[Event]
        ensures { result.now ≡ self.now.events }
    {
        self.events.as_slice()
    }

    /// The answers that are still to come, the next one first.
    pub fn answers(&self) -> &[Answer]
        ensures { result.now ≡ self.now.answers }
    {
        self.answers.as_slice()
    }

    /// The heap, the events and the answers.
    pub fn into_parts(self) -> (Heap, Items<Event>, Items<Answer>)
        ensures { self ≡ record { heap = result.0; events = result.1; answers = result.2 } }
    {
        (self.heap, self.events, self.answers)
    }
}

/// The outside with another heap.
pub fn with_heap(heap: Heap, outside: Outside) -> Outside
    ensures { result ≡ with_heap heap outside }
{
    let (_, events, answers) = outside.into_parts();
    Outside::new(heap, events, answers)
}

/// An exception of the machine's own: a new object of the class.
///
/// # Errors
///
/// `Memory` where memory runs out.
pub fn raise(alloc: Global, class: &[u8], outside: Outside) -> Result<Response, Memory>
    ensures { IfOk result (λ r. response_of r ≡ raise class.now outside) }
{
    let name = Run::of_vec(alloc, Vec::from_slice(alloc, class)?)?;
    let (heap, events, answers) = outside.into_parts();
    let reference = next_object(&heap);
    let heap = allocate(new_instance(alloc, name), heap)?;
    Ok(Response::Threw(reference, Outside::new(heap, events, answers)))
}

/// The name of the class of what is thrown where a target is null.
fn null_pointer_name() -> &'static [u8]
    ensures { result.now ≡ codes "java/lang/NullPointerException" }
{
    b"java/lang/NullPointerException".as_slice()
}

/// A new NullPointerException.
///
/// # Errors
///
/// `Memory` where memory runs out.
pub fn null_pointer(alloc: Global, outside: Outside) -> Result<Response, Memory>
    ensures { IfOk result (λ r.
        response_of r ≡ raise (codes "java/lang/NullPointerException") outside) }
{
    let response = raise(alloc, null_pointer_name(), outside)?;
    Ok(response)
}

/// Whether it is an object or a constant, which is thrown as it is.
fn is_thrown(value: &Value) -> bool
    ensures { result ≡ is_thrown value.now }
{
    matches!(value.form(), ValueForm::Object(_) | ValueForm::Constant(_))
}

/// Throws a value that is admitted as a reference.
#[tactic(auto, using(crate::proofs::ThrowLemmas::throws))]
fn throw_admitted(alloc: Global, reference: Value, outside: Outside) -> Result<Response, Memory>
    ensures { IfOk result (λ r. response_of r ≡ throw_admitted reference outside) }
{
    if is_thrown(&reference) {
        Ok(Response::Threw(reference, outside))
    } else {
        discard(reference);
        let response = null_pointer(alloc, outside)?;
        Ok(response)
    }
}

/// Throws a reference. Null, and what is no reference, count as a new NullPointerException.
///
/// # Errors
///
/// `Memory` where memory runs out.
pub fn throw_reference(
    alloc: Global,
    reference: Value,
    outside: Outside,
) -> Result<Response, Memory>
    ensures { IfOk result (λ r. response_of r ≡ throw_reference reference outside) }
{
    let admitted = admit(Kind::of(KindForm::Reference), reference);
    throw_admitted(alloc, admitted, outside)
}

/// What a reply comes to.
///
/// # Errors
///
/// `Memory` where memory runs out.
pub fn reply_in(alloc: Global, reply: Reply, outside: Outside) -> Result<Response, Memory>
    ensures { IfOk result (λ r. response_of r ≡ reply_in (reply_of reply) outside) }
{
    match reply {
        Reply::Gives(value) => Ok(Response::Gave(Some(value), outside)),
        Reply::Throws(reference) => throw_reference(alloc, reference, outside),
    }
}

/// The outside once it has seen the event of an action, with the heap as it is.
///
/// # Errors
///
/// `Memory` where memory runs out.
pub fn with_event(
    alloc: Global,
    action: &Action,
    operands: &[Value],
    outside: Outside,
) -> Result<Outside, Memory>
    ensures { IfOk result (λ after. after ≡ with_event action.now operands.now outside) }
{
    let (heap, mut events, answers) = outside.into_parts();
    let event = event_of(alloc, action, operands, &heap)?;
    events.push(event)?;
    Ok(Outside::new(heap, events, answers))
}

/// The event of an action.
fn event_of(
    alloc: Global,
    action: &Action,
    operands: &[Value],
    heap: &Heap,
) -> Result<Event, Memory>
    ensures { IfOk result (λ e. e
        ≡ record { action = action.now; operands = operands.now; heap = heap.now }) }
{
    let action = action.copy(alloc)?;
    let operands = copy_values(alloc, operands)?;
    let heap = heap.copy(alloc)?;
    Ok(Event::new(action, operands, heap))
}

/// The first of the answers, which is taken away.
fn take_first(mut answers: Items<Answer>) -> (Option<Answer>, Items<Answer>)
    ensures list { answers ≡ option_to_list result.0 ++ result.1 }
    ensures none { IfNone result.0 (answers ≡ []) }
{
    if answers.len() == 0 {
        (None, answers)
    } else {
        let first = answers.remove(0);
        (Some(first), answers)
    }
}

/// Takes the next answer.
///
/// # Errors
///
/// `Memory` where memory runs out.
pub fn next_reply(alloc: Global, outside: Outside) -> Result<Response, Memory>
    ensures { IfOk result (λ r. response_of r ≡ next_reply outside.answers outside) }
{
    let (heap, events, answers) = outside.into_parts();
    let (first, answers) = take_first(answers);
    match first {
        None => Ok(Response::Waits(Outside::new(heap, events, answers))),
        Some(answer) => {
            let (reply, heap) = answer.into_parts();
            reply_in(alloc, reply, Outside::new(heap, events, answers))
        }
    }
}

/// A call: one event, and then the next answer.
///
/// # Errors
///
/// `Memory` where memory runs out.
pub fn invoke(
    alloc: Global,
    action: &Action,
    operands: &[Value],
    outside: Outside,
) -> Result<Response, Memory>
    ensures { IfOk result (λ r. response_of r ≡ invoke action.now operands.now outside) }
{
    let after = with_event(alloc, action, operands, outside)?;
    next_reply(alloc, after)
}

/// The value of the next answer, of a kind, of which a throw counts as zero. The heap stays.
pub fn next_number(kind: Kind, outside: Outside) -> Response
    ensures { response_of result ≡ next_number kind outside.answers outside }
{
    let (heap, events, answers) = outside.into_parts();
    let (first, answers) = take_first(answers);
    match first {
        None => Response::Waits(Outside::new(heap, events, answers)),
        Some(answer) => {
            let (reply, _) = answer.into_parts();
            let value = value_or_zero(kind, reply);
            Response::Gave(Some(value), Outside::new(heap, events, answers))
        }
    }
}

/// A floating-point operation: one event, and then the value of the next answer, of which a throw
/// counts as zero. The heap stays.
///
/// # Errors
///
/// `Memory` where memory runs out.
pub fn float_operation(
    alloc: Global,
    kind: Kind,
    action: &Action,
    operands: &[Value],
    outside: Outside,
) -> Result<Response, Memory>
    ensures { IfOk result (λ r.
        response_of r ≡ float_operation kind action.now operands.now outside) }
{
    let after = with_event(alloc, action, operands, outside)?;
    Ok(next_number(kind, after))
}

/// A monitor instruction: one event, and no answer.
///
/// # Errors
///
/// `Memory` where memory runs out.
pub fn monitor_operation(
    alloc: Global,
    action: &Action,
    operands: &[Value],
    outside: Outside,
) -> Result<Response, Memory>
    ensures { IfOk result (λ r. response_of r ≡ monitor_operation action.now operands.now outside) }
{
    let after = with_event(alloc, action, operands, outside)?;
    Ok(Response::Gave(None, after))
}
