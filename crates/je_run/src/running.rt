//! Runs of a method, whose calls are answered from a list.

use crate::shown::{put_ending, put_event};
use crate::watched::watched;
use je_base::Memory;
use je_heap::{Answer, Classes, Event, Outside, Reply};
use je_least::Shapes;
use je_value::{ActionForm, BasicForm, Operation, OperationForm, Program};
use je_vm::{Progress, State, take_step};
use sqlite_items::Items;
use std::alloc::Global;

/// Whether an instruction takes an answer.
fn takes_answer(operation: &Operation) -> bool {
    match operation.form() {
        OperationForm::Do(basic) => match basic.form() {
            BasicForm::Act(action) => matches!(
                action.form(),
                ActionForm::Invoke(_, _, _) | ActionForm::FloatOperation(_, _, _)
            ),
            _ => false,
        },
        _ => false,
    }
}

/// The reply that comes next: that of an answer which was not taken, or the last of the list.
fn next_reply(answers: &mut Items<Answer>, replies: &mut Vec<Reply>) -> Option<Reply> {
    if answers.len() == 0 {
        return replies.pop();
    }
    let (reply, _) = answers.remove(0).into_parts();
    Some(reply)
}

/// The outside with the next answer, which leaves the heap as it is.
fn answered(alloc: Global, outside: Outside, replies: &mut Vec<Reply>) -> Result<Outside, Memory> {
    let (heap, events, mut answers) = outside.into_parts();
    if let Some(reply) = next_reply(&mut answers, replies) {
        answers.push(Answer::new(reply, heap.copy(alloc)?))?;
    }
    Ok(Outside::new(heap, events, answers))
}

/// The state with an answer where its instruction takes one.
fn ready(
    alloc: Global,
    program: &Program,
    state: State,
    replies: &mut Vec<Reply>,
) -> Result<State, Memory> {
    let (place, frame, outside) = state.into_parts();
    match program.operations().get(place) {
        Some(operation) if takes_answer(operation) => {
            let outside = answered(alloc, outside, replies)?;
            Ok(State::of(place, frame, outside))
        }
        _ => Ok(State::of(place, frame, outside)),
    }
}

/// Adds the lines of events.
fn put_events(alloc: Global, text: &mut String, events: &[Event]) -> Result<(), Memory> {
    for event in events {
        put_event(alloc, text, event)?;
    }
    Ok(())
}

/// The state without its events, whose lines are added.
fn told(alloc: Global, text: &mut String, state: State) -> Result<State, Memory> {
    let (place, frame, outside) = state.into_parts();
    let (heap, events, answers) = outside.into_parts();
    put_events(alloc, text, events.as_slice())?;
    let outside = Outside::new(heap, Items::new(alloc), answers);
    Ok(State::of(place, frame, outside))
}

/// One step from a state, whose lines are added. There is no next state where the run ended, or no
/// reply is left.
fn step(
    alloc: Global,
    program: &Program,
    classes: &Classes,
    text: &mut String,
    state: State,
) -> Result<Option<State>, Memory> {
    match take_step(alloc, program, classes, 1, state)? {
        Progress::Goes(_, next) => {
            let next = told(alloc, text, next)?;
            Ok(Some(next))
        }
        Progress::Stops(outcome) => {
            put_events(alloc, text, outcome.outside.events())?;
            put_ending(alloc, text, &outcome.ending, outcome.outside.heap())?;
            Ok(None)
        }
    }
}

/// Adds the line of the places.
fn put_places(text: &mut String, places: &str) -> Result<(), Memory> {
    text.push_str(places)?;
    text.push_str("\n")?;
    Ok(())
}

/// The state, which is watched where there are shapes.
fn seen(shapes: &Option<Shapes>, state: State, text: &mut String) -> Result<State, Memory> {
    match shapes {
        Some(found) => watched(found.list.as_slice(), state, text),
        None => Ok(state),
    }
}

/// Adds the lines of a run of at most so many steps from a state, with the replies that its calls
/// get, the first one last: the events, how it ended, and at which instructions it was.
pub fn put_run(
    alloc: Global,
    program: &Program,
    classes: &Classes,
    limit: u32,
    state: State,
    shapes: &Option<Shapes>,
    replies: &mut Vec<Reply>,
    text: &mut String,
) -> Result<(), Memory> {
    let mut here = state;
    let mut places = String::from_str(alloc, "at")?;
    for _ in 0..limit {
        write!(places, " {}", here.place())?;
        let now = seen(shapes, here, text)?;
        let now = ready(alloc, program, now, replies)?;
        match step(alloc, program, classes, text, now)? {
            Some(next) => here = next,
            None => return put_places(text, places.as_str()),
        }
    }
    text.push_str("goes on\n")?;
    put_places(text, places.as_str())
}
