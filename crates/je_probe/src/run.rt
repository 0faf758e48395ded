//! A run in which each answer leaves the heap as it is.

ghost use Rattle.std.specs.Prelude.{◌≡◌, [], ◌++◌, IfOk, IfNone, option_to_list};
ghost use Rattle.je_machine.specs.Machine.{take_step, start_of};
ghost use Rattle.je_machine.specs.Step.{iterate_all};
ghost use Rattle.je_probe.specs.Kept.{kept_answers, kept_outside, kept, kept_step, kept_run};
ghost use Rattle.je_probe.specs.Kept.{no_classes};
ghost use Rattle.je_vm.specs.Machine.{outcome_in, progress_in, paused_at};

use je_base::Memory;
use je_heap::{Answer, Classes, Heap, Outside};
use je_value::{Program, Value};
use je_vm::{Outcome, Progress, State, start_of, take_step};
use sqlite_items::Items;
use std::alloc::Global;

/// The first of the answers, which is taken away.
fn take_first(mut answers: Items<Answer>) -> (Option<Answer>, Items<Answer>)
    ensures list { answers ≡ option_to_list result.0 ++ result.1 }
    ensures none { IfNone result.0 (answers ≡ []) }
{
    if answers.len() == 0 {
        (None, answers)
    } else {
        let first = answers.remove(0);
        (Some(first), answers)
    }
}

/// The answers, of which the next one leaves this heap.
fn kept_answers(alloc: Global, heap: Heap, answers: Items<Answer>) -> Result<Items<Answer>, Memory>
    ensures { IfOk result (λ all. all ≡ kept_answers heap answers) }
{
    let (first, rest) = take_first(answers);
    match first {
        None => Ok(rest),
        Some(answer) => {
            let (reply, _) = answer.into_parts();
            let mut all = Items::new(alloc);
            all.push(Answer::new(reply, heap))?;
            all.append(rest)?;
            Ok(all)
        }
    }
}

/// The outside, whose next answer leaves the heap as it is.
fn kept_outside(alloc: Global, outside: Outside) -> Result<Outside, Memory>
    ensures { IfOk result (λ o. o ≡ kept_outside outside) }
{
    let (heap, events, answers) = outside.into_parts();
    let answers = kept_answers(alloc, heap.copy(alloc)?, answers)?;
    Ok(Outside::new(heap, events, answers))
}

/// The state, in which the next answer leaves the heap as it is.
fn kept(alloc: Global, state: State) -> Result<State, Memory>
    ensures { IfOk result (λ s. s ≡ kept state) }
{
    let (place, frame, outside) = state.into_parts();
    let outside = kept_outside(alloc, outside)?;
    Ok(State::of(place, frame, outside))
}

/// A step in which an answer leaves the heap as it is.
fn kept_step(
    alloc: Global,
    program: &Program,
    classes: &Classes,
    bound: u64,
    state: State,
) -> Result<Progress, Memory>
    ensures { IfOk result (λ p. progress_in p
        ≡ take_step program.now classes.now bound (kept state)) }
{
    let state = kept(alloc, state)?;
    let progress = take_step(alloc, program, classes, bound, state)?;
    Ok(progress)
}

/// What has neither ended nor gone on.
fn paused(left: u64, state: State) -> Outcome
    ensures { outcome_in result ≡ paused_at left state }
{
    let (_, frame, outside) = state.into_parts();
    let (_, locals) = frame.into_parts();
    Outcome {
        ending: None,
        left,
        locals,
        outside,
    }
}

/// At most so many steps from a state.
fn kept_steps(
    alloc: Global,
    program: &Program,
    classes: &Classes,
    bound: u64,
    state: State,
) -> Result<Outcome, Memory>
    ensures { IfOk result (λ o. outcome_in o
        ≡ iterate_all (kept_step program.now classes.now) bound state) }
{
    let mut left = bound;
    let mut here = state;
    for _ in 0..bound {
        match kept_step(alloc, program, classes, left, here)? {
            Progress::Goes(less, next) => {
                left = less;
                here = next;
            }
            Progress::Stops(outcome) => return Ok(outcome),
        }
    }
    Ok(paused(left, here))
}

/// No classes of which anything is known.
fn no_classes(alloc: Global) -> Classes
    ensures { result ≡ no_classes }
{
    Classes::new(Vec::new(alloc), Vec::new(alloc))
}

/// At most so many instructions of the program, from its first.
pub(crate) fn kept_run(
    alloc: Global,
    program: &Program,
    arguments: &[Value],
    heap: Heap,
    answers: Items<Answer>,
    bound: u64,
) -> Result<Outcome, Memory>
    ensures { IfOk result (λ o. outcome_in o
        ≡ kept_run program.now arguments.now heap answers bound) }
{
    let classes = no_classes(alloc);
    let state = start_of(alloc, program, arguments, heap, answers)?;
    let outcome = kept_steps(alloc, program, &classes, bound, state)?;
    Ok(outcome)
}
