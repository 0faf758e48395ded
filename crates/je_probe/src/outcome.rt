//! What a run comes to, as it is shown.

ghost use Rattle.std.specs.Prelude.{IfOk, Some, option_map};
ghost use Rattle.je_probe.specs.Shown.{IsEnding, IsEnd};
ghost use Rattle.je_vm.specs.Machine.{ending_in, outcome_in};

use crate::event::{ProbeEvent, events_shown};
use crate::heap::{ProbeHeap, ProbeStatic, objects_shown};
use crate::statics::statics_shown;
use crate::value::{ProbeValue, value_shown};
use je_base::Memory;
use je_consts::Consts;
use je_heap::Heap;
use je_value::Program;
use je_vm::{Ending, Outcome};
use std::alloc::Global;

/// How a run comes out: it returns, with a value if the method has a result, throws a reference, or
/// goes on, since its limit is reached or no answer is left.
#[derive(Clone, Copy, Debug, PartialEq, Eq)]
pub enum ProbeOutcome {
    Returned(Option<ProbeValue>),
    Threw(ProbeValue),
    GoesOn,
}

/// What a run comes to: its events, the first one first, how it comes out, and the heap that it
/// leaves.
#[derive(Debug, Drop)]
pub struct ProbeEnd {
    pub events: Vec<ProbeEvent>,
    pub outcome: ProbeOutcome,
    pub heap: ProbeHeap,
}

/// How a method ends, as it is shown.
fn ending_shown(alloc: Global, consts: &Consts, ending: &Ending) -> Result<ProbeOutcome, Memory>
    ensures { IfOk result (IsEnding consts.now (Some (ending_in ending.now))) }
{
    match ending {
        Ending::Returned(None) => Ok(ProbeOutcome::Returned(None)),
        Ending::Returned(Some(value)) => {
            let value = value_shown(alloc, consts, value)?;
            Ok(ProbeOutcome::Returned(Some(value)))
        }
        Ending::Thrown(reference) => {
            let reference = value_shown(alloc, consts, reference)?;
            Ok(ProbeOutcome::Threw(reference))
        }
    }
}

/// How a run comes out, as it is shown.
fn outcome_shown(
    alloc: Global,
    consts: &Consts,
    ending: &Option<Ending>,
) -> Result<ProbeOutcome, Memory>
    ensures { IfOk result (IsEnding consts.now (option_map ending_in ending.now)) }
{
    match ending {
        Some(ending) => {
            let outcome = ending_shown(alloc, consts, ending)?;
            Ok(outcome)
        }
        None => Ok(ProbeOutcome::GoesOn),
    }
}

/// What a run of a program comes to, as it is shown.
pub(crate) fn end_shown(
    alloc: Global,
    consts: &Consts,
    given: &[ProbeStatic],
    program: &Program,
    outcome: &Outcome,
) -> Result<ProbeEnd, Memory>
    ensures { IfOk result (IsEnd consts.now (outcome_in outcome.now)) }
{
    let heap: &Heap = outcome.outside.heap();
    let events = events_shown(alloc, consts, outcome.outside.events())?;
    let ended = outcome_shown(alloc, consts, &outcome.ending)?;
    let objects = objects_shown(alloc, heap.objects())?;
    let statics = statics_shown(alloc, consts, heap, given, program)?;
    Ok(ProbeEnd {
        events,
        outcome: ended,
        heap: ProbeHeap { objects, statics },
    })
}
