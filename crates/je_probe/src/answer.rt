//! What calls and float instructions are answered.

ghost use Rattle.std.specs.Prelude.{◌≡◌, IfOk, map};
ghost use Rattle.je_heap.specs.Outside.{reply_of};
ghost use Rattle.je_probe.specs.Given.{reply_given, answer_given};

use crate::value::{ProbeValue, value_given};
use je_base::Memory;
use je_consts::Consts;
use je_heap::{Answer, Fields, Heap, Reply};
use sqlite_items::Items;
use std::alloc::Global;

/// What a call or a float instruction is answered: a value that is returned, or a reference that is
/// thrown. The heap stays as it is.
#[derive(Clone, Copy, Debug, PartialEq, Eq)]
pub enum ProbeAnswer {
    Value(ProbeValue),
    Throw(ProbeValue),
}

/// The reply that is given.
fn reply_given(alloc: Global, consts: &Consts, given: ProbeAnswer) -> Result<Reply, Memory>
    ensures { IfOk result (λ r. reply_of r ≡ reply_given consts.now given) }
{
    match given {
        ProbeAnswer::Value(value) => Ok(Reply::Gives(value_given(alloc, consts, value)?)),
        ProbeAnswer::Throw(value) => Ok(Reply::Throws(value_given(alloc, consts, value)?)),
    }
}

/// The answer that is given. Its heap is that of the moment when it is taken.
fn answer_given(alloc: Global, consts: &Consts, given: ProbeAnswer) -> Result<Answer, Memory>
    ensures { IfOk result (λ a. a ≡ answer_given consts.now given) }
{
    let reply = reply_given(alloc, consts, given)?;
    let heap = Heap::new(Vec::new(alloc), Fields::new(alloc));
    Ok(Answer::new(reply, heap))
}

/// The answers that are given.
pub(crate) fn answers_given(
    alloc: Global,
    consts: &Consts,
    given: &[ProbeAnswer],
) -> Result<Items<Answer>, Memory>
    ensures { IfOk result (λ all. all ≡ map (answer_given consts.now) given.now) }
{
    let mut answers = Items::new(alloc);
    for one in given {
        answers.push(answer_given(alloc, consts, *one)?)?;
    }
    Ok(answers)
}
