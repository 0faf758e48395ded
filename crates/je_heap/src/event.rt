//! What the outside sees, and what it answers.

ghost use Rattle.std.specs.Prelude.{◌≡◌};
ghost use Rattle.je_machine.specs.Outside.{value_or_zero};
ghost use Rattle.je_heap.specs.Outside.{reply_of};

use crate::discard::discard;
use crate::heap::Heap;
use je_value::{Action, Kind, Value, admit, zero_of};
use sqlite_items::Items;
use std::marker::Model;

/// What the outside sees of an action: its operands, the deepest first, and the heap as it then is.
/// Contracts see it as the definition's `Event`.
#[derive(Debug, Drop)]
pub struct Event {
    action: Action,
    operands: Items<Value>,
    heap: Heap,
}

impl Model for Event {
    ghost use Rattle.je_machine.specs.Outside as machine;
    ghost use Rattle.je_heap.specs.OutsideCode.{event_code};

    ghost Value = { machine.Event };

    ghost coded = { event_code };

    ghost view = { λ e. record { action = e.action; operands = e.operands; heap = e.heap } };
}

impl Event {
    /// The event of an action, its operands and the heap.
    pub fn new(action: Action, operands: Items<Value>, heap: Heap) -> Event
        ensures { result ≡ record { action = action; operands = operands; heap = heap } }
    {
        Event {
            action,
            operands,
            heap,
        }
    }

    /// The action.
    pub fn action(&self) -> &Action
        ensures { result.now ≡ self.now.action }
    {
        &self.action
    }

    /// Its operands, the deepest first.
    pub fn operands(&self) -> &[Value]
        ensures { result.now ≡ self.now.operands }
    {
        self.operands.as_slice()
    }

    /// The heap as it was.
    pub fn heap(&self) -> &Heap
        ensures { result.now ≡ self.now.heap }
    {
        &self.heap
    }
}

/// What a call comes to: it returns a value, or throws a reference.
#[derive(Debug, Drop)]
pub enum Reply {
    Gives(Value),
    Throws(Value),
}

/// The value that a reply gives, of a kind, and zero where it throws.
pub fn value_or_zero(kind: Kind, reply: Reply) -> Value
    ensures { result ≡ value_or_zero kind (reply_of reply) }
{
    match reply {
        Reply::Gives(value) => admit(kind, value),
        Reply::Throws(reference) => {
            discard(reference);
            zero_of(kind)
        }
    }
}

/// What a call is answered: its reply, and the heap that it leaves. Contracts see it as the
/// definition's `Answer`.
#[derive(Debug, Drop)]
pub struct Answer {
    reply: Reply,
    heap: Heap,
}

impl Model for Answer {
    ghost use Rattle.je_machine.specs.Outside as machine;
    ghost use Rattle.je_heap.specs.OutsideCode.{answer_code};

    ghost Value = { machine.Answer };

    ghost coded = { answer_code };

    ghost use Rattle.je_heap.specs.Outside.{reply_of};

    ghost view = { λ a. record { reply = reply_of a.reply; heap = a.heap } };
}

impl Answer {
    /// The answer of a reply and the heap after it.
    pub fn new(reply: Reply, heap: Heap) -> Answer
        ensures { result ≡ record { reply = reply_of reply; heap = heap } }
    {
        Answer { reply, heap }
    }

    /// Its reply, and the heap after it.
    pub fn into_parts(self) -> (Reply, Heap)
        ensures { self ≡ record { reply = reply_of result.0; heap = result.1 } }
    {
        (self.reply, self.heap)
    }
}
