//! The start of a method (JVMS 2.6.1).

ghost use Rattle.std.specs.Prelude.{◌≡◌, IfOk};
ghost use Rattle.je_machine.specs.Machine.{places, enter, start_of};

use crate::frame::Frame;
use crate::stack::{above, joined};
use crate::state::State;
use je_base::Memory;
use je_heap::{Answer, Heap, Outside};
use je_value::{Kind, KindForm, Program, Value, ValueForm, admit, zero_of};
use sqlite_items::Items;
use std::alloc::Global;

/// The places of a local variable. A long and a double take two, of which the second is not read.
fn places(alloc: Global, kind: Kind, value: Value) -> Result<Items<Value>, Memory>
    ensures { IfOk result (λ s. s ≡ places kind value) }
{
    match kind.form() {
        KindForm::Long | KindForm::Double => {
            let second = above(alloc, Value::of(ValueForm::Int(0)), Items::new(alloc))?;
            above(alloc, value, second)
        }
        _ => above(alloc, value, Items::new(alloc)),
    }
}

/// The arguments in their local variables. One that is not given counts as zero.
///
/// # Errors
///
/// `Memory` where memory runs out.
pub fn enter(alloc: Global, kinds: &[Kind], arguments: &[Value]) -> Result<Items<Value>, Memory>
    ensures { IfOk result (λ s. s ≡ enter kinds.now arguments.now) }
{
    let Some((kind, more)) = kinds.split_first() else {
        return Ok(Items::new(alloc));
    };
    match arguments.split_first() {
        None => {
            let first = places(alloc, *kind, zero_of(*kind))?;
            joined(first, enter(alloc, more, arguments)?)
        }
        Some((argument, rest)) => {
            let first = places(alloc, *kind, admit(*kind, argument.copy()?))?;
            joined(first, enter(alloc, more, rest)?)
        }
    }
}

/// The state at the first instruction of a program.
///
/// # Errors
///
/// `Memory` where memory runs out.
pub fn start_of(
    alloc: Global,
    program: &Program,
    arguments: &[Value],
    heap: Heap,
    answers: Items<Answer>,
) -> Result<State, Memory>
    ensures { IfOk result (λ s. s ≡ start_of program.now arguments.now heap answers) }
{
    let locals = enter(alloc, program.parameters(), arguments)?;
    let frame = Frame::of(Items::new(alloc), locals);
    let outside = Outside::new(heap, Items::new(alloc), answers);
    Ok(State::of(0, frame, outside))
}
