//! Events as they are shown.

ghost use Rattle.std.specs.Prelude.{◌≡◌, IfOk, option_map};
ghost use Rattle.std.specs.List.{AllZip};
ghost use Rattle.je_probe.specs.Shown.{opcode_of_call, opcode_of, called, content_of};
ghost use Rattle.je_probe.specs.Shown.{IsContent, IsEvent};
ghost use Rattle.je_value.specs.Action.{sort_in};

use crate::text::text_shown;
use crate::value::{ProbeValue, values_shown};
use je_base::{Memory, Text};
use je_consts::Consts;
use je_heap::Event;
use je_instr::opcodes;
use je_value::{Action, ActionForm, Content, ContentForm, Sort};
use std::alloc::Global;

/// What the outside sees of an instruction.
#[derive(Debug, Drop)]
pub struct ProbeEvent {
    /// Its opcode.
    pub opcode: u8,
    /// Of a call the class, `.`, the name and the descriptor, and of invokedynamic the name and the
    /// descriptor. A float or monitor instruction has none.
    pub content: Option<Text>,
    /// Its operands, the deepest first.
    pub operands: Vec<ProbeValue>,
}

/// The opcode of a call.
fn opcode_of_call(sort: Sort) -> u8
    ensures { result ≡ opcode_of_call (sort_in sort) }
{
    match sort {
        Sort::Virtual => opcodes::INVOKEVIRTUAL,
        Sort::Special => opcodes::INVOKESPECIAL,
        Sort::Static => opcodes::INVOKESTATIC,
        Sort::Interface => opcodes::INVOKEINTERFACE,
        Sort::Dynamic => opcodes::INVOKEDYNAMIC,
    }
}

/// The opcode of an action of which there is an event, and 0 of every other one.
fn opcode_of(action: &Action) -> u8
    ensures { result ≡ opcode_of action.now }
{
    match action.form() {
        ActionForm::Invoke(sort, _, _) => opcode_of_call(*sort),
        ActionForm::FloatOperation(opcode, _, _) => *opcode,
        ActionForm::MonitorEnter => opcodes::MONITORENTER,
        ActionForm::MonitorExit => opcodes::MONITOREXIT,
        _ => 0,
    }
}

/// What a call names.
fn called(alloc: Global, method: &Content) -> Result<Option<Vec<u8>>, Memory>
    ensures { IfOk result (λ found. option_map (λ v. v.items) found ≡ called method.now) }
{
    let mut bytes = Vec::new(alloc);
    match method.form() {
        ContentForm::Member(_, class, name, descriptor) => {
            bytes.extend_from_slice(class.as_slice())?;
            bytes.push(b'.')?;
            bytes.extend_from_slice(name.as_slice())?;
            bytes.extend_from_slice(descriptor.as_slice())?;
            Ok(Some(bytes))
        }
        ContentForm::InvokeDynamic(_, name, descriptor) => {
            bytes.extend_from_slice(name.as_slice())?;
            bytes.extend_from_slice(descriptor.as_slice())?;
            Ok(Some(bytes))
        }
        _ => Ok(None),
    }
}

/// What a call names, and none of every other action.
fn content_of(alloc: Global, action: &Action) -> Result<Option<Vec<u8>>, Memory>
    ensures { IfOk result (λ found. option_map (λ v. v.items) found ≡ content_of action.now) }
{
    match action.form() {
        ActionForm::Invoke(_, method, _) => {
            let found = called(alloc, method)?;
            Ok(found)
        }
        _ => Ok(None),
    }
}

/// What a call names, as it is shown.
fn content_shown(alloc: Global, action: &Action) -> Result<Option<Text>, Memory>
    ensures { IfOk result (IsContent (content_of action.now)) }
{
    match content_of(alloc, action)? {
        Some(bytes) => Ok(Some(text_shown(alloc, bytes.as_slice())?)),
        None => Ok(None),
    }
}

/// An event as it is shown.
fn event_shown(alloc: Global, consts: &Consts, event: &Event) -> Result<ProbeEvent, Memory>
    ensures { IfOk result (IsEvent consts.now event.now) }
{
    let opcode = opcode_of(event.action());
    let content = content_shown(alloc, event.action())?;
    let operands = values_shown(alloc, consts, event.operands())?;
    Ok(ProbeEvent {
        opcode,
        content,
        operands,
    })
}

/// Events as they are shown.
pub(crate) fn events_shown(
    alloc: Global,
    consts: &Consts,
    events: &[Event],
) -> Result<Vec<ProbeEvent>, Memory>
    ensures { IfOk result (λ v. AllZip (IsEvent consts.now) events.now v.items) }
{
    let mut shown = Vec::new(alloc);
    let mut rest = events;
    while let Some((event, tail)) = rest.split_first() {
        shown.push(event_shown(alloc, consts, event)?)?;
        rest = tail;
    }
    Ok(shown)
}
