//! The method whose shapes are sought, and where its instructions lead.

ghost use Rattle.std.specs.Prelude.{◌≡◌, ◌↔◌, ◌<◌, ℕ, suc, [], ◌∷◌, ◌++◌, length, map, false};
ghost use Rattle.std.specs.Prelude.{option_map, IfOk, OnOk, IsTrue};
ghost use Rattle.std.specs.Option.{option_copied};
ghost use Rattle.std.specs.List.{AllByRecursion};
ghost use Rattle.je_machine.specs.Machine.{covers};
ghost use Rattle.je_shape.specs.Least.{frame_at, next_of, targets_of, successors, ReturnsAs};
ghost use Rattle.je_shape.specs.Least.{Serves};
ghost use Rattle.je_shape.specs.Views.{shape_seen};
ghost use Rattle.je_least.specs.Plans.{plan_seen};
ghost use Rattle.je_least.specs.Leading.{frame_seen};

use je_base::{Memory, Text};
use je_flow::serves;
use je_shape::Shape;
use je_value::{BasicForm, Handler, Kind, Operation, OperationForm, Program};
use std::alloc::Global;

/// A method: the name of its class, its program, the shape with which it begins, its frames by
/// indexes, and the kind of its result, where that is given.
#[derive(Clone, Copy)]
pub(crate) struct Plan<'a> {
    pub class_name: &'a Text,
    pub program: &'a Program,
    pub entry: &'a Shape,
    pub frames: &'a [(u32, Shape)],
    pub returned: Option<Option<Kind>>,
}

/// The first frame of an index.
pub(crate) fn frame_for<'a>(frames: &'a [(u32, Shape)], to: usize) -> Option<&'a Shape>
    ensures { option_map shape_seen (option_copied result)
        ≡ frame_at (map frame_seen frames.now) to }
{
    let mut rest = frames;
    while let Some((first, behind)) = rest.split_first() {
        if first.0 as usize == to {
            return Some(&first.1);
        }
        rest = behind;
    }
    None
}

/// Whether the next instruction follows this one.
fn goes_on(operation: &Operation) -> bool
    ensures yes { (at : ℕ) → IsTrue result → next_of at operation.now ≡ suc at ∷ [] }
    ensures no { (at : ℕ) → result ≡ false → next_of at operation.now ≡ [] }
{
    match operation.form() {
        OperationForm::Do(basic) => !matches!(basic.form(), BasicForm::Throw),
        OperationForm::Goto(_) | OperationForm::Switch(_, _) | OperationForm::Return(_) => false,
        _ => true,
    }
}

/// The targets of an instruction are put behind others.
fn push_targets(list: &mut Vec<usize>, operation: &Operation) -> Result<(), Memory>
    ensures { OnOk result (list.new.items ≡ list.old.items ++ targets_of operation.now) }
{
    match operation.form() {
        OperationForm::Branch(_, target) | OperationForm::Goto(target) => list.push(*target)?,
        OperationForm::Switch(cases, fallback) => {
            list.push(*fallback)?;
            for case in cases.as_slice() {
                list.push(case.1)?;
            }
        }
        _ => {}
    }
    Ok(())
}

/// Where the instruction at an index leads.
pub(crate) fn successors(
    alloc: Global,
    at: u32,
    operation: &Operation,
) -> Result<Vec<usize>, Memory>
    ensures { IfOk result (λ list. list.items ≡ successors at operation.now) }
{
    let mut list = Vec::new(alloc);
    if goes_on(operation) {
        list.push(at as usize + 1)?;
    }
    push_targets(&mut list, operation)?;
    Ok(list)
}

/// Whether the handler covers the index.
pub(crate) fn covers(at: u32, handler: &Handler) -> bool
    ensures { result ≡ covers at handler.now }
{
    let place = at as usize;
    handler.start() <= place && place < handler.end()
}

/// Whether each is the index of one of so many instructions.
fn are_inside(list: &[usize], count: usize) -> bool
    ensures { IsTrue result ↔ AllByRecursion (λ to. to < count) list.now }
{
    let mut rest = list;
    while let Some((first, behind)) = rest.split_first() {
        if *first >= count {
            return false;
        }
        rest = behind;
    }
    true
}

/// Whether a return is of the kind of the method's result, where that is given.
fn returns_as(returned: Option<Option<Kind>>, operation: &Operation) -> bool
    ensures { IsTrue result ↔ ReturnsAs returned operation.now }
{
    match returned {
        Some(wanted) => match operation.form() {
            OperationForm::Return(kind) => is_same_kind(*kind, wanted),
            _ => true,
        },
        None => true,
    }
}

/// Whether two results are of one kind, or are none.
fn is_same_kind(a: Option<Kind>, b: Option<Kind>) -> bool
    ensures { IsTrue result ↔ a ≡ b }
{
    match (a, b) {
        (Some(a), Some(b)) => a.form() == b.form(),
        (None, None) => true,
        _ => false,
    }
}

/// Whether a shape serves the instruction at an index, which leads to these.
pub(crate) fn serves_method(
    alloc: Global,
    plan: &Plan<'_>,
    at: u32,
    operation: &Operation,
    next: &[usize],
    s: &Shape,
) -> Result<bool, Memory>
    requires { next.now ≡ successors at operation.now }
    ensures { IfOk result (λ ok.
        IsTrue ok ↔ Serves (plan_seen plan.now) at operation.now (shape_seen s.now)) }
{
    let operations = plan.program.operations();
    if !returns_as(plan.returned, operation) || !are_inside(next, operations.len()) {
        return Ok(false);
    }
    let served = serves(alloc, operations, at, operation, s)?;
    Ok(served)
}
