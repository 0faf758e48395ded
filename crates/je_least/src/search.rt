//! The search for the least shapes: a list of indexes of which more is known than was passed on.

ghost use Rattle.std.specs.Prelude.{◌≡◌, ◌<◌, length, map, replicate, slice_set, ◌++◌, [], ◌∷◌};
ghost use Rattle.std.specs.Prelude.{IfOk, OnOk, IsTrue, unwrap_or, codes};
ghost use Rattle.std.specs.Option.{option_copied};
ghost use Rattle.std.specs.List.{AllByRecursion};
ghost use Rattle.je_machine.specs.Operation as machine;
ghost use Rattle.je_machine.specs.Machine.{covers};
ghost use Rattle.je_shape.specs.Slot.{Reference};
ghost use Rattle.je_shape.specs.Shape as known;
ghost use Rattle.je_shape.specs.Least as least;
ghost use Rattle.je_shape.specs.Least.{Reaches, Sends, Passes, IsLeast};
ghost use Rattle.je_shape.specs.Views.{slot_seen, shape_seen};
ghost use Rattle.je_least.specs.Knowns.{known_seen, coming_seen, thrown_seen};
ghost use Rattle.je_least.specs.Plans.{plan_seen};
ghost use Rattle.je_least.specs.Searching.{assigned, PassesAt, Gains, IsSolving};

use crate::arrive::arrive;
use crate::copies::copy_known;
use crate::known::{Coming, Known};
use crate::plan::{Plan, covers, frame_for, serves_method, successors};
use je_base::{Memory, Text};
use je_flow::flow_through;
use je_shape::{Shape, Slot, reference};
use je_value::{Handler, Operation};
use std::alloc::Global;

/// What is caught where a handler names no class (JVMS 4.7.3).
const THROWABLE: &[u8] = b"java/lang/Throwable";

/// What is known of each index, and the indexes of which more is known than was passed on; one may
/// stand there twice.
#[derive(Debug, Drop)]
struct Search {
    table: Vec<Known>,
    todo: Vec<u32>,
}

/// More is known of an index, which is to be looked at.
fn put(search: &mut Search, to: usize, more: Known) -> Result<(), Memory>
    requires { to < length search.old.table.items }
    ensures table { OnOk result (map known_seen search.new.table.items
        ≡ slice_set (map known_seen search.old.table.items) to (known_seen more)) }
    ensures todo { OnOk result (search.new.todo.items ≡ search.old.todo.items ++ to ∷ []) }
{
    let Ok(index) = u32::try_from(to) else {
        return Err(Memory);
    };
    search.table[to] = more;
    search.todo.push(index)?;
    Ok(())
}

/// Passes on what comes to an index. What leads outside the code is dropped.
fn pass_on(
    alloc: Global,
    plan: &Plan<'_>,
    search: &mut Search,
    to: usize,
    coming: Coming<'_>,
) -> Result<(), Memory>
    requires { length search.old.table.items ≡ length plan.now.program.now.operations }
    ensures { OnOk result (Gains
        (λ y. Reaches (plan_seen plan.now) y to (coming_seen coming.entry))
        (map known_seen search.old.table.items) search.old.todo.items
        (map known_seen search.new.table.items) search.new.todo.items) }
{
    let Some(there) = search.table.get(to) else {
        return Ok(());
    };
    match arrive(alloc, frame_for(plan.frames, to), coming, there)? {
        Some(more) => {
            put(search, to, more)?;
            Ok(())
        }
        None => Ok(()),
    }
}

/// Passes on the same to each of these indexes.
fn pass_all(
    alloc: Global,
    plan: &Plan<'_>,
    search: &mut Search,
    list: &[usize],
    coming: Coming<'_>,
) -> Result<(), Memory>
    requires { length search.old.table.items ≡ length plan.now.program.now.operations }
    ensures { OnOk result (Gains
        (λ y. AllByRecursion (λ to. Reaches (plan_seen plan.now) y to (coming_seen coming.entry))
        list.now)
        (map known_seen search.old.table.items) search.old.todo.items
        (map known_seen search.new.table.items) search.new.todo.items) }
{
    for to in list {
        pass_on(alloc, plan, search, *to, coming)?;
    }
    Ok(())
}

/// What a handler finds on its stack (JVMS 2.10). A class whose name is no text has no slot, which
/// is answered as want of memory: no class file names one.
fn caught_slot(alloc: Global, handler: &Handler) -> Result<Slot, Memory>
    ensures { IfOk result (λ slot. slot_seen slot
        ≡ Reference (unwrap_or handler.now.catch_class (codes "java/lang/Throwable") ∷ [])) }
{
    let name = match handler.catch_class() {
        Some(class) => Text::from_bytes(alloc, class.as_slice())?,
        None => Text::from_bytes(alloc, THROWABLE)?,
    };
    match name {
        Some(name) => {
            let slot = reference(alloc, name)?;
            Ok(slot)
        }
        None => Err(Memory),
    }
}

/// Passes on what a handler gets: it finds the local variables from before, where there are such.
fn pass_to_handler(
    alloc: Global,
    plan: &Plan<'_>,
    search: &mut Search,
    handler: &Handler,
    thrown: Option<&[Slot]>,
) -> Result<(), Memory>
    requires { length search.old.table.items ≡ length plan.now.program.now.operations }
    ensures { OnOk result (Gains
        (λ y. Reaches (plan_seen plan.now) y handler.now.target
        (thrown_seen (option_copied thrown.entry) handler.now))
        (map known_seen search.old.table.items) search.old.todo.items
        (map known_seen search.new.table.items) search.new.todo.items) }
{
    let target = handler.target();
    match thrown {
        Some(locals) => {
            let mut stack = Vec::new(alloc);
            let slot = caught_slot(alloc, handler)?;
            stack.push(slot)?;
            pass_on(alloc, plan, search, target, Coming::Shape(&stack, locals))?;
            Ok(())
        }
        None => {
            pass_on(alloc, plan, search, target, Coming::Broken)?;
            Ok(())
        }
    }
}

/// Passes on what a handler gets, if it covers an index.
fn pass_if_covered(
    alloc: Global,
    plan: &Plan<'_>,
    search: &mut Search,
    at: u32,
    handler: &Handler,
    thrown: Option<&[Slot]>,
) -> Result<(), Memory>
    requires { length search.old.table.items ≡ length plan.now.program.now.operations }
    ensures { OnOk result (Gains
        (λ y. IsTrue (covers at handler.now) → Reaches (plan_seen plan.now) y handler.now.target
        (thrown_seen (option_copied thrown.entry) handler.now))
        (map known_seen search.old.table.items) search.old.todo.items
        (map known_seen search.new.table.items) search.new.todo.items) }
{
    if covers(at, handler) {
        pass_to_handler(alloc, plan, search, handler, thrown)?;
        Ok(())
    } else {
        Ok(())
    }
}

/// Passes on what each handler gets that covers an index.
fn pass_to_handlers(
    alloc: Global,
    plan: &Plan<'_>,
    search: &mut Search,
    at: u32,
    thrown: Option<&[Slot]>,
) -> Result<(), Memory>
    requires { length search.old.table.items ≡ length plan.now.program.now.operations }
    ensures { OnOk result (Gains
        (λ y. AllByRecursion (λ h. IsTrue (covers at h)
        → Reaches (plan_seen plan.now) y h.target (thrown_seen (option_copied thrown.entry) h))
        plan.now.program.now.handlers)
        (map known_seen search.old.table.items) search.old.todo.items
        (map known_seen search.new.table.items) search.new.todo.items) }
{
    for handler in plan.program.handlers() {
        pass_if_covered(alloc, plan, search, at, handler, thrown)?;
    }
    Ok(())
}

/// Passes on what goes to the successors of an index, and what goes to its handlers.
fn send(
    alloc: Global,
    plan: &Plan<'_>,
    search: &mut Search,
    at: u32,
    next: &[usize],
    left: Coming<'_>,
    thrown: Option<&[Slot]>,
) -> Result<(), Memory>
    requires { length search.old.table.items ≡ length plan.now.program.now.operations }
    ensures { OnOk result ((o : machine.Operation) → next.now ≡ least.successors at o → Gains
        (λ y. Sends (plan_seen plan.now) y at o (coming_seen left.entry)
        (thrown_seen (option_copied thrown.entry)))
        (map known_seen search.old.table.items) search.old.todo.items
        (map known_seen search.new.table.items) search.new.todo.items) }
{
    pass_all(alloc, plan, search, next, left)?;
    pass_to_handlers(alloc, plan, search, at, thrown)?;
    Ok(())
}

/// Passes on from an index what a shape there becomes, or that it is broken.
fn pass_shape(
    alloc: Global,
    plan: &Plan<'_>,
    search: &mut Search,
    at: u32,
    operation: &Operation,
    s: &Shape,
) -> Result<(), Memory>
    requires { length search.old.table.items ≡ length plan.now.program.now.operations }
    ensures { OnOk result (Gains
        (λ y. Passes (plan_seen plan.now) y at operation.now (known.Has (shape_seen s.now)))
        (map known_seen search.old.table.items) search.old.todo.items
        (map known_seen search.new.table.items) search.new.todo.items) }
{
    let next = successors(alloc, at, operation)?;
    if serves_method(alloc, plan, at, operation, &next, s)? {
        let left = flow_through(alloc, plan.class_name, at, operation, s)?;
        let coming = Coming::Shape(left.stack.as_slice(), left.locals.as_slice());
        send(
            alloc,
            plan,
            search,
            at,
            &next,
            coming,
            Some(s.locals.as_slice()),
        )?;
        Ok(())
    } else {
        send(alloc, plan, search, at, &next, Coming::Broken, None)?;
        Ok(())
    }
}

/// Passes on from an index that it is broken.
fn pass_broken(
    alloc: Global,
    plan: &Plan<'_>,
    search: &mut Search,
    at: u32,
    operation: &Operation,
) -> Result<(), Memory>
    requires { length search.old.table.items ≡ length plan.now.program.now.operations }
    ensures { OnOk result (Gains
        (λ y. Passes (plan_seen plan.now) y at operation.now known.Broken)
        (map known_seen search.old.table.items) search.old.todo.items
        (map known_seen search.new.table.items) search.new.todo.items) }
{
    let next = successors(alloc, at, operation)?;
    send(alloc, plan, search, at, &next, Coming::Broken, None)?;
    Ok(())
}

/// Passes on from an index what is known of it.
fn turn(alloc: Global, plan: &Plan<'_>, search: &mut Search, at: u32) -> Result<(), Memory>
    requires { length search.old.table.items ≡ length plan.now.program.now.operations }
    ensures { OnOk result (Gains
        (λ y. PassesAt (plan_seen plan.now) y at
        (assigned (map known_seen search.old.table.items) at))
        (map known_seen search.old.table.items) search.old.todo.items
        (map known_seen search.new.table.items) search.new.todo.items) }
{
    let Some(operation) = plan.program.operations().get(at as usize) else {
        return Ok(());
    };
    let Some(there) = search.table.get(at as usize) else {
        return Ok(());
    };
    match copy_known(alloc, there)? {
        Known::Nothing => Ok(()),
        Known::Has(s) => {
            pass_shape(alloc, plan, search, at, operation, &s)?;
            Ok(())
        }
        Known::Broken => {
            pass_broken(alloc, plan, search, at, operation)?;
            Ok(())
        }
    }
}

/// So many indexes of which nothing is known.
fn nothing_known(alloc: Global, count: usize) -> Result<Vec<Known>, Memory>
    ensures { IfOk result (λ table.
        map known_seen table.items ≡ replicate count known.Nothing) }
{
    let mut table = Vec::new(alloc);
    for _ in 0..count {
        table.push(Known::Nothing)?;
    }
    Ok(table)
}

/// The shape with which the method begins comes to the first index.
fn begin(alloc: Global, plan: &Plan<'_>) -> Result<Search, Memory>
    ensures { IfOk result (λ search. IsSolving (plan_seen plan.now)
        (map known_seen search.table.items) search.todo.items) }
{
    let mut search = Search {
        table: nothing_known(alloc, plan.program.operations().len())?,
        todo: Vec::new(alloc),
    };
    let entry = Coming::Shape(plan.entry.stack.as_slice(), plan.entry.locals.as_slice());
    pass_on(alloc, plan, &mut search, 0, entry)?;
    Ok(search)
}

/// The least assignment of a method, one item for each instruction.
///
/// The turns are bounded, and behind the bound stands want of memory. It is not reached: a turn
/// follows a change of an index, and an index changes at most `2 + s * (n + 2)` times, for the `s`
/// slots of its shape and the `n` names of the method. Of a class file there are at most 2^16
/// indexes, 2^19 slots and 2^24 names, so that the turns are fewer than 2^60.
pub(crate) fn least_known(alloc: Global, plan: &Plan<'_>) -> Result<Vec<Known>, Memory>
    ensures count { IfOk result (λ table.
        length table.items ≡ length plan.now.program.now.operations) }
    ensures least { IfOk result (λ table.
        IsLeast (plan_seen plan.now) (assigned (map known_seen table.items))) }
{
    let mut search = begin(alloc, plan)?;
    for _ in 0..u64::MAX {
        let Some(at) = search.todo.pop() else {
            return Ok(search.table);
        };
        turn(alloc, plan, &mut search, at)?;
    }
    Err(Memory)
}
