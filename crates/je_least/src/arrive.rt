//! What comes to an index, and what is then known of it.

ghost use Rattle.std.specs.Prelude.{◌≡◌, IfOk, Option, None, map, option_map};
ghost use Rattle.std.specs.Option.{option_copied};
ghost use Rattle.je_shape.specs.Shape as known;
ghost use Rattle.je_shape.specs.Views.{slot_seen, shape_seen};
ghost use Rattle.je_least.specs.Knowns.{known_seen, coming_seen, parts_seen};
ghost use Rattle.je_least.specs.Arriving.{IsArrival, IsArrivalOrNone};

use crate::agree::agrees;
use crate::below::is_below;
use crate::copies::copy_shape;
use crate::known::{Coming, Known};
use je_base::Memory;
use je_shape::{Shape, Slot, join_parts};
use std::alloc::Global;

/// What is known where what has no shape comes, or `None` where that is known already.
fn broken(there: &Known) -> Option<Known>
    ensures none { IsArrivalOrNone None known.Broken (known_seen there.now)
        (option_map known_seen result) }
    ensures framed { (frame : known.Shape) → IsArrivalOrNone (Some frame) known.Broken
        (known_seen there.now) (option_map known_seen result) }
{
    match there {
        Known::Broken => None,
        _ => Some(Known::Broken),
    }
}

/// What is known where a shape comes with which another is joined, or is broken.
fn joined(alloc: Global, stack: &[Slot], locals: &[Slot], there: &Shape) -> Result<Known, Memory>
    ensures { IfOk result (λ more. IsArrival None (known.Has (parts_seen stack.now locals.now))
        (known.Has (shape_seen there.now)) (known_seen more)) }
{
    match join_parts(alloc, stack, locals, there)? {
        Some(shape) => Ok(Known::Has(shape)),
        None => Ok(Known::Broken),
    }
}

/// What is known where a shape comes, or `None` where it is below what is known already.
fn come(
    alloc: Global,
    stack: &[Slot],
    locals: &[Slot],
    there: &Known,
) -> Result<Option<Known>, Memory>
    ensures { IfOk result (λ more. IsArrivalOrNone None
        (known.Has (parts_seen stack.now locals.now)) (known_seen there.now)
        (option_map known_seen more)) }
{
    match there {
        Known::Nothing => {
            let shape = copy_shape(alloc, stack, locals)?;
            Ok(Some(Known::Has(shape)))
        }
        Known::Has(shape) => {
            if is_below(stack, locals, shape) {
                return Ok(None);
            }
            let more = joined(alloc, stack, locals, shape)?;
            Ok(Some(more))
        }
        Known::Broken => Ok(None),
    }
}

/// What is known where a shape comes to an index with a frame (JVMS 4.7.4), or `None` where nothing
/// changes.
#[tactic(auto, using(crate::proofs::ArriveLemmas::framed, crate::proofs::ArriveLemmas::apart))]
fn come_to_frame(
    alloc: Global,
    frame: &Shape,
    stack: &[Slot],
    locals: &[Slot],
    there: &Known,
) -> Result<Option<Known>, Memory>
    ensures { IfOk result (λ more. IsArrivalOrNone (Some (shape_seen frame.now))
        (known.Has (parts_seen stack.now locals.now)) (known_seen there.now)
        (option_map known_seen more)) }
{
    if agrees(stack, locals, frame) {
        let more = come(
            alloc,
            frame.stack.as_slice(),
            frame.locals.as_slice(),
            there,
        )?;
        Ok(more)
    } else {
        Ok(broken(there))
    }
}

/// What is known of an index, which may have a frame, once more has come to it, or `None` where
/// that is known already.
pub(crate) fn arrive(
    alloc: Global,
    frame: Option<&Shape>,
    coming: Coming<'_>,
    there: &Known,
) -> Result<Option<Known>, Memory>
    ensures { IfOk result (λ more. IsArrivalOrNone
        (option_map shape_seen (option_copied frame.entry)) (coming_seen coming.entry)
        (known_seen there.now) (option_map known_seen more)) }
{
    match coming {
        Coming::Broken => Ok(broken(there)),
        Coming::Shape(stack, locals) => match frame {
            Some(frame) => {
                let more = come_to_frame(alloc, frame, stack, locals, there)?;
                Ok(more)
            }
            None => {
                let more = come(alloc, stack, locals, there)?;
                Ok(more)
            }
        },
    }
}
