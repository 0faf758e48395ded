//! Copies of what is known.

ghost use Rattle.std.specs.Prelude.{◌≡◌, IfOk};
ghost use Rattle.je_shape.specs.Views.{shape_seen};
ghost use Rattle.je_least.specs.Knowns.{known_seen, parts_seen};

use crate::known::Known;
use je_base::Memory;
use je_shape::{Shape, Slot, copy_slots};
use std::alloc::Global;

/// The shape of a stack and local variables that say the same.
pub(crate) fn copy_shape(alloc: Global, stack: &[Slot], locals: &[Slot]) -> Result<Shape, Memory>
    ensures { IfOk result (λ copy. shape_seen copy ≡ parts_seen stack.now locals.now) }
{
    let stack = copy_slots(alloc, stack)?;
    let locals = copy_slots(alloc, locals)?;
    Ok(Shape { stack, locals })
}

/// What says the same of an index.
pub(crate) fn copy_known(alloc: Global, there: &Known) -> Result<Known, Memory>
    ensures { IfOk result (λ copy. known_seen copy ≡ known_seen there.now) }
{
    match there {
        Known::Nothing => Ok(Known::Nothing),
        Known::Has(s) => {
            let shape = s.copy(alloc)?;
            Ok(Known::Has(shape))
        }
        Known::Broken => Ok(Known::Broken),
    }
}
