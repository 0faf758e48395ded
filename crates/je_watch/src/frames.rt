//! Whether a frame has a shape.

ghost use Rattle.std.specs.Prelude.{◌↔◌, IsTrue, map};
ghost use Rattle.je_fit.specs.Fits.{fits_stack, fits_locals, fits_shape, fits_known};
ghost use Rattle.je_shape.specs.Views.{slot_seen, shape_seen, shapes_seen};
ghost use Rattle.je_watch.specs.Wanted.{known_there};

use crate::slots::{fits, fits_item};
use je_shape::{Shape, Slot};
use je_value::{Value, ValueForm};
use je_vm::Frame;

/// Whether a stack is as deep as one of a shape, and fits it item by item.
pub fn fits_stack(shape: &[Slot], stack: &[Value]) -> bool
    ensures { IsTrue result ↔ IsTrue (fits_stack (map slot_seen shape.now) stack.now) }
{
    let mut left = shape;
    let mut right = stack;
    while let Some((slot, slots)) = left.split_first() {
        match right.split_first() {
            Some((value, values)) => {
                if !fits_item(slot, value) {
                    return false;
                }
                left = slots;
                right = values;
            }
            None => return false,
        }
    }
    right.is_empty()
}

/// Whether local variables fit those of a shape. What nothing was written to is int 0.
pub fn fits_locals(shape: &[Slot], locals: &[Value]) -> bool
    ensures { IsTrue result ↔ IsTrue (fits_locals (map slot_seen shape.now) locals.now) }
{
    let unwritten = Value::of(ValueForm::Int(0));
    let mut left = shape;
    let mut right = locals;
    while let Some((slot, slots)) = left.split_first() {
        match right.split_first() {
            Some((value, values)) => {
                if !fits(slot, value) {
                    return false;
                }
                right = values;
            }
            None => {
                if !fits(slot, &unwritten) {
                    return false;
                }
            }
        }
        left = slots;
    }
    true
}

/// Whether a frame has a shape.
pub fn fits_shape(shape: &Shape, frame: &Frame) -> bool
    ensures { IsTrue result ↔ IsTrue (fits_shape (shape_seen shape.now) frame.now) }
{
    fits_stack(shape.stack.as_slice(), frame.stack())
        && fits_locals(shape.locals.as_slice(), frame.locals())
}

/// Whether a frame has the shape of an index, by the shapes of a method. None has that of an index
/// that is not reached.
pub fn fits_known(shapes: &[Option<Shape>], place: usize, frame: &Frame) -> bool
    ensures { IsTrue result
        ↔ IsTrue (fits_known (known_there (shapes_seen shapes.now) place) frame.now) }
{
    match shapes.get(place) {
        Some(there) => match there {
            Some(shape) => fits_shape(shape, frame),
            None => false,
        },
        None => false,
    }
}
