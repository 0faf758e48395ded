//! Whether a shape agrees with a frame of the StackMapTable (JVMS 4.7.4).

ghost use Rattle.std.specs.Prelude.{◌≡◌, ◌↔◌, IsTrue, map};
ghost use Rattle.je_shape.specs.Flow.{shape_of};
ghost use Rattle.je_shape.specs.Least.{ItemAgrees, LocalAgrees, StackAgrees, Agrees};
ghost use Rattle.je_least.specs.Agreeing.{LocalsAgree};
ghost use Rattle.je_shape.specs.Views.{slot_seen, shape_seen};

use crate::below::is_top;
use je_shape::{Shape, Slot, View, seen};

/// Whether a slot is of the sort of another; names are not compared.
pub(crate) fn is_alike(a: &Slot, b: &Slot) -> bool
    ensures { IsTrue result ↔ ItemAgrees (slot_seen a.now) (slot_seen b.now) }
{
    match (seen(a), seen(b)) {
        (View::Unused, View::Unused) => true,
        (View::Alone(v), View::Alone(w)) => v == w,
        (View::Names(_), View::Names(_)) => true,
        _ => false,
    }
}

/// Whether a local variable agrees with that of a frame.
fn local_agrees(a: &Slot, frame: &Slot) -> bool
    ensures { IsTrue result ↔ LocalAgrees (slot_seen a.now) (slot_seen frame.now) }
{
    is_top(frame) || is_alike(a, frame)
}

/// Whether a stack agrees with that of a frame.
fn stack_agrees(a: &[Slot], frame: &[Slot]) -> bool
    ensures { IsTrue result ↔ StackAgrees (map slot_seen a.now) (map slot_seen frame.now) }
{
    let mut left = a;
    let mut right = frame;
    while let Some((x, xs)) = left.split_first() {
        match right.split_first() {
            Some((y, ys)) => {
                if !is_alike(x, y) {
                    return false;
                }
                left = xs;
                right = ys;
            }
            None => return false,
        }
    }
    right.is_empty()
}

/// Whether local variables agree with those of a frame.
fn locals_agree(a: &[Slot], frame: &[Slot]) -> bool
    ensures { IsTrue result ↔ LocalsAgree (map slot_seen a.now) (map slot_seen frame.now) }
{
    let mut left = a;
    let mut right = frame;
    while let Some((y, ys)) = right.split_first() {
        match left.split_first() {
            Some((x, xs)) => {
                if !local_agrees(x, y) {
                    return false;
                }
                left = xs;
            }
            None => {
                if !is_top(y) {
                    return false;
                }
            }
        }
        right = ys;
    }
    true
}

/// Whether the shape of a stack and local variables agrees with a frame.
pub(crate) fn agrees(stack: &[Slot], locals: &[Slot], frame: &Shape) -> bool
    ensures { IsTrue result ↔ Agrees
        (shape_of (map slot_seen stack.now) (map slot_seen locals.now)) (shape_seen frame.now) }
{
    stack_agrees(stack, frame.stack.as_slice()) && locals_agree(locals, frame.locals.as_slice())
}
