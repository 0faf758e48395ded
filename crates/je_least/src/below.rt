//! Whether a shape says no more than another.

ghost use Rattle.std.specs.Prelude.{◌≡◌, ◌↔◌, IsTrue, map};
ghost use Rattle.je_shape.specs.Slot.{Top, HasName, HasNames, IsBelow, IsItemBelow};
ghost use Rattle.je_shape.specs.Shape.{StackBelow, LocalsBelow, ShapeBelow};
ghost use Rattle.je_shape.specs.Flow.{shape_of};
ghost use Rattle.je_shape.specs.Views.{slot_seen, shape_seen};

use je_base::Text;
use je_shape::{Shape, Slot, View, seen};

/// Whether the name is one of these.
fn has_name(names: &[Text], name: &Text) -> bool
    ensures { IsTrue result ↔ HasName names.now name.now }
{
    let mut rest = names;
    while let Some((first, behind)) = rest.split_first() {
        if first == name {
            return true;
        }
        rest = behind;
    }
    false
}

/// Whether each name of the first is one of the second's.
pub(crate) fn has_names(few: &[Text], many: &[Text]) -> bool
    ensures { IsTrue result ↔ HasNames few.now many.now }
{
    let mut rest = few;
    while let Some((name, behind)) = rest.split_first() {
        if !has_name(many, name) {
            return false;
        }
        rest = behind;
    }
    true
}

/// Whether an item of the stack is below another.
fn is_item_below(a: &Slot, b: &Slot) -> bool
    ensures { IsTrue result ↔ IsItemBelow (slot_seen a.now) (slot_seen b.now) }
{
    match (seen(a), seen(b)) {
        (View::Unused, View::Unused) => true,
        (View::Alone(v), View::Alone(w)) => v == w,
        (View::Names(few), View::Names(many)) => has_names(few, many),
        _ => false,
    }
}

/// Whether the slot is `Top`.
pub(crate) fn is_top(slot: &Slot) -> bool
    ensures { IsTrue result ↔ slot_seen slot.now ≡ Top }
{
    matches!(slot, Slot::Top)
}

/// Whether a local variable is below another.
fn is_slot_below(a: &Slot, b: &Slot) -> bool
    ensures { IsTrue result ↔ IsBelow (slot_seen a.now) (slot_seen b.now) }
{
    is_top(b) || is_item_below(a, b)
}

/// Whether a stack is below another.
fn is_stack_below(a: &[Slot], b: &[Slot]) -> bool
    ensures { IsTrue result ↔ StackBelow (map slot_seen a.now) (map slot_seen b.now) }
{
    let mut left = a;
    let mut right = b;
    while let Some((x, xs)) = left.split_first() {
        match right.split_first() {
            Some((y, ys)) => {
                if !is_item_below(x, y) {
                    return false;
                }
                left = xs;
                right = ys;
            }
            None => return false,
        }
    }
    right.is_empty()
}

/// Whether local variables are below others.
fn are_locals_below(a: &[Slot], b: &[Slot]) -> bool
    ensures { IsTrue result ↔ LocalsBelow (map slot_seen a.now) (map slot_seen b.now) }
{
    let mut left = a;
    let mut right = b;
    while let Some((y, ys)) = right.split_first() {
        match left.split_first() {
            Some((x, xs)) => {
                if !is_slot_below(x, y) {
                    return false;
                }
                left = xs;
            }
            None => {
                if !is_top(y) {
                    return false;
                }
            }
        }
        right = ys;
    }
    true
}

/// Whether the shape of a stack and local variables is below another.
pub(crate) fn is_below(stack: &[Slot], locals: &[Slot], there: &Shape) -> bool
    ensures { IsTrue result ↔ ShapeBelow
        (shape_of (map slot_seen stack.now) (map slot_seen locals.now)) (shape_seen there.now) }
{
    is_stack_below(stack, there.stack.as_slice())
        && are_locals_below(locals, there.locals.as_slice())
}
