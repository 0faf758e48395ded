//! The operand stack (JVMS 2.6.2), whose top comes first. It is total, and a long or a double is
//! one value.

ghost use Rattle.std.specs.Prelude.{◌≡◌, [], ◌∷◌, ◌++◌, IfOk};
ghost use Rattle.je_machine.specs.Frame.{top, below, popped, under, top_places, under_places};
ghost use Rattle.je_machine.specs.Frame.{copied, push};

use je_base::Memory;
use je_heap::copy_values;
use je_value::{Value, ValueForm};
use sqlite_items::Items;
use std::alloc::Global;

/// The value at the top, and null from nothing.
///
/// # Errors
///
/// `Memory` where memory runs out.
pub fn top(stack: &[Value]) -> Result<Value, Memory>
    ensures { IfOk result (λ v. v ≡ top stack.now) }
{
    match stack.split_first() {
        Some((value, _)) => value.copy(),
        None => Ok(Value::of(ValueForm::Null)),
    }
}

/// What is below the top.
pub fn below(stack: &[Value]) -> &[Value]
    ensures { result.now ≡ below stack.now }
{
    match stack.split_first() {
        Some((_, rest)) => rest,
        None => stack,
    }
}

/// A value alone.
fn only(alloc: Global, value: Value) -> Result<Items<Value>, Memory>
    ensures { IfOk result (λ s. s ≡ value ∷ []) }
{
    let mut stack = Items::new(alloc);
    stack.push(value)?;
    Ok(stack)
}

/// A value above a stack.
pub(crate) fn above(
    alloc: Global,
    value: Value,
    stack: Items<Value>,
) -> Result<Items<Value>, Memory>
    ensures { IfOk result (λ s. s ≡ value ∷ stack) }
{
    let mut all = only(alloc, value)?;
    all.append(stack)?;
    Ok(all)
}

/// So many values from the top, the deepest first.
///
/// # Errors
///
/// `Memory` where memory runs out.
pub fn popped(alloc: Global, count: usize, stack: &[Value]) -> Result<Items<Value>, Memory>
    ensures { IfOk result (λ s. s ≡ popped count stack.now) }
{
    if count == 0 {
        return Ok(Items::new(alloc));
    }
    let mut deeper = popped(alloc, count - 1, below(stack))?;
    deeper.push(top(stack)?)?;
    Ok(deeper)
}

/// What is under so many values from the top.
pub fn under(count: usize, stack: &[Value]) -> &[Value]
    ensures { result.now ≡ under count stack.now }
{
    if count == 0 {
        return stack;
    }
    under(count - 1, below(stack))
}

/// The values in so many places from the top, the top first.
///
/// # Errors
///
/// `Memory` where memory runs out.
pub fn top_places(alloc: Global, places: usize, stack: &[Value]) -> Result<Items<Value>, Memory>
    ensures { IfOk result (λ s. s ≡ top_places places stack.now) }
{
    if places == 0 {
        return Ok(Items::new(alloc));
    }
    let Some((value, rest)) = stack.split_first() else {
        return Ok(Items::new(alloc));
    };
    let more = top_places(alloc, places.saturating_sub(value.places_of()), rest)?;
    above(alloc, value.copy()?, more)
}

/// What is under so many places from the top.
pub fn under_places(places: usize, stack: &[Value]) -> &[Value]
    ensures { result.now ≡ under_places places stack.now }
{
    if places == 0 {
        return stack;
    }
    match stack.split_first() {
        Some((value, rest)) => under_places(places.saturating_sub(value.places_of()), rest),
        None => stack,
    }
}

/// One stack above another.
pub(crate) fn joined(above: Items<Value>, stack: Items<Value>) -> Result<Items<Value>, Memory>
    ensures { IfOk result (λ s. s ≡ above ++ stack) }
{
    let mut all = above;
    all.append(stack)?;
    Ok(all)
}

/// The stack with the top so many places once more, under the next so many.
///
/// # Errors
///
/// `Memory` where memory runs out.
pub fn copied(
    alloc: Global,
    places: usize,
    deep: usize,
    stack: &[Value],
) -> Result<Items<Value>, Memory>
    ensures { IfOk result (λ s. s ≡ copied places deep stack.now) }
{
    let rest = under_places(places, stack);
    let deepest = copy_values(alloc, under_places(deep, rest))?;
    let again = joined(top_places(alloc, places, stack)?, deepest)?;
    let next = joined(top_places(alloc, deep, rest)?, again)?;
    joined(top_places(alloc, places, stack)?, next)
}

/// The stack with a value above it, if there is one.
///
/// # Errors
///
/// `Memory` where memory runs out.
pub fn push(
    alloc: Global,
    value: Option<Value>,
    stack: Items<Value>,
) -> Result<Items<Value>, Memory>
    ensures { IfOk result (λ s. s ≡ push value stack) }
{
    match value {
        Some(value) => above(alloc, value, stack),
        None => Ok(stack),
    }
}
