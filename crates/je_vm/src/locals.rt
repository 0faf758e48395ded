//! Local variables (JVMS 2.6.1), by their slots.

ghost use Rattle.std.specs.Prelude.{◌≡◌, ◌++◌, ◌-◌, pos, replicate, length, slice_set, IfOk};
ghost use Rattle.std.specs.Prelude.{◌<◌};
ghost use Rattle.std.specs.Int.{w32, int_wrapping_add};
ghost use Rattle.je_machine.specs.Frame.{local_at, with_local, incremented};
ghost use Rattle.je_machine.specs.Value as machine;
ghost use Rattle.je_machine.specs.Value.{IntKind, Int, admit, number_of};

use je_base::Memory;
use je_value::{Kind, KindForm, Value, ValueForm, admit, value_at};
use sqlite_items::Items;

/// The value in a slot, and the int 0 where nothing was written.
///
/// # Errors
///
/// `Memory` where memory runs out.
pub fn local_at(locals: &[Value], slot: usize) -> Result<Value, Memory>
    ensures { IfOk result (λ v. v ≡ local_at locals.now slot) }
{
    value_at(locals, slot)
}

/// The local variables with so many more, each the int 0, that the slot is one.
fn with_slot(locals: Items<Value>, slot: usize) -> Result<Items<Value>, Memory>
    ensures enough { IfOk result (λ all. slot < length all) }
    ensures zeros { IfOk result (λ all.
        (v : machine.Value) → with_local all slot v ≡ with_local locals slot v) }
{
    let mut all = locals;
    while all.len() <= slot {
        all.push(Value::of(ValueForm::Int(0)))?;
    }
    Ok(all)
}

/// Writes a slot that is there.
#[tactic(auto, using(crate::proofs::LocalLemmas::written))]
fn put_local(locals: Items<Value>, slot: usize, value: Value) -> Items<Value>
    requires { slot < length locals }
    ensures { result ≡ with_local locals slot value }
{
    let mut all = locals;
    all.set(slot, value);
    all
}

/// The local variables with one slot written, of a long or a double too. Slots that nothing was
/// written to are the int 0.
///
/// # Errors
///
/// `Memory` where memory runs out.
pub fn with_local(locals: Items<Value>, slot: usize, value: Value) -> Result<Items<Value>, Memory>
    ensures { IfOk result (λ all. all ≡ with_local locals slot value) }
{
    let all = with_slot(locals, slot)?;
    Ok(put_local(all, slot, value))
}

/// An i32 as an int that enters the machine.
fn entered_int(n: i32) -> i32
    ensures { result ≡ number_of (admit IntKind (Int n)) }
{
    n
}

/// The int that a value counts as.
fn int_of(value: &Value) -> i32
    ensures { result ≡ number_of (admit IntKind value.now) }
{
    match value.form() {
        ValueForm::Int(n) => entered_int(*n),
        _ => 0,
    }
}

/// The low 32 bits of the sum of a number and the int that a value counts as.
pub fn incremented(by: i32, value: &Value) -> Value
    ensures { result ≡ incremented by value.now }
{
    let sum = int_of(value).wrapping_add(by);
    admit(Kind::of(KindForm::Int), Value::of(ValueForm::Int(sum)))
}
