//! What instructions want of slots (JVMS 4.10.1.9).

ghost use Rattle.std.specs.Prelude.{◌≡◌, ◌∷◌, [], ◌↔◌, IsTrue, IfOk, map, reverse};
ghost use Rattle.je_machine.specs.Value.{kind_of, IntKind, ReferenceKind};
ghost use Rattle.je_value.specs.Condition.{condition_in};
ghost use Rattle.je_shape.specs.Serves.{Wants, Meets, IsOfKind, IsAnyReference};
ghost use Rattle.je_shape.specs.Serves.{IsThisOrReference, StackMeets, moved, wants_of};
ghost use Rattle.je_shape.specs.Serves.{wants_of_condition, wants_of_parameters};
ghost use Rattle.je_flow.specs.Seen.{want_in};
ghost use Rattle.je_shape.specs.Views.{slot_seen};

use je_base::Memory;
use je_shape::Slot;
use je_value::{Action, ActionForm, Condition, FieldType, Kind, KindForm};
use sqlite_items::Items;
use std::alloc::Global;

/// What is wanted of a slot.
#[derive(Clone, Copy)]
pub(crate) enum Want {
    /// A value of a kind, which a reference is once a constructor was called on it.
    Of(Kind),
    /// A reference, or one that waits for its constructor.
    Any,
    /// A reference, or `this` before another constructor is called on it.
    This,
}

/// An int is wanted.
pub(crate) fn int() -> Want
    ensures { want_in result ≡ Wants IntKind }
{
    Want::Of(Kind::of(KindForm::Int))
}

/// Whether the slot is a reference that a constructor was called on.
fn is_reference(slot: &Slot) -> bool
    ensures { IsTrue result ↔ IsOfKind ReferenceKind (slot_seen slot.now) }
{
    match slot {
        Slot::Null | Slot::Ref(_) => true,
        Slot::Top
        | Slot::Int
        | Slot::Float
        | Slot::Long
        | Slot::Double
        | Slot::UninitThis
        | Slot::Uninit(_) => false,
    }
}

/// Whether the slot is a value of the kind.
fn is_of_kind(kind: Kind, slot: &Slot) -> bool
    ensures { IsTrue result ↔ IsOfKind kind (slot_seen slot.now) }
{
    match kind.form() {
        KindForm::Int => matches!(slot, Slot::Int),
        KindForm::Long => matches!(slot, Slot::Long),
        KindForm::Float => matches!(slot, Slot::Float),
        KindForm::Double => matches!(slot, Slot::Double),
        KindForm::Reference => is_reference(slot),
    }
}

/// Whether the slot is a reference, or one that waits for its constructor.
fn is_any_reference(slot: &Slot) -> bool
    ensures { IsTrue result ↔ IsAnyReference (slot_seen slot.now) }
{
    match slot {
        Slot::Null | Slot::Ref(_) | Slot::UninitThis | Slot::Uninit(_) => true,
        Slot::Top | Slot::Int | Slot::Float | Slot::Long | Slot::Double => false,
    }
}

/// Whether the slot is a reference, or `this` before another constructor is called on it.
fn is_this_or_reference(slot: &Slot) -> bool
    ensures { IsTrue result ↔ IsThisOrReference (slot_seen slot.now) }
{
    match slot {
        Slot::Null | Slot::Ref(_) | Slot::UninitThis => true,
        Slot::Top | Slot::Int | Slot::Float | Slot::Long | Slot::Double | Slot::Uninit(_) => false,
    }
}

/// Whether the slot is what is wanted.
pub(crate) fn meets(want: Want, slot: &Slot) -> bool
    ensures { IsTrue result ↔ Meets (want_in want) (slot_seen slot.now) }
{
    match want {
        Want::Of(kind) => is_of_kind(kind, slot),
        Want::Any => is_any_reference(slot),
        Want::This => is_this_or_reference(slot),
    }
}

/// Whether the items from the top are what is wanted, the last want that of the top.
#[tactic(auto, using(crate::proofs::WantLemmas::wanted))]
pub(crate) fn stack_meets(wants: &[Want], stack: &[Slot]) -> bool
    ensures { IsTrue result
        ↔ StackMeets (reverse (map want_in wants.now)) (map slot_seen stack.now) }
{
    match wants.split_last() {
        None => true,
        Some((want, deeper)) => match stack.split_first() {
            None => false,
            Some((slot, rest)) => meets(*want, slot) && stack_meets(deeper, rest),
        },
    }
}

/// What a load and a store of a kind move: references that wait for their constructor too.
pub(crate) fn moved(kind: Kind) -> Want
    ensures { want_in result ≡ moved kind }
{
    match kind.form() {
        KindForm::Reference => Want::Any,
        KindForm::Int | KindForm::Long | KindForm::Float | KindForm::Double => Want::Of(kind),
    }
}

/// A list of one want.
fn one(alloc: Global, want: Want) -> Result<Items<Want>, Memory>
    ensures { IfOk result (λ wants. wants ≡ want ∷ []) }
{
    let mut wants = Items::new(alloc);
    wants.push(want)?;
    Ok(wants)
}

/// A list of two wants.
fn two(alloc: Global, first: Want, second: Want) -> Result<Items<Want>, Memory>
    ensures { IfOk result (λ wants. wants ≡ first ∷ second ∷ []) }
{
    let mut wants = one(alloc, first)?;
    wants.push(second)?;
    Ok(wants)
}

/// Values of these kinds.
fn of_kinds(alloc: Global, kinds: &[Kind]) -> Result<Items<Want>, Memory>
    ensures { IfOk result (λ wants. map want_in wants ≡ map Wants kinds.now) }
{
    let mut wants = Vec::with_capacity(alloc, kinds.len())?;
    for kind in kinds {
        wants.push(Want::Of(*kind))?;
    }
    Ok(Items::from_vec(wants))
}

/// What a condition wants, the deepest first.
///
/// # Errors
///
/// `Memory` where memory runs out.
pub(crate) fn wants_of_condition(alloc: Global, condition: Condition) -> Result<Items<Want>, Memory>
    ensures { IfOk result (λ wants.
        map want_in wants ≡ wants_of_condition (condition_in condition)) }
{
    match condition {
        Condition::Zero(_) => one(alloc, int()),
        Condition::Ints(_) => two(alloc, int(), int()),
        Condition::Same(_) => two(alloc, Want::Any, Want::Any),
        Condition::IsNull(_) => one(alloc, Want::Any),
    }
}

/// What an action wants that calls no constructor, the deepest first.
///
/// # Errors
///
/// `Memory` where memory runs out.
pub(crate) fn wants_of(alloc: Global, action: &Action) -> Result<Items<Want>, Memory>
    ensures { IfOk result (λ wants. map want_in wants ≡ wants_of action.now) }
{
    match action.form() {
        ActionForm::PutField(field) => {
            two(alloc, Want::This, Want::Of(field.field_type().kind_of()))
        }
        ActionForm::MonitorEnter | ActionForm::MonitorExit => one(alloc, Want::Any),
        _ => {
            let kinds = action.operands_of(alloc)?;
            of_kinds(alloc, kinds.as_slice())
        }
    }
}

/// Values of these types.
fn of_types(alloc: Global, types: &[FieldType]) -> Result<Items<Want>, Memory>
    ensures { IfOk result (λ wants. map want_in wants ≡ map (λ t. Wants (kind_of t)) types.now) }
{
    let mut wants = Vec::with_capacity(alloc, types.len())?;
    for of in types {
        wants.push(Want::Of(of.kind_of()))?;
    }
    Ok(Items::from_vec(wants))
}

/// The parameters that a call wants, the first one first.
///
/// # Errors
///
/// `Memory` where memory runs out.
pub(crate) fn wants_of_parameters(alloc: Global, action: &Action) -> Result<Items<Want>, Memory>
    ensures { IfOk result (λ wants. map want_in wants ≡ wants_of_parameters action.now) }
{
    match action.form() {
        ActionForm::Invoke(_, _, types) => of_types(alloc, types.params()),
        _ => Ok(Items::new(alloc)),
    }
}
