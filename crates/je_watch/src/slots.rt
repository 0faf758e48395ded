//! Whether a value fits a slot.

ghost use Rattle.std.specs.Prelude.{◌≡◌};
ghost use Rattle.je_fit.specs.Fits.{fits, fits_item};
ghost use Rattle.je_shape.specs.Views.{slot_seen};
ghost use Rattle.je_watch.specs.Wanted.{kind_wanted};

use je_shape::Slot;
use je_value::{Kind, KindForm, Value, is_of_kind};

/// The kind that a value of the slot has, or none where it may be anything.
fn kind_wanted(slot: &Slot) -> Option<Kind>
    ensures { result ≡ kind_wanted (slot_seen slot.now) }
{
    match slot {
        Slot::Top => None,
        Slot::Int => Some(Kind::of(KindForm::Int)),
        Slot::Float => Some(Kind::of(KindForm::Float)),
        Slot::Long => Some(Kind::of(KindForm::Long)),
        Slot::Double => Some(Kind::of(KindForm::Double)),
        Slot::Null => Some(Kind::of(KindForm::Reference)),
        Slot::UninitThis => Some(Kind::of(KindForm::Reference)),
        Slot::Uninit(_) => Some(Kind::of(KindForm::Reference)),
        Slot::Ref(_) => Some(Kind::of(KindForm::Reference)),
    }
}

/// Whether a local variable fits a slot. Anything is `Top`.
pub fn fits(slot: &Slot, value: &Value) -> bool
    ensures { result ≡ fits (slot_seen slot.now) value.now }
{
    match kind_wanted(slot) {
        Some(kind) => is_of_kind(kind, value),
        None => true,
    }
}

/// Whether an item of the stack fits a slot. None is `Top`.
pub fn fits_item(slot: &Slot, value: &Value) -> bool
    ensures { result ≡ fits_item (slot_seen slot.now) value.now }
{
    match kind_wanted(slot) {
        Some(kind) => is_of_kind(kind, value),
        None => false,
    }
}
