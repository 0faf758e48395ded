//! Laws over all pools.

ghost use Rattle.std.specs.Prelude.{◌≡◌, ℕ, ◌^◌, ◌<◌, ◌≤◌, ◌⊎◌, ◌↔◌, List, length, slice_index};
ghost use Rattle.std.specs.Prelude.{IsSome};
ghost use Rattle.je_consts.specs.declared.fault.ConstFault.{ConstFault};
ghost use Rattle.je_consts.specs.declared.place.Place.{Place};
ghost use Rattle.je_base.specs.Parts.{OneWay};
ghost use Rattle.je_consts.specs.EntryParts.{Test, EntryFault, entry_format};
ghost use Rattle.je_consts.specs.Faults.{FirstFault};
ghost use Rattle.je_consts.specs.Layout.{IsPoolAt};
ghost use Rattle.je_consts.specs.Pool.{text_at, class_at, name_and_type_at, member_at, IsPool};
ghost use Rattle.je_consts.specs.Pool.{IsUtf8At, IsClassAt, IsNameAndTypeAt, IsMemberAt};

use je_base::{Parted, one_way};

/// The parts of an entry (JVMS 4.4).
pub(crate) struct EntryParts;

impl Parted for EntryParts {
    ghost Test = { Test };

    ghost Value = { ⊥ };

    ghost Fault = { EntryFault };

    ghost format = { entry_format };
}

/// What stands at an offset of an entry is one way.
pub(crate) fn one_entry_way()
    ensures { OneWay entry_format }
{
    // The law of the layer below that the proof stands on.
    one_way::<EntryParts>();
}

/// From an offset on, bytes are one constant pool or have one first fault, and there is one of
/// them.
pub fn one_pool()
    ensures same { (bytes : List ℕ) (at end other : ℕ) (places others : List Place) →
        IsPoolAt bytes at end places → IsPoolAt bytes at other others
        → (places ≡ others) × (end ≡ other) }
    ensures no_fault { (bytes : List ℕ) (at end : ℕ) (places : List Place) (d : ConstFault) →
        IsPoolAt bytes at end places → FirstFault bytes at d → ⊥ }
    ensures one_fault { (bytes : List ℕ) (at : ℕ) (d e : ConstFault) →
        FirstFault bytes at d → FirstFault bytes at e → d ≡ e }
    ensures some_answer { (bytes : List ℕ) (at : ℕ) →
        ((i : ℕ) → slice_index bytes i < 2 ^ 8) → at ≤ length bytes
        → ((places : List Place) × (end : ℕ) × IsPoolAt bytes at end places)
        ⊎ ((d : ConstFault) × FirstFault bytes at d) }
{
    // The law that the proof stands on.
    one_entry_way();
}

/// In a pool a look-up answers exactly where an entry of its tag stands: what the entry names is
/// there.
pub fn found_by_tag()
    ensures text { (places : List Place) → IsPool places → (i : ℕ) →
        IsSome (text_at places i) ↔ IsUtf8At places i }
    ensures class_name { (places : List Place) → IsPool places → (i : ℕ) →
        IsSome (class_at places i) ↔ IsClassAt places i }
    ensures name_and_type { (places : List Place) → IsPool places → (i : ℕ) →
        IsSome (name_and_type_at places i) ↔ IsNameAndTypeAt places i }
    ensures member { (places : List Place) → IsPool places → (i : ℕ) →
        IsSome (member_at places i) ↔ IsMemberAt places i }
{}
