//! A slot as the order of slots sees it: in three ways.

ghost use Rattle.std.specs.Prelude.{◌≡◌, IfOk};
ghost use Rattle.je_shape.specs.Slot.{Is, Reference};
ghost use Rattle.je_shape.specs.Canonical.{IsCanonicalSlot, IsCanonicalNames};
ghost use Rattle.je_shape.specs.Views.{slot_seen};
ghost use Rattle.je_shape.specs.Sorts.{word_seen, view_seen};

use crate::names::Names;
use crate::slot::Slot;
use je_base::{Memory, Text};
use std::alloc::Global;

/// What is like nothing but itself (JVMS 4.10.1.2).
#[derive(Clone, Copy, Debug, PartialEq, Eq)]
pub enum Word {
    Int,
    Float,
    Long,
    Double,
    /// `this` of a constructor, before it has called another one.
    UninitThis,
    /// What the `new` at this index made, before a constructor is called on it.
    Uninit(u32),
}

/// A slot in three ways.
#[derive(Clone, Copy)]
pub enum View<'a> {
    /// Nothing that can be used.
    Unused,
    /// A word.
    Alone(Word),
    /// A reference to an object of one of these classes, or null, which has no names.
    Names(&'a [Text]),
}

/// The slot as one of the three.
pub fn seen(slot: &Slot) -> View<'_>
    ensures same { view_seen result ≡ slot_seen slot.now }
    ensures canonical { IsCanonicalSlot (view_seen result) }
{
    match slot {
        Slot::Top => View::Unused,
        Slot::Int => View::Alone(Word::Int),
        Slot::Float => View::Alone(Word::Float),
        Slot::Long => View::Alone(Word::Long),
        Slot::Double => View::Alone(Word::Double),
        Slot::Null => View::Names(&[]),
        Slot::UninitThis => View::Alone(Word::UninitThis),
        Slot::Uninit(new) => View::Alone(Word::Uninit(*new)),
        Slot::Ref(names) => View::Names(names.as_slice()),
    }
}

/// The slot of a word.
pub(crate) fn of_word(word: Word) -> Slot
    ensures { slot_seen result ≡ Is (word_seen word) }
{
    match word {
        Word::Int => Slot::Int,
        Word::Float => Slot::Float,
        Word::Long => Slot::Long,
        Word::Double => Slot::Double,
        Word::UninitThis => Slot::UninitThis,
        Word::Uninit(new) => Slot::Uninit(new),
    }
}

/// The reference with these names, which is null where there are none.
///
/// # Errors
///
/// `Memory` where memory runs out.
pub fn of_names(alloc: Global, list: Vec<Text>) -> Result<Slot, Memory>
    requires { IsCanonicalNames list.items }
    ensures { IfOk result (λ slot. slot_seen slot ≡ Reference list.items) }
{
    if list.is_empty() {
        return Ok(Slot::Null);
    }
    let names = Names::of_sorted(alloc, list)?;
    Ok(Slot::Ref(names))
}
