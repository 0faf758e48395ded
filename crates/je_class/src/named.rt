//! Finding a method by its name and descriptor.

ghost use Rattle.std.specs.Prelude.{◌≡◌, ℕ, ◌<◌, ◌↔◌, Some, IsTrue, IfSome, IfNone, All, slice_get};
ghost use Rattle.std.specs.Prelude.{IsSomeAnd};
ghost use Rattle.je_consts.specs.Pool.{text_at};
ghost use Rattle.je_class.specs.Class.{IsNamed};

use crate::member::Member;
use je_consts::{ConstIndex, Consts};

/// Whether the text at an index has these bytes.
fn has_text(consts: &Consts, index: ConstIndex, bytes: &[u8]) -> bool
    ensures { IsTrue result ↔ (text_at consts.now index ≡ Some bytes.now) }
{
    match consts.text(index) {
        Some(text) => text.bytes() == bytes,
        None => false,
    }
}

fn is_named(consts: &Consts, name: &[u8], descriptor: &[u8], method: &Member) -> bool
    ensures { IsTrue result ↔ IsNamed consts.now name.now descriptor.now method.now }
{
    has_text(consts, method.name, name) && has_text(consts, method.descriptor, descriptor)
}

/// The place of the first method of this name and descriptor.
pub(crate) fn place_of(
    consts: &Consts,
    name: &[u8],
    descriptor: &[u8],
    methods: &[Member],
) -> Option<usize>
    ensures here { IfSome result (λ at. IsSomeAnd (slice_get methods.now at)
        (IsNamed consts.now name.now descriptor.now)) }
    ensures first { IfSome result (λ at. (i : ℕ) → i < at →
        IfSome (slice_get methods.now i) (λ m. IsNamed consts.now name.now descriptor.now m → ⊥)) }
    ensures none { IfNone result
        (All (λ m. IsNamed consts.now name.now descriptor.now m → ⊥) methods.now) }
{
    for (at, method) in methods.iter().enumerate() {
        if is_named(consts, name, descriptor, method) {
            return Some(at);
        }
    }
    None
}
