//! Field descriptors.

ghost use Rattle.std.specs.Prelude.{◌≡◌, ℕ, ◌↔◌, ◌==◌, List, position, IsTrue, IfSome, MatchOption};
ghost use Rattle.je_desc.specs.Descriptor.{FieldDescriptor};
ghost use Rattle.je_desc.specs.Front.{IsBaseLetter, NameFront, FieldFront};

use crate::names::is_class_name;

/// The most dimensions that an array has (JVMS 4.3.2).
const MOST_DIMENSIONS: u32 = 255;

/// Whether the bytes are a field descriptor (JVMS 4.3.2).
pub fn is_field(b: &[u8]) -> bool
    ensures { IsTrue result ↔ FieldDescriptor b.now }
{
    match after_field(b) {
        Some(rest) => rest.is_empty(),
        None => false,
    }
}

/// What comes after the field descriptor at the front.
pub(crate) fn after_field(b: &[u8]) -> Option<&[u8]>
    ensures some { IfSome result (λ rest. FieldFront 0 b.now rest.now) }
    ensures only { (x : List ℕ) → FieldFront 0 b.now x →
        MatchOption result ⊥ (λ rest. rest.now ≡ x) }
{
    let mut rest = b;
    let mut dimensions = 0;
    while let [b'[', component @ ..] = rest {
        if dimensions == MOST_DIMENSIONS {
            return None;
        }
        dimensions += 1;
        rest = component;
    }
    after_element(rest)
}

/// What comes after the type at the front that is no array.
fn after_element(b: &[u8]) -> Option<&[u8]>
    ensures some { IfSome result (λ rest. FieldFront 255 b.now rest.now) }
    ensures only { (x : List ℕ) → FieldFront 255 b.now x →
        MatchOption result ⊥ (λ rest. rest.now ≡ x) }
{
    let [first, rest @ ..] = b else {
        return None;
    };
    if is_base(*first) {
        return Some(rest);
    }
    if *first == b'L' {
        after_name(rest)
    } else {
        None
    }
}

#[tactic(auto, using(crate::proofs::FieldFronts::letter_among))]
fn is_base(letter: u8) -> bool
    ensures { IsTrue result ↔ IsBaseLetter letter }
{
    matches!(
        letter,
        b'B' | b'C' | b'D' | b'F' | b'I' | b'J' | b'S' | b'Z'
    )
}

/// What comes after the class name at the front and its `;`.
fn after_name(b: &[u8]) -> Option<&[u8]>
    ensures some { IfSome result (λ rest. NameFront b.now rest.now) }
    ensures only { (x : List ℕ) → NameFront b.now x → MatchOption result ⊥ (λ rest. rest.now ≡ x) }
{
    let end = name_end(b)?;
    if is_class_name(&b[..end]) {
        Some(&b[end + 1..])
    } else {
        None
    }
}

/// Where the first `;` stands.
fn name_end(b: &[u8]) -> Option<usize>
    ensures { result ≡ position (λ byte. byte == 59) b.now }
{
    b.iter().position(|byte| *byte == b';')
}
