//! Method descriptors.

ghost use Rattle.std.specs.Prelude.{◌≡◌, ℕ, ◌≤◌, ◌↔◌, List, ◌∷◌, ◌++◌, Some, IsTrue, IfSome};
ghost use Rattle.std.specs.Prelude.{IfNone, MatchOption};
ghost use Rattle.je_desc.specs.FieldType.{FieldType, descriptor};
ghost use Rattle.je_desc.specs.Descriptor.{units_of, MethodDescriptor};
ghost use Rattle.je_desc.specs.Front.{ParamsFront, ReturnDescriptor};

use crate::field::{after_field, is_field};

/// The most units that the parameters of a method have (JVMS 4.3.3).
const MOST_UNITS: u32 = 255;

/// The return descriptor of a method that answers nothing (JVMS 4.3.3).
const VOID: &[u8] = b"V";

/// The units of the parameters, where the bytes are a method descriptor (JVMS 4.3.3): two for a
/// long or a double, one for every other. `None` where they are no method descriptor.
pub fn units(b: &[u8]) -> Option<u32>
    ensures some { IfSome result (MethodDescriptor b.now) }
    ensures none { IfNone result ((n : ℕ) → MethodDescriptor b.now n → ⊥) }
    ensures only { (n : ℕ) → MethodDescriptor b.now n → result ≡ Some n }
{
    let [b'(', params @ ..] = b else {
        return None;
    };
    let (units, result) = after_params(params)?;
    if is_return(result) { Some(units) } else { None }
}

/// The units of the parameters at the front, and what comes after their `)`.
fn after_params(b: &[u8]) -> Option<(u32, &[u8])>
    ensures some { IfSome result (λ p. (p.0 ≤ 255) × ParamsFront b.now p.0 p.1.now) }
    ensures only { (n : ℕ) (x : List ℕ) → n ≤ 255 → ParamsFront b.now n x →
        MatchOption result ⊥ (λ p. (p.0 ≡ n) × (p.1.now ≡ x)) }
{
    let mut rest = b;
    let mut units = 0;
    while let [first, after @ ..] = rest {
        if *first == b')' {
            return Some((units, after));
        }
        let next = after_field(rest)?;
        units += units_at(*first);
        if units > MOST_UNITS {
            return None;
        }
        rest = next;
    }
    None
}

/// The units of a parameter whose descriptor begins with this byte.
fn units_at(first: u8) -> u32
    ensures { (t : FieldType) (x y : List ℕ) → first ∷ x ≡ descriptor t ++ y → result ≡ units_of t }
{
    if first == b'J' || first == b'D' { 2 } else { 1 }
}

/// Whether the bytes are the descriptor of what a method answers: `V` or a field descriptor.
fn is_return(b: &[u8]) -> bool
    ensures { IsTrue result ↔ ReturnDescriptor b.now }
{
    b == VOID || is_field(b)
}
