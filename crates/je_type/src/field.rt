//! The types that field descriptors spell.

ghost use Rattle.std.specs.Prelude.{◌≡◌, ◌<◌, ◌+◌, ◌==◌, ℕ, List, ◌∷◌, ◌++◌, length, position};
ghost use Rattle.std.specs.Prelude.{Some, IfOk, IfSome, IfNone, MatchOption};
ghost use Rattle.std.specs.Option.{option_map};
ghost use Rattle.je_base.specs.Text.{IsModifiedUtf8};
ghost use Rattle.je_desc.specs.declared.types.JType.{JType as AnyType};
ghost use Rattle.je_desc.specs.FieldType.{FieldType, Base, HasName, dimensions, descriptor};
ghost use Rattle.je_desc.specs.Names.{IsClassName};
ghost use Rattle.je_desc.specs.Descriptor.{FieldDescriptor, SpellsField};
ghost use Rattle.je_desc.specs.Types.{field_type_of};
ghost use Rattle.je_type.specs.Reading.{base_at, IsFront};
ghost use Rattle.je_type.specs.Texts.{HasText};

use je_base::{Memory, Text};
use je_desc::{JType, is_field};
use sqlite_items::Boxed;
use std::alloc::Global;

/// The type that the bytes spell (JVMS 4.3.2), or `None` where they are no field descriptor.
///
/// A class has its name as a text, so that bytes that are not in modified UTF-8 (JVMS 4.4.7) spell
/// no type.
///
/// # Errors
///
/// `Memory` where memory runs out.
pub fn parse_field(alloc: Global, b: &[u8]) -> Result<Option<JType>, Memory>
    ensures found { IfOk result (λ found. IfSome found (λ t. SpellsField b.now (field_type_of t))) }
    ensures form { IfOk result (λ found. IfSome found (λ _. IsModifiedUtf8 b.now)) }
    ensures none { IfOk result (λ found.
        IfNone found (IsModifiedUtf8 b.now → FieldDescriptor b.now → ⊥)) }

    // What is written of a type is read as that type.
    ensures only { (t : AnyType) → SpellsField b.now (field_type_of t) → IsModifiedUtf8 b.now →
        IfOk result (λ found. found ≡ Some t) }
{
    if !is_field(b) {
        return Ok(None);
    }
    first_type(alloc, b)
}

/// The type at the front, whatever comes after it.
pub(crate) fn first_type(alloc: Global, bytes: &[u8]) -> Result<Option<JType>, Memory>
    ensures reads { (t : FieldType) (x : List ℕ) → IsFront t x bytes.now → IfOk result (λ found.
        MatchOption found (HasText t → ⊥) (λ u. field_type_of u ≡ t)) }
    ensures form { IfOk result (λ found. IfSome found (λ u. HasText (field_type_of u))) }
{
    match type_front(alloc, bytes)? {
        Some((t, _)) => Ok(Some(t)),
        None => Ok(None),
    }
}

/// The type at the front, and what comes after it.
pub(crate) fn type_front(alloc: Global, bytes: &[u8]) -> Result<Option<(JType, &[u8])>, Memory>
    ensures reads { (t : FieldType) (x : List ℕ) → IsFront t x bytes.now → IfOk result (λ found.
        MatchOption found (HasText t → ⊥) (λ p. (field_type_of p.0 ≡ t) × (p.1.now ≡ x))) }
    ensures form { IfOk result (λ found. IfSome found (λ p. HasText (field_type_of p.0))) }
    ensures shorter { IfOk result (λ found.
        IfSome found (λ p. length p.1.now < length bytes.now)) }
{
    let Some((first, rest)) = bytes.split_first() else {
        return Ok(None);
    };
    if *first != b'[' {
        return element_front(alloc, *first, rest);
    }
    match type_front(alloc, rest)? {
        Some((component, behind)) => {
            let component = Boxed::new(alloc, component)?;
            Ok(Some((JType::Array(component), behind)))
        }
        None => Ok(None),
    }
}

/// The type that begins with this byte and is no array, and what comes after it.
fn element_front(alloc: Global, first: u8, rest: &[u8]) -> Result<Option<(JType, &[u8])>, Memory>
    ensures reads { (t : FieldType) (x : List ℕ) → HasName t → dimensions t ≡ 0 →
        first ∷ rest.now ≡ descriptor t ++ x → IfOk result (λ found.
        MatchOption found (HasText t → ⊥) (λ p. (field_type_of p.0 ≡ t) × (p.1.now ≡ x))) }
    ensures form { IfOk result (λ found. IfSome found (λ p. HasText (field_type_of p.0))) }
    ensures shorter { IfOk result (λ found.
        IfSome found (λ p. length p.1.now < length rest.now + 1)) }
{
    if first != b'L' {
        return match base_of(first) {
            Some(base) => Ok(Some((base, rest))),
            None => Ok(None),
        };
    }
    match name_front(alloc, rest)? {
        Some((name, behind)) => Ok(Some((JType::Class(name), behind))),
        None => Ok(None),
    }
}

/// The base type of a letter (JVMS 4.3.2, table 4.3-A).
fn base_of(letter: u8) -> Option<JType>
    ensures { option_map field_type_of result ≡ option_map (λ base. Base base) (base_at letter) }
{
    match letter {
        b'B' => Some(JType::Byte),
        b'C' => Some(JType::Char),
        b'D' => Some(JType::Double),
        b'F' => Some(JType::Float),
        b'I' => Some(JType::Int),
        b'J' => Some(JType::Long),
        b'S' => Some(JType::Short),
        b'Z' => Some(JType::Boolean),
        _ => None,
    }
}

/// The name up to the first `;`, and what comes after that.
fn name_front(alloc: Global, bytes: &[u8]) -> Result<Option<(Text, &[u8])>, Memory>
    ensures reads { (name x : List ℕ) → IsClassName name → bytes.now ≡ name ++ 59 ∷ x →
        IfOk result (λ found.
        MatchOption found (IsModifiedUtf8 name → ⊥) (λ p. (p.0 ≡ name) × (p.1.now ≡ x))) }
    ensures form { IfOk result (λ found. IfSome found (λ p. IsModifiedUtf8 p.0)) }
    ensures shorter { IfOk result (λ found.
        IfSome found (λ p. length p.1.now < length bytes.now)) }
{
    let Some(end) = name_end(bytes) else {
        return Ok(None);
    };
    match Text::from_bytes(alloc, &bytes[..end])? {
        Some(name) => Ok(Some((name, &bytes[end + 1..]))),
        None => Ok(None),
    }
}

/// Where the first `;` stands.
fn name_end(bytes: &[u8]) -> Option<usize>
    ensures place { result ≡ position (λ byte. byte == 59) bytes.now }
    ensures bound { IfSome result (λ end. end < length bytes.now) }
{
    bytes.iter().position(|byte| *byte == b';')
}
