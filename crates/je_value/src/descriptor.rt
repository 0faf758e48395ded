//! The types that descriptors spell.

ghost use Rattle.std.specs.Prelude.{◌≡◌, ◌<◌, ◌≤◌, ◌==◌, ℕ, List, ◌∷◌, length, position, Some};
ghost use Rattle.std.specs.Prelude.{IfOk, IfSome};
ghost use Rattle.std.specs.Option.{option_map};
ghost use Rattle.je_desc.specs.FieldType.{FieldType};
ghost use Rattle.je_desc.specs.Descriptor.{SpellsField, SpellsMethod, MethodTypes as Types};
ghost use Rattle.je_value.specs.FieldType.{base_in, element_in, array_of};
ghost use Rattle.je_value.specs.Reading.{base_at, element_at, name_at, type_at, IsUnder};
ghost use Rattle.je_value.specs.Reading.{answer_at, IsMethodRest};

use crate::field_type::{BaseType, ElementType, FieldType, MethodTypes};
use je_base::{Memory, Run};
use je_desc::{is_field, units};
use sqlite_items::Items;
use std::alloc::Global;

/// The base type of a letter (JVMS 4.3.2, table 4.3-A).
fn base_of(letter: u8) -> Option<BaseType>
    ensures { option_map base_in result ≡ base_at letter }
{
    match letter {
        b'B' => Some(BaseType::Byte),
        b'C' => Some(BaseType::Char),
        b'D' => Some(BaseType::Double),
        b'F' => Some(BaseType::Float),
        b'I' => Some(BaseType::Int),
        b'J' => Some(BaseType::Long),
        b'S' => Some(BaseType::Short),
        b'Z' => Some(BaseType::Boolean),
        _ => None,
    }
}

/// Where the first `;` stands.
fn name_end(bytes: &[u8]) -> Option<usize>
    ensures place { result ≡ position (λ byte. byte == 59) bytes.now }
    ensures bound { IfSome result (λ end. end < length bytes.now) }
{
    bytes.iter().position(|byte| *byte == b';')
}

/// The name up to the first `;`, and what comes after that.
fn name_front(alloc: Global, bytes: &[u8]) -> Result<Option<(ElementType, &[u8])>, Memory>
    ensures front { IfOk result (λ found.
        option_map (λ p. (element_in p.0, p.1.now)) found ≡ name_at bytes.now) }
    ensures shorter { IfOk result (λ found.
        IfSome found (λ p. length p.1.now < length bytes.now)) }
{
    let Some(end) = name_end(bytes) else {
        return Ok(None);
    };
    let name = Vec::from_slice(alloc, &bytes[..end])?;
    let name = Run::of_vec(alloc, name)?;
    Ok(Some((ElementType::Object(name), &bytes[end + 1..])))
}

/// The type at the front that is no array, and what comes after it.
fn element_front(alloc: Global, bytes: &[u8]) -> Result<Option<(ElementType, &[u8])>, Memory>
    ensures front { IfOk result (λ found.
        option_map (λ p. (element_in p.0, p.1.now)) found ≡ element_at bytes.now) }
    ensures shorter { IfOk result (λ found.
        IfSome found (λ p. length p.1.now < length bytes.now)) }
{
    let Some((first, rest)) = bytes.split_first() else {
        return Ok(None);
    };
    if *first == b'L' {
        return name_front(alloc, rest);
    }
    match base_of(*first) {
        Some(base) => Ok(Some((ElementType::Base(base), rest))),
        None => Ok(None),
    }
}

/// How many `[` stand at the front, and what comes after them.
#[tactic(auto, using(crate::proofs::ReadingLemmas::one_more))]
fn dimensions_front(bytes: &[u8]) -> (usize, &[u8])
    ensures under { IsUnder result.0 result.1.now bytes.now }
    ensures within { length result.1.now ≤ length bytes.now }
{
    let mut left = bytes;
    let mut dimensions = 0;
    while let Some((first, rest)) = left.split_first() {
        if *first != b'[' {
            return (dimensions, left);
        }
        dimensions += 1;
        left = rest;
    }
    (dimensions, left)
}

/// The type at the front, and what comes after it.
fn type_front(alloc: Global, bytes: &[u8]) -> Result<Option<(FieldType, &[u8])>, Memory>
    ensures front { IfOk result (λ found.
        option_map (λ p. (p.0, p.1.now)) found ≡ type_at bytes.now) }
    ensures shorter { IfOk result (λ found.
        IfSome found (λ p. length p.1.now < length bytes.now)) }
{
    let (dimensions, left) = dimensions_front(bytes);
    match element_front(alloc, left)? {
        Some((element, rest)) => Ok(Some((FieldType::of(dimensions, element), rest))),
        None => Ok(None),
    }
}

/// The type at the front, whatever comes after it.
fn first_type(alloc: Global, bytes: &[u8]) -> Result<Option<FieldType>, Memory>
    ensures { IfOk result (λ found. found ≡ option_map (λ p. p.0) (type_at bytes.now)) }
{
    match type_front(alloc, bytes)? {
        Some((of, _)) => Ok(Some(of)),
        None => Ok(None),
    }
}

/// The type of a field that the bytes spell (JVMS 4.3.2), or `None` where they are no field
/// descriptor.
///
/// # Errors
///
/// `Memory` where memory runs out.
pub fn read_field_type(alloc: Global, bytes: &[u8]) -> Result<Option<FieldType>, Memory>
    ensures found { IfOk result (λ found. IfSome found (SpellsField bytes.now)) }
    ensures only { (t : FieldType) → SpellsField bytes.now t →
        IfOk result (λ found. found ≡ Some t) }
{
    if !is_field(bytes) {
        return Ok(None);
    }
    first_type(alloc, bytes)
}

/// What a method answers, of what stands behind the `)` of its descriptor.
fn returned(alloc: Global, bytes: &[u8]) -> Result<Option<Option<FieldType>>, Memory>
    ensures { IfOk result (λ found. found ≡ answer_at bytes.now) }
{
    if bytes == b"V".as_slice() {
        return Ok(Some(None));
    }
    match first_type(alloc, bytes)? {
        Some(of) => Ok(Some(Some(of))),
        None => Ok(None),
    }
}

/// The parameters and what a method answers, of what stands behind the `(` of its descriptor.
fn parameters(alloc: Global, bytes: &[u8]) -> Result<Option<MethodTypes>, Memory>
    ensures { (m : Types) → IsMethodRest m bytes.now → IfOk result (λ found. found ≡ Some m) }
{
    let mut params = Items::new(alloc);
    let mut left = bytes;
    while let Some((first, rest)) = left.split_first() {
        if *first == b')' {
            return match returned(alloc, rest)? {
                Some(answer) => Ok(Some(MethodTypes::of(params, answer))),
                None => Ok(None),
            };
        }
        match type_front(alloc, left)? {
            Some((of, behind)) => {
                params.push(of)?;
                left = behind;
            }
            None => return Ok(None),
        }
    }
    Ok(None)
}

/// The types of a method that the bytes spell (JVMS 4.3.3), or `None` where they are no method
/// descriptor.
///
/// # Errors
///
/// `Memory` where memory runs out.
pub fn read_method_types(alloc: Global, bytes: &[u8]) -> Result<Option<MethodTypes>, Memory>
    ensures found { IfOk result (λ found. IfSome found (SpellsMethod bytes.now)) }
    ensures only { (m : Types) → SpellsMethod bytes.now m →
        IfOk result (λ found. found ≡ Some m) }
{
    let Some(_) = units(bytes) else {
        return Ok(None);
    };
    match bytes.split_first() {
        Some((_, rest)) => parameters(alloc, rest),
        None => Ok(None),
    }
}
