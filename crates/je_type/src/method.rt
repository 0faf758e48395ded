//! The types that method descriptors spell.

ghost use Rattle.std.specs.Prelude.{◌≡◌, ℕ, List, Option, Some, map};
ghost use Rattle.std.specs.Prelude.{IfOk, IfSome, IfNone, MatchOption};
ghost use Rattle.std.specs.Option.{option_map};
ghost use Rattle.je_base.specs.Text.{IsModifiedUtf8};
ghost use Rattle.je_desc.specs.declared.types.MethodType.{MethodType as AnyTypes};
ghost use Rattle.je_desc.specs.FieldType.{FieldType, IsFieldType};
ghost use Rattle.je_desc.specs.Descriptor.{MethodTypes, MethodDescriptor, SpellsMethod};
ghost use Rattle.je_desc.specs.Descriptor.{return_descriptor};
ghost use Rattle.je_desc.specs.Types.{field_type_of, method_types_of};
ghost use Rattle.je_type.specs.Reading.{IsMethodRest};
ghost use Rattle.je_type.specs.Texts.{HasText, HaveTexts};

use crate::field::{first_type, type_front};
use je_base::Memory;
use je_desc::{JType, MethodType, units};
use sqlite_items::Items;
use std::alloc::Global;

/// The types of a method that the bytes spell (JVMS 4.3.3), or `None` where they are no method
/// descriptor.
///
/// Bytes that are not in modified UTF-8 (JVMS 4.4.7) spell no types.
///
/// # Errors
///
/// `Memory` where memory runs out.
pub fn parse_method(alloc: Global, b: &[u8]) -> Result<Option<MethodType>, Memory>
    ensures found { IfOk result (λ found.
        IfSome found (λ m. SpellsMethod b.now (method_types_of m))) }
    ensures form { IfOk result (λ found. IfSome found (λ _. IsModifiedUtf8 b.now)) }
    ensures none { IfOk result (λ found. IfNone found
        (IsModifiedUtf8 b.now → (n : ℕ) → MethodDescriptor b.now n → ⊥)) }

    // What is written of a method's types is read as these types.
    ensures only { (m : AnyTypes) → SpellsMethod b.now (method_types_of m) → IsModifiedUtf8 b.now →
        IfOk result (λ found. found ≡ Some m) }
{
    let Some(_) = units(b) else {
        return Ok(None);
    };
    match b.split_first() {
        Some((_, rest)) => parameters(alloc, rest),
        None => Ok(None),
    }
}

/// The types of a method, of what stands behind the `(` of its descriptor.
fn parameters(alloc: Global, bytes: &[u8]) -> Result<Option<MethodType>, Memory>
    ensures reads { (m : MethodTypes) → IsMethodRest m bytes.now → IfOk result (λ found.
        MatchOption found (HaveTexts m → ⊥) (λ u. method_types_of u ≡ m)) }
    ensures form { IfOk result (λ found. IfSome found (λ u. HaveTexts (method_types_of u))) }
{
    let mut params = Items::new(alloc);
    let mut left = bytes;
    while let Some((first, rest)) = left.split_first() {
        if *first == b')' {
            return match returned(alloc, rest)? {
                Some(result) => Ok(Some(MethodType { params, result })),
                None => Ok(None),
            };
        }
        match type_front(alloc, left)? {
            Some((param, behind)) => {
                params.push(param)?;
                left = behind;
            }
            None => return Ok(None),
        }
    }
    Ok(None)
}

/// What a method answers, of what stands behind the `)` of its descriptor: `V`, or a type.
fn returned(alloc: Global, bytes: &[u8]) -> Result<Option<Option<JType>>, Memory>
    ensures reads { (r : Option FieldType) → IfSome r IsFieldType →
        bytes.now ≡ return_descriptor r → IfOk result (λ found.
        MatchOption found (IfSome r HasText → ⊥) (λ u. option_map field_type_of u ≡ r)) }
    ensures form { IfOk result (λ found.
        IfSome found (λ u. IfSome (option_map field_type_of u) HasText)) }
{
    if bytes == b"V".as_slice() {
        return Ok(Some(None));
    }
    match first_type(alloc, bytes)? {
        Some(t) => Ok(Some(Some(t))),
        None => Ok(None),
    }
}
