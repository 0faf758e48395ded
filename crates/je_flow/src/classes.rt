//! What is known of values by their types, and the names of classes.

ghost use Rattle.std.specs.Prelude.{◌≡◌, ℕ, List, [], ◌∷◌, ◌++◌, IfOk, OnOk, map, codes};
ghost use Rattle.je_desc.specs.FieldType.{descriptor, Base};
ghost use Rattle.je_desc.specs.FieldType.{FieldType as Spelled};
ghost use Rattle.je_value.specs.FieldType.{array_of, base_in, element_in};
ghost use Rattle.je_shape.specs.Slot.{Reference};
ghost use Rattle.je_shape.specs.Joined.{IsUnion};
ghost use Rattle.je_shape.specs.Canonical.{IsCanonicalNames};
ghost use Rattle.je_shape.specs.Flow.{slot_of_kind, slot_of_type, slot_of_value};
ghost use Rattle.je_shape.specs.Flow.{class_of_content, component_name, component_of, but_last};
ghost use Rattle.je_shape.specs.Views.{slot_seen};

use je_base::{Memory, Run, Text};
use je_shape::{Slot, reference, union};
use je_value::{
    BaseType, Content, ContentForm, ElementType, FieldType, Kind, KindForm, Value, ValueForm,
};
use std::alloc::Global;

/// The class of all objects.
const OBJECT: &[u8] = b"java/lang/Object";

/// The text of these bytes. Those of the names in a class file are texts.
///
/// # Errors
///
/// `Memory` where memory runs out, and where there is no such text.
fn text_of(alloc: Global, bytes: &[u8]) -> Result<Text, Memory>
    ensures { IfOk result (λ text. text ≡ bytes.now) }
{
    match Text::from_bytes(alloc, bytes)? {
        Some(text) => Ok(text),
        None => Err(Memory),
    }
}

/// The text of a run, of which no byte is copied.
///
/// # Errors
///
/// `Memory` where memory runs out, and where there is no such text.
pub(crate) fn text_of_run(run: &Run) -> Result<Text, Memory>
    ensures { IfOk result (λ text. text ≡ run.now) }
{
    match Text::of_part(run, 0, run.len())? {
        Some(text) => Ok(text),
        None => Err(Memory),
    }
}

/// A reference to an object of the class of this name.
///
/// # Errors
///
/// `Memory` where memory runs out, and where the name is no text.
pub(crate) fn object_of(alloc: Global, name: &Run) -> Result<Slot, Memory>
    ensures { IfOk result (λ slot. slot_seen slot ≡ Reference (name.now ∷ [])) }
{
    let name = text_of_run(name)?;
    reference(alloc, name)
}

/// What is known of a value of a kind, where this is known of a reference.
pub(crate) fn slot_of_kind(kind: Kind, reference: Slot) -> Slot
    ensures { (names : List (List ℕ)) → slot_seen reference ≡ Reference names
        → slot_seen result ≡ slot_of_kind kind names }
{
    match kind.form() {
        KindForm::Int => Slot::Int,
        KindForm::Long => Slot::Long,
        KindForm::Float => Slot::Float,
        KindForm::Double => Slot::Double,
        KindForm::Reference => reference,
    }
}

/// What is known of a value of a base type.
fn slot_of_base(base: BaseType) -> Slot
    ensures { slot_seen result ≡ slot_of_type (Base (base_in base)) }
{
    match base {
        BaseType::Long => Slot::Long,
        BaseType::Float => Slot::Float,
        BaseType::Double => Slot::Double,
        BaseType::Byte | BaseType::Char | BaseType::Int | BaseType::Short | BaseType::Boolean =>
            Slot::Int,
    }
}

/// The letter of a base type (JVMS 4.3.2, table 4.3-A).
fn letter_of(base: BaseType) -> u8
    ensures { result ∷ [] ≡ descriptor (Base (base_in base)) }
{
    match base {
        BaseType::Byte => b'B',
        BaseType::Char => b'C',
        BaseType::Double => b'D',
        BaseType::Float => b'F',
        BaseType::Int => b'I',
        BaseType::Long => b'J',
        BaseType::Short => b'S',
        BaseType::Boolean => b'Z',
    }
}

/// So many `[` are put behind these bytes.
fn push_brackets(out: &mut Vec<u8>, dimensions: usize) -> Result<(), Memory>
    ensures { OnOk result ((t : Spelled) → out.new.items ++ descriptor t
        ≡ out.old.items ++ descriptor (array_of dimensions t)) }
{
    let mut left = dimensions;
    while left > 0 {
        out.push(b'[')?;
        left -= 1;
    }
    Ok(())
}

/// The descriptor of a type that is no array is put behind these bytes.
fn push_element(out: &mut Vec<u8>, element: &ElementType) -> Result<(), Memory>
    ensures { OnOk result (out.new.items ≡ out.old.items ++ descriptor (element_in element.now)) }
{
    match element {
        ElementType::Base(base) => out.push(letter_of(*base))?,
        ElementType::Object(name) => {
            out.push(b'L')?;
            out.extend_from_slice(name.as_slice())?;
            out.push(b';')?;
        }
    }
    Ok(())
}

/// The descriptor of the type of so many dimensions of an element.
fn descriptor_of(alloc: Global, dimensions: usize, element: &ElementType) -> Result<Text, Memory>
    ensures { IfOk result (λ text.
        text ≡ descriptor (array_of dimensions (element_in element.now))) }
{
    let mut bytes = Vec::new(alloc);
    push_brackets(&mut bytes, dimensions)?;
    push_element(&mut bytes, element)?;
    text_of(alloc, &bytes)
}

/// What is known of a value of a type.
///
/// # Errors
///
/// `Memory` where memory runs out, and where a name is no text.
#[tactic(auto, using(crate::proofs::ClassLemmas::types_are))]
pub(crate) fn slot_of_type(alloc: Global, of: &FieldType) -> Result<Slot, Memory>
    ensures { IfOk result (λ slot. slot_seen slot ≡ slot_of_type of.now) }
{
    let (dimensions, element) = of.parts();
    if dimensions > 0 {
        let name = descriptor_of(alloc, dimensions, element)?;
        return reference(alloc, name);
    }
    match element {
        ElementType::Base(base) => Ok(slot_of_base(*base)),
        ElementType::Object(name) => object_of(alloc, name),
    }
}

/// The class of what ldc loads as a reference (JVMS 6.5, ldc).
fn class_of_content(content: &Content) -> &'static [u8]
    ensures { result.now ≡ class_of_content content.now }
{
    match content.form() {
        ContentForm::Class(_) => b"java/lang/Class",
        ContentForm::Str(_) => b"java/lang/String",
        ContentForm::MethodHandle(_, _, _, _, _) => b"java/lang/invoke/MethodHandle",
        ContentForm::MethodType(_) => b"java/lang/invoke/MethodType",
        ContentForm::Utf8Text(_)
        | ContentForm::Integer(_)
        | ContentForm::Float(_)
        | ContentForm::Long(_)
        | ContentForm::Double(_)
        | ContentForm::Member(_, _, _, _)
        | ContentForm::NameAndType(_, _)
        | ContentForm::InvokeDynamic(_, _, _) => OBJECT,
    }
}

/// What is known of what a constant instruction pushes.
///
/// # Errors
///
/// `Memory` where memory runs out.
pub(crate) fn slot_of_value(alloc: Global, value: &Value) -> Result<Slot, Memory>
    ensures { IfOk result (λ slot. slot_seen slot ≡ slot_of_value value.now) }
{
    match value.form() {
        ValueForm::Int(_) => Ok(Slot::Int),
        ValueForm::Long(_) => Ok(Slot::Long),
        ValueForm::Float(_) => Ok(Slot::Float),
        ValueForm::Double(_) => Ok(Slot::Double),
        ValueForm::Null => Ok(Slot::Null),
        ValueForm::Object(_) => {
            let name = text_of(alloc, OBJECT)?;
            reference(alloc, name)
        }
        ValueForm::Constant(content) => {
            let name = text_of(alloc, class_of_content(content))?;
            reference(alloc, name)
        }
    }
}

/// The bytes without the last one.
#[tactic(auto, using(crate::proofs::ClassLemmas::fronts))]
fn but_last(bytes: &[u8]) -> &[u8]
    ensures { result.now ≡ but_last bytes.now }
{
    match bytes.split_last() {
        Some((_, rest)) => rest,
        None => bytes,
    }
}

/// What stands behind the first bracket: an array as it is, a class without its L and semicolon.
fn component_of(name: &[u8]) -> &[u8]
    ensures { result.now ≡ component_of name.now }
{
    match name.split_first() {
        Some((first, rest)) => {
            if *first == b'[' {
                name
            } else if *first == b'L' {
                but_last(rest)
            } else {
                OBJECT
            }
        }
        None => OBJECT,
    }
}

/// The component of an array of references by its name, and java/lang/Object of every other name.
fn component_name(name: &[u8]) -> &[u8]
    ensures { result.now ≡ component_name name.now }
{
    match name.split_first() {
        Some((first, rest)) => {
            if *first == b'[' {
                component_of(rest)
            } else {
                OBJECT
            }
        }
        None => OBJECT,
    }
}

/// The names of the components, as they come.
fn component_list(alloc: Global, names: &[Text]) -> Result<Vec<Text>, Memory>
    ensures { IfOk result (λ list. list.items ≡ map component_name names.now) }
{
    let mut list = Vec::new(alloc);
    for name in names {
        list.push(text_of(alloc, component_name(name.bytes()))?)?;
    }
    Ok(list)
}

/// The set of the names of the components.
///
/// # Errors
///
/// `Memory` where memory runs out, and where the name of a component is no text.
#[tactic(auto, using(je_shape::proofs::NameLemmas::none_sorted))]
pub(crate) fn components(alloc: Global, names: &[Text]) -> Result<Vec<Text>, Memory>
    ensures names { IfOk result (λ all. IsUnion [] (map component_name names.now) all.items) }
    ensures sorted { IfOk result (λ all. IsCanonicalNames all.items) }
{
    let list = component_list(alloc, names)?;
    union(alloc, &[], &list)
}
