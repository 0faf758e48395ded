//! The bytes of a class file (JVMS 4.1).

ghost use Rattle.std.specs.Prelude.{◌≡◌, ℕ, ◌^◌, ◌<◌, List, [], ◌∷◌, ◌++◌, length, IfOk, OnOk};
ghost use Rattle.je_base.specs.Parts.{Nested, table_parts};
ghost use Rattle.je_consts.specs.declared.place.Place.{Place};
ghost use Rattle.je_class.specs.declared.member.Member.{Member};
ghost use Rattle.je_class.specs.ClassBytes.{ClassBytes};
ghost use Rattle.je_class.specs.InMemory.{class_of_parts};
ghost use Rattle.je_class.specs.FileParts.{Test, spelled, interface_parts, attribute_parts};
ghost use Rattle.je_class.specs.FileParts.{member_parts, start_parts, own_parts, lists_parts};
ghost use Rattle.je_class.specs.FileParts.{class_parts};
ghost use Rattle.je_class.specs.Sizes.{FitsTable, FitsAttribute, FitsMember, FitsClass};

use crate::class_file::ClassFile;
use crate::member::{Attribute, LEAST_ATTRIBUTE, LEAST_MEMBER, Member};
use crate::parts::{MAGIC, Parts};
use je_base::{Memory, put_u16, put_u32};
use std::alloc::Global;

/// The bytes of the access flags, two indexes and the counts of four tables.
const CLASS_NUMBERS: usize = 14;

fn put_interfaces(out: &mut Vec<u8>, indexes: &[u16]) -> Result<(), Memory>
    requires { length indexes.now < 2 ^ 16 }
    ensures { (consts : List Place) → OnOk result (out.new.items
        ≡ out.old.items ++ spelled (table_parts (interface_parts consts) indexes.now)) }
{
    put_u16(out, indexes.len() as u16)?;
    for index in indexes {
        put_u16(out, *index)?;
    }
    Ok(())
}

fn put_attribute(out: &mut Vec<u8>, attribute: &Attribute) -> Result<(), Memory>
    requires { FitsAttribute attribute.now }
    ensures { (consts : List Place) → OnOk result
        (out.new.items ≡ out.old.items ++ spelled (attribute_parts consts attribute.now)) }
{
    let bytes = attribute.bytes.as_slice();
    put_u16(out, attribute.name)?;
    put_u32(out, bytes.len() as u32)?;
    out.extend_from_slice(bytes)?;
    Ok(())
}

fn put_attributes(out: &mut Vec<u8>, attributes: &[Attribute]) -> Result<(), Memory>
    requires { FitsTable FitsAttribute attributes.now }
    ensures { (consts : List Place) → OnOk result (out.new.items
        ≡ out.old.items ++ spelled (table_parts (attribute_parts consts) attributes.now)) }
{
    put_u16(out, attributes.len() as u16)?;
    for attribute in attributes {
        put_attribute(out, attribute)?;
    }
    Ok(())
}

/// A field or a method.
fn put_member(out: &mut Vec<u8>, member: &Member) -> Result<(), Memory>
    requires { FitsMember member.now }
    ensures { (consts : List Place) (tests : List Test) → OnOk result
        (out.new.items ≡ out.old.items ++ spelled (member_parts consts tests member.now)) }
{
    put_u16(out, member.access)?;
    put_u16(out, member.name)?;
    put_u16(out, member.descriptor)?;
    put_attributes(out, member.attributes.as_slice())
}

fn put_members(out: &mut Vec<u8>, members: &[Member]) -> Result<(), Memory>
    requires { FitsTable FitsMember members.now }
    ensures { (consts : List Place) (tests : Member → List Test) → OnOk result (out.new.items
        ≡ out.old.items
        ++ spelled (table_parts (λ m. member_parts consts (tests m) m) members.now)) }
{
    put_u16(out, members.len() as u16)?;
    for member in members {
        put_member(out, member)?;
    }
    Ok(())
}

/// The bytes of the attributes behind their count, or the greatest number.
fn attributes_size(attributes: &[Attribute]) -> usize {
    let mut size: usize = 0;
    for attribute in attributes {
        size = size
            .saturating_add(LEAST_ATTRIBUTE)
            .saturating_add(attribute.bytes.len());
    }
    size
}

/// The bytes of the fields or methods behind their count, or the greatest number.
fn members_size(members: &[Member]) -> usize {
    let mut size: usize = 0;
    for member in members {
        let attributes = attributes_size(member.attributes.as_slice());
        size = size.saturating_add(LEAST_MEMBER).saturating_add(attributes);
    }
    size
}

/// Makes room for what stands behind the constant pool.
fn make_room(out: &mut Vec<u8>, parts: &Parts) -> Result<(), Memory>
    ensures { out.new.items ≡ out.old.items }
{
    let size = CLASS_NUMBERS
        .saturating_add(parts.interfaces.len().saturating_mul(2))
        .saturating_add(members_size(&parts.fields))
        .saturating_add(members_size(&parts.methods))
        .saturating_add(attributes_size(&parts.attributes));
    out.reserve(size)?;
    Ok(())
}

/// What stands before the access flags.
fn put_head(out: &mut Vec<u8>, parts: &Parts) -> Result<(), Memory>
    ensures { OnOk result
        (out.new.items ≡ out.old.items ++ spelled (start_parts MAGIC parts.now.minor parts.now.major
        ++ Nested parts.now.consts ∷ [])) }
{
    put_u32(out, MAGIC)?;
    put_u16(out, parts.minor)?;
    put_u16(out, parts.major)?;
    parts.consts.write_to(out)
}

/// The access flags, and the indexes of the class and of the super class.
fn put_numbers(out: &mut Vec<u8>, parts: &Parts) -> Result<(), Memory>
    ensures { OnOk result
        (out.new.items ≡ out.old.items ++ spelled (own_parts parts.now.consts parts.now.access
        parts.now.this_class parts.now.super_class)) }
{
    put_u16(out, parts.access)?;
    put_u16(out, parts.this_class)?;
    put_u16(out, parts.super_class)
}

fn put_tables(out: &mut Vec<u8>, parts: &Parts) -> Result<(), Memory>
    requires { FitsClass (class_of_parts parts.now) }
    ensures { OnOk result
        (out.new.items ≡ out.old.items ++ spelled (lists_parts parts.now.consts
        parts.now.interfaces.items parts.now.fields.items parts.now.methods.items
        parts.now.attributes.items)) }
{
    put_interfaces(out, &parts.interfaces)?;
    put_members(out, &parts.fields)?;
    put_members(out, &parts.methods)?;
    put_attributes(out, &parts.attributes)
}

fn put_parts(out: &mut Vec<u8>, parts: &Parts) -> Result<(), Memory>
    requires { FitsClass (class_of_parts parts.now) }
    ensures { OnOk result
        (out.new.items ≡ out.old.items ++ spelled (class_parts (class_of_parts parts.now))) }
{
    put_head(out, parts)?;
    make_room(out, parts)?;
    put_numbers(out, parts)?;
    put_tables(out, parts)
}

/// The bytes that spell the class file (JVMS 4.1).
///
/// # Errors
///
/// `Memory` where memory runs out.
pub fn write_class(alloc: Global, class: &ClassFile) -> Result<Vec<u8>, Memory>
    // Read from these bytes, where they are at most `MOST_BYTES`, `read_class` gives this class
    // file (`only`).
    ensures bytes { IfOk result (λ v. ClassBytes v.items class.now) }

    // Where this class file was read, these are the bytes that it was read from.
    ensures again { IfOk result (λ v. (bytes : List ℕ) →
        ClassBytes bytes class.now → v.items ≡ bytes) }
{
    let mut out = Vec::new(alloc);
    put_parts(&mut out, class.parts())?;
    Ok(out)
}
