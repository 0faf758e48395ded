//! The tables of a class file: its interfaces, fields, methods and attributes (JVMS 4.1 and 4.5 to
//! 4.7).
//!
//! Each is read from the bytes of a block, and what is kept as bytes is a part of that block.

ghost use Rattle.std.specs.Prelude.{◌≡◌, ◌*◌, ◌<◌, ◌≤◌, length};
ghost use Rattle.je_base.specs.Parts.{table_parts};
ghost use Rattle.je_class.specs.FileParts.{interface_parts, attribute_parts};
ghost use Rattle.je_class.specs.Reading.{Reads, descriptor_of, parts_of_kind};

use crate::check::{Sought, index_at};
use crate::fault::ClassFault;
use crate::member::{Access, Attribute, LEAST_ATTRIBUTE, LEAST_MEMBER, Member};
use je_base::{Run, run_at, u16_at, u32_at};
use je_consts::Consts;
use sqlite_items::Items;
use std::alloc::Global;

/// The bytes of an interface.
const INTERFACE: usize = 2;

/// What the members of a table are.
#[derive(Clone, Copy, Debug)]
pub(crate) enum Kind {
    Fields,
    Methods,
}

/// What the index of a member's descriptor has to name.
fn descriptor_of(kind: Kind, access: Access) -> Sought
    ensures { result ≡ descriptor_of kind access }
{
    match kind {
        Kind::Fields => Sought::FieldDescriptor,
        Kind::Methods => Sought::MethodDescriptor(access),
    }
}

/// Room for the items of a table: as many as its count says, but no more than the bytes from an
/// offset on hold where each has so many at least.
fn room_of(count: u16, bytes: &[u8], at: usize, least: usize) -> usize
    requires { 0 < least }
    ensures count { result ≤ count }
    ensures bytes { result * least ≤ length bytes.now }
{
    let left = bytes.len().saturating_sub(at);
    usize::from(count).min(left / least)
}

/// The interfaces of a class, and the offset after them.
pub(crate) fn interfaces_at(
    alloc: Global,
    consts: &Consts,
    bytes: &[u8],
    at: usize,
) -> Result<(Vec<u16>, usize), ClassFault>
    ensures { Reads (λ x. (x.0.items, x.1)) bytes.now at
        (table_parts (interface_parts consts.now)) result }
{
    let (count, start) = u16_at(bytes, at)?;
    let room = room_of(count, bytes, start, INTERFACE);
    let mut interfaces = Vec::with_capacity(alloc, room)?;
    let mut next = start;
    for _ in 0..count {
        let (index, after) = index_at(consts, Sought::Class, bytes, next)?;
        interfaces.push(index)?;
        next = after;
    }
    Ok((interfaces, next))
}

/// The attribute at an offset, whose content is a part of the block, and the offset after it.
fn attribute_at(
    block: &Run,
    consts: &Consts,
    bytes: &[u8],
    at: usize,
) -> Result<(Attribute, usize), ClassFault>
    requires same { block.now ≡ bytes.now }
    ensures { Reads (λ x. x) bytes.now at (attribute_parts consts.now) result }
{
    let (name, at) = index_at(consts, Sought::AttributeName, bytes, at)?;
    let (len, at) = u32_at(bytes, at)?;
    let (_, end) = run_at(bytes, at, len as usize)?;
    let bytes = block.part(at, end)?;
    Ok((Attribute { name, bytes }, end))
}

/// The attributes of a class or of a member, and the offset after them.
pub(crate) fn attributes_at(
    alloc: Global,
    block: &Run,
    consts: &Consts,
    bytes: &[u8],
    at: usize,
) -> Result<(Vec<Attribute>, usize), ClassFault>
    requires same { block.now ≡ bytes.now }
    ensures { Reads (λ x. (x.0.items, x.1)) bytes.now at
        (table_parts (attribute_parts consts.now)) result }
{
    let (count, start) = u16_at(bytes, at)?;
    let room = room_of(count, bytes, start, LEAST_ATTRIBUTE);
    let mut attributes = Vec::with_capacity(alloc, room)?;
    let mut next = start;
    for _ in 0..count {
        let (attribute, after) = attribute_at(block, consts, bytes, next)?;
        attributes.push(attribute)?;
        next = after;
    }
    Ok((attributes, next))
}

fn member_at(
    alloc: Global,
    block: &Run,
    consts: &Consts,
    kind: Kind,
    bytes: &[u8],
    at: usize,
) -> Result<(Member, usize), ClassFault>
    requires same { block.now ≡ bytes.now }
    ensures { Reads (λ x. x) bytes.now at (parts_of_kind consts.now kind) result }
{
    let (access, at) = u16_at(bytes, at)?;
    let (name, at) = index_at(consts, Sought::Text, bytes, at)?;
    let (descriptor, at) = index_at(consts, descriptor_of(kind, access), bytes, at)?;
    let (attributes, at) = attributes_at(alloc, block, consts, bytes, at)?;
    let member = Member {
        access,
        name,
        descriptor,
        attributes: Items::from_vec(attributes),
    };
    Ok((member, at))
}

/// The fields or the methods of a class, and the offset after them.
pub(crate) fn members_at(
    alloc: Global,
    block: &Run,
    consts: &Consts,
    kind: Kind,
    bytes: &[u8],
    at: usize,
) -> Result<(Vec<Member>, usize), ClassFault>
    requires same { block.now ≡ bytes.now }
    ensures { Reads (λ x. (x.0.items, x.1)) bytes.now at
        (table_parts (parts_of_kind consts.now kind)) result }
{
    let (count, start) = u16_at(bytes, at)?;
    let room = room_of(count, bytes, start, LEAST_MEMBER);
    let mut members = Vec::with_capacity(alloc, room)?;
    let mut next = start;
    for _ in 0..count {
        let (member, after) = member_at(alloc, block, consts, kind, bytes, next)?;
        members.push(member)?;
        next = after;
    }
    Ok((members, next))
}
