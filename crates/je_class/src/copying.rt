//! A class file once more.

ghost use Rattle.std.specs.Prelude.{◌≡◌, IfOk};
ghost use Rattle.je_class.specs.InMemory.{class_of_parts};

use crate::member::{Attribute, Member};
use crate::parts::Parts;
use je_base::Memory;
use sqlite_items::Items;
use std::alloc::Global;

fn copy_attribute(attribute: &Attribute) -> Result<Attribute, Memory>
    ensures { IfOk result (λ a. a ≡ attribute.now) }
{
    Ok(Attribute {
        name: attribute.name,
        bytes: attribute.bytes.copy()?,
    })
}

fn copy_attributes(alloc: Global, attributes: &[Attribute]) -> Result<Vec<Attribute>, Memory>
    ensures { IfOk result (λ v. v.items ≡ attributes.now) }
{
    let mut copies = Vec::new(alloc);
    for attribute in attributes {
        copies.push(copy_attribute(attribute)?)?;
    }
    Ok(copies)
}

fn copy_member(alloc: Global, member: &Member) -> Result<Member, Memory>
    ensures { IfOk result (λ m. m ≡ member.now) }
{
    let attributes = copy_attributes(alloc, member.attributes.as_slice())?;
    Ok(Member {
        access: member.access,
        name: member.name,
        descriptor: member.descriptor,
        attributes: Items::from_vec(attributes),
    })
}

fn copy_members(alloc: Global, members: &[Member]) -> Result<Vec<Member>, Memory>
    ensures { IfOk result (λ v. v.items ≡ members.now) }
{
    let mut copies = Vec::new(alloc);
    for member in members {
        copies.push(copy_member(alloc, member)?)?;
    }
    Ok(copies)
}

/// The same parts once more.
pub(crate) fn copy_parts(parts: &Parts) -> Result<Parts, Memory>
    ensures { IfOk result (λ p. class_of_parts p ≡ class_of_parts parts.now) }
{
    let alloc = *parts.interfaces.allocator();
    Ok(Parts {
        minor: parts.minor,
        major: parts.major,
        consts: parts.consts.copy()?,
        access: parts.access,
        this_class: parts.this_class,
        super_class: parts.super_class,
        interfaces: parts.interfaces.clone()?,
        fields: copy_members(alloc, &parts.fields)?,
        methods: copy_members(alloc, &parts.methods)?,
        attributes: copy_attributes(alloc, &parts.attributes)?,
    })
}
