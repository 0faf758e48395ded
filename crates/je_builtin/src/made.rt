//! What a row of the table stands for, made of texts.

ghost use Rattle.std.specs.Prelude.{◌≡◌, map, IfOk};
ghost use Rattle.je_builtin.specs.Rows.{text_of, signature_of, summary_of};

use crate::row::{Class, Member};
use je_base::{Memory, Text};
use je_desc::{MemberSig, Summary};
use sqlite_items::Items;
use std::alloc::Global;

/// The texts of these strings.
fn texts(alloc: Global, strings: &[&str]) -> Result<Items<Text>, Memory>
    ensures { IfOk result (λ texts. texts ≡ map (λ string. text_of string.now) strings.now) }
{
    let mut texts = Vec::new(alloc);
    for string in strings {
        texts.push(Text::of(alloc, string)?)?;
    }
    Ok(Items::from_vec(texts))
}

/// The field or method of a row.
fn signature(alloc: Global, member: &Member) -> Result<MemberSig, Memory>
    ensures { IfOk result (λ sig. sig ≡ signature_of member.now) }
{
    Ok(MemberSig {
        access: member.0,
        name: Text::of(alloc, member.1)?,
        descriptor: Text::of(alloc, member.2)?,
    })
}

/// The fields or methods of these rows.
fn signatures(alloc: Global, members: &[Member]) -> Result<Items<MemberSig>, Memory>
    ensures { IfOk result (λ signatures. signatures ≡ map signature_of members.now) }
{
    let mut signatures = Vec::new(alloc);
    for member in members {
        signatures.push(signature(alloc, member)?)?;
    }
    Ok(Items::from_vec(signatures))
}

/// The superclass of a row.
fn super_name(alloc: Global, class: &Class) -> Result<Option<Text>, Memory>
    ensures { IfOk result (λ name. name ≡ (summary_of class.now).super_name) }
{
    match class.1 {
        Some(name) => Ok(Some(Text::of(alloc, name)?)),
        None => Ok(None),
    }
}

/// The class of a row.
pub fn summary(alloc: Global, class: &Class) -> Result<Summary, Memory>
    ensures { IfOk result (λ summary. summary ≡ summary_of class.now) }
{
    Ok(Summary {
        name: Text::of(alloc, class.0)?,
        super_name: super_name(alloc, class)?,
        interfaces: texts(alloc, class.2)?,
        access: class.3,
        fields: signatures(alloc, class.4)?,
        methods: signatures(alloc, class.5)?,
    })
}
