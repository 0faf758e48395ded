//! A class as other classes see it.

ghost use Rattle.std.specs.Prelude.{◌≡◌, Some, IfOk};
ghost use Rattle.std.specs.List.{AllByRecursion, AllZip};
ghost use Rattle.je_consts.specs.Pool.{text_at};
ghost use Rattle.je_class.specs.Class.{IsClassIndex, IsTextIndex};
ghost use Rattle.je_class.specs.Signatures.{HasTexts};
ghost use Rattle.je_class.specs.Summed.{IsNameAt, IsSignature, IsSummary, IsSuperName};

use crate::class_file::ClassFile;
use crate::member::Member;
use je_base::{Memory, Text};
use je_consts::{ConstIndex, Consts};
use je_desc::{MemberSig, Summary};
use sqlite_items::Items;
use std::alloc::Global;

fn super_of(class: &ClassFile) -> Result<Option<Text>, Memory>
    ensures { IfOk result (IsSuperName class.now) }
{
    match class.super_name() {
        Some(name) => Ok(Some(name.copy()?)),
        None => Ok(None),
    }
}

fn name_of(consts: &Consts, index: ConstIndex) -> Result<Text, Memory>
    requires { IsClassIndex consts.now index }
    ensures { IfOk result (IsNameAt consts.now index) }
{
    consts.class_name(index).unwrap().copy()
}

fn names_of(alloc: Global, consts: &Consts, indexes: &[ConstIndex]) -> Result<Items<Text>, Memory>
    requires { AllByRecursion (IsClassIndex consts.now) indexes.now }
    ensures { IfOk result (AllZip (IsNameAt consts.now) indexes.now) }
{
    let mut names = Vec::new(alloc);
    for index in indexes {
        names.push(name_of(consts, *index)?)?;
    }
    Ok(Items::from_vec(names))
}

fn text_of(consts: &Consts, index: ConstIndex) -> Result<Text, Memory>
    requires { IsTextIndex consts.now index }
    ensures { IfOk result (λ text. text_at consts.now index ≡ Some text) }
{
    consts.text(index).unwrap().copy()
}

fn signature_of(consts: &Consts, member: &Member) -> Result<MemberSig, Memory>
    requires { HasTexts consts.now member.now }
    ensures { IfOk result (IsSignature consts.now member.now) }
{
    Ok(MemberSig {
        access: member.access,
        name: text_of(consts, member.name)?,
        descriptor: text_of(consts, member.descriptor)?,
    })
}

#[tactic(auto, using(crate::proofs::Zips::AllZip_taken))]
fn signatures_of(
    alloc: Global,
    consts: &Consts,
    members: &[Member],
) -> Result<Items<MemberSig>, Memory>
    requires { AllByRecursion (HasTexts consts.now) members.now }
    ensures { IfOk result (AllZip (IsSignature consts.now) members.now) }
{
    let mut signatures = Vec::new(alloc);
    for member in members {
        signatures.push(signature_of(consts, member)?)?;
    }
    Ok(Items::from_vec(signatures))
}

/// The class as other classes see it.
pub(crate) fn summary_of(class: &ClassFile) -> Result<Summary, Memory>
    ensures { IfOk result (IsSummary class.now) }
{
    let parts = class.parts();
    let alloc = *parts.methods.allocator();
    Ok(Summary {
        name: class.this_name().copy()?,
        super_name: super_of(class)?,
        interfaces: names_of(alloc, &parts.consts, &parts.interfaces)?,
        access: parts.access,
        fields: signatures_of(alloc, &parts.consts, &parts.fields)?,
        methods: signatures_of(alloc, &parts.consts, &parts.methods)?,
    })
}
