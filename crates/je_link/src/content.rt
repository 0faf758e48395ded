//! What constants say (JVMS 4.4).

ghost use Rattle.std.specs.Prelude.{◌≡◌, IfOk, option_and_then};
ghost use Rattle.je_consts.specs.Pool.{const_at, text_at, class_at, name_and_type_at};
ghost use Rattle.je_instr.specs.Content.{of_text, of_member, of_name_and_type, handle_of};
ghost use Rattle.je_instr.specs.Content.{content_of as content_of_entry, content_at};
ghost use Rattle.je_machine.specs.Content as machine;

use je_base::{Memory, Run, Text};
use je_consts::{Const, ConstIndex, Consts, MemberTag};
use je_value::{Content, ContentForm};
use std::alloc::Global;

/// The bytes of a text.
pub(crate) fn run_of(alloc: Global, text: &Text) -> Result<Run, Memory>
    ensures { IfOk result (λ r. r ≡ text.now) }
{
    let bytes = Vec::from_slice(alloc, text.bytes())?;
    Run::of_vec(alloc, bytes)
}

/// The text at an index.
pub(crate) fn text_in(
    alloc: Global,
    consts: &Consts,
    index: ConstIndex,
) -> Result<Option<Run>, Memory>
    ensures { IfOk result (λ found. found ≡ text_at consts.now index) }
{
    match consts.text(index) {
        Some(text) => Ok(Some(run_of(alloc, text)?)),
        None => Ok(None),
    }
}

/// The name and the descriptor at an index.
fn pair_in(alloc: Global, consts: &Consts, index: ConstIndex) -> Result<Option<(Run, Run)>, Memory>
    ensures { IfOk result (λ found. found ≡ name_and_type_at consts.now index) }
{
    match consts.name_and_type(index) {
        Some((name, descriptor)) => {
            let name = run_of(alloc, name)?;
            let descriptor = run_of(alloc, descriptor)?;
            Ok(Some((name, descriptor)))
        }
        None => Ok(None),
    }
}

/// The class of a member.
fn class_in(alloc: Global, consts: &Consts, index: ConstIndex) -> Result<Option<Run>, Memory>
    ensures { IfOk result (λ found. found ≡ class_at consts.now index) }
{
    match consts.class_name(index) {
        Some(name) => Ok(Some(run_of(alloc, name)?)),
        None => Ok(None),
    }
}

/// A member of this sort.
fn member(
    alloc: Global,
    consts: &Consts,
    tag: MemberTag,
    class: ConstIndex,
    member: ConstIndex,
) -> Result<Option<Content>, Memory>
    ensures { IfOk result (λ found.
        found ≡ of_member (machine.Member tag) consts.now class member) }
{
    let Some(class) = class_in(alloc, consts, class)? else {
        return Ok(None);
    };
    let Some((name, descriptor)) = pair_in(alloc, consts, member)? else {
        return Ok(None);
    };
    let form = ContentForm::Member(tag, class, name, descriptor);
    Ok(Some(Content::of(form)))
}

/// A method handle of this kind, of a member of this sort.
fn handle(
    alloc: Global,
    consts: &Consts,
    kind: u8,
    tag: MemberTag,
    class: ConstIndex,
    member: ConstIndex,
) -> Result<Option<Content>, Memory>
    ensures { IfOk result (λ found.
        found ≡ of_member (machine.MethodHandle kind tag) consts.now class member) }
{
    let Some(class) = class_in(alloc, consts, class)? else {
        return Ok(None);
    };
    let Some((name, descriptor)) = pair_in(alloc, consts, member)? else {
        return Ok(None);
    };
    let form = ContentForm::MethodHandle(kind, tag, class, name, descriptor);
    Ok(Some(Content::of(form)))
}

/// A method handle of this kind, by the index of its member.
fn handle_at(
    alloc: Global,
    consts: &Consts,
    kind: u8,
    index: ConstIndex,
) -> Result<Option<Content>, Memory>
    ensures { IfOk result (λ found.
        found ≡ option_and_then (handle_of kind consts.now) (const_at consts.now index)) }
{
    match consts.get(index) {
        Some(Const::Field(class, member)) => {
            handle(alloc, consts, kind, MemberTag::Field, *class, *member)
        }
        Some(Const::Method(class, member)) => {
            handle(alloc, consts, kind, MemberTag::Method, *class, *member)
        }
        Some(Const::InterfaceMethod(class, member)) => {
            handle(
                alloc,
                consts,
                kind,
                MemberTag::InterfaceMethod,
                *class,
                *member,
            )
        }
        _ => Ok(None),
    }
}

/// A name and a descriptor.
fn name_and_type(
    alloc: Global,
    consts: &Consts,
    name: ConstIndex,
    descriptor: ConstIndex,
) -> Result<Option<Content>, Memory>
    ensures { IfOk result (λ found.
        found ≡ content_of_entry consts.now (Const.NameAndType name descriptor)) }
{
    let Some(name) = text_in(alloc, consts, name)? else {
        return Ok(None);
    };
    let Some(descriptor) = text_in(alloc, consts, descriptor)? else {
        return Ok(None);
    };
    let form = ContentForm::NameAndType(name, descriptor);
    Ok(Some(Content::of(form)))
}

/// A dynamic call by the number of its bootstrap method.
fn dynamic(
    alloc: Global,
    consts: &Consts,
    bootstrap: u16,
    index: ConstIndex,
) -> Result<Option<Content>, Memory>
    ensures { IfOk result (λ found.
        found ≡ of_name_and_type (machine.InvokeDynamic bootstrap) consts.now index) }
{
    let Some((name, descriptor)) = pair_in(alloc, consts, index)? else {
        return Ok(None);
    };
    let form = ContentForm::InvokeDynamic(bootstrap, name, descriptor);
    Ok(Some(Content::of(form)))
}

/// A class, by the index of its name.
fn class(alloc: Global, consts: &Consts, index: ConstIndex) -> Result<Option<Content>, Memory>
    ensures { IfOk result (λ found. found ≡ of_text machine.Class consts.now index) }
{
    match text_in(alloc, consts, index)? {
        Some(name) => Ok(Some(Content::of(ContentForm::Class(name)))),
        None => Ok(None),
    }
}

/// A string, by the index of its text.
fn string(alloc: Global, consts: &Consts, index: ConstIndex) -> Result<Option<Content>, Memory>
    ensures { IfOk result (λ found. found ≡ of_text machine.Str consts.now index) }
{
    match text_in(alloc, consts, index)? {
        Some(text) => Ok(Some(Content::of(ContentForm::Str(text)))),
        None => Ok(None),
    }
}

/// A method type, by the index of its descriptor.
fn method_type(alloc: Global, consts: &Consts, index: ConstIndex) -> Result<Option<Content>, Memory>
    ensures { IfOk result (λ found. found ≡ of_text machine.MethodType consts.now index) }
{
    match text_in(alloc, consts, index)? {
        Some(descriptor) => Ok(Some(Content::of(ContentForm::MethodType(descriptor)))),
        None => Ok(None),
    }
}

/// What an entry says.
fn content_of_entry(
    alloc: Global,
    consts: &Consts,
    entry: &Const,
) -> Result<Option<Content>, Memory>
    ensures { IfOk result (λ found. found ≡ content_of_entry consts.now entry.now) }
{
    match entry {
        Const::Utf8(text) => {
            let text = run_of(alloc, text)?;
            Ok(Some(Content::of(ContentForm::Utf8Text(text))))
        }
        Const::Integer(n) => Ok(Some(Content::of(ContentForm::Integer(*n)))),
        Const::Float(bits) => Ok(Some(Content::of(ContentForm::Float(*bits)))),
        Const::Long(n) => Ok(Some(Content::of(ContentForm::Long(*n)))),
        Const::Double(bits) => Ok(Some(Content::of(ContentForm::Double(*bits)))),
        Const::Class(name) => class(alloc, consts, *name),
        Const::Str(text) => string(alloc, consts, *text),
        Const::Field(class, named) => member(alloc, consts, MemberTag::Field, *class, *named),
        Const::Method(class, named) => member(alloc, consts, MemberTag::Method, *class, *named),
        Const::InterfaceMethod(class, named) => {
            member(alloc, consts, MemberTag::InterfaceMethod, *class, *named)
        }
        Const::NameAndType(name, descriptor) => name_and_type(alloc, consts, *name, *descriptor),
        Const::MethodHandle(kind, named) => handle_at(alloc, consts, *kind, *named),
        Const::MethodType(descriptor) => method_type(alloc, consts, *descriptor),
        Const::InvokeDynamic(bootstrap, named) => dynamic(alloc, consts, *bootstrap, *named),
    }
}

/// What the constant at an index says, with what it names in place, or `None` where the index names
/// no entry, or one that names nothing (JVMS 4.4).
///
/// # Errors
///
/// `Memory` where memory runs out.
pub fn content_of(
    alloc: Global,
    consts: &Consts,
    index: ConstIndex,
) -> Result<Option<Content>, Memory>
    ensures { IfOk result (λ found. found ≡ content_at consts.now index) }
{
    match consts.get(index) {
        Some(entry) => content_of_entry(alloc, consts, entry),
        None => Ok(None),
    }
}
