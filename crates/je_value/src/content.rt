//! What a constant says.

ghost use Rattle.std.specs.Prelude.{◌≡◌, IfOk};
ghost use Rattle.je_machine.specs.Content.{is_loadable, is_same_tag, is_same_loaded};
ghost use Rattle.je_value.specs.Content.{content_in};

use crate::text::is_same;
use je_base::{Memory, Run};
use je_consts::MemberTag;
use std::marker::Model;

/// What a constant says, with each index of the constant pool replaced by what stands there (JVMS
/// 4.4). A member is its tag, class, name and descriptor.
#[derive(Debug, Drop)]
pub enum ContentForm {
    Utf8Text(Run),
    Integer(i32),
    /// The bits of a float.
    Float(u32),
    Long(i64),
    /// The bits of a double.
    Double(u64),
    Class(Run),
    Str(Run),
    Member(MemberTag, Run, Run, Run),
    NameAndType(Run, Run),
    /// Its kind, from 1 to 9, and the member.
    MethodHandle(u8, MemberTag, Run, Run, Run),
    MethodType(Run),
    /// The number of its bootstrap method, and its name and descriptor.
    InvokeDynamic(u16, Run, Run),
}

/// What a constant says, which contracts see as the definition's `Content`.
#[derive(Debug, Drop)]
pub struct Content {
    form: ContentForm,
}

impl Model for Content {
    ghost use Rattle.je_machine.specs.Content as machine;

    ghost Value = { machine.Content };

    ghost use Rattle.je_value.specs.Content.{content_in};

    ghost view = { λ c. content_in c.form };
}

/// Whether two tags are one.
fn is_same_member(a: MemberTag, b: MemberTag) -> bool
    ensures { result ≡ is_same_tag a b }
{
    match a {
        MemberTag::Field => matches!(b, MemberTag::Field),
        MemberTag::Method => matches!(b, MemberTag::Method),
        MemberTag::InterfaceMethod => matches!(b, MemberTag::InterfaceMethod),
    }
}

impl Content {
    /// The content of this form.
    pub fn of(form: ContentForm) -> Content
        ensures { result ≡ content_in form }
    {
        Content { form }
    }

    /// Its form.
    pub fn form(&self) -> &ContentForm
        ensures { self.now ≡ content_in result.now }
    {
        &self.form
    }

    /// The same content once more. No byte is copied.
    ///
    /// # Errors
    ///
    /// `Memory` where memory runs out.
    pub fn copy(&self) -> Result<Content, Memory>
        ensures { IfOk result (λ c. c ≡ self.now) }
    {
        let form = match &self.form {
            ContentForm::Utf8Text(text) => ContentForm::Utf8Text(text.copy()?),
            ContentForm::Integer(n) => ContentForm::Integer(*n),
            ContentForm::Float(bits) => ContentForm::Float(*bits),
            ContentForm::Long(n) => ContentForm::Long(*n),
            ContentForm::Double(bits) => ContentForm::Double(*bits),
            ContentForm::Class(name) => ContentForm::Class(name.copy()?),
            ContentForm::Str(text) => ContentForm::Str(text.copy()?),
            ContentForm::Member(tag, class, name, descriptor) => {
                let class = class.copy()?;
                let name = name.copy()?;
                ContentForm::Member(*tag, class, name, descriptor.copy()?)
            }
            ContentForm::NameAndType(name, descriptor) => {
                let name = name.copy()?;
                ContentForm::NameAndType(name, descriptor.copy()?)
            }
            ContentForm::MethodHandle(kind, tag, class, name, descriptor) => {
                let class = class.copy()?;
                let name = name.copy()?;
                ContentForm::MethodHandle(*kind, *tag, class, name, descriptor.copy()?)
            }
            ContentForm::MethodType(descriptor) => ContentForm::MethodType(descriptor.copy()?),
            ContentForm::InvokeDynamic(bootstrap, name, descriptor) => {
                let name = name.copy()?;
                ContentForm::InvokeDynamic(*bootstrap, name, descriptor.copy()?)
            }
        };
        Ok(Content { form })
    }

    /// Whether ldc loads it as a reference.
    pub fn is_loadable(&self) -> bool
        ensures { result ≡ is_loadable self.now }
    {
        matches!(
            &self.form,
            ContentForm::Class(_)
                | ContentForm::Str(_)
                | ContentForm::MethodHandle(_, _, _, _, _)
                | ContentForm::MethodType(_)
        )
    }

    /// Whether ldc loads both as one reference: those of equal content.
    pub fn is_same_loaded(&self, other: &Content) -> bool
        ensures { result ≡ is_same_loaded self.now other.now }
    {
        match (&self.form, &other.form) {
            (ContentForm::Class(a), ContentForm::Class(b)) => is_same(a, b),
            (ContentForm::Str(a), ContentForm::Str(b)) => is_same(a, b),
            (ContentForm::MethodType(a), ContentForm::MethodType(b)) => is_same(a, b),
            (ContentForm::MethodHandle(k, s, c, n, d), ContentForm::MethodHandle(l, t, e, m, f)) =>
                {
                    *k == *l
                        && is_same_member(*s, *t)
                        && is_same(c, e)
                        && is_same(n, m)
                        && is_same(d, f)
                }
            _ => false,
        }
    }
}
