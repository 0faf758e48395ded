//! What the indexes of a constant pool name (JVMS 4.4).

ghost use Rattle.std.specs.Prelude.{◌≡◌};
ghost use Rattle.std.specs.Option.{option_copied, option_map};
ghost use Rattle.je_consts.specs.Pool.{text_at, class_at, name_and_type_at, named_member};
ghost use Rattle.je_consts.specs.Pool.{member_at};

use crate::constant::{Const, ConstIndex, Member, MemberTag};
use crate::consts::Consts;
use je_base::Text;

impl Consts {
    /// The text of the CONSTANT_Utf8 at an index (JVMS 4.4.7); `None` where no Utf8 stands there.
    pub fn text(&self, index: ConstIndex) -> Option<&Text>
        ensures { option_copied result ≡ text_at self.now index }
    {
        match self.get(index) {
            Some(Const::Utf8(text)) => Some(text),
            _ => None,
        }
    }

    /// The name of the CONSTANT_Class at an index (JVMS 4.4.1); `None` where no Class stands there.
    pub fn class_name(&self, index: ConstIndex) -> Option<&Text>
        ensures { option_copied result ≡ class_at self.now index }
    {
        match self.get(index) {
            Some(Const::Class(name)) => self.text(*name),
            _ => None,
        }
    }

    /// The name and the descriptor of the CONSTANT_NameAndType at an index (JVMS 4.4.6); `None`
    /// where no NameAndType stands there.
    pub fn name_and_type(&self, index: ConstIndex) -> Option<(&Text, &Text)>
        ensures { option_map (λ m. (m.0.now, m.1.now)) result ≡ name_and_type_at self.now index }
    {
        let Some(Const::NameAndType(name, descriptor)) = self.get(index) else {
            return None;
        };
        let name = self.text(*name)?;
        let descriptor = self.text(*descriptor)?;
        Some((name, descriptor))
    }

    /// The field or method at an index: which of the three structures it is, the name of its class,
    /// its name and its descriptor (JVMS 4.4.2); `None` where none of them stands there.
    pub fn member(&self, index: ConstIndex) -> Option<Member<'_>>
        ensures { option_map (λ m. (m.kind, m.owner.now, m.name.now, m.descriptor.now)) result
            ≡ member_at self.now index }
    {
        match self.get(index) {
            Some(Const::Field(class, member)) => {
                self.named_member(MemberTag::Field, *class, *member)
            }
            Some(Const::Method(class, member)) => {
                self.named_member(MemberTag::Method, *class, *member)
            }
            Some(Const::InterfaceMethod(class, member)) => {
                self.named_member(MemberTag::InterfaceMethod, *class, *member)
            }
            _ => None,
        }
    }

    /// The member of this class, with this name and type.
    fn named_member(
        &self,
        kind: MemberTag,
        class: ConstIndex,
        member: ConstIndex,
    ) -> Option<Member<'_>>
        ensures { option_map (λ m. (m.kind, m.owner.now, m.name.now, m.descriptor.now)) result
            ≡ named_member kind self.now class member }
    {
        let owner = self.class_name(class)?;
        let (name, descriptor) = self.name_and_type(member)?;
        Some(Member {
            kind,
            owner,
            name,
            descriptor,
        })
    }
}
