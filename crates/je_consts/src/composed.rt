//! Texts, classes and members, added with all that they name.

ghost use Rattle.std.specs.Prelude.{◌≡◌, ℕ, ◌≤◌, ◌⊎◌, List, Some, Err, length, IfOk};
ghost use Rattle.je_consts.specs.declared.place.Place.{Place};
ghost use Rattle.je_consts.specs.Adding.{IsFull, Adds, AddsClass, AddsNameAndType, AddsMember};
ghost use Rattle.je_consts.specs.Adding.{NamesMember, Keeps, member_of};
ghost use Rattle.je_consts.specs.Pool.{const_at, class_at, NamesAndTypes};
ghost use Rattle.je_consts.specs.Tags.{most_bytes};

use crate::constant::{Const, ConstIndex, MemberTag};
use crate::consts::Consts;
use crate::fault::PoolStop;
use je_base::Text;

/// The entry of a field or method.
fn member_of(kind: MemberTag, class: ConstIndex, member: ConstIndex) -> Const
    ensures { result ≡ member_of kind class member }
{
    match kind {
        MemberTag::Field => Const::Field(class, member),
        MemberTag::Method => Const::Method(class, member),
        MemberTag::InterfaceMethod => Const::InterfaceMethod(class, member),
    }
}

impl Consts {
    /// Adds a text of at most 65,535 bytes.
    ///
    /// # Errors
    ///
    /// Those of `add`. A full pool says so even where memory is short, and a text that is there
    /// wants no memory.
    pub fn add_text(&mut self, t: &Text) -> Result<ConstIndex, PoolStop>
        requires { length t.now ≤ most_bytes }
        ensures adds { Adds (Const.Utf8 t.now) self.old result self.new }
        ensures full { (n : ℕ) → IsFull self.old (Const.Utf8 t.now) n →
            result ≡ Err (PoolStop.Full n) }
        ensures there { IfOk result (λ index. const_at self.new index ≡ Some (Const.Utf8 t.now)) }
        ensures keeps { Keeps self.old self.new }
    {
        match t.copy() {
            Ok(text) => self.add(Const::Utf8(text)),
            Err(_) => self.text_without_copy(t),
        }
    }

    /// Adds a name of at most 65,535 bytes, and then the class of this name.
    ///
    /// # Errors
    ///
    /// Those of `add`. After one the name may stand.
    pub fn add_class(&mut self, name: &Text) -> Result<ConstIndex, PoolStop>
        requires { length name.now ≤ most_bytes }
        ensures adds { AddsClass name.now self.old result self.new }
        // Where an add of the row is refused by a full pool, so is this, unless memory ran out
        // before.
        ensures full { (n : ℕ) (places : List Place) →
            AddsClass name.now self.old (Err (PoolStop.Full n)) places →
            (result ≡ Err (PoolStop.Full n)) ⊎ (result ≡ Err PoolStop.Memory) }
        ensures there { IfOk result (λ index. class_at self.new index ≡ Some name.now) }
        ensures keeps { Keeps self.old self.new }
    {
        let text = self.add_text(name)?;
        self.add(Const::Class(text))
    }

    /// Adds a name and a descriptor, and then both together.
    fn add_name_and_type(&mut self, name: &Text, descriptor: &Text) -> Result<ConstIndex, PoolStop>
        requires name { length name.now ≤ most_bytes }
        requires descriptor { length descriptor.now ≤ most_bytes }
        ensures adds { AddsNameAndType name.now descriptor.now self.old result self.new }
        // Where an add of the row is refused by a full pool, so is this, unless memory ran out
        // before.
        ensures full { (n : ℕ) (places : List Place) →
            AddsNameAndType name.now descriptor.now self.old (Err (PoolStop.Full n)) places →
            (result ≡ Err (PoolStop.Full n)) ⊎ (result ≡ Err PoolStop.Memory) }
        ensures there { IfOk result (λ index.
            NamesAndTypes self.new index name.now descriptor.now) }
        ensures keeps { Keeps self.old self.new }
    {
        let name = self.add_text(name)?;
        let descriptor = self.add_text(descriptor)?;
        self.add(Const::NameAndType(name, descriptor))
    }

    /// Adds the class of a field or method, its name and descriptor, and then the member itself.
    ///
    /// Each text has at most 65,535 bytes.
    ///
    /// # Errors
    ///
    /// Those of `add`. After one, what was added before stands.
    pub fn add_member(
        &mut self,
        kind: MemberTag,
        owner: &Text,
        name: &Text,
        descriptor: &Text,
    ) -> Result<u16, PoolStop>
        requires owner { length owner.now ≤ most_bytes }
        requires name { length name.now ≤ most_bytes }
        requires descriptor { length descriptor.now ≤ most_bytes }
        ensures adds { AddsMember kind owner.now name.now descriptor.now self.old result self.new }
        // Where an add of the row is refused by a full pool, so is this, unless memory ran out
        // before.
        ensures full { (n : ℕ) (places : List Place) →
            AddsMember kind owner.now name.now descriptor.now self.old
            (Err (PoolStop.Full n)) places →
            (result ≡ Err (PoolStop.Full n)) ⊎ (result ≡ Err PoolStop.Memory) }
        ensures there { IfOk result (λ index.
            NamesMember kind self.new index owner.now name.now descriptor.now) }
        ensures keeps { Keeps self.old self.new }
    {
        let class = self.add_class(owner)?;
        let member = self.add_name_and_type(name, descriptor)?;
        self.add(member_of(kind, class, member))
    }
}
