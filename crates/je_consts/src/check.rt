//! Whether the indexes of a constant pool name what they have to (JVMS 4.4.1 to 4.4.10).

ghost use Rattle.std.specs.Prelude.{◌+◌, ◌^◌, ◌<◌, ◌↔◌, length, IsTrue, IsSomeAnd, IfSome, IfNone};
ghost use Rattle.std.specs.List.{AllByRecursion};
ghost use Rattle.je_consts.specs.Pool.{tag_at, IsMemberTag, Names, OfEntry, IsLeastMisfit};

use crate::constant::{Const, ConstIndex};
use crate::lookup::{has_tag, tag_at};
use crate::place::Place;
use crate::tags::{CLASS, FIELDREF, INTERFACE_METHODREF, NAME_AND_TYPE, UTF8};

/// Whether the entry at an index is a field, a method or an interface's method.
fn is_member(places: &[Place], index: ConstIndex) -> bool
    ensures { IsTrue result ↔ IsSomeAnd (tag_at places.now index) IsMemberTag }
{
    match tag_at(places, index) {
        Some(tag) => (FIELDREF..=INTERFACE_METHODREF).contains(&tag),
        None => false,
    }
}

/// Whether each index in the entry names an entry of a tag that fits.
pub(crate) fn names(places: &[Place], entry: &Const) -> bool
    ensures { IsTrue result ↔ Names places.now entry.now }
{
    match entry {
        Const::Class(text) | Const::Str(text) | Const::MethodType(text) => {
            has_tag(places, *text, UTF8)
        }
        Const::Field(class, member)
        | Const::Method(class, member)
        | Const::InterfaceMethod(class, member) => {
            has_tag(places, *class, CLASS) && has_tag(places, *member, NAME_AND_TYPE)
        }
        Const::NameAndType(name, descriptor) => {
            has_tag(places, *name, UTF8) && has_tag(places, *descriptor, UTF8)
        }
        Const::MethodHandle(_, member) => is_member(places, *member),
        Const::InvokeDynamic(_, member) => has_tag(places, *member, NAME_AND_TYPE),
        _ => true,
    }
}

fn place_names(places: &[Place], place: &Place) -> bool
    ensures { IsTrue result ↔ OfEntry (Names places.now) place.now }
{
    match place {
        Place::Entry(entry) => names(places, entry),
        Place::Second => true,
    }
}

/// The least index whose entry names one that does not fit.
pub(crate) fn misfit(places: &[Place]) -> Option<ConstIndex>
    requires { length places.now + 1 < 2 ^ 16 }
    ensures some { IfSome result (IsLeastMisfit places.now) }
    ensures none { IfNone result (AllByRecursion (OfEntry (Names places.now)) places.now) }
{
    for (i, place) in places.iter().enumerate() {
        if !place_names(places, place) {
            return Some(i as u16 + 1);
        }
    }
    None
}
