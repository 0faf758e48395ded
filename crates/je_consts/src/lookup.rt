//! What stands at an index of the places of a constant pool (JVMS 4.4).

ghost use Rattle.std.specs.Prelude.{◌≡◌, ◌+◌, ◌^◌, ◌<◌, ◌++◌, ◌↔◌, length, IsTrue, Some};
ghost use Rattle.std.specs.Option.{option_copied};
ghost use Rattle.je_consts.specs.Pool.{tag, const_at, tag_at};

use crate::constant::{Const, ConstIndex};
use crate::place::Place;
use crate::tags;

/// The tag of an entry.
pub(crate) fn tag_of(entry: &Const) -> u8
    ensures { result ≡ tag entry.now }
{
    match entry {
        Const::Utf8(_) => tags::UTF8,
        Const::Integer(_) => tags::INTEGER,
        Const::Float(_) => tags::FLOAT,
        Const::Long(_) => tags::LONG,
        Const::Double(_) => tags::DOUBLE,
        Const::Class(_) => tags::CLASS,
        Const::Str(_) => tags::STRING,
        Const::Field(..) => tags::FIELDREF,
        Const::Method(..) => tags::METHODREF,
        Const::InterfaceMethod(..) => tags::INTERFACE_METHODREF,
        Const::NameAndType(..) => tags::NAME_AND_TYPE,
        Const::MethodHandle(..) => tags::METHOD_HANDLE,
        Const::MethodType(_) => tags::METHOD_TYPE,
        Const::InvokeDynamic(..) => tags::INVOKE_DYNAMIC,
    }
}

/// The entry at an index, from 1.
pub(crate) fn const_at(places: &[Place], index: ConstIndex) -> Option<&Const>
    ensures { option_copied result ≡ const_at places.now index }
{
    if index == 0 {
        return None;
    }
    match places.get(index as usize - 1) {
        Some(Place::Entry(entry)) => Some(entry),
        _ => None,
    }
}

/// The tag of the entry at an index.
pub(crate) fn tag_at(places: &[Place], index: ConstIndex) -> Option<u8>
    ensures { result ≡ tag_at places.now index }
{
    match const_at(places, index) {
        Some(entry) => Some(tag_of(entry)),
        None => None,
    }
}

/// Whether the entry at an index has this tag.
pub(crate) fn has_tag(places: &[Place], index: ConstIndex, tag: u8) -> bool
    ensures { IsTrue result ↔ (tag_at places.now index ≡ Some tag) }
{
    match tag_at(places, index) {
        Some(found) => found == tag,
        None => false,
    }
}

/// The entry at an index of these places one after the other.
pub(crate) fn const_in<'a>(
    base: &'a [Place],
    tail: &'a [Place],
    index: ConstIndex,
) -> Option<&'a Const>
    ensures { option_copied result ≡ const_at (base.now ++ tail.now) index }
{
    let at = index as usize;
    if at <= base.len() {
        const_at(base, index)
    } else {
        const_at(tail, (at - base.len()) as u16)
    }
}

/// The count of a pool of these places one after the other.
pub(crate) fn count_of(base: &[Place], tail: &[Place]) -> u32
    requires { length (base.now ++ tail.now) + 1 < 2 ^ 16 }
    ensures { result ≡ length (base.now ++ tail.now) + 1 }
{
    (base.len() + tail.len()) as u32 + 1
}
