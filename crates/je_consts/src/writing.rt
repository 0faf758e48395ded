//! The bytes of a constant pool (JVMS 4.1 and 4.4).

ghost use Rattle.std.specs.Prelude.{◌≡◌, ◌+◌, ◌^◌, ◌<◌, ◌++◌, length, OnOk};
ghost use Rattle.std.specs.List.{AllByRecursion};
ghost use Rattle.je_base.specs.Bytes.{u2};
ghost use Rattle.je_consts.specs.Layout.{const_layout, place_layout, entries_layout, pool_layout};
ghost use Rattle.je_consts.specs.Pool.{Fits, OfEntry};

use crate::constant::Const;
use crate::lookup::{count_of, tag_of};
use crate::place::Place;
use je_base::{Memory, Text, put_u16, put_u32, put_u64};

fn put_two(out: &mut Vec<u8>, first: u16, second: u16) -> Result<(), Memory>
    ensures { OnOk result (out.new.items ≡ out.old.items ++ (u2 first ++ u2 second)) }
{
    put_u16(out, first)?;
    put_u16(out, second)
}

fn put_text(out: &mut Vec<u8>, text: &Text) -> Result<(), Memory>
    requires { length text.now < 2 ^ 16 }
    ensures { OnOk result (out.new.items ≡ out.old.items ++ (u2 (length text.now) ++ text.now)) }
{
    let bytes = text.bytes();
    put_u16(out, bytes.len() as u16)?;
    out.extend_from_slice(bytes)?;
    Ok(())
}

/// A tag, and what it says.
fn put_const(out: &mut Vec<u8>, entry: &Const) -> Result<(), Memory>
    requires { Fits entry.now }
    ensures { OnOk result (out.new.items ≡ out.old.items ++ const_layout entry.now) }
{
    out.push(tag_of(entry))?;
    match entry {
        Const::Utf8(text) => put_text(out, text)?,
        Const::Integer(n) => put_u32(out, n.cast_unsigned())?,
        Const::Float(bits) => put_u32(out, *bits)?,
        Const::Long(n) => put_u64(out, n.cast_unsigned())?,
        Const::Double(bits) => put_u64(out, *bits)?,
        Const::Class(text) | Const::Str(text) | Const::MethodType(text) => put_u16(out, *text)?,
        Const::Field(first, second)
        | Const::Method(first, second)
        | Const::InterfaceMethod(first, second)
        | Const::NameAndType(first, second)
        | Const::InvokeDynamic(first, second) => put_two(out, *first, *second)?,
        Const::MethodHandle(kind, member) => {
            out.push(*kind)?;
            put_u16(out, *member)?;
        }
    }
    Ok(())
}

fn put_place(out: &mut Vec<u8>, place: &Place) -> Result<(), Memory>
    requires { OfEntry Fits place.now }
    ensures { OnOk result (out.new.items ≡ out.old.items ++ place_layout place.now) }
{
    match place {
        Place::Entry(entry) => put_const(out, entry),
        Place::Second => Ok(()),
    }
}

/// The entries, one after the other.
fn put_places(out: &mut Vec<u8>, places: &[Place]) -> Result<(), Memory>
    requires { AllByRecursion (OfEntry Fits) places.now }
    ensures { OnOk result (out.new.items ≡ out.old.items ++ entries_layout places.now) }
{
    for place in places {
        put_place(out, place)?;
    }
    Ok(())
}

/// Puts the count and the entries of these places, one after the other, behind the others.
///
/// The bytes of those that were read are given, and put in one copy.
pub(crate) fn put_pool(
    out: &mut Vec<u8>,
    spelled: &[u8],
    base: &[Place],
    tail: &[Place],
) -> Result<(), Memory>
    requires spelled { spelled.now ≡ pool_layout base.now }
    requires count { length (base.now ++ tail.now) + 1 < 2 ^ 16 }
    requires each { AllByRecursion (OfEntry Fits) (base.now ++ tail.now) }
    ensures { OnOk result (out.new.items ≡ out.old.items ++ pool_layout (base.now ++ tail.now)) }
{
    put_u16(out, count_of(base, tail) as u16)?;
    let (_, entries) = spelled.split_at(2);
    out.extend_from_slice(entries)?;
    put_places(out, tail)
}
