//! A constant pool once more.

ghost use Rattle.std.specs.Prelude.{◌≡◌, IfOk};

use crate::constant::Const;
use crate::place::Place;
use je_base::Memory;
use std::alloc::Global;

pub(crate) fn copy_const(entry: &Const) -> Result<Const, Memory>
    ensures { IfOk result (λ c. c ≡ entry.now) }
{
    let copy = match entry {
        Const::Utf8(text) => Const::Utf8(text.copy()?),
        Const::Integer(n) => Const::Integer(*n),
        Const::Float(bits) => Const::Float(*bits),
        Const::Long(n) => Const::Long(*n),
        Const::Double(bits) => Const::Double(*bits),
        Const::Class(name) => Const::Class(*name),
        Const::Str(text) => Const::Str(*text),
        Const::Field(class, member) => Const::Field(*class, *member),
        Const::Method(class, member) => Const::Method(*class, *member),
        Const::InterfaceMethod(class, member) => Const::InterfaceMethod(*class, *member),
        Const::NameAndType(name, descriptor) => Const::NameAndType(*name, *descriptor),
        Const::MethodHandle(kind, member) => Const::MethodHandle(*kind, *member),
        Const::MethodType(descriptor) => Const::MethodType(*descriptor),
        Const::InvokeDynamic(bootstrap, member) => Const::InvokeDynamic(*bootstrap, *member),
    };
    Ok(copy)
}

fn copy_place(place: &Place) -> Result<Place, Memory>
    ensures { IfOk result (λ p. p ≡ place.now) }
{
    match place {
        Place::Entry(entry) => Ok(Place::Entry(copy_const(entry)?)),
        Place::Second => Ok(Place::Second),
    }
}

/// The same places once more.
pub(crate) fn copy_places(alloc: Global, places: &[Place]) -> Result<Vec<Place>, Memory>
    ensures { IfOk result (λ v. v.items ≡ places.now) }
{
    let mut copies = Vec::with_capacity(alloc, places.len())?;
    for place in places {
        copies.push(copy_place(place)?)?;
    }
    Ok(copies)
}
