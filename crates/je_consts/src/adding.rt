//! Entries that are added to a constant pool.

ghost use Rattle.std.specs.Prelude.{◌≡◌, ℕ, ◌+◌, ◌++◌, ◌^◌, ◌<◌, ◌↔◌, length, Some, IsTrue, IfSome};
ghost use Rattle.std.specs.Prelude.{IfNone, IfOk, OnOk, OnErr, Err};
ghost use Rattle.je_consts.specs.Adding.{IsLawful, IsMissing, IsLeastIndex};
ghost use Rattle.je_consts.specs.Indexed.{IsIndexOf};
ghost use Rattle.je_consts.specs.Pool.{places_of, entry_of, Fits};

use crate::constant::{Const, ConstIndex};
use crate::index::Index;
use crate::place::Place;
use crate::reading::is_wide;
use je_base::{Memory, Text};

/// The greatest count of a pool.
pub(crate) const MOST: u32 = 65_535;

/// Reads each part of an entry and does nothing else: its numbers fit their types, and its text is
/// a text.
pub(crate) fn fits(entry: &Const)
    requires { IsLawful entry.now }
    ensures { Fits entry.now }
{
    match entry {
        Const::Utf8(text) => {
            let _bytes = text.bytes();
        }
        Const::Integer(n) => {
            let _n = *n;
        }
        Const::Float(bits) => {
            let _bits = *bits;
        }
        Const::Long(n) => {
            let _n = *n;
        }
        Const::Double(bits) => {
            let _bits = *bits;
        }
        Const::Class(index) | Const::Str(index) | Const::MethodType(index) => {
            let _index = *index;
        }
        Const::Field(first, second)
        | Const::Method(first, second)
        | Const::InterfaceMethod(first, second)
        | Const::NameAndType(first, second)
        | Const::InvokeDynamic(first, second) => {
            let _both = (*first, *second);
        }
        Const::MethodHandle(kind, member) => {
            let _both = (*kind, *member);
        }
    }
}

fn holds(place: &Place, entry: &Const) -> bool
    ensures { IsTrue result ↔ (entry_of place.now ≡ Some entry.now) }
{
    match place {
        Place::Entry(found) => found == entry,
        Place::Second => false,
    }
}

/// The least index that holds this entry.
pub(crate) fn index_of(places: &[Place], entry: &Const) -> Option<ConstIndex>
    requires { length places.now + 1 < 2 ^ 16 }
    ensures some { IfSome result (IsLeastIndex places.now entry.now) }
    ensures none { IfNone result (IsMissing places.now entry.now) }
{
    for (i, place) in places.iter().enumerate() {
        if holds(place, entry) {
            return Some(i as u16 + 1);
        }
    }
    None
}

fn holds_text(place: &Place, text: &Text) -> bool
    ensures { IsTrue result ↔ (entry_of place.now ≡ Some (Const.Utf8 text.now)) }
{
    match place {
        Place::Entry(Const::Utf8(found)) => found == text,
        _ => false,
    }
}

/// The least index that holds the Utf8 of this text.
pub(crate) fn index_of_text(places: &[Place], text: &Text) -> Option<ConstIndex>
    requires { length places.now + 1 < 2 ^ 16 }
    ensures some { IfSome result (IsLeastIndex places.now (Const.Utf8 text.now)) }
    ensures none { IfNone result (IsMissing places.now (Const.Utf8 text.now)) }
{
    for (i, place) in places.iter().enumerate() {
        if holds_text(place, text) {
            return Some(i as u16 + 1);
        }
    }
    None
}

/// Puts the places of an entry at the end.
fn append(places: &mut Vec<Place>, entry: Const) -> Result<(), Memory>
    ensures ok { OnOk result (places.new.items ≡ places.old.items ++ places_of entry) }
    ensures err { OnErr result (places.new.items ≡ places.old.items) }
{
    let wide = is_wide(&entry);
    // Room for both, so that neither push fails.
    places.reserve(2)?;
    places.push(Place::Entry(entry))?;
    if wide {
        places.push(Place::Second)?;
    }
    Ok(())
}

/// How many indexes an entry takes.
pub(crate) fn indexes_of(entry: &Const) -> u32
    ensures { result ≡ length (places_of entry.now) }
{
    if is_wide(entry) { 2 } else { 1 }
}

/// Puts the places of an entry at the end, and takes them into the index where there is one.
pub(crate) fn grow(
    places: &mut Vec<Place>,
    index: &mut Option<Index>,
    entry: Const,
) -> Result<(), Memory>
    requires room { length places.old.items + length (places_of entry) + 1 < 2 ^ 16 }
    requires index { IfSome index.old (IsIndexOf places.old.items) }
    ensures ok { OnOk result (places.new.items ≡ places.old.items ++ places_of entry) }
    ensures err { OnErr result (places.new.items ≡ places.old.items) }
    ensures index { IfSome index.new (IsIndexOf places.new.items) }
{
    let from = places.len();
    append(places, entry)?;
    *index = match index.take() {
        Some(index) => index.noted(places, from),
        None => None,
    };
    Ok(())
}
