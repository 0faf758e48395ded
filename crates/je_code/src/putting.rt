//! The attributes of a Code, put behind one another (JVMS 4.7).

ghost use Rattle.std.specs.Prelude.{◌≡◌, ℕ, ◌^◌, ◌<◌, ◌≤◌, ◌⊎◌, ◌++◌, List, Some, None, Ok, Err};
ghost use Rattle.std.specs.Prelude.{length, IfErr, OnOk};
ghost use Rattle.std.specs.List.{AllByRecursion};
ghost use Rattle.je_base.specs.Bytes.{attribute_info};
ghost use Rattle.je_consts.specs.declared.constant.Const.{Const};
ghost use Rattle.je_consts.specs.declared.place.Place.{Place};
ghost use Rattle.je_consts.specs.Adding.{Adds, IsFull, Keeps};
ghost use Rattle.je_code.specs.Writing.{HasShortName, PutsOne, PutsAll};
ghost use Rattle.je_code.specs.Written.{AddsTexts, names_of};

use crate::named::Named;
use je_base::{Memory, put_u16, put_u32};
use je_consts::{ConstIndex, Consts, PoolStop};

/// Puts an attribute with the index of its name.
///
/// # Errors
///
/// `Memory` where memory runs out, and for more than 4,294,967,295 bytes.
fn put_info(out: &mut Vec<u8>, name: ConstIndex, bytes: &[u8]) -> Result<(), Memory>
    ensures bytes { OnOk result (out.new.items ≡ out.old.items ++ attribute_info name bytes.now) }
    ensures index_fits { name < 2 ^ 16 }
    ensures length_fits { OnOk result (length bytes.now < 2 ^ 32) }
{
    let Ok(len) = u32::try_from(bytes.len()) else {
        return Err(Memory);
    };
    put_u16(out, name)?;
    put_u32(out, len)?;
    out.extend_from_slice(bytes)?;
    Ok(())
}

/// Adds the name of an attribute, and puts the attribute.
fn put_attribute(out: &mut Vec<u8>, named: &Named, consts: &mut Consts) -> Result<(), PoolStop>
    requires { HasShortName named.now }
    ensures put { OnOk result (PutsOne consts.new named.now out.old.items out.new.items) }
    ensures adds { OnOk result
        ((index : ℕ) × Adds (Const.Utf8 named.now.name) consts.old (Ok index) consts.new) }
    ensures refusal { IfErr result (λ e. (e ≡ PoolStop.Memory)
        ⊎ Adds (Const.Utf8 named.now.name) consts.old (Err e) consts.new) }
    ensures full { (n : ℕ) → IsFull consts.old (Const.Utf8 named.now.name) n →
        result ≡ Err (PoolStop.Full n) }
    ensures keeps { Keeps consts.old consts.new }
{
    let index = consts.add_text(&named.name)?;
    put_info(out, index, named.bytes.as_slice())?;
    Ok(())
}

/// Puts attributes one after the other, and adds their names.
pub(crate) fn put_attributes(
    out: &mut Vec<u8>,
    all: &[Named],
    consts: &mut Consts,
) -> Result<(), PoolStop>
    requires { AllByRecursion HasShortName all.now }
    ensures put { OnOk result (PutsAll consts.new all.now out.old.items out.new.items) }
    ensures adds { OnOk result (AddsTexts (names_of all.now) consts.old None consts.new) }
    ensures refusal { IfErr result (λ e. (e ≡ PoolStop.Memory)
        ⊎ AddsTexts (names_of all.now) consts.old (Some e) consts.new) }
    ensures full { (n : ℕ) (places : List Place) →
        AddsTexts (names_of all.now) consts.old (Some (PoolStop.Full n)) places →
        (result ≡ Err (PoolStop.Full n)) ⊎ (result ≡ Err PoolStop.Memory) }
    ensures keeps { Keeps consts.old consts.new }
{
    let mut rest = all;
    while let Some((named, tail)) = rest.split_first() {
        put_attribute(out, named, consts)?;
        rest = tail;
    }
    Ok(())
}
