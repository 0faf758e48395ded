//! The entries of a constant pool, each read behind its tag (JVMS 4.4).

ghost use Rattle.std.specs.Prelude.{◌≤◌, length, slice_range};
ghost use Rattle.std.specs.Int.{w16, w32, w64};
ghost use Rattle.je_consts.specs.Reading.{Gives, integer_of, long_of, text_from, one_at, two_at};
ghost use Rattle.je_consts.specs.Reading.{utf8_at, handle_at, info_at, entry_at};

use crate::constant::{Const, ConstIndex};
use crate::fault::ConstFault;
use crate::tags::{self, GREATEST_KIND, LEAST_KIND};
use je_base::{Run, Text, run_at, u8_at, u16_at, u32_at, u64_at};

/// The text of a part of these bytes, which the entry of this index has.
fn text_of(index: ConstIndex, bytes: &Run, start: usize, end: usize) -> Result<Text, ConstFault>
    requires order { start ≤ end }
    requires within { end ≤ length bytes.now }
    ensures { Gives (λ text. text) result (text_from index (slice_range bytes.now start end)) }
{
    match Text::of_part(bytes, start, end)? {
        Some(text) => Ok(text),
        None => Err(ConstFault::BadConst(index)),
    }
}

#[tactic(auto, unfolding(crate::specs::Reading::utf8_at))]
fn utf8_of(index: ConstIndex, bytes: &Run, at: usize) -> Result<(Const, usize), ConstFault>
    ensures { Gives (λ x. x) result (utf8_at index bytes.now at) }
{
    let slice = bytes.as_slice();
    let (len, at) = u16_at(slice, at)?;
    let (_, end) = run_at(slice, at, len as usize)?;
    let text = text_of(index, bytes, at, end)?;
    Ok((Const::Utf8(text), end))
}

#[tactic(auto, unfolding(crate::specs::Reading::one_at))]
fn integer_of(bytes: &[u8], at: usize) -> Result<(Const, usize), ConstFault>
    ensures { Gives (λ x. x) result (one_at w32 integer_of bytes.now at) }
{
    let (number, at) = u32_at(bytes, at)?;
    Ok((Const::Integer(number.cast_signed()), at))
}

#[tactic(auto, unfolding(crate::specs::Reading::one_at))]
fn float_of(bytes: &[u8], at: usize) -> Result<(Const, usize), ConstFault>
    ensures { Gives (λ x. x) result (one_at w32 Const.Float bytes.now at) }
{
    let (bits, at) = u32_at(bytes, at)?;
    Ok((Const::Float(bits), at))
}

#[tactic(auto, unfolding(crate::specs::Reading::one_at))]
fn long_of(bytes: &[u8], at: usize) -> Result<(Const, usize), ConstFault>
    ensures { Gives (λ x. x) result (one_at w64 long_of bytes.now at) }
{
    let (number, at) = u64_at(bytes, at)?;
    Ok((Const::Long(number.cast_signed()), at))
}

#[tactic(auto, unfolding(crate::specs::Reading::one_at))]
fn double_of(bytes: &[u8], at: usize) -> Result<(Const, usize), ConstFault>
    ensures { Gives (λ x. x) result (one_at w64 Const.Double bytes.now at) }
{
    let (bits, at) = u64_at(bytes, at)?;
    Ok((Const::Double(bits), at))
}

#[tactic(auto, unfolding(crate::specs::Reading::one_at))]
fn class_of(bytes: &[u8], at: usize) -> Result<(Const, usize), ConstFault>
    ensures { Gives (λ x. x) result (one_at w16 Const.Class bytes.now at) }
{
    let (name, at) = u16_at(bytes, at)?;
    Ok((Const::Class(name), at))
}

#[tactic(auto, unfolding(crate::specs::Reading::one_at))]
fn string_of(bytes: &[u8], at: usize) -> Result<(Const, usize), ConstFault>
    ensures { Gives (λ x. x) result (one_at w16 Const.Str bytes.now at) }
{
    let (text, at) = u16_at(bytes, at)?;
    Ok((Const::Str(text), at))
}

#[tactic(auto, unfolding(crate::specs::Reading::two_at))]
fn field_of(bytes: &[u8], at: usize) -> Result<(Const, usize), ConstFault>
    ensures { Gives (λ x. x) result (two_at Const.Field bytes.now at) }
{
    let (class, at) = u16_at(bytes, at)?;
    let (member, at) = u16_at(bytes, at)?;
    Ok((Const::Field(class, member), at))
}

#[tactic(auto, unfolding(crate::specs::Reading::two_at))]
fn method_of(bytes: &[u8], at: usize) -> Result<(Const, usize), ConstFault>
    ensures { Gives (λ x. x) result (two_at Const.Method bytes.now at) }
{
    let (class, at) = u16_at(bytes, at)?;
    let (member, at) = u16_at(bytes, at)?;
    Ok((Const::Method(class, member), at))
}

#[tactic(auto, unfolding(crate::specs::Reading::two_at))]
fn interface_method_of(bytes: &[u8], at: usize) -> Result<(Const, usize), ConstFault>
    ensures { Gives (λ x. x) result (two_at Const.InterfaceMethod bytes.now at) }
{
    let (class, at) = u16_at(bytes, at)?;
    let (member, at) = u16_at(bytes, at)?;
    Ok((Const::InterfaceMethod(class, member), at))
}

#[tactic(auto, unfolding(crate::specs::Reading::two_at))]
fn name_and_type_of(bytes: &[u8], at: usize) -> Result<(Const, usize), ConstFault>
    ensures { Gives (λ x. x) result (two_at Const.NameAndType bytes.now at) }
{
    let (name, at) = u16_at(bytes, at)?;
    let (descriptor, at) = u16_at(bytes, at)?;
    Ok((Const::NameAndType(name, descriptor), at))
}

#[tactic(auto, unfolding(crate::specs::Reading::handle_at, crate::specs::Reading::one_at))]
fn handle_of(index: ConstIndex, bytes: &[u8], at: usize) -> Result<(Const, usize), ConstFault>
    ensures { Gives (λ x. x) result (handle_at index bytes.now at) }
{
    let (kind, at) = u8_at(bytes, at)?;
    if !(LEAST_KIND..=GREATEST_KIND).contains(&kind) {
        return Err(ConstFault::BadConst(index));
    }
    let (member, at) = u16_at(bytes, at)?;
    Ok((Const::MethodHandle(kind, member), at))
}

#[tactic(auto, unfolding(crate::specs::Reading::one_at))]
fn method_type_of(bytes: &[u8], at: usize) -> Result<(Const, usize), ConstFault>
    ensures { Gives (λ x. x) result (one_at w16 Const.MethodType bytes.now at) }
{
    let (descriptor, at) = u16_at(bytes, at)?;
    Ok((Const::MethodType(descriptor), at))
}

#[tactic(auto, unfolding(crate::specs::Reading::two_at))]
fn invoke_dynamic_of(bytes: &[u8], at: usize) -> Result<(Const, usize), ConstFault>
    ensures { Gives (λ x. x) result (two_at Const.InvokeDynamic bytes.now at) }
{
    let (bootstrap, at) = u16_at(bytes, at)?;
    let (member, at) = u16_at(bytes, at)?;
    Ok((Const::InvokeDynamic(bootstrap, member), at))
}

/// What stands behind the tag of the entry of this index.
#[tactic(auto, unfolding(crate::specs::Reading::info_at))]
fn info_of(index: ConstIndex, tag: u8, bytes: &Run, at: usize) -> Result<(Const, usize), ConstFault>
    ensures { Gives (λ x. x) result (info_at index tag bytes.now at) }
{
    let slice = bytes.as_slice();
    match tag {
        tags::UTF8 => utf8_of(index, bytes, at),
        tags::INTEGER => integer_of(slice, at),
        tags::FLOAT => float_of(slice, at),
        tags::LONG => long_of(slice, at),
        tags::DOUBLE => double_of(slice, at),
        tags::CLASS => class_of(slice, at),
        tags::STRING => string_of(slice, at),
        tags::FIELDREF => field_of(slice, at),
        tags::METHODREF => method_of(slice, at),
        tags::INTERFACE_METHODREF => interface_method_of(slice, at),
        tags::NAME_AND_TYPE => name_and_type_of(slice, at),
        tags::METHOD_HANDLE => handle_of(index, slice, at),
        tags::METHOD_TYPE => method_type_of(slice, at),
        tags::INVOKE_DYNAMIC => invoke_dynamic_of(slice, at),
        _ => Err(ConstFault::BadConst(index)),
    }
}

/// The entry of this index, and the offset after it.
#[tactic(auto, unfolding(crate::specs::Reading::entry_at))]
pub(crate) fn entry_of(
    index: ConstIndex,
    bytes: &Run,
    at: usize,
) -> Result<(Const, usize), ConstFault>
    ensures { Gives (λ x. x) result (entry_at index bytes.now at) }
{
    let (tag, at) = u8_at(bytes.as_slice(), at)?;
    info_of(index, tag, bytes, at)
}
