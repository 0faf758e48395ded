//! Numbers and runs in a format of bytes, read at offsets and written one after the other.
//!
//! Numbers are big-endian. Offsets are in bytes, from the start.

ghost use Rattle.std.specs.Prelude.{◌≡◌, ◌+◌, ◌++◌, ◌≤◌, drop, length, slice_range, IfOk, IfErr};
ghost use Rattle.std.specs.Prelude.{OnOk, OnErr};
ghost use Rattle.je_base.specs.Bytes.{u1, u2, u4, u8, IsThere, IsCut, OneReading};

use crate::stop::Memory;

/// The bytes end within the number, or the run of bytes, that begins at this offset.
#[derive(Clone, Copy, Debug, PartialEq, Eq)]
pub struct Cut(pub usize);

/// The bytes from an offset on, none where it lies behind the end.
fn from(bytes: &[u8], at: usize) -> &[u8]
    ensures { result.now ≡ drop at bytes.now }
{
    match bytes.get(at..) {
        Some(rest) => rest,
        None => &[],
    }
}

/// The byte at an offset, and the offset after it.
///
/// # Errors
///
/// `Cut` with the offset, exactly where no byte is left.
pub fn u8_at(bytes: &[u8], at: usize) -> Result<(u8, usize), Cut>
    ensures there { IfOk result (λ x. IsThere bytes.now at (u1 x.0)) }
    ensures end { IfOk result (λ x. x.1 ≡ at + 1) }
    ensures cut { IfErr result (IsCut bytes.now at 1) }
{
    match from(bytes, at) {
        [] => Err(Cut(at)),
        [byte, ..] => Ok((*byte, at + 1)),
    }
}

/// The number of two bytes at an offset, and the offset after it.
///
/// # Errors
///
/// `Cut` with the offset, exactly where fewer bytes are left.
pub fn u16_at(bytes: &[u8], at: usize) -> Result<(u16, usize), Cut>
    ensures there { IfOk result (λ x. IsThere bytes.now at (u2 x.0)) }
    ensures end { IfOk result (λ x. x.1 ≡ at + 2) }
    ensures within { IfOk result (λ x. x.1 ≤ length bytes.now) }
    ensures cut { IfErr result (IsCut bytes.now at 2) }
{
    let rest = from(bytes, at);
    if rest.len() < 2 {
        return Err(Cut(at));
    }
    let (front, _) = rest.split_at(2);
    Ok((u16::from_be_bytes([front[0], front[1]]), at + 2))
}

/// The number of four bytes at an offset, and the offset after it.
///
/// # Errors
///
/// `Cut` with the offset, exactly where fewer bytes are left.
pub fn u32_at(bytes: &[u8], at: usize) -> Result<(u32, usize), Cut>
    ensures there { IfOk result (λ x. IsThere bytes.now at (u4 x.0)) }
    ensures end { IfOk result (λ x. x.1 ≡ at + 4) }
    ensures within { IfOk result (λ x. x.1 ≤ length bytes.now) }
    ensures cut { IfErr result (IsCut bytes.now at 4) }
{
    let rest = from(bytes, at);
    if rest.len() < 4 {
        return Err(Cut(at));
    }
    let (front, _) = rest.split_at(4);
    let number = u32::from_be_bytes([front[0], front[1], front[2], front[3]]);
    Ok((number, at + 4))
}

/// The number of eight bytes at an offset, and the offset after it.
///
/// # Errors
///
/// `Cut` with the offset, exactly where fewer bytes are left.
pub fn u64_at(bytes: &[u8], at: usize) -> Result<(u64, usize), Cut>
    ensures there { IfOk result (λ x. IsThere bytes.now at (u8 x.0)) }
    ensures end { IfOk result (λ x. x.1 ≡ at + 8) }
    ensures cut { IfErr result (IsCut bytes.now at 8) }
{
    let rest = from(bytes, at);
    if rest.len() < 8 {
        return Err(Cut(at));
    }
    let (front, _) = rest.split_at(8);
    let number = u64::from_be_bytes([
        front[0], front[1], front[2], front[3], front[4], front[5], front[6], front[7],
    ]);
    Ok((number, at + 8))
}

/// So many bytes at an offset, and the offset after them.
///
/// # Errors
///
/// `Cut` with the offset, exactly where fewer bytes are left.
pub fn run_at(bytes: &[u8], at: usize, len: usize) -> Result<(&[u8], usize), Cut>
    ensures run { IfOk result (λ x. length x.0.now ≡ len) }
    ensures range { IfOk result (λ x. x.0.now ≡ slice_range bytes.now at x.1) }
    ensures within { at ≤ length bytes.now → IfOk result (λ x. x.1 ≤ length bytes.now) }
    ensures there { IfOk result (λ x. IsThere bytes.now at x.0.now) }
    ensures end { IfOk result (λ x. x.1 ≡ at + len) }
    ensures cut { IfErr result (IsCut bytes.now at len) }
{
    let rest = from(bytes, at);
    if rest.len() < len {
        return Err(Cut(at));
    }
    let (front, _) = rest.split_at(len);
    Ok((front, at + len))
}

/// Puts a number of two bytes behind the others.
///
/// # Errors
///
/// `Memory` where memory runs out.
pub fn put_u16(out: &mut Vec<u8>, n: u16) -> Result<(), Memory>
    ensures ok { OnOk result (out.new.items ≡ out.old.items ++ u2 n) }
    ensures err { OnErr result (out.new.items ≡ out.old.items) }
{
    out.extend_from_slice(&n.to_be_bytes())?;
    Ok(())
}

/// Puts a number of four bytes behind the others.
///
/// # Errors
///
/// `Memory` where memory runs out.
pub fn put_u32(out: &mut Vec<u8>, n: u32) -> Result<(), Memory>
    ensures ok { OnOk result (out.new.items ≡ out.old.items ++ u4 n) }
    ensures err { OnErr result (out.new.items ≡ out.old.items) }
{
    out.extend_from_slice(&n.to_be_bytes())?;
    Ok(())
}

/// Puts a number of eight bytes behind the others.
///
/// # Errors
///
/// `Memory` where memory runs out.
pub fn put_u64(out: &mut Vec<u8>, n: u64) -> Result<(), Memory>
    ensures ok { OnOk result (out.new.items ≡ out.old.items ++ u8 n) }
    ensures err { OnErr result (out.new.items ≡ out.old.items) }
{
    out.extend_from_slice(&n.to_be_bytes())?;
    Ok(())
}

/// What stands at an offset is one part of its sort, which is not cut off.
pub fn one_reading()
    ensures { OneReading }
{}
