//! Reading from streams and writing to them, to the end.

ghost use Rattle.std.specs.Prelude.{◌≡◌, ℕ, ◌+◌, ◌<◌, ◌≤◌, ◌^◌, take, drop, length, vec_len, IfOk};
ghost use Rattle.std.specs.Prelude.{OnOk, OnErr};
ghost use Rattle.std.specs.Io.KnownBytes.{Appends, Consumes, IsAtEnd};
ghost use Rattle.je_base.specs.Streams.{IsFrontOf};

use crate::stop::{Failed, FileStop, Memory};
use std::alloc::Global;
use std::io::{ErrorKind, Read, Write};

/// How many bytes are asked for at first: most class files are shorter.
const FIRST: usize = 8_192;

/// How many bytes are asked for at once, at most. Before that, as many as were read so far.
const PIECE: usize = 65_536;

/// Reads the first `limit` bytes, or all where there are fewer. A source that gives nothing is at
/// its end.
pub fn read_front<S: Read>(alloc: Global, from: &mut S, limit: usize) -> Result<Vec<u8>, FileStop>
    ensures within { IfOk result (λ bytes. vec_len bytes ≤ limit) }
    ensures front { IfOk result (λ bytes. IsFrontOf (S.remaining from.old) limit bytes.items) }
{
    let mut bytes = Vec::new(alloc);
    let mut filled = 0;
    for _ in 0..u64::MAX {
        let wanted = filled.max(FIRST).min(PIECE).min(limit - filled);
        if wanted == 0 {
            bytes.truncate(filled);
            return Ok(bytes);
        }
        make_room(&mut bytes, filled, wanted)?;
        match read_behind(from, &mut bytes, filled) {
            Ok(0) => {
                bytes.truncate(filled);
                return Ok(bytes);
            }
            Ok(n) => filled += n,
            Err(Failed) => return Err(FileStop::Failed),
        }
    }
    Err(FileStop::Failed)
}

/// Makes room for so many bytes behind the first `filled` ones.
fn make_room(bytes: &mut Vec<u8>, filled: usize, wanted: usize) -> Result<(), Memory>
    requires within { filled ≤ vec_len bytes.old }
    requires fits { filled + wanted < 2 ^ 64 }
    ensures len { OnOk result (vec_len bytes.new ≡ filled + wanted) }
    ensures front { OnOk result (take filled bytes.new.items ≡ take filled bytes.old.items) }
{
    bytes.resize(filled + wanted, 0)?;
    Ok(())
}

/// One read into what stands behind the first `filled` bytes, of which there are some. Answers how
/// many bytes it gave: none at the end of the source.
fn read_behind<S: Read>(from: &mut S, bytes: &mut [u8], filled: usize) -> Result<usize, Failed>
    requires { filled < length bytes.old }
    ensures front { take filled bytes.new ≡ take filled bytes.old }
    ensures fits { IfOk result (λ n. filled + n ≤ length bytes.new) }
    ensures given { IfOk result (λ n. Consumes (S.remaining from.old) (S.remaining from.new)
        (take n (drop filled bytes.new))) }
    ensures end { IfOk result (λ n. n ≡ 0 → IsAtEnd (S.remaining from.new)) }
{
    read_once(from, &mut bytes[filled..])
}

/// One read, which is made again where it was interrupted.
fn read_once<S: Read>(from: &mut S, piece: &mut [u8]) -> Result<usize, Failed>
    requires { 0 < length piece.old }
    ensures fits { IfOk result (λ n. n ≤ length piece.new) }
    ensures given { IfOk result (λ n. Consumes (S.remaining from.old) (S.remaining from.new)
        (take n piece.new)) }
    ensures end { IfOk result (λ n. n ≡ 0 → IsAtEnd (S.remaining from.new)) }
{
    for _ in 0..u64::MAX {
        match from.read(piece) {
            Ok(n) => return Ok(n),
            Err(e) if e.kind() == ErrorKind::Interrupted => {}
            Err(_) => return Err(Failed),
        }
    }
    Err(Failed)
}

/// Writes the whole piece. A sink that takes nothing of what is left has failed.
pub fn write_whole<W: Write>(to: &mut W, piece: &[u8]) -> Result<(), Failed>
    ensures { OnOk result (Appends (W.contents to.old) (W.contents to.new) piece.now) }
{
    let mut rest = piece;
    for _ in 0..u64::MAX {
        if rest.is_empty() {
            return Ok(());
        }
        match to.write(rest) {
            Ok(0) => return Err(Failed),
            Ok(n) => rest = &rest[n..],
            Err(e) if e.kind() == ErrorKind::Interrupted => {}
            Err(_) => return Err(Failed),
        }
    }
    Err(Failed)
}
