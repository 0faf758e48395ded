//! Class file texts.

ghost use Rattle.std.specs.Prelude.{◌≡◌, ℕ, ◌↔◌, ◌≤◌, length, slice_range, Some, IsTrue, IfOk};
ghost use Rattle.std.specs.Prelude.{IfSome, IfNone, refl};
ghost use Rattle.std.proofs.Common.{rules};
ghost use Rattle.std.specs.Cmp.{partial_equiv_from_equiv};
ghost use Rattle.std.specs.Cmp.Lexicographic.{nat_list_cmp_total, nat_list_eq_equiv, slice_cmp};
ghost use Rattle.std.specs.Cmp.Lexicographic.{texts_po, texts_ties};
ghost use Rattle.std.specs.Cmp.Rules.{hashing};
ghost use Rattle.std.specs.Hash as fed;
ghost use Rattle.std.specs.Ordering.{nat_cmp};
ghost use Rattle.std.specs.Str.{chars};
ghost use Rattle.std.specs.String.{string_bytes};
ghost use Rattle.je_base.specs.Encoding.{encoding};
ghost use Rattle.je_base.specs.Text.{IsModifiedUtf8, is_same_text};
ghost use Rattle.je_base.specs.Shown.{shown};
ghost use Rattle.je_base.specs.Units.{Follows, SkipsSingles, are_singles};

use crate::encoding::encode_text;
use crate::run::Run;
use crate::shown::show;
use crate::stop::Memory;
use std::alloc::Global;
use std::cmp::Ordering;
use std::hash::{Hash, Hasher};
use std::marker::Model;

/// A text as class files have it: bytes in modified UTF-8 (JVMS 4.4.7).
///
/// It is a run of bytes, so that a text that was read keeps the whole block of its class in memory
/// until it is dropped.
#[derive(Debug, Drop)]
pub struct Text {
    run: Run,
}

impl Model for Text {
    ghost use Rattle.std.specs.Prelude.{ℕ, List};
    ghost use Rattle.je_base.specs.Text.{IsModifiedUtf8};

    ghost Value = { List ℕ };

    ghost view = { λ text. text.run };

    ghost invariant = { λ text. IsModifiedUtf8 text.run };
}

impl Text {
    /// The text of these bytes, or `None` where they are not in modified UTF-8.
    ///
    /// # Errors
    ///
    /// `Memory` where memory runs out.
    pub fn from_bytes(alloc: Global, b: &[u8]) -> Result<Option<Text>, Memory>
        ensures text { IfOk result (λ found. IfSome found (λ text. text ≡ b.now)) }
        ensures form { IfOk result (λ found. IfSome found (λ _. IsModifiedUtf8 b.now)) }
        ensures none { IfOk result (λ found. IfNone found (IsModifiedUtf8 b.now → ⊥)) }
    {
        if !is_modified_utf8(b) {
            return Ok(None);
        }
        let bytes = Vec::from_slice(alloc, b)?;
        let run = Run::of_vec(alloc, bytes)?;
        Ok(Some(Text { run }))
    }

    /// The text of a part of a run, from one offset to another, or `None` where the bytes there are
    /// not in modified UTF-8. No byte is copied.
    ///
    /// # Errors
    ///
    /// `Memory` where memory runs out.
    pub fn of_part(run: &Run, start: usize, end: usize) -> Result<Option<Text>, Memory>
        requires order { start ≤ end }
        requires within { end ≤ length run.now }
        ensures text { IfOk result (λ found. IfSome found (λ text.
            text ≡ slice_range run.now start end)) }
        ensures form { IfOk result (λ found. IfSome found (λ _.
            IsModifiedUtf8 (slice_range run.now start end))) }
        ensures none { IfOk result (λ found. IfNone found (
            IsModifiedUtf8 (slice_range run.now start end) → ⊥)) }
    {
        if !is_modified_utf8(&run.as_slice()[start..end]) {
            return Ok(None);
        }
        let run = run.part(start, end)?;
        Ok(Some(Text { run }))
    }

    /// The text of a string.
    ///
    /// # Errors
    ///
    /// `Memory` where memory runs out.
    pub fn of(alloc: Global, s: &str) -> Result<Text, Memory>
        ensures { IfOk result (λ text. text ≡ encoding (chars s.now)) }
    {
        let bytes = encode_text(alloc, s)?;
        let run = Run::of_vec(alloc, bytes)?;
        Ok(Text { run })
    }

    /// The bytes of the text.
    pub fn bytes(&self) -> &[u8]
        ensures bytes { result.now ≡ self.now }
        ensures form { IsModifiedUtf8 result.now }
    {
        self.run.as_slice()
    }

    /// The same text once more.
    ///
    /// # Errors
    ///
    /// `Memory` where memory runs out.
    pub fn copy(&self) -> Result<Text, Memory>
        ensures { IfOk result (λ text. text ≡ self.now) }
    {
        let run = self.run.copy()?;
        Ok(Text { run })
    }

    /// The text as a message shows it.
    ///
    /// Its string, where it has one with no character below U+0020, and else its bytes, those from
    /// 20 to 7E as they are and each other one as `\x` and two hexadecimal digits.
    ///
    /// # Errors
    ///
    /// `Memory` where memory runs out.
    pub fn show(&self) -> Result<String, Memory>
        ensures { IfOk result (λ s. string_bytes s ≡ shown self.now) }
    {
        show(self.run.alloc(), self.run.as_slice())
    }
}

/// Texts are equal where their bytes are.
impl PartialEq for Text {
    ghost eq = { is_same_text };

    ghost laws = { partial_equiv_from_equiv nat_list_eq_equiv };

    fn eq(&self, other: &Text) -> bool
        ensures value { result ≡ is_same_text self.now other.now }
        ensures same { IsTrue result ↔ self.now ≡ other.now }
    {
        self.run.as_slice() == other.run.as_slice()
    }
}

impl Eq for Text {
    ghost laws = { nat_list_eq_equiv };
}

/// Texts are in the order of their bytes, and a text that begins another comes before it.
impl Ord for Text {
    ghost cmp = { slice_cmp nat_cmp };

    ghost total = { nat_list_cmp_total };

    ghost matches_partial_cmp = { λ a b. refl };

    ghost matches_eq = { texts_ties };

    fn cmp(&self, other: &Text) -> Ordering {
        self.run.as_slice().cmp(other.run.as_slice())
    }
}

impl PartialOrd for Text {
    ghost partial_cmp = { λ a b. Some (slice_cmp nat_cmp a b) };

    ghost laws = { texts_po };

    fn partial_cmp(&self, other: &Text) -> Option<Ordering> {
        Some(self.cmp(other))
    }
}

impl Hash for Text {
    ghost hash_input = { fed.slice fed.u8 };

    ghost respects_eq = { Prim.search (hashing, rules) };

    fn hash<H: Hasher>(&self, state: &mut H) {
        self.run.as_slice().hash(state);
    }
}

/// Whether the bytes are modified UTF-8.
fn is_modified_utf8(bytes: &[u8]) -> bool
    ensures { IsTrue result ↔ IsModifiedUtf8 bytes.now }
{
    let mut wanted = 0;
    let mut left = past_singles(bytes);
    while let Some((byte, rest)) = left.split_first() {
        match wanted_after(wanted, *byte) {
            Some(after) => wanted = after,
            None => return false,
        }
        left = if wanted == 0 {
            past_singles(rest)
        } else {
            rest
        };
    }
    wanted == 0
}

/// What is left after bytes that are units by themselves, which are taken eight at a time.
fn past_singles(bytes: &[u8]) -> &[u8]
    ensures { SkipsSingles bytes.now result.now }
{
    let mut left = bytes;
    while let Some((block, rest)) = left.split_first_chunk::<8>() {
        if !are_singles(block) {
            break;
        }
        left = rest;
    }
    left
}

/// Whether each of eight bytes is a unit by itself. All of them are looked at, which is faster.
fn are_singles(block: &[u8; 8]) -> bool
    ensures { result ≡ are_singles block.now }
{
    block
        .iter()
        .fold(true, |all, byte| all & (*byte >= 0x01) & (*byte <= 0x7f))
}

/// How many continuations are wanted after a byte, where so many were wanted before it, or `None`
/// where that byte does not stand there.
fn wanted_after(wanted: u8, byte: u8) -> Option<u8>
    ensures some { IfSome result (Follows wanted byte) }
    ensures none { IfNone result ((after : ℕ) → Follows wanted byte after → ⊥) }
{
    if wanted > 0 {
        return if (0x80..=0xbf).contains(&byte) {
            Some(wanted - 1)
        } else {
            None
        };
    }
    match byte {
        0x01..=0x7f => Some(0),
        0xc0..=0xdf => Some(1),
        0xe0..=0xef => Some(2),
        _ => None,
    }
}
