//! Files in one stretch of memory, into which a write takes no more memory.

ghost use Rattle.std.specs.Prelude.{◌≡◌, ◌+◌, ◌<◌, ◌≤◌, ◌↔◌, [], ◌∷◌, ◌++◌, length, vec_len};
ghost use Rattle.std.specs.Prelude.{IsTrue, IfSome, OnOk, OnErr};
ghost use Rattle.std.specs.Vec.{vec_capacity};
ghost use Rattle.std.specs.Option.{option_map};
ghost use Rattle.std.specs.List.{AllByRecursion};
ghost use Rattle.std.specs.FinMap.{empty, get, insert};
ghost use Rattle.je_base.specs.Store.{HasRoom, after_put, span_behind, content_at, contents_after};
ghost use Rattle.je_base.specs.Store.{IsWithin};

use crate::stop::Memory;
use std::alloc::Global;
use std::marker::Model;

/// Where one write lies: its path from `start` to `middle`, its content from there to `end`.
#[derive(Clone, Copy, Debug)]
struct Span {
    start: usize,
    middle: usize,
    end: usize,
}

/// The files and the room that is left.
#[derive(Debug, Drop)]
pub struct Store {
    bytes: Vec<u8>,
    spans: Vec<Span>,
    room_writes: usize,
    room_bytes: usize,
}

impl Model for Store {
    ghost use Rattle.std.specs.Prelude.{◌+◌, ◌≤◌, vec_len, length};
    ghost use Rattle.std.specs.Vec.{vec_capacity};
    ghost use Rattle.std.specs.List.{AllByRecursion};
    ghost use Rattle.std.specs.FinMap.{empty};
    ghost use Rattle.je_base.specs.Store.{Room, coded_room, contents_after, IsWithin};

    ghost Value = { Room };

    ghost coded = { coded_room };

    ghost view = { λ s. record {
      contents = contents_after s.bytes.items empty s.spans.items;
      writes = s.room_writes;
      bytes = s.room_bytes;
    } };

    ghost invariant = { λ s. AllByRecursion (IsWithin (length s.bytes.items)) s.spans.items
        × (vec_len s.bytes + s.room_bytes ≤ vec_capacity s.bytes)
        × (vec_len s.spans + s.room_writes ≤ vec_capacity s.spans) };
}

impl Store {
    /// No files, and no room.
    pub fn new(alloc: Global) -> Store
        ensures { result ≡ record { contents = empty; writes = 0; bytes = 0 } }
    {
        Store {
            bytes: Vec::new(alloc),
            spans: Vec::new(alloc),
            room_writes: 0,
            room_bytes: 0,
        }
    }

    /// Makes room for so many further writes, whose paths and contents have so many bytes in all.
    pub fn reserve(&mut self, writes: usize, bytes: usize) -> Result<(), Memory>
        ensures ok { OnOk result (self.new ≡ record self.old { writes = writes; bytes = bytes }) }
        ensures err { OnErr result (self.new ≡ self.old) }
    {
        self.bytes.reserve(bytes)?;
        self.spans.reserve(writes)?;
        self.room_writes = writes;
        self.room_bytes = bytes;
        Ok(())
    }

    /// Puts a content at a path, beside the room.
    pub fn add(&mut self, path: &str, content: &[u8]) -> Result<(), Memory>
        ensures ok { OnOk result (self.new
            ≡ record self.old { contents = insert self.old.contents path.now content.now }) }
        ensures err { OnErr result (self.new ≡ self.old) }
    {
        let writes = self.room_writes.checked_add(1).ok_or(Memory)?;
        let bytes = self.room_bytes.checked_add(path.len()).ok_or(Memory)?;
        let bytes = bytes.checked_add(content.len()).ok_or(Memory)?;
        self.bytes.reserve(bytes)?;
        self.spans.reserve(writes)?;
        push_file(&mut self.bytes, &mut self.spans, path.as_bytes(), content);
        Ok(())
    }

    /// Whether the room suffices for this write.
    pub fn has_room(&self, path: &str, content: &[u8]) -> bool
        ensures { IsTrue result ↔ HasRoom self.now path.now content.now }
    {
        self.room_writes > 0
            && path.len() <= self.room_bytes
            && content.len() <= self.room_bytes - path.len()
    }

    /// Puts a content at a path, in the room.
    pub fn put(&mut self, path: &str, content: &[u8])
        requires { HasRoom self.old path.now content.now }
        ensures { self.new ≡ after_put self.old path.now content.now }
    {
        push_file(&mut self.bytes, &mut self.spans, path.as_bytes(), content);
        self.room_writes -= 1;
        self.room_bytes -= path.len() + content.len();
    }

    /// What lies at a path.
    pub fn content(&self, path: &str) -> Option<&[u8]>
        ensures { option_map (λ content. content.now) result ≡ get self.now.contents path.now }
    {
        let span = last_at(&self.bytes, &self.spans, path.as_bytes())?;
        Some(&self.bytes[span.middle..span.end])
    }
}

/// Adds one write behind the others, for which there is room.
fn push_file(bytes: &mut Vec<u8>, spans: &mut Vec<Span>, path: &[u8], content: &[u8])
    requires bytes { vec_len bytes.old + (length path.now + length content.now)
        ≤ vec_capacity bytes.old }
    requires spans { vec_len spans.old < vec_capacity spans.old }
    ensures bytes { bytes.new.items ≡ (bytes.old.items ++ path.now) ++ content.now }
    ensures spans { spans.new.items
        ≡ spans.old.items ++ span_behind bytes.old.items path.now content.now ∷ [] }
    ensures bytes_capacity { vec_capacity bytes.old ≤ vec_capacity bytes.new }
    ensures spans_capacity { vec_capacity spans.old ≤ vec_capacity spans.new }
{
    let start = bytes.len();
    let _ = bytes.extend_from_slice(path);
    let middle = bytes.len();
    let _ = bytes.extend_from_slice(content);
    let end = bytes.len();
    let _ = spans.push(Span { start, middle, end });
}

/// The last write at a path.
fn last_at(bytes: &[u8], spans: &[Span], path: &[u8]) -> Option<Span>
    requires { AllByRecursion (IsWithin (length bytes.now)) spans.now }
    ensures within { IfSome result (IsWithin (length bytes.now)) }
    ensures found { option_map (content_at bytes.now) result
        ≡ get (contents_after bytes.now empty spans.now) path.now }
{
    let mut found = None;
    for span in spans {
        if path == &bytes[span.start..span.middle] {
            found = Some(*span);
        }
    }
    found
}
