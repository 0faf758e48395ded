//! The outside of the editor, and texts.
//!
//! Traits for files and for sinks of bytes, each with one implementation in memory and one over the
//! real system, and class file texts. Stands on std alone. Offers above: what each read, write and
//! put does where it is told, and that a failure is never answered without a fault on record. Also
//! numbers and runs of a format of bytes: what is read at an offset is what stands there.
#![tactic(auto)]

mod bytes;
mod count;
mod encoding;
mod files;
mod fs_files;
mod mem_files;
mod mem_sink;
mod parts;
mod pos;
mod run;
mod shown;
mod sink;
mod std_sink;
mod stop;
mod store;
mod stream;
mod text;

pub use bytes::{
    Cut, one_reading, put_u16, put_u32, put_u64, run_at, u8_at, u16_at, u32_at, u64_at,
};
pub use encoding::{decode_text, encode_text};
pub use files::Files;
pub use fs_files::FsFiles;
pub use mem_files::MemFiles;
pub use mem_sink::MemSink;
pub use parts::{Parted, one_way};
pub use pos::Pos;
pub use run::Run;
pub use sink::Sink;
pub use std_sink::StdSink;
pub use stop::{Failed, FileStop, Memory};
pub use text::Text;
