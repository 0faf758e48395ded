//! Files that are read whole.

ghost use Rattle.std.specs.Prelude.{◌≡◌, ◌≤◌, ◌<◌, ◌^◌, None, vec_len, IfOk, IsErrOf};
ghost use Rattle.je_base.specs.Count.{HasFault};
ghost use Rattle.je_session.specs.Forms.{Holds, HoldsMore, HoldsNone};

use je_base::{FileStop, Files};

/// Why a file was not read whole.
#[derive(Clone, Copy, Debug, PartialEq, Eq)]
pub enum NotRead {
    /// There is no file at the path.
    Missing,
    /// It has more bytes than wanted.
    TooLong,
    /// The read failed.
    Failed,
    /// There was not enough memory.
    Memory,
}

/// The file at a path, if it has at most `most` bytes.
pub fn read_within<F: Files>(files: &mut F, path: &str, most: usize) -> Result<Vec<u8>, NotRead>
    requires { most < 2 ^ 32 }
    ensures found { IfOk result (λ bytes. Holds (F.contents files.old) path.now bytes.items) }
    ensures within { IfOk result (λ bytes. vec_len bytes ≤ most) }
    ensures missing { IsErrOf result NotRead.Missing → HoldsNone (F.contents files.old) path.now }
    ensures too_long { IsErrOf result NotRead.TooLong
        → HoldsMore (F.contents files.old) path.now most }
    ensures failed { IsErrOf result NotRead.Failed
        → HasFault (F.faults files.old) (F.faults files.new) }
    ensures contents { F.contents files.new ≡ F.contents files.old }
    ensures writes { F.writes files.new ≡ F.writes files.old }
    ensures faults { F.faults files.old ≤ F.faults files.new }
{
    match files.read(path, most + 1) {
        Ok(Some(bytes)) if bytes.len() <= most => Ok(bytes),
        Ok(Some(_)) => Err(NotRead::TooLong),
        Ok(None) => Err(NotRead::Missing),
        Err(FileStop::Failed) => Err(NotRead::Failed),
        Err(FileStop::Memory) => Err(NotRead::Memory),
    }
}
