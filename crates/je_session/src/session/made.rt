//! What a run puts and writes, all of it made before the first output.

ghost use Rattle.std.specs.Prelude.{◌≡◌, IfOk, IfErr, string_bytes};
ghost use Rattle.je_class.specs.ClassBytes.{ClassBytes};
ghost use Rattle.je_session.specs.Cause.{NoMemory, TellsCause};
ghost use Rattle.je_session.specs.ReportText.{edited_line};
ghost use Rattle.je_session.specs.Prepared.{HasAsciiNames, HasLines};

use crate::plan::Script;
use crate::session::paths::class_file;
use crate::session::report::Stop;
use je_base::Memory;
use je_class::{ClassFile, write_class};
use std::alloc::Global;

/// What a run puts and writes.
#[derive(Debug, Drop)]
pub struct Made {
    /// `edited METHOD matched K` and a line feed.
    pub edited_line: String,
    /// Where the class is written.
    pub path: String,
    /// The edited class.
    pub bytes: Vec<u8>,
    /// `wrote PATH` and a line feed.
    pub wrote_line: String,
    /// The line of a write that fails.
    pub writing_line: String,
}

/// Makes the bytes of the edited class, its path and the lines.
pub fn make(alloc: Global, script: &Script, class: &ClassFile, matched: usize) -> Result<Made, Stop>
    requires { HasAsciiNames script.now }
    ensures bytes { IfOk result (λ made. ClassBytes made.bytes.items class.now) }
    ensures lines { IfOk result (HasLines script.now matched) }
    ensures memory { IfErr result (TellsCause NoMemory) }
{
    let bytes = write_class(alloc, class)?;
    let path = class_file(alloc, "out/", script.class_name.bytes())?;
    Ok(Made {
        edited_line: edited_line(alloc, script, matched)?,
        wrote_line: format!(in alloc; "wrote {path}\n")?,
        writing_line: format!(in alloc; "outside fault: writing {path}\n")?,
        path,
        bytes,
    })
}

fn edited_line(alloc: Global, script: &Script, matched: usize) -> Result<String, Memory>
    ensures { IfOk result (λ line.
        string_bytes line ≡ edited_line script.now.class_name script.now.plan.name matched) }
{
    let class = script.class_name.show()?;
    let method = script.plan.name.show()?;
    Ok(format!(in alloc; "edited {class}.{method}()V matched {matched}\n")?)
}
