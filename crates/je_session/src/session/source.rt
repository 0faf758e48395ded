//! The class of a script, from its bytes.

ghost use Rattle.std.specs.Prelude.{◌≡◌, ◌↔◌, Some, IsTrue, IfOk, IfErr};
ghost use Rattle.je_consts.specs.Pool.{class_at};
ghost use Rattle.je_session.specs.Cause.{StoppedAtBytes};
ghost use Rattle.je_session.specs.Prepared.{IsSource};

use crate::plan::Script;
use crate::session::report::Stop;
use je_base::{Run, Text};
use je_class::{ClassFault, ClassFile, read_class};
use std::alloc::Global;

/// The major version of the classes that are edited so far (JVMS 4.1).
const MAJOR: u16 = 49;

/// The class of the script that the bytes spell.
///
/// # Errors
///
/// The bytes are no class file, or one of another class or version; or there was not enough memory.
pub fn load_class(alloc: Global, script: &Script, bytes: &Run) -> Result<ClassFile, Stop>
    ensures found { IfOk result (IsSource script.now bytes.now) }
    ensures stopped { IfErr result (StoppedAtBytes script.now bytes.now) }
{
    let class = match read_class(alloc, bytes) {
        Ok(class) => class,
        Err(ClassFault::Memory) => return Err(Stop::memory()),
        Err(fault) => return Err(Stop::bad_class(alloc, &script.class_name, fault)),
    };
    if !is_named(&class, &script.class_name) {
        return Err(Stop::wrong_name(alloc, &script.class_name, class.this_name()));
    }
    if class.major() != MAJOR {
        return Err(Stop::not_yet_class());
    }
    Ok(class)
}

fn is_named(class: &ClassFile, name: &Text) -> bool
    ensures { IsTrue result ↔ (class_at class.now.consts class.now.this_class ≡ Some name.now) }
{
    class.this_name() == name
}
