//! Attributes by their names.

ghost use Rattle.std.specs.Prelude.{◌≡◌, IfOk};
ghost use Rattle.je_base.specs.Text.{IsModifiedUtf8};

use je_base::{Memory, Text};
use sqlite_items::Items;
use std::alloc::Global;

/// An attribute by its name (JVMS 4.7), as it is to be written.
#[derive(Debug, Drop)]
pub struct Named {
    /// Its name.
    pub name: Text,
    /// The bytes behind its name and length.
    pub bytes: Items<u8>,
}

/// The attribute of this name with these bytes.
pub(crate) fn with_name(alloc: Global, name: &[u8], bytes: Vec<u8>) -> Result<Named, Memory>
    requires { IsModifiedUtf8 name.now }
    ensures name { IfOk result (λ n. n.name ≡ name.now) }
    ensures bytes { IfOk result (λ n. n.bytes ≡ bytes.items) }
{
    let name = Text::from_bytes(alloc, name)?.unwrap();
    Ok(Named {
        name,
        bytes: Items::from_vec(bytes),
    })
}
