//! Class names.

ghost use Rattle.std.specs.Prelude.{◌↔◌, IsTrue};
ghost use Rattle.je_desc.specs.Names.{IsNameByte, IsClassName};

/// Whether the bytes are the name of a class or interface that is no array, in internal form (JVMS
/// 4.2.1).
pub fn is_class_name(name: &[u8]) -> bool
    ensures { IsTrue result ↔ IsClassName name.now }
{
    !name.is_empty() && name.iter().all(|byte| is_name_byte(*byte))
}

fn is_name_byte(byte: u8) -> bool
    ensures { IsTrue result ↔ IsNameByte byte }
{
    byte != b'.' && byte != b';' && byte != b'['
}
