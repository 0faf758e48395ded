//! Types as Java source has them.

ghost use Rattle.std.specs.Prelude.{◌≡◌, ◌++◌, map, IfOk, OnOk};
ghost use Rattle.std.specs.String.{string_bytes};
ghost use Rattle.je_desc.specs.Types.{field_type_of};
ghost use Rattle.je_type.specs.Source.{source_byte, source_name, source_of};

use crate::texts::text_of;
use je_base::{Memory, Text};
use je_desc::JType;
use std::alloc::Global;

/// The type as Java source has it (JLS 4.2, 4.3 and 10.1): `int`, `java.lang.String`, `int[][]`.
///
/// The name of a class has `.` where its internal form has `/`; a `$` stays. A name that is no
/// string, or has a character below U+0020, is as `Text::show` shows it.
///
/// # Errors
///
/// `Memory` where memory runs out.
pub fn source_text(alloc: Global, t: &JType) -> Result<String, Memory>
    ensures { IfOk result (λ s. string_bytes s ≡ source_of (field_type_of t.now)) }
{
    let mut source = String::new(alloc);
    push_source(alloc, &mut source, t)?;
    Ok(source)
}

/// A type is put behind the text.
fn push_source(alloc: Global, source: &mut String, t: &JType) -> Result<(), Memory>
    ensures { OnOk result
        (string_bytes source.new ≡ string_bytes source.old ++ source_of (field_type_of t.now)) }
{
    match t {
        JType::Boolean => source.push_str("boolean")?,
        JType::Byte => source.push_str("byte")?,
        JType::Char => source.push_str("char")?,
        JType::Short => source.push_str("short")?,
        JType::Int => source.push_str("int")?,
        JType::Long => source.push_str("long")?,
        JType::Float => source.push_str("float")?,
        JType::Double => source.push_str("double")?,
        JType::Class(name) => push_name(alloc, source, name)?,
        JType::Array(component) => {
            push_source(alloc, source, component.get())?;
            source.push_str("[]")?;
        }
    }
    Ok(())
}

/// The name of a class is put behind the text.
fn push_name(alloc: Global, source: &mut String, name: &Text) -> Result<(), Memory>
    ensures { OnOk result
        (string_bytes source.new ≡ string_bytes source.old ++ source_name name.now) }
{
    let dotted = dotted(alloc, name)?;
    let shown = dotted.show()?;
    source.push_str(&shown)?;
    Ok(())
}

/// The name with `.` in the place of `/`.
fn dotted(alloc: Global, name: &Text) -> Result<Text, Memory>
    ensures { IfOk result (λ dotted. dotted ≡ map source_byte name.now) }
{
    let bytes = source_bytes(alloc, name.bytes())?;
    text_of(alloc, bytes)
}

/// The bytes of a name in source.
fn source_bytes(alloc: Global, name: &[u8]) -> Result<Vec<u8>, Memory>
    ensures { IfOk result (λ bytes. bytes.items ≡ map source_byte name.now) }
{
    let bytes = name.iter().map(|byte| source_byte(*byte)).collect(alloc)?;
    Ok(bytes)
}

/// A byte of a name in internal form, in source.
fn source_byte(byte: u8) -> u8
    ensures { result ≡ source_byte byte }
{
    if byte == b'/' { b'.' } else { byte }
}
