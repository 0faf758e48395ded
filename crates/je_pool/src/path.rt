//! The paths of class files.

ghost use Rattle.std.specs.Prelude.{◌≡◌, ◌++◌, codes, IfOk, string_bytes};
ghost use Rattle.std.specs.Option.{option_map};
ghost use Rattle.je_pool.specs.Path.{is_part, has_parts, file_name, path_in};

use je_base::{Memory, Text, decode_text};
use std::alloc::Global;

/// What divides the parts of a name.
const SLASH: u8 = b'/';

/// The character that ends a path for the system.
const NUL: u8 = 0;

/// Whether a part of a name may name a folder or a file.
fn is_part(part: &[u8]) -> bool
    ensures { result ≡ is_part part.now }
{
    !(part.is_empty() || part == b".".as_slice() || part == b"..".as_slice() || part.contains(&NUL))
}

/// Whether each part of a name may.
fn has_parts(name: &[u8]) -> bool
    ensures { result ≡ has_parts name.now }
{
    let mut start = 0;
    for i in 0..name.len() {
        if name[i] == SLASH {
            if !is_part(&name[start..i]) {
                return false;
            }
            start = i + 1;
        }
    }
    is_part(&name[start..])
}

/// The name of a class as paths have it, or `None` where it is not asked.
///
/// # Errors
///
/// `Memory` where memory runs out.
pub fn file_name(alloc: Global, name: &Text) -> Result<Option<String>, Memory>
    ensures { IfOk result (λ found. option_map string_bytes found ≡ file_name name.now) }
{
    let Some(string) = decode_text(alloc, name.bytes())? else {
        return Ok(None);
    };
    if !has_parts(string.as_bytes()) {
        return Ok(None);
    }
    Ok(Some(string))
}

/// The path of the class file of a name in a folder.
///
/// # Errors
///
/// `Memory` where memory runs out.
pub fn path_in(alloc: Global, root: &str, name: &str) -> Result<String, Memory>
    ensures { IfOk result (λ path. string_bytes path ≡ path_in root.now name.now) }
{
    let mut path = String::from_str(alloc, root)?;
    path.push_str("/")?;
    path.push_str(name)?;
    path.push_str(".class")?;
    Ok(path)
}
