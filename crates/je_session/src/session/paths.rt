//! The paths of class files.

ghost use Rattle.std.specs.Prelude.{◌≡◌, ◌<◌, ◌++◌, codes, All, IfOk, OnOk, string_bytes};

use std::alloc::{AllocError, Global};

/// Adds a text of ASCII.
fn push_ascii(path: &mut String, text: &[u8]) -> Result<(), AllocError>
    requires { All (λ b. b < 128) text.now }
    ensures { OnOk result (string_bytes path.new ≡ string_bytes path.old ++ text.now) }
{
    for b in text {
        path.push(char::from(*b))?;
    }
    Ok(())
}

/// The path of a class's file in a folder.
pub fn class_file(alloc: Global, folder: &str, name: &[u8]) -> Result<String, AllocError>
    requires { All (λ b. b < 128) name.now }
    ensures { IfOk result (λ path. string_bytes path ≡ folder.now ++ (name.now ++ codes ".class")) }
{
    let mut path = String::from_str(alloc, folder)?;
    push_ascii(&mut path, name)?;
    path.push_str(".class")?;
    Ok(path)
}
