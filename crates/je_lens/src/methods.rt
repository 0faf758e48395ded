//! Methods of a class file and their Code attributes.

use je_base::Memory;
use je_class::{Attribute, Member};
use je_consts::{ConstIndex, Consts};
use std::alloc::Global;

/// Whether an attribute is a Code attribute (JVMS 4.7.3).
pub fn is_code(consts: &Consts, attribute: &Attribute) -> bool {
    match consts.text(attribute.name) {
        Some(name) => name.bytes() == b"Code".as_slice(),
        None => false,
    }
}

/// The text at an index as it is shown.
pub fn shown(alloc: Global, consts: &Consts, index: ConstIndex) -> Result<String, Memory> {
    match consts.text(index) {
        Some(text) => text.show(),
        None => Ok(format!(in alloc; "?")?),
    }
}

/// The name and the descriptor of a method.
pub fn method_words(alloc: Global, consts: &Consts, method: &Member) -> Result<String, Memory> {
    let name = shown(alloc, consts, method.name)?;
    let descriptor = shown(alloc, consts, method.descriptor)?;
    Ok(format!(in alloc; "{name} {descriptor}")?)
}
