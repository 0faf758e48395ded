//! Which texts name classes, fields and methods (JVMS 4.2, 4.3 and 4.4.1).

ghost use Rattle.std.specs.Prelude.{◌≡◌, ℕ, ◌∷◌, ◌↔◌, None, List, IsTrue};
ghost use Rattle.je_desc.specs.FieldType.{FieldType};
ghost use Rattle.je_desc.specs.Descriptor.{MethodTypes, SpellsMethod};
ghost use Rattle.je_instr.specs.Allowed.{IsClassText, IsMadeOf, HasDimensions, IsPlainName};
ghost use Rattle.je_instr.specs.OpcodeTests.{brackets, IsArrayText, IsArrayType};

use je_desc::{is_class_name, is_field};

/// The name of constructors (JVMS 2.9).
pub(crate) const CONSTRUCTOR: &[u8] = b"<init>";

/// The name of class initialisers (JVMS 2.9).
pub(crate) const INITIALISER: &[u8] = b"<clinit>";

/// Whether the bytes begin as the descriptor of an array.
fn is_array(text: &[u8]) -> bool
    ensures { IsTrue result ↔ IsArrayText text.now }
{
    matches!(text, [b'[', ..])
}

/// Whether the bytes are the descriptor of an array.
fn is_array_type(text: &[u8]) -> bool
    ensures { IsTrue result ↔ IsArrayType text.now }
{
    is_array(text) && is_field(text)
}

/// Whether a class constant of this text names a class or an array.
pub(crate) fn is_class_text(text: &[u8]) -> bool
    ensures { IsTrue result ↔ IsClassText text.now }
{
    is_class_name(text) || is_array_type(text)
}

/// How many `[` stand in front.
fn brackets(text: &[u8]) -> usize
    ensures { result ≡ brackets text.now }
{
    let mut rest = text;
    let mut count = 0;
    while let [b'[', tail @ ..] = rest {
        rest = tail;
        count += 1;
    }
    count
}

/// Whether arrays can be made of what the text names.
pub(crate) fn is_made_of(text: &[u8]) -> bool
    ensures { IsTrue result ↔ ((t : FieldType) × IsMadeOf text.now t) }
{
    if is_class_name(text) {
        return text.len() <= 65532;
    }
    if !is_array_type(text) {
        return false;
    }
    if brackets(text) > 254 {
        return false;
    }
    text.len() <= 65534
}

/// Whether the text names an array of at least so many dimensions.
pub(crate) fn has_dimensions(count: u8, text: &[u8]) -> bool
    ensures { IsTrue result ↔ ((t : FieldType) × HasDimensions count text.now t) }
{
    if count == 0 || !is_array_type(text) {
        return false;
    }
    count as usize <= brackets(text)
}

/// Whether the name is neither that of constructors nor that of class initialisers.
pub(crate) fn is_plain_name(name: &[u8]) -> bool
    ensures { IsTrue result ↔ IsPlainName name.now }
{
    name != CONSTRUCTOR && name != INITIALISER
}

/// Whether the method of this descriptor has no result.
pub(crate) fn returns_nothing(text: &[u8]) -> bool
    ensures { (m : MethodTypes) → SpellsMethod text.now m → IsTrue result ↔ (m.result ≡ None) }
{
    if text.is_empty() {
        return false;
    }
    text[text.len() - 1] == b'V'
}
