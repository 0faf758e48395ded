//! Whether the indexes of a class file name what they have to (JVMS 4.1 to 4.7).

ghost use Rattle.std.specs.Prelude.{◌≡◌, ◌⊎◌, ◌↔◌, IsTrue, IsSomeAnd, IfNone, IfSome};
ghost use Rattle.std.specs.List.{AllByRecursion};
ghost use Rattle.je_base.specs.Parts.{FailsFirst};
ghost use Rattle.je_consts.specs.Pool.{text_at};
ghost use Rattle.je_desc.specs.Descriptor.{FieldDescriptor};
ghost use Rattle.je_class.specs.Class.{IsClassIndex, IsTextIndex, IsDescriptorOf};
ghost use Rattle.je_class.specs.FileParts.{Passes, class_format};
ghost use Rattle.je_class.specs.Reading.{Reads, tests_of, index_parts};

use crate::fault::ClassFault;
use crate::member::Access;
use je_base::u16_at;
use je_consts::{ConstIndex, Consts};
use je_desc::{is_class_name, is_field, units};

/// The access flag of a static method (JVMS table 4.6-A).
const STATIC: u16 = 0x0008;

/// The most units that a method's parameters have, with one for `this` unless it is static (JVMS
/// 4.3.3).
const MOST_UNITS: u32 = 255;

/// What an index of the constant pool has to name.
#[derive(Clone, Copy, Debug)]
pub(crate) enum Sought {
    /// A class that is no array.
    Class,
    /// A class that is no array, or nothing where the index is 0.
    ClassOrNone,
    Text,
    /// The text that is an attribute's name.
    AttributeName,
    FieldDescriptor,
    /// The descriptor of a method with these access flags.
    MethodDescriptor(u16),
}

fn names_class(consts: &Consts, index: ConstIndex) -> bool
    ensures { IsTrue result ↔ IsClassIndex consts.now index }
{
    match consts.class_name(index) {
        Some(name) => is_class_name(name.bytes()),
        None => false,
    }
}

/// Whether the index is 0 or that of a class that is no array.
fn names_super(consts: &Consts, index: ConstIndex) -> bool
    ensures { IsTrue result ↔ (index ≡ 0) ⊎ IsClassIndex consts.now index }
{
    index == 0 || names_class(consts, index)
}

fn names_text(consts: &Consts, index: ConstIndex) -> bool
    ensures { IsTrue result ↔ IsTextIndex consts.now index }
{
    consts.text(index).is_some()
}

fn describes_field(consts: &Consts, index: ConstIndex) -> bool
    ensures { IsTrue result ↔ IsSomeAnd (text_at consts.now index) FieldDescriptor }
{
    match consts.text(index) {
        Some(text) => is_field(text.bytes()),
        None => false,
    }
}

/// Whether the bytes are the descriptor of a method with these access flags.
fn is_descriptor_of(access: Access, bytes: &[u8]) -> bool
    ensures { IsTrue result ↔ IsDescriptorOf access bytes.now }
{
    match units(bytes) {
        Some(units) => access & STATIC != 0 || units < MOST_UNITS,
        None => false,
    }
}

fn describes_method(consts: &Consts, access: Access, index: ConstIndex) -> bool
    ensures { IsTrue result ↔ IsSomeAnd (text_at consts.now index) (IsDescriptorOf access) }
{
    match consts.text(index) {
        Some(text) => is_descriptor_of(access, text.bytes()),
        None => false,
    }
}

/// The fault, unless the test passes.
fn unless(passes: bool, fault: ClassFault) -> Option<ClassFault>
    ensures none { IfNone result (IsTrue passes) }
    ensures some { IfSome result (λ f. (IsTrue passes → ⊥) × (f ≡ fault)) }
{
    if passes { None } else { Some(fault) }
}

/// The fault of the index at an offset, where it does not name what it has to.
fn fault_of(consts: &Consts, names: Sought, index: ConstIndex, at: usize) -> Option<ClassFault>
    ensures none { IfNone result (AllByRecursion Passes (tests_of consts.now names index)) }
    ensures some { IfSome result (FailsFirst class_format at (tests_of consts.now names index)) }
{
    match names {
        Sought::Class => unless(names_class(consts, index), ClassFault::BadIndex(at)),
        Sought::ClassOrNone => unless(names_super(consts, index), ClassFault::BadIndex(at)),
        Sought::Text => unless(names_text(consts, index), ClassFault::BadIndex(at)),
        Sought::AttributeName => unless(names_text(consts, index), ClassFault::BadAttribute(at)),
        Sought::FieldDescriptor => {
            if !names_text(consts, index) {
                return Some(ClassFault::BadIndex(at));
            }
            unless(
                describes_field(consts, index),
                ClassFault::BadDescriptor(at),
            )
        }
        Sought::MethodDescriptor(access) => {
            if !names_text(consts, index) {
                return Some(ClassFault::BadIndex(at));
            }
            unless(
                describes_method(consts, access, index),
                ClassFault::BadDescriptor(at),
            )
        }
    }
}

/// An index of the constant pool, which names what it has to, and the offset after it.
pub(crate) fn index_at(
    consts: &Consts,
    names: Sought,
    bytes: &[u8],
    at: usize,
) -> Result<(u16, usize), ClassFault>
    ensures { Reads (λ x. x) bytes.now at (index_parts consts.now names) result }
{
    let (index, end) = u16_at(bytes, at)?;
    match fault_of(consts, names, index, at) {
        Some(fault) => Err(fault),
        None => Ok((index, end)),
    }
}
