//! Laws of the bytes and of what indexes name, over all class files.

ghost use Rattle.std.specs.Prelude.{◌≡◌, ℕ, ◌^◌, ◌<◌, ◌≤◌, ◌⊎◌, List, length, slice_index};
ghost use Rattle.je_base.specs.Parts.{OneWay};
ghost use Rattle.je_consts.specs.declared.place.Place.{Place};
ghost use Rattle.je_consts.specs.Adding.{Keeps};
ghost use Rattle.je_class.specs.declared.fault.ClassFault.{ClassFault};
ghost use Rattle.je_class.specs.declared.method_index.MethodIndex.{MethodIndex};
ghost use Rattle.je_class.specs.Class.{Class, with_code, with_method_attribute};
ghost use Rattle.je_class.specs.ClassBytes.{ClassBytes};
ghost use Rattle.je_class.specs.Faults.{FirstFault};
ghost use Rattle.je_class.specs.FileParts.{Test, class_format, IsSound};
ghost use Rattle.je_class.specs.Grown.{NamesStay};
ghost use Rattle.je_class.specs.Indexed.{IsIndexOf};

use crate::fault::MOST_BYTES;
use je_base::{Parted, one_way};
use je_consts::one_pool;
use je_desc::each_is_decided;

/// The parts of a class file (JVMS 4.1).
pub(crate) struct ClassParts;

impl Parted for ClassParts {
    ghost Test = { Test };

    ghost Value = { List Place };

    ghost Fault = { ClassFault };

    ghost format = { class_format };
}

/// What stands at an offset of a class file is one way.
pub(crate) fn one_class_way()
    ensures { OneWay class_format }
{
    // The law of the layer below that the proof stands on.
    one_pool();
    one_way::<ClassParts>();
}

/// Bytes are one class file or have one first fault, and there is one of them.
pub fn one_class()
    ensures same { (bytes : List ℕ) (c d : Class) →
        ClassBytes bytes c → ClassBytes bytes d → c ≡ d }
    ensures no_fault { (bytes : List ℕ) (c : Class) (d : ClassFault) →
        length bytes ≤ MOST_BYTES → ClassBytes bytes c → FirstFault bytes d → ⊥ }
    ensures one_fault { (bytes : List ℕ) (d e : ClassFault) →
        FirstFault bytes d → FirstFault bytes e → d ≡ e }
    ensures some_answer { (bytes : List ℕ) → ((i : ℕ) → slice_index bytes i < 2 ^ 8) →
        ((c : Class) × ClassBytes bytes c × (length bytes ≤ MOST_BYTES))
        ⊎ ((d : ClassFault) × FirstFault bytes d) }
{
    // The laws that the proof stands on.
    one_class_way();
    one_pool();
    each_is_decided();
}

/// What the indexes of a class file name stays as it is while its constant pool grows.
pub fn names_stay()
    ensures { (c : Class) (new : List Place) → IsSound c → Keeps c.consts new → NamesStay c new }
{}

/// An index of the methods of a class file is one of the class file that `ClassFile::set_code` or
/// `ClassFile::set_method_attribute` makes of it.
pub fn index_stays()
    ensures code { (c : Class) (index : MethodIndex) (method attribute : ℕ) (bytes : List ℕ)
        (consts : List Place) → IsSound c → Keeps c.consts consts → IsIndexOf c index
        → IsIndexOf (with_code method attribute bytes consts c) index }
    ensures attribute { (c : Class) (index : MethodIndex) (method attribute : ℕ) (bytes : List ℕ) →
        IsSound c → IsIndexOf c index
        → IsIndexOf (with_method_attribute method attribute bytes c) index }
{
    // The law that the proof stands on.
    names_stay();
}
