//! Laws of names and descriptors, over all bytes.

ghost use Rattle.std.specs.Prelude.{ℕ, ◌⊎◌, List};
ghost use Rattle.je_desc.specs.Descriptor.{FieldDescriptor, IsDescriptorOf};
ghost use Rattle.je_desc.specs.Names.{IsClassName};

/// Bytes are a name or a descriptor, or are none.
pub fn each_is_decided()
    ensures class_name { (bytes : List ℕ) → IsClassName bytes ⊎ (IsClassName bytes → ⊥) }
    ensures field { (bytes : List ℕ) → FieldDescriptor bytes ⊎ (FieldDescriptor bytes → ⊥) }
    ensures method { (access : ℕ) (bytes : List ℕ) →
        IsDescriptorOf access bytes ⊎ (IsDescriptorOf access bytes → ⊥) }
{}
