//! What names a field.

ghost use Rattle.std.specs.Prelude.{◌≡◌, IfOk};
ghost use Rattle.je_machine.specs.Classes.{is_same_key};

use je_base::{Memory, Run};
use je_value::is_same;
use std::marker::Model;

/// A field by the class that holds it, its name and its descriptor.
#[derive(Debug, Drop)]
pub struct FieldKey {
    class: Run,
    name: Run,
    descriptor: Run,
}

impl Model for FieldKey {
    ghost use Rattle.je_machine.specs.Heap.{FieldKey as Key};
    ghost use Rattle.je_heap.specs.Codes.{key_code};

    ghost Value = { Key };

    ghost coded = { key_code };

    ghost view = { λ key. (key.class, key.name, key.descriptor) };
}

impl FieldKey {
    /// The field of this class, name and descriptor.
    pub fn new(class: Run, name: Run, descriptor: Run) -> FieldKey
        ensures { result ≡ (class, name, descriptor) }
    {
        FieldKey {
            class,
            name,
            descriptor,
        }
    }

    /// The class.
    pub fn class(&self) -> &Run
        ensures { result.now ≡ self.now.0 }
    {
        &self.class
    }

    /// Whether two names of fields are equal.
    pub fn is_same(&self, other: &FieldKey) -> bool
        ensures { result ≡ is_same_key self.now other.now }
    {
        is_same(&self.class, &other.class)
            && is_same(&self.name, &other.name)
            && is_same(&self.descriptor, &other.descriptor)
    }

    /// The same once more.
    ///
    /// # Errors
    ///
    /// `Memory` where memory runs out.
    pub fn copy(&self) -> Result<FieldKey, Memory>
        ensures { IfOk result (λ key. key ≡ self.now) }
    {
        Ok(FieldKey {
            class: self.class.copy()?,
            name: self.name.copy()?,
            descriptor: self.descriptor.copy()?,
        })
    }
}
