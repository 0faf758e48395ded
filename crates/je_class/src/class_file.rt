//! A class file in memory.

ghost use Rattle.std.specs.Prelude.{◌≡◌, ◌≢◌, ◌^◌, ◌<◌, length, Some, IfSome, IfNone, IfOk, All};
ghost use Rattle.std.specs.Prelude.{slice_get, IsSomeAnd};
ghost use Rattle.je_consts.specs.Adding.{Keeps};
ghost use Rattle.je_consts.specs.Pool.{class_at};
ghost use Rattle.je_desc.specs.Fit.{IsFit};
ghost use Rattle.je_class.specs.Class.{IsNamed, IsMethodAt, with_attribute, with_method_attribute};
ghost use Rattle.je_class.specs.Class.{with_code, changed_at};
ghost use Rattle.je_class.specs.FileParts.{IsSound};
ghost use Rattle.je_class.specs.InMemory.{class_of_parts};
ghost use Rattle.je_class.specs.Sound.{HasSoundParts};
ghost use Rattle.je_class.specs.Summed.{IsSummary};

use crate::copying::copy_parts;
use crate::member::{Access, Attribute, Member};
use crate::named::place_of;
use crate::parts::Parts;
use crate::summed::summary_of;
use je_base::{Memory, Run, Text};
use je_consts::{ConstIndex, Consts};
use je_desc::Summary;
use std::marker::Model;

/// A class file (JVMS 4.1) whose indexes name what they have to, and whose numbers fit the file.
#[derive(Debug, Drop)]
pub struct ClassFile {
    parts: Parts,
}

impl Model for ClassFile {
    ghost use Rattle.je_class.specs.Class.{Class};
    ghost use Rattle.je_class.specs.FileParts.{IsSound};
    ghost use Rattle.je_class.specs.InMemory.{class_of_parts};

    ghost Value = { Class };

    ghost view = { λ c. class_of_parts c.parts };

    ghost invariant = { λ c. IsSound (class_of_parts c.parts) };
}

impl ClassFile {
    /// The class file of these parts.
    pub(crate) fn of_parts(parts: Parts) -> ClassFile
        requires { IsSound (class_of_parts parts) }
        ensures { result ≡ class_of_parts parts }
    {
        ClassFile { parts }
    }

    /// The items of the file in memory.
    pub(crate) fn parts(&self) -> &Parts
        ensures parts { class_of_parts result.now ≡ self.now }
        ensures sound { IsSound self.now }
    {
        &self.parts
    }

    /// What holds of every class file in memory: each number fits its bytes, and each index names
    /// what it has to; `parts` says so item by item.
    pub fn sound(&self)
        ensures sound { IsSound self.now }
        ensures parts { HasSoundParts self.now }
    {
        let _ = self.parts();
    }

    /// The minor version (JVMS 4.1).
    pub fn minor(&self) -> u16
        ensures { result ≡ self.now.minor }
    {
        self.parts.minor
    }

    /// The major version, from 49 to 52 (JVMS 4.1).
    pub fn major(&self) -> u16
        ensures { result ≡ self.now.major }
    {
        self.parts.major
    }

    /// The constant pool.
    pub fn consts(&self) -> &Consts
        ensures { result.now ≡ self.now.consts }
    {
        &self.parts.consts
    }

    /// The access flags (JVMS table 4.1-A).
    pub fn access(&self) -> Access
        ensures { result ≡ self.now.access }
    {
        self.parts.access
    }

    /// The index of the class itself in the constant pool.
    pub fn this_class(&self) -> ConstIndex
        ensures { result ≡ self.now.this_class }
    {
        self.parts.this_class
    }

    /// The index of the super class in the constant pool, or 0.
    pub fn super_class(&self) -> ConstIndex
        ensures { result ≡ self.now.super_class }
    {
        self.parts.super_class
    }

    /// The indexes of the interfaces in the constant pool, in the order of the file.
    pub fn interfaces(&self) -> &[ConstIndex]
        ensures { result.now ≡ self.now.interfaces }
    {
        &self.parts.interfaces
    }

    /// The fields in the order of the file.
    pub fn fields(&self) -> &[Member]
        ensures { result.now ≡ self.now.fields }
    {
        &self.parts.fields
    }

    /// The methods in the order of the file.
    pub fn methods(&self) -> &[Member]
        ensures { result.now ≡ self.now.methods }
    {
        &self.parts.methods
    }

    /// The attributes of the class in the order of the file.
    pub fn attributes(&self) -> &[Attribute]
        ensures { result.now ≡ self.now.attributes }
    {
        &self.parts.attributes
    }

    /// The name of the class.
    pub fn this_name(&self) -> &Text
        ensures { class_at self.now.consts self.now.this_class ≡ Some result.now }
    {
        self.parts.consts.class_name(self.parts.this_class).unwrap()
    }

    /// The name of the super class; `None` exactly where its index is 0.
    pub fn super_name(&self) -> Option<&Text>
        ensures some { IfSome result (λ name.
            class_at self.now.consts self.now.super_class ≡ Some name.now) }
        ensures not_0 { IfSome result (λ _. self.now.super_class ≢ 0) }
        ensures none { IfNone result (self.now.super_class ≡ 0) }
    {
        if self.parts.super_class == 0 {
            return None;
        }
        Some(
            self.parts
                .consts
                .class_name(self.parts.super_class)
                .unwrap(),
        )
    }

    /// The place of the first method of this name and descriptor; `None` exactly where there is
    /// none.
    pub fn find_member(&self, name: &Text, descriptor: &Text) -> Option<usize>
        ensures found { IfSome result (IsMethodAt self.now name.now descriptor.now) }
        ensures none { IfNone result
            (All (λ m. IsNamed self.now.consts name.now descriptor.now m → ⊥) self.now.methods) }
    {
        place_of(
            &self.parts.consts,
            name.bytes(),
            descriptor.bytes(),
            &self.parts.methods,
        )
    }

    /// The same class file once more.
    ///
    /// # Errors
    ///
    /// `Memory` where memory runs out.
    pub fn copy(&self) -> Result<ClassFile, Memory>
        ensures { IfOk result (λ c. c ≡ self.now) }
    {
        let parts = copy_parts(&self.parts)?;
        Ok(ClassFile::of_parts(parts))
    }

    /// The class as other classes see it.
    ///
    /// # Errors
    ///
    /// `Memory` where memory runs out.
    pub fn summary(&self) -> Result<Summary, Memory>
        ensures summary { IfOk result (IsSummary self.now) }

        // Its names are those of classes, its descriptors are descriptors, and each text is short.
        ensures fit { IfOk result IsFit }
    {
        self.sound();
        summary_of(self)
    }

    /// Puts other bytes, fewer than 4,294,967,296, into an attribute of a method. Both are named by
    /// their places.
    pub fn set_method_attribute(&mut self, method: usize, attribute: usize, bytes: Run)
        requires is_there { IsSomeAnd (slice_get self.old.methods method)
            (λ m. attribute < length m.attributes) }
        requires fits { length bytes < 2 ^ 32 }
        ensures { self.new ≡ with_method_attribute method attribute bytes self.old }
    {
        set_attribute(&mut self.parts.methods, method, attribute, bytes);
    }

    /// Puts other bytes, fewer than 4,294,967,296, into an attribute of a method, as
    /// `set_method_attribute` does, and a constant pool that has grown in the place of the class's.
    ///
    /// Such a pool is a copy of `consts` to which constants were added: each index that was there
    /// names what it named.
    pub fn set_code(&mut self, method: usize, attribute: usize, bytes: Run, consts: Consts)
        requires is_there { IsSomeAnd (slice_get self.old.methods method)
            (λ m. attribute < length m.attributes) }
        requires fits { length bytes < 2 ^ 32 }
        requires grown { Keeps self.old.consts consts }
        ensures { self.new ≡ with_code method attribute bytes consts self.old }
    {
        // That the pool is one, for the class file's own invariant.
        let _ = consts.count();

        set_attribute(&mut self.parts.methods, method, attribute, bytes);
        self.parts.consts = consts;
    }
}

fn set_attribute(methods: &mut [Member], method: usize, attribute: usize, bytes: Run)
    requires { IsSomeAnd (slice_get methods.old method) (λ m. attribute < length m.attributes) }
    ensures { methods.new ≡ changed_at method (with_attribute attribute bytes) methods.old }
{
    let attributes = &mut methods[method].attributes;
    let name = attributes.as_slice()[attribute].name;
    attributes.set(attribute, Attribute { name, bytes });
}
