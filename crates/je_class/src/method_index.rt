//! Finding methods by an index, in place of going over them each time.

ghost use Rattle.std.specs.Prelude.{◌≡◌, ℕ, if◌then◌else◌, List, None, IfOk, OnOk, IfSome, IfNone};
ghost use Rattle.std.specs.Prelude.{All};
ghost use Rattle.std.specs.List.{AllByRecursion};
ghost use Rattle.indexmap.specs.IndexMap.{get};
ghost use Rattle.je_base.specs.Text.{is_same_text};
ghost use Rattle.je_class.specs.Class.{Class, IsNamed, IsMethodAt};
ghost use Rattle.je_class.specs.Indexed.{answer, IsIndexOf};
ghost use Rattle.je_class.specs.Noted.{noted};

use crate::class_file::ClassFile;
use indexmap::IndexMap;
use je_base::{Memory, Text};
use std::alloc::Global;

/// The place of the first method of each name and descriptor of a class file.
#[derive(Debug, Drop)]
pub struct MethodIndex {
    /// For each name the places of its descriptors.
    by_name: IndexMap<Text, IndexMap<Text, usize>>,
}

impl MethodIndex {
    fn place(&self, name: &Text, descriptor: &Text) -> Option<usize>
        ensures { result ≡ answer self.now name.now descriptor.now }
    {
        match self.by_name.get(name) {
            Some(places) => places.get(descriptor).copied(),
            None => None,
        }
    }

    /// The places of a name, which are taken out.
    fn taken(&mut self, alloc: Global, name: &Text) -> IndexMap<Text, usize>
        ensures places { (d : List ℕ) → get is_same_text result d ≡ answer self.old name.now d }
        ensures others { (n d : List ℕ) → answer self.new n d
            ≡ (if is_same_text name.now n then None else answer self.old n d) }
    {
        match self.by_name.swap_remove(name) {
            Some(places) => places,
            None => IndexMap::new(alloc),
        }
    }

    /// Notes the place of a method, unless one of its name and descriptor is noted.
    fn note(
        &mut self,
        alloc: Global,
        name: &Text,
        descriptor: &Text,
        at: usize,
    ) -> Result<(), Memory>
        ensures { OnOk result ((n d : List ℕ) → answer self.new n d
            ≡ noted (answer self.old) name.now descriptor.now at n d) }
    {
        if self.place(name, descriptor).is_some() {
            return Ok(());
        }
        let mut places = self.taken(alloc, name);
        places.insert(descriptor.copy()?, at)?;
        self.by_name.insert(name.copy()?, places)?;
        Ok(())
    }

    /// The index of the methods of a class file.
    ///
    /// # Errors
    ///
    /// `Memory` where memory runs out.
    pub fn of(class: &ClassFile) -> Result<MethodIndex, Memory>
        ensures { IfOk result (IsIndexOf class.now) }
    {
        // That each method has a name and a descriptor.
        class.sound();

        let methods = class.methods();
        let consts = class.consts();
        let alloc = *class.parts().methods.allocator();
        let by_name = IndexMap::with_capacity(alloc, methods.len())?;
        let mut index = MethodIndex { by_name };
        for (at, method) in methods.iter().enumerate() {
            let name = consts.text(method.name).unwrap();
            let descriptor = consts.text(method.descriptor).unwrap();
            index.note(alloc, name, descriptor, at)?;
        }
        Ok(index)
    }

    /// The place of the first method of this name and descriptor in the class file that the index
    /// is of; `None` exactly where there is none.
    pub fn find(&self, name: &Text, descriptor: &Text) -> Option<usize>
        ensures found { (c : Class) → IsIndexOf c self.now →
            IfSome result (IsMethodAt c name.now descriptor.now) }
        ensures none { (c : Class) → IsIndexOf c self.now → IfNone result
            (All (λ m. IsNamed c.consts name.now descriptor.now m → ⊥) c.methods) }
    {
        self.place(name, descriptor)
    }
}
