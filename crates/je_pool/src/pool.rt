//! A pool of classes.

ghost use Rattle.std.specs.Prelude.{◌≡◌, ℕ, ◌<◌, ◌++◌, [], ◌∷◌, List, length, map, Some};
ghost use Rattle.std.specs.Prelude.{true, false};
ghost use Rattle.std.specs.Prelude.{IfOk, IfErr, IfSome, OnOk, OnErr, IsErrOf, slice_get};
ghost use Rattle.std.specs.Prelude.{string_bytes, IsSomeAnd};
ghost use Rattle.std.specs.Option.{option_map, option_and_then};
ghost use Rattle.je_class.specs.Summed.{IsSummary};
ghost use Rattle.je_desc.specs.Fit.{IsFit};
ghost use Rattle.je_world.specs.Question.{Name};
ghost use Rattle.je_world.specs.World.{listed};
ghost use Rattle.je_pool.specs.declared.fault.AddStop.{AddStop};
ghost use Rattle.je_pool.specs.Pool.{kept, name_at, is_taken, with_class, with_changed, Puts, IsFirst};
ghost use Rattle.je_pool.specs.Pool.{state_of, RefusesClass, RefusesChange};

use crate::fault::{AddStop, PoolRefusal, Stop};
use crate::id::ClassId;
use crate::node::{Node, place_of};
use je_base::{Memory, Text};
use je_class::ClassFile;
use je_desc::Summary;
use std::alloc::Global;
use std::marker::Model;

/// Classes that are found by name: those that it keeps, and those of folders of class files.
#[derive(Drop)]
pub struct Pool {
    alloc: Global,
    roots: Vec<String>,
    nodes: Vec<Node>,
    asked: Vec<Text>,
}

impl Model for Pool {
    ghost use Rattle.std.specs.Prelude.{map};
    ghost use Rattle.std.specs.List.{AllByRecursion};
    ghost use Rattle.std.specs.String.{string_bytes};
    ghost use Rattle.je_pool.specs.Node.{classes_of, IsSummed};
    ghost use Rattle.je_pool.specs.Pool.{PoolState};

    ghost Value = { PoolState };

    ghost view = { λ p. record {
      roots = map string_bytes p.roots.items;
      classes = classes_of p.nodes.items;
      asked = p.asked.items;
    } };

    ghost invariant = { λ p. AllByRecursion IsSummed p.nodes.items };
}

impl Pool {
    /// A pool that keeps no class, over these folders, which are asked in their order.
    pub fn new(alloc: Global, roots: Vec<String>) -> Pool
        ensures { result
            ≡ record { roots = map string_bytes roots.items; classes = []; asked = [] } }
    {
        Pool {
            alloc,
            roots,
            nodes: Vec::new(alloc),
            asked: Vec::new(alloc),
        }
    }

    /// Keeps a class under its name, as though a file had given it.
    ///
    /// # Errors
    ///
    /// `AddStop::Taken` exactly where the pool keeps a class of this name or the name was asked,
    /// and `AddStop::Memory` where memory runs out.
    pub fn add(&mut self, class: ClassFile) -> Result<ClassId, AddStop>
        ensures id { IfOk result (λ id. id.0 ≡ length self.old.classes) }
        ensures ok { OnOk result (self.new ≡ with_class self.old class) }
        ensures err { OnErr result (self.new ≡ self.old) }
        ensures taken { IsErrOf result AddStop.Taken → (name : Name) →
            name_at class ≡ Some name → is_taken self.old name ≡ true }
        ensures free { OnOk result ((name : Name) →
            name_at class ≡ Some name → is_taken self.old name ≡ false) }
        ensures puts { OnOk result (Puts self.old class self.new) }
    {
        if self.is_taken(class.this_name()) {
            return Err(AddStop::Taken);
        }
        match self.keep(class) {
            Ok(id) => Ok(id),
            Err(_) => Err(AddStop::Memory),
        }
    }

    /// The class of this place, which this pool gave.
    ///
    /// # Errors
    ///
    /// `PoolRefusal::Detached` exactly where the pool has forgotten it.
    pub fn class(&self, id: ClassId) -> Result<&ClassFile, PoolRefusal>
        requires given { id.0 < length self.now.classes }
        ensures ok { IfOk result (λ class. slice_get self.now.classes id.0 ≡ Some class.now) }
        ensures err { IfErr result (RefusesClass (state_of self.now id.0)) }
    {
        Ok(&self.nodes[id.0].class)
    }

    /// Puts another class of the same name in the place of one that this pool gave.
    ///
    /// # Errors
    ///
    /// `Stop::Refused` exactly by the class's state, and `Stop::Memory` where memory runs out.
    pub fn change(&mut self, id: ClassId, class: ClassFile) -> Result<(), Stop>
        requires given { id.0 < length self.old.classes }
        requires same_name { IsSomeAnd (slice_get self.old.classes id.0)
            (λ before. name_at before ≡ name_at class) }
        ensures ok { OnOk result (self.new ≡ with_changed self.old id.0 class) }
        ensures err { OnErr result (self.new ≡ self.old) }
        ensures refused { IfErr result (RefusesChange (state_of self.old id.0)) }
        ensures puts { OnOk result (IsFirst self.old id.0 class → Puts self.old class self.new) }
    {
        match self.exchange(id, class) {
            Ok(()) => Ok(()),
            Err(_) => Err(Stop::Memory),
        }
    }

    /// Puts a class in the place of another one.
    fn exchange(&mut self, id: ClassId, class: ClassFile) -> Result<(), Memory>
        requires { id.0 < length self.old.classes }
        ensures ok { OnOk result (self.new ≡ with_changed self.old id.0 class) }
        ensures err { OnErr result (self.new ≡ self.old) }
    {
        let Ok(node) = Node::of(class) else {
            return Err(Memory);
        };
        self.nodes[id.0] = node;
        Ok(())
    }

    /// Whether the pool keeps a class of this name or the name was asked.
    fn is_taken(&self, name: &Text) -> bool
        ensures { result ≡ is_taken self.now name.now }
    {
        place_of(&self.nodes, name).is_some() || self.asked.contains(name)
    }

    /// Keeps one class more.
    pub(crate) fn keep(&mut self, class: ClassFile) -> Result<ClassId, Memory>
        ensures id { IfOk result (λ id. id.0 ≡ length self.old.classes) }
        ensures ok { OnOk result (self.new ≡ with_class self.old class) }
        ensures err { OnErr result (self.new ≡ self.old) }
    {
        let id = ClassId(self.nodes.len());
        let node = Node::of(class)?;
        self.nodes.push(node)?;
        Ok(id)
    }

    /// Lists a name unless it stands there.
    pub(crate) fn list(&mut self, name: &Text) -> Result<(), Memory>
        ensures ok { OnOk result (self.new
            ≡ record self.old { asked = listed name.now self.old.asked }) }
        ensures err { OnErr result (self.new ≡ self.old) }
    {
        if !self.asked.contains(name) {
            self.asked.push(name.copy()?)?;
        }
        Ok(())
    }

    /// The place of the class of this name.
    pub(crate) fn place(&self, name: &Text) -> Option<ClassId>
        ensures kept { option_and_then (λ id. slice_get self.now.classes id.0) result
            ≡ kept name.now self.now.classes }
        ensures within { IfSome result (λ id. id.0 < length self.now.classes) }
    {
        match place_of(&self.nodes, name) {
            Some(id) => Some(ClassId(id)),
            None => None,
        }
    }

    /// How other classes see the class of this place.
    pub(crate) fn summary(&self, id: ClassId) -> &Summary
        requires given { id.0 < length self.now.classes }
        ensures summary { IsSomeAnd (slice_get self.now.classes id.0)
            (λ class. IsSummary class result.now) }
        ensures fit { IsFit result.now }
    {
        &self.nodes[id.0].summary
    }

    /// The folders of class files.
    pub(crate) fn roots(&self) -> &[String]
        ensures { map string_bytes result.now ≡ self.now.roots }
    {
        &self.roots
    }

    /// The allocator of what it keeps.
    pub(crate) fn alloc(&self) -> Global {
        self.alloc
    }
}
