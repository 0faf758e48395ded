//! A pool with the files from which it is filled.

ghost use Rattle.std.specs.Prelude.{◌≡◌, ◌≤◌, ◌⊎◌, [], Some, None, Ok, Err, IfOk, IfSome, IsErrOf};
ghost use Rattle.std.specs.Prelude.{IsSomeAnd, Contains, OnErr, string_bytes};
ghost use Rattle.std.specs.Option.{option_map, option_or};
ghost use Rattle.je_base.specs.Count.{HasFault};
ghost use Rattle.je_world.specs.World.{listed};
ghost use Rattle.je_pool.specs.declared.fault.PoolFault.{PoolFault};
ghost use Rattle.je_pool.specs.Path.{file_name};
ghost use Rattle.je_pool.specs.Asking.{paths_of, AsksSome};
ghost use Rattle.je_pool.specs.Loading.{FindsTold, SameTold, IsNamedAt, MayGain, stop_of};

use crate::fault::PoolFault;
use crate::id::ClassId;
use crate::pool::Pool;
use crate::seek::seek;
use je_base::{Files, Memory, Text};
use je_world::Stop;
use std::alloc::Global;

/// A pool and the files of its folders, from which classes are found by name.
#[derive(Drop)]
pub struct Loader<'a, F> {
    pool: &'a mut Pool,
    files: &'a mut F,
    asked: Vec<Text>,
    stop: Option<Stop>,
    failed: Option<String>,
}

impl<'a, F: Files> Loader<'a, F> {
    /// A loader of this pool and these files, through which nothing was asked.
    pub fn new(alloc: Global, pool: &'a mut Pool, files: &'a mut F) -> Loader<'a, F>
        ensures pool { result.pool.ghost_name ≡ pool.entry.ghost_name }
        ensures pool_is { result.pool.now ≡ pool.old }
        ensures files { result.files.ghost_name ≡ files.entry.ghost_name }
        ensures files_are { result.files.now ≡ files.old }
        ensures asked { result.asked.items ≡ [] }
        ensures stop { result.stop ≡ None }
        ensures failed { result.failed ≡ None }
    {
        Loader {
            pool,
            files,
            asked: Vec::new(alloc),
            stop: None,
            failed: None,
        }
    }

    /// The class of this name: one that the pool keeps, or that of the first file of this name in
    /// the folders, which it then keeps. `None` where there is neither.
    ///
    /// # Errors
    ///
    /// `PoolFault::BadClass` and `PoolFault::WrongName` where that file is no class file or that of
    /// another class, `PoolFault::Failed` where a file could not be read, with a fault on record,
    /// and `PoolFault::Memory` where memory runs out, or where an earlier call through this loader
    /// answered one of these two.
    pub fn find(&mut self, name: &Text) -> Result<Option<ClassId>, PoolFault>
        ensures told { FindsTold (F.contents self.old.files.now) self.old.pool.now name.now
            self.new.pool.now.classes result }
        ensures same { SameTold (F.contents self.old.files.now) self.old.pool.now
            self.new.pool.now }
        ensures named { IfOk result (λ found. IfSome found
            (IsNamedAt name.now self.new.pool.now.classes)) }
        ensures gains { MayGain (record self.old.pool.now { asked = self.new.pool.now.asked })
            self.new.pool.now }
        ensures stop { self.new.stop ≡ option_or self.old.stop (stop_of result) }
        ensures asked { (IsErrOf result PoolFault.Memory → ⊥) →
            self.new.asked.items ≡ listed name.now self.old.asked.items }
        ensures memory { IsErrOf result PoolFault.Memory →
            (self.new.asked.items ≡ self.old.asked.items)
            ⊎ (self.new.asked.items ≡ listed name.now self.old.asked.items) }
        ensures stopped { IfSome self.old.stop (λ _. IsErrOf result PoolFault.Memory) }
        ensures asks_none { IfSome self.old.stop (λ _.
            F.asked self.new.files.now ≡ F.asked self.old.files.now) }
        ensures paths { AsksSome (paths_of self.old.pool.now.roots (file_name name.now))
            (F.asked self.old.files.now) (F.asked self.new.files.now) }
        ensures contents { F.contents self.new.files.now ≡ F.contents self.old.files.now }
        ensures writes { F.writes self.new.files.now ≡ F.writes self.old.files.now }
        ensures faults { F.faults self.old.files.now ≤ F.faults self.new.files.now }
        ensures fault { IsErrOf result PoolFault.Failed
            → HasFault (F.faults self.old.files.now) (F.faults self.new.files.now) }
        ensures failed { IsErrOf result PoolFault.Failed
            → IsSomeAnd (option_map string_bytes self.new.failed)
            (Contains (paths_of self.old.pool.now.roots (file_name name.now))) }
        ensures same_pool { self.new.pool.ghost_name ≡ self.old.pool.ghost_name }
        ensures same_files { self.new.files.ghost_name ≡ self.old.files.ghost_name }
    {
        if self.stop.is_some() {
            return Err(PoolFault::Memory);
        }
        if self.list(name).is_err() {
            self.stop = Some(Stop::Memory);
            return Err(PoolFault::Memory);
        }
        let found = seek(self.pool, self.files, name, &mut self.failed);
        self.stop = stop_of(&found);
        found
    }

    /// The path of the last read through this loader that failed; `None` where none did.
    pub fn failed_path(&self) -> Option<&str>
        ensures { option_map (λ path. path.now) result ≡ option_map string_bytes self.now.failed }
    {
        match &self.failed {
            Some(path) => Some(path.as_str()),
            None => None,
        }
    }

    /// Lists a name unless it stands there.
    fn list(&mut self, name: &Text) -> Result<(), Memory>
        ensures ok { IfOk result (λ _. self.new.asked.items
            ≡ listed name.now self.old.asked.items) }
        ensures pool { (self.new.pool.now ≡ self.old.pool.now)
            ⊎ (self.new.pool.now ≡ record self.old.pool.now {
              asked = listed name.now self.old.pool.now.asked;
            }) }
        ensures err { OnErr result (self.new.asked.items ≡ self.old.asked.items) }
        ensures files { self.new.files ≡ self.old.files }
        ensures stop { self.new.stop ≡ self.old.stop }
        ensures failed { self.new.failed ≡ self.old.failed }
        ensures same_pool { self.new.pool.ghost_name ≡ self.old.pool.ghost_name }
    {
        self.pool.list(name)?;
        if !self.asked.contains(name) {
            self.asked.push(name.copy()?)?;
        }
        Ok(())
    }
}

/// Why a loader stops after this answer, if it does.
fn stop_of(found: &Result<Option<ClassId>, PoolFault>) -> Option<Stop>
    ensures { result ≡ stop_of found.now }
{
    match found {
        Err(PoolFault::Failed) => Some(Stop::Failed),
        Err(PoolFault::Memory) => Some(Stop::Memory),
        Err(PoolFault::BadClass(_, _)) => None,
        Err(PoolFault::WrongName(_, _)) => None,
        Ok(_) => None,
    }
}
