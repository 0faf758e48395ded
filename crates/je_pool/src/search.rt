//! The class files of folders, searched by name.

ghost use Rattle.std.specs.Prelude.{◌≡◌, ℕ, ◌≤◌, List, ◌∷◌, [], map, take, Some, None, Ok, Err};
ghost use Rattle.std.specs.Prelude.{IfOk, IfErr, IfSome, OnOk, IsErrOf, string_bytes, Contains};
ghost use Rattle.std.specs.Prelude.{IsSomeAnd, IsTrue, ◌↔◌, ◌++◌, ◌⊎◌, ◌≢◌};
ghost use Rattle.std.specs.Option.{option_map};
ghost use Rattle.je_base.specs.declared.stop.FileStop.{FileStop};
ghost use Rattle.je_base.specs.Count.{HasFault};
ghost use Rattle.je_base.specs.Files.{Tells};
ghost use Rattle.je_class.specs.declared.fault.ClassFault.{ClassFault};
ghost use Rattle.je_pool.specs.declared.fault.PoolFault.{PoolFault};
ghost use Rattle.je_pool.specs.Path.{file_name, path_in};
ghost use Rattle.je_pool.specs.Found.{IsClass, IsNamed, FileIs};
ghost use Rattle.je_pool.specs.Pool.{FaultFound};
ghost use Rattle.je_pool.specs.Asking.{paths_of, AsksSome, most_read, IsFront, ReadsTold};

use crate::fault::PoolFault;
use crate::path::{file_name, path_in};
use je_base::{FileStop, Files, Run, Text};
use je_class::{ClassFault, ClassFile, MOST_BYTES, read_class};
use std::alloc::Global;

/// How many bytes of a file are read: one more than a class file has.
const MOST_READ: usize = MOST_BYTES + 1;

/// The front of the file of a name in one folder. The path of a read that fails is kept.
fn file_in<F: Files>(
    alloc: Global,
    files: &mut F,
    root: &str,
    name: &str,
    failed: &mut Option<String>,
) -> Result<Option<Vec<u8>>, FileStop>
    ensures told { IfOk result
        (Tells (F.contents files.old) (path_in root.now name.now) most_read) }
    ensures asked { AsksSome (path_in root.now name.now ∷ []) (F.asked files.old)
        (F.asked files.new) }
    ensures asks { OnOk result (F.asked files.new
        ≡ option_map (λ so_far. so_far ++ path_in root.now name.now ∷ []) (F.asked files.old)) }
    ensures contents { F.contents files.new ≡ F.contents files.old }
    ensures writes { F.writes files.new ≡ F.writes files.old }
    ensures faults { F.faults files.old ≤ F.faults files.new }
    ensures fault { IsErrOf result FileStop.Failed
        → HasFault (F.faults files.old) (F.faults files.new) }
    ensures failed { IsErrOf result FileStop.Failed
        → option_map string_bytes failed.new ≡ Some (path_in root.now name.now) }
    ensures others { OnOk result (failed.new ≡ failed.old) }
    ensures memory { IsErrOf result FileStop.Memory → failed.new ≡ failed.old }
{
    let path = path_in(alloc, root, name)?;
    match files.read(path.as_str(), MOST_READ) {
        Ok(found) => Ok(found),
        Err(FileStop::Failed) => {
            *failed = Some(path);
            Err(FileStop::Failed)
        }
        Err(FileStop::Memory) => Err(FileStop::Memory),
    }
}

/// The front of the file of a name in the first folder that has one.
fn first_file<F: Files>(
    alloc: Global,
    files: &mut F,
    roots: &[String],
    name: &str,
    failed: &mut Option<String>,
) -> Result<Option<Vec<u8>>, FileStop>
    ensures told { IfOk result
        (IsFront (F.contents files.old) (map string_bytes roots.now) name.now) }
    ensures asked { AsksSome (paths_of (map string_bytes roots.now) (Some name.now))
        (F.asked files.old) (F.asked files.new) }
    ensures contents { F.contents files.new ≡ F.contents files.old }
    ensures writes { F.writes files.new ≡ F.writes files.old }
    ensures faults { F.faults files.old ≤ F.faults files.new }
    ensures fault { IsErrOf result FileStop.Failed
        → HasFault (F.faults files.old) (F.faults files.new) }
    ensures failed { IsErrOf result FileStop.Failed
        → IsSomeAnd (option_map string_bytes failed.new)
        (Contains (paths_of (map string_bytes roots.now) (Some name.now))) }
    ensures others { OnOk result (failed.new ≡ failed.old) }
    ensures memory { IsErrOf result FileStop.Memory → failed.new ≡ failed.old }
{
    let mut left = roots;
    while let Some((root, rest)) = left.split_first() {
        match file_in(alloc, files, root.as_str(), name, failed) {
            Ok(None) => left = rest,
            Ok(Some(bytes)) => return Ok(Some(bytes)),
            Err(why) => return Err(why),
        }
    }
    Ok(None)
}

/// That the file of a name is no class file, for this cause.
fn bad_class(name: &Text, fault: ClassFault) -> PoolFault
    ensures { ((result ≡ PoolFault.BadClass name.now fault) × (fault ≢ ClassFault.Memory))
        ⊎ (result ≡ PoolFault.Memory) }
{
    if fault == ClassFault::Memory {
        return PoolFault::Memory;
    }
    match name.copy() {
        Ok(name) => PoolFault::BadClass(name, fault),
        Err(_) => PoolFault::Memory,
    }
}

/// That the file of a name has a class of another one.
fn wrong_name(name: &Text, other: &Text) -> PoolFault
    ensures { (result ≡ PoolFault.WrongName name.now other.now) ⊎ (result ≡ PoolFault.Memory) }
{
    match (name.copy(), other.copy()) {
        (Ok(name), Ok(other)) => PoolFault::WrongName(name, other),
        _ => PoolFault::Memory,
    }
}

/// Whether the class has this name.
fn is_named(class: &ClassFile, name: &Text) -> bool
    ensures { IsTrue result ↔ IsNamed name.now class.now }
{
    class.this_name() == name
}

/// The class of this name in the front of a file.
fn named_class(alloc: Global, name: &Text, front: Vec<u8>) -> Result<ClassFile, PoolFault>
    ensures found { IfOk result (λ c. (bytes : List ℕ) → front.items ≡ take most_read bytes →
        FileIs name.now bytes (IsClass c)) }
    ensures fault { IfErr result (λ why. (bytes : List ℕ) → front.items ≡ take most_read bytes →
        FaultFound name.now (FileIs name.now bytes) why) }
    ensures not_failed { IsErrOf result PoolFault.Failed → ⊥ }
    ensures named { IfOk result (IsNamed name.now) }
{
    let Ok(run) = Run::of_vec(alloc, front) else {
        return Err(PoolFault::Memory);
    };
    let class = match read_class(alloc, &run) {
        Ok(class) => class,
        Err(fault) => return Err(bad_class(name, fault)),
    };
    if !is_named(&class, name) {
        return Err(wrong_name(name, class.this_name()));
    }
    Ok(class)
}

/// The class of a name by its file in the first folder that has one.
pub fn read_named<F: Files>(
    alloc: Global,
    files: &mut F,
    roots: &[String],
    name: &Text,
    failed: &mut Option<String>,
) -> Result<Option<ClassFile>, PoolFault>
    ensures told { ReadsTold (F.contents files.old) (map string_bytes roots.now) name.now result }
    ensures named { IfOk result (λ found. IfSome found (IsNamed name.now)) }
    ensures asked { AsksSome (paths_of (map string_bytes roots.now) (file_name name.now))
        (F.asked files.old) (F.asked files.new) }
    ensures contents { F.contents files.new ≡ F.contents files.old }
    ensures writes { F.writes files.new ≡ F.writes files.old }
    ensures faults { F.faults files.old ≤ F.faults files.new }
    ensures fault { IsErrOf result PoolFault.Failed
        → HasFault (F.faults files.old) (F.faults files.new) }
    ensures failed { IsErrOf result PoolFault.Failed
        → IsSomeAnd (option_map string_bytes failed.new)
        (Contains (paths_of (map string_bytes roots.now) (file_name name.now))) }
    ensures others { OnOk result (failed.new ≡ failed.old) }
{
    let Some(file) = file_name(alloc, name)? else {
        return Ok(None);
    };
    match first_file(alloc, files, roots, file.as_str(), failed) {
        Ok(None) => Ok(None),
        Ok(Some(front)) => match named_class(alloc, name, front) {
            Ok(class) => Ok(Some(class)),
            Err(why) => Err(why),
        },
        Err(FileStop::Failed) => Err(PoolFault::Failed),
        Err(FileStop::Memory) => Err(PoolFault::Memory),
    }
}
