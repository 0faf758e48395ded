//! The class of a name, from the pool or from its file.

ghost use Rattle.std.specs.Prelude.{◌≡◌, ℕ, ◌≤◌, Some, None, Ok, Err, IfOk, IfSome, OnOk, IsErrOf};
ghost use Rattle.std.specs.Prelude.{IsSomeAnd, Contains, string_bytes};
ghost use Rattle.std.specs.Option.{option_map};
ghost use Rattle.je_base.specs.Count.{HasFault};
ghost use Rattle.je_pool.specs.declared.fault.PoolFault.{PoolFault};
ghost use Rattle.je_pool.specs.Path.{file_name};
ghost use Rattle.je_pool.specs.Asking.{paths_of, AsksSome};
ghost use Rattle.je_pool.specs.Loading.{FindsTold, SameTold, IsNamedAt, MayGain};

use crate::fault::PoolFault;
use crate::id::ClassId;
use crate::pool::Pool;
use crate::search::read_named;
use je_base::{Files, Text};
use je_class::one_class;

/// The place of the class of this name. What a file gives is kept.
pub fn seek<F: Files>(
    pool: &mut Pool,
    files: &mut F,
    name: &Text,
    failed: &mut Option<String>,
) -> Result<Option<ClassId>, PoolFault>
    ensures told { FindsTold (F.contents files.old) pool.old name.now pool.new.classes result }
    ensures same { SameTold (F.contents files.old) pool.old pool.new }
    ensures named { IfOk result (λ found. IfSome found (IsNamedAt name.now pool.new.classes)) }
    ensures gains { MayGain pool.old pool.new }
    ensures asked { AsksSome (paths_of pool.old.roots (file_name name.now))
        (F.asked files.old) (F.asked files.new) }
    ensures contents { F.contents files.new ≡ F.contents files.old }
    ensures writes { F.writes files.new ≡ F.writes files.old }
    ensures faults { F.faults files.old ≤ F.faults files.new }
    ensures fault { IsErrOf result PoolFault.Failed
        → HasFault (F.faults files.old) (F.faults files.new) }
    ensures failed { IsErrOf result PoolFault.Failed
        → IsSomeAnd (option_map string_bytes failed.new)
        (Contains (paths_of pool.old.roots (file_name name.now))) }
{
    // The law that the proof stands on.
    one_class();

    if let Some(id) = pool.place(name) {
        return Ok(Some(id));
    }
    match read_named(pool.alloc(), files, pool.roots(), name, failed) {
        Ok(None) => Ok(None),
        Ok(Some(class)) => match pool.keep(class) {
            Ok(id) => Ok(Some(id)),
            Err(_) => Err(PoolFault::Memory),
        },
        Err(why) => Err(why),
    }
}
