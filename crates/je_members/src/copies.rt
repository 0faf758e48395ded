//! Names that are copied out of a world.

ghost use Rattle.std.specs.Prelude.{◌≡◌, [], ◌∷◌, ◌++◌, IfOk};

use je_base::{Memory, Text};
use sqlite_items::Items;
use std::alloc::Global;

/// The same names once more.
pub(crate) fn copy_names(alloc: Global, names: &[Text]) -> Result<Items<Text>, Memory>
    ensures { IfOk result (λ copied. copied ≡ names.now) }
{
    let mut copied = Items::new(alloc);
    for name in names {
        copied.push(name.copy()?)?;
    }
    Ok(copied)
}

/// The names with this one before them.
pub(crate) fn put_before(alloc: Global, name: &Text, names: &[Text]) -> Result<Items<Text>, Memory>
    ensures { IfOk result (λ all. all ≡ name.now ∷ names.now) }
{
    let mut all = Items::new(alloc);
    all.push(name.copy()?)?;
    for other in names {
        all.push(other.copy()?)?;
    }
    Ok(all)
}

/// The names with this one behind them.
pub(crate) fn put_behind(names: Items<Text>, name: &Text) -> Result<Items<Text>, Memory>
    ensures { IfOk result (λ all. all ≡ names ++ name.now ∷ []) }
{
    let mut all = names;
    all.push(name.copy()?)?;
    Ok(all)
}
