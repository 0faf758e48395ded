//! Lists of kinds.

ghost use Rattle.std.specs.Prelude.{◌≡◌, ◌++◌, [], ◌∷◌, map, replicate, IfOk};
ghost use Rattle.je_machine.specs.Value.{kind_of, IntKind};

use crate::field_type::FieldType;
use crate::kind::{Kind, KindForm};
use je_base::Memory;
use sqlite_items::Items;
use std::alloc::Global;

/// A list of one kind.
pub(crate) fn one(alloc: Global, kind: Kind) -> Result<Items<Kind>, Memory>
    ensures { IfOk result (λ kinds. kinds ≡ kind ∷ []) }
{
    let mut kinds = Items::new(alloc);
    kinds.push(kind)?;
    Ok(kinds)
}

/// A list of two kinds.
pub(crate) fn two(alloc: Global, first: Kind, second: Kind) -> Result<Items<Kind>, Memory>
    ensures { IfOk result (λ kinds. kinds ≡ first ∷ second ∷ []) }
{
    let mut kinds = one(alloc, first)?;
    kinds.push(second)?;
    Ok(kinds)
}

/// A list of three kinds.
pub(crate) fn three(
    alloc: Global,
    first: Kind,
    second: Kind,
    third: Kind,
) -> Result<Items<Kind>, Memory>
    ensures { IfOk result (λ kinds. kinds ≡ first ∷ second ∷ third ∷ []) }
{
    let mut kinds = two(alloc, first, second)?;
    kinds.push(third)?;
    Ok(kinds)
}

/// The kinds, and then those of the types.
pub(crate) fn kinds_of(kinds: Items<Kind>, types: &[FieldType]) -> Result<Items<Kind>, Memory>
    ensures { IfOk result (λ all. all ≡ kinds ++ map kind_of types.now) }
{
    let mut all = kinds;
    for of in types {
        all.push(of.kind_of())?;
    }
    Ok(all)
}

/// The kinds, and then that of int so many times.
pub(crate) fn with_ints(kinds: Items<Kind>, count: u8) -> Result<Items<Kind>, Memory>
    ensures { IfOk result (λ all. all ≡ kinds ++ replicate count IntKind) }
{
    let mut all = kinds;
    for _ in 0..count {
        all.push(Kind::of(KindForm::Int))?;
    }
    Ok(all)
}
