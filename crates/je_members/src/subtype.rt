//! Subtypes, and which type takes the values of which.

ghost use Rattle.je_world.specs.Seen.{Gives};
ghost use Rattle.je_members.specs.Subtype.{subtype};

use crate::copies::put_behind;
use crate::ending::Ending;
use crate::walk::walk;
use je_base::Text;
use je_world::{Link, Stop, World};
use sqlite_items::Items;
use std::alloc::Global;

/// Whether a class or interface is another one, or below it (JLS 4.10.2).
///
/// # Errors
///
/// The inner `Err` names what is absent, broken or above itself on the walk of the first, where it
/// is met before the second. The outer one is `Stop::Failed` where the outside failed, with a fault
/// on record, and `Stop::Memory` where memory runs out.
pub fn is_subtype<W: World>(
    alloc: Global,
    world: &mut W,
    sub: &Text,
    sup: &Text,
) -> Result<Result<bool, Link>, Stop>
    ensures { Gives (W.seen world.old) (subtype sub.now sup.now) (W.seen world.new) result }
{
    let Ok(sought) = put_behind(Items::new(alloc), sup) else {
        return Err(Stop::Memory);
    };
    let Ok(first) = sub.copy() else {
        return Err(Stop::Memory);
    };
    match walk(alloc, world, sought.as_slice(), first) {
        Ok(Ending::Went(_)) => Ok(Ok(false)),
        Ok(Ending::Bad(bad)) => Ok(Err(bad)),
        Ok(Ending::Met(_)) => Ok(Ok(true)),
        Err(why) => Err(why),
    }
}
