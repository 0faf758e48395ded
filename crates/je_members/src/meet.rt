//! What a name that is met on a walk comes to.

ghost use Rattle.je_world.specs.Seen.{Gives};
ghost use Rattle.je_members.specs.Step.{meet};

use crate::ending::Step;
use crate::kin::kin_at;
use je_base::Text;
use je_world::{Stop, World};
use std::alloc::Global;

/// A name that is sought, or is looked at.
pub(crate) fn meet<W: World>(
    alloc: Global,
    world: &mut W,
    sought: &[Text],
    name: &Text,
) -> Result<Step, Stop>
    ensures { Gives (W.seen world.old) (meet sought.now name.now) (W.seen world.new) result }
{
    if sought.contains(name) {
        return match name.copy() {
            Ok(name) => Ok(Step::Met(name)),
            Err(_) => Err(Stop::Memory),
        };
    }
    match kin_at(alloc, world, name) {
        Ok(Ok(kin)) => Ok(Step::Into(kin)),
        Ok(Err(bad)) => Ok(Step::Bad(bad)),
        Err(why) => Err(why),
    }
}
