//! What stands directly above a class.

ghost use Rattle.je_world.specs.Seen.{Gives};
ghost use Rattle.je_members.specs.Kin.{kin_at, kin_of};
ghost use Rattle.std.specs.Prelude.{◌≡◌, IfOk};

use crate::copies::copy_names;
use je_base::{Memory, Text};
use je_desc::Summary;
use je_world::{Link, Stop, World, WorldStop};
use sqlite_items::Items;
use std::alloc::Global;

/// The superclass and the interfaces of a class.
#[derive(Debug, Drop)]
pub(crate) struct Kin {
    pub(crate) super_name: Option<Text>,
    pub(crate) interfaces: Items<Text>,
}

/// What stands directly above the class of this name.
pub(crate) fn kin_at<W: World>(
    alloc: Global,
    world: &mut W,
    name: &Text,
) -> Result<Result<Kin, Link>, Stop>
    ensures { Gives (W.seen world.old) (kin_at name.now) (W.seen world.new) result }
{
    match world.look(name) {
        Ok(Some(class)) => match kin_of(alloc, class) {
            Ok(kin) => Ok(Ok(kin)),
            Err(_) => Err(Stop::Memory),
        },
        Ok(None) => match name.copy() {
            Ok(name) => Ok(Err(Link::NotFound(name))),
            Err(_) => Err(Stop::Memory),
        },
        Err(WorldStop::Broken) => match name.copy() {
            Ok(name) => Ok(Err(Link::Broken(name))),
            Err(_) => Err(Stop::Memory),
        },
        Err(WorldStop::Failed) => Err(Stop::Failed),
        Err(WorldStop::Memory) => Err(Stop::Memory),
    }
}

/// What stands directly above a class.
fn kin_of(alloc: Global, class: &Summary) -> Result<Kin, Memory>
    ensures { IfOk result (λ kin. kin ≡ kin_of class.now) }
{
    let super_name = match &class.super_name {
        Some(name) => Some(name.copy()?),
        None => None,
    };
    let interfaces = copy_names(alloc, class.interfaces.as_slice())?;
    Ok(Kin {
        super_name,
        interfaces,
    })
}
