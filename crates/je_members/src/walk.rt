//! Searches for names along the walk of a class.

ghost use Rattle.std.specs.Prelude.{◌≡◌, [], IfOk};
ghost use Rattle.je_world.specs.Seen.{Gives};
ghost use Rattle.je_world.specs.Walk.{names_of};
ghost use Rattle.je_world.specs.Search.{sides, walk};
ghost use Rattle.je_members.specs.Among.{among};
ghost use Rattle.je_members.specs.Ending.{ended};

use crate::above::above;
use crate::chain::{Class, MOST, chain};
use crate::copies::put_before;
use crate::ending::Ending;
use je_base::{Memory, Text};
use je_world::{Stop, World};
use sqlite_items::Items;
use std::alloc::Global;

/// Searches a class, its superclasses and all their interfaces for the first of some names.
pub(crate) fn walk<W: World>(
    alloc: Global,
    world: &mut W,
    sought: &[Text],
    first: Text,
) -> Result<Ending<Items<Text>>, Stop>
    ensures { Gives (W.seen world.old) (walk (among sought.now) first)
        (W.seen world.new) (ended result) }
{
    match chain(alloc, world, sought, first) {
        Ok(Ending::Went(classes)) => {
            let Ok(names) = names_of(alloc, classes.as_slice()) else {
                return Err(Stop::Memory);
            };
            sides(alloc, world, sought, classes.as_slice(), names)
        }
        Ok(Ending::Bad(bad)) => Ok(Ending::Bad(bad)),
        Ok(Ending::Met(name)) => Ok(Ending::Met(name)),
        Err(why) => Err(why),
    }
}

/// The names of classes.
pub(crate) fn names_of(alloc: Global, classes: &[Class]) -> Result<Items<Text>, Memory>
    ensures { IfOk result (λ names. names ≡ names_of classes.now) }
{
    let mut names = Items::new(alloc);
    let mut left = classes;
    while let Some((class, rest)) = left.split_first() {
        names.push(class.0.copy()?)?;
        left = rest;
    }
    Ok(names)
}

/// Searches the interfaces of classes, class by class.
fn sides<W: World>(
    alloc: Global,
    world: &mut W,
    sought: &[Text],
    classes: &[Class],
    so_far: Items<Text>,
) -> Result<Ending<Items<Text>>, Stop>
    ensures { Gives (W.seen world.old) (sides (among sought.now) [] so_far classes.now)
        (W.seen world.new) (ended result) }
{
    let mut below = Items::new(alloc);
    let mut gone = so_far;
    let mut left = classes;
    while let Some((class, rest)) = left.split_first() {
        let Ok(under) = put_before(alloc, &class.0, below.as_slice()) else {
            return Err(Stop::Memory);
        };
        let up = class.1.as_slice();
        match above(alloc, world, sought, MOST, under.as_slice(), gone, up) {
            Ok(Ending::Went(names)) => gone = names,
            Ok(Ending::Bad(bad)) => return Ok(Ending::Bad(bad)),
            Ok(Ending::Met(name)) => return Ok(Ending::Met(name)),
            Err(why) => return Err(why),
        }
        below = under;
        left = rest;
    }
    Ok(Ending::Went(gone))
}
