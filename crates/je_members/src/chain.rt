//! Searches for names along a class and its superclasses.

ghost use Rattle.std.specs.Prelude.{◌≡◌, []};
ghost use Rattle.je_world.specs.Seen.{Gives};
ghost use Rattle.je_world.specs.World.{is_listed};
ghost use Rattle.je_world.specs.Walk.{most, names_of};
ghost use Rattle.je_world.specs.Search.{chain};
ghost use Rattle.je_members.specs.Among.{among};
ghost use Rattle.je_members.specs.Ending.{ended};

use crate::ending::{Ending, Step};
use crate::meet::meet;
use je_base::Text;
use je_world::{Link, Stop, World};
use sqlite_items::Items;
use std::alloc::Global;

/// A class with the names of its interfaces.
pub(crate) type Class = (Text, Items<Text>);

/// The most names that stand above one another on a walk.
pub(crate) const MOST: u128 = 0x1_0000_0000_0000_0000;

/// Searches a class and its superclasses for the first of some names.
pub(crate) fn chain<W: World>(
    alloc: Global,
    world: &mut W,
    sought: &[Text],
    first: Text,
) -> Result<Ending<Items<Class>>, Stop>
    ensures { Gives (W.seen world.old) (chain (among sought.now) most [] first)
        (W.seen world.new) (ended result) }
{
    let mut classes = Items::new(alloc);
    let mut name = first;
    let mut left = MOST;
    while left > 0 {
        left -= 1;
        if is_among(classes.as_slice(), &name) {
            return Ok(Ending::Bad(Link::Cycle(name)));
        }
        let kin = match meet(alloc, world, sought, &name) {
            Ok(Step::Into(kin)) => kin,
            Ok(Step::Bad(bad)) => return Ok(Ending::Bad(bad)),
            Ok(Step::Met(name)) => return Ok(Ending::Met(name)),
            Err(why) => return Err(why),
        };
        let above = kin.super_name;
        match classes.push((name, kin.interfaces)) {
            Ok(()) => {}
            Err(_) => return Err(Stop::Memory),
        }
        match above {
            Some(above) => name = above,
            None => return Ok(Ending::Went(classes)),
        }
    }
    Ok(Ending::Bad(Link::Cycle(name)))
}

/// Whether one of the classes has this name.
fn is_among(classes: &[Class], name: &Text) -> bool
    ensures { result ≡ is_listed name.now (names_of classes.now) }
{
    let mut left = classes;
    while let Some((class, rest)) = left.split_first() {
        if class.0 == *name {
            return true;
        }
        left = rest;
    }
    false
}
