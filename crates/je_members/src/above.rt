//! Searches for names along interfaces and what is above them.

ghost use Rattle.std.specs.Prelude.{◌≡◌, IfOk, IfErr};
ghost use Rattle.je_world.specs.declared.link.Link.TheVariants.{Cycle};
ghost use Rattle.je_world.specs.declared.stop.Stop.TheVariants.{Memory};
ghost use Rattle.je_world.specs.Seen.{Gives};
ghost use Rattle.je_world.specs.Search.{above};
ghost use Rattle.je_members.specs.declared.ending.Ending.TheVariants.{Bad};
ghost use Rattle.je_members.specs.Among.{among};
ghost use Rattle.je_members.specs.Ending.{ended};
ghost use Rattle.je_members.specs.Step.{step, passing};

use crate::copies::{put_before, put_behind};
use crate::ending::{Ending, Step};
use crate::meet::meet;
use je_base::Text;
use je_world::{Link, Stop, World};
use sqlite_items::Items;
use std::alloc::Global;

/// Searches interfaces, each followed by its superinterfaces, for the first of some names.
#[cycle(above)]
pub(crate) fn above<W: World>(
    alloc: Global,
    world: &mut W,
    sought: &[Text],
    left: u128,
    below: &[Text],
    so_far: Items<Text>,
    names: &[Text],
) -> Result<Ending<Items<Text>>, Stop>
    ensures { Gives (W.seen world.old) (above (among sought.now) left below.now so_far names.now)
        (W.seen world.new) (ended result) }
{
    let mut gone = so_far;
    let mut waiting = names;
    while let Some((name, rest)) = waiting.split_first() {
        if left == 0 {
            return cycle(name);
        }
        match pass(alloc, world, sought, left - 1, below, gone, name) {
            Ok(Ending::Went(names)) => gone = names,
            Ok(Ending::Bad(bad)) => return Ok(Ending::Bad(bad)),
            Ok(Ending::Met(name)) => return Ok(Ending::Met(name)),
            Err(why) => return Err(why),
        }
        waiting = rest;
    }
    Ok(Ending::Went(gone))
}

/// Searches one interface and what is above it, unless it was met before.
#[cycle(above)]
fn pass<W: World>(
    alloc: Global,
    world: &mut W,
    sought: &[Text],
    left: u128,
    below: &[Text],
    so_far: Items<Text>,
    name: &Text,
) -> Result<Ending<Items<Text>>, Stop>
    ensures { Gives (W.seen world.old) (passing sought.now left below.now so_far name.now)
        (W.seen world.new) (ended result) }
{
    match step(alloc, world, sought, below, so_far.as_slice(), name) {
        Ok(None) => Ok(Ending::Went(so_far)),
        Ok(Some(Step::Bad(bad))) => Ok(Ending::Bad(bad)),
        Ok(Some(Step::Met(name))) => Ok(Ending::Met(name)),
        Ok(Some(Step::Into(kin))) => {
            let Ok(below) = put_before(alloc, name, below) else {
                return Err(Stop::Memory);
            };
            let Ok(so_far) = put_behind(so_far, name) else {
                return Err(Stop::Memory);
            };
            let up = kin.interfaces.as_slice();
            above(alloc, world, sought, left, below.as_slice(), so_far, up)
        }
        Err(why) => Err(why),
    }
}

/// The end at a name that is above itself.
fn cycle(name: &Text) -> Result<Ending<Items<Text>>, Stop>
    ensures end { IfOk result (λ end. end ≡ Bad (Cycle name.now)) }
    ensures stop { IfErr result (λ why. why ≡ Memory) }
{
    match name.copy() {
        Ok(name) => Ok(Ending::Bad(Link::Cycle(name))),
        Err(_) => Err(Stop::Memory),
    }
}

/// An interface that is above itself, or was met before, or is met now.
fn step<W: World>(
    alloc: Global,
    world: &mut W,
    sought: &[Text],
    below: &[Text],
    so_far: &[Text],
    name: &Text,
) -> Result<Option<Step>, Stop>
    ensures { Gives (W.seen world.old) (step sought.now below.now so_far.now name.now)
        (W.seen world.new) result }
{
    if below.contains(name) {
        return match name.copy() {
            Ok(name) => Ok(Some(Step::Bad(Link::Cycle(name)))),
            Err(_) => Err(Stop::Memory),
        };
    }
    if so_far.contains(name) {
        return Ok(None);
    }
    match meet(alloc, world, sought, name) {
        Ok(met) => Ok(Some(met)),
        Err(why) => Err(why),
    }
}
