//! The common superclass of two classes.

ghost use Rattle.std.specs.Prelude.{◌≡◌, Ok, IfOk, IfErr};
ghost use Rattle.je_world.specs.declared.stop.Stop.TheVariants as stop;
ghost use Rattle.je_world.specs.Seen.{Gives};
ghost use Rattle.je_members.specs.Common.{common_class, below_second, first_of_both};
ghost use Rattle.je_members.specs.Common.{superclasses, first_above};
ghost use Rattle.je_members.specs.Common.{asks_interface, is_interface, object};

use crate::chain::chain;
use crate::ending::Ending;
use crate::walk::names_of;
use je_base::Text;
use je_desc::Summary;
use je_world::{Link, Stop, World, WorldStop};
use sqlite_items::Items;
use std::alloc::Global;

/// The first class on the way up from the first that is on the way up from the second, and
/// `java/lang/Object` where either is an interface.
///
/// # Errors
///
/// The inner `Err` names what is absent, broken or above itself, the first that is met: at the
/// first, at the second, on the way up from the second, and on that from the first. The outer one
/// is `Stop::Failed` where the outside failed, with a fault on record, and `Stop::Memory` where
/// memory runs out.
pub fn common_class<W: World>(
    alloc: Global,
    world: &mut W,
    a: &Text,
    b: &Text,
) -> Result<Result<Text, Link>, Stop>
    ensures { Gives (W.seen world.old) (common_class a.now b.now) (W.seen world.new) result }
{
    match asks_interface(world, a) {
        Ok(Ok(true)) => object_found(alloc),
        Ok(Ok(false)) => below_second(alloc, world, a, b),
        Ok(Err(bad)) => Ok(Err(bad)),
        Err(why) => Err(why),
    }
}

/// The same where the first is no interface.
fn below_second<W: World>(
    alloc: Global,
    world: &mut W,
    a: &Text,
    b: &Text,
) -> Result<Result<Text, Link>, Stop>
    ensures { Gives (W.seen world.old) (below_second a.now b.now) (W.seen world.new) result }
{
    match asks_interface(world, b) {
        Ok(Ok(true)) => object_found(alloc),
        Ok(Ok(false)) => first_of_both(alloc, world, a, b),
        Ok(Err(bad)) => Ok(Err(bad)),
        Err(why) => Err(why),
    }
}

/// The same where neither is an interface.
fn first_of_both<W: World>(
    alloc: Global,
    world: &mut W,
    a: &Text,
    b: &Text,
) -> Result<Result<Text, Link>, Stop>
    ensures { Gives (W.seen world.old) (first_of_both a.now b.now) (W.seen world.new) result }
{
    match superclasses(alloc, world, b) {
        Ok(Ok(names)) => first_above(alloc, world, names.as_slice(), a),
        Ok(Err(bad)) => Ok(Err(bad)),
        Err(why) => Err(why),
    }
}

/// `java/lang/Object` as an answer.
fn object_found(alloc: Global) -> Result<Result<Text, Link>, Stop>
    ensures ok { IfOk result (λ found. found ≡ Ok object) }
    ensures err { IfErr result (λ why. why ≡ stop.Memory) }
{
    match Text::of(alloc, "java/lang/Object") {
        Ok(name) => Ok(Ok(name)),
        Err(_) => Err(Stop::Memory),
    }
}

/// Whether the class of this name is an interface.
fn asks_interface<W: World>(world: &mut W, name: &Text) -> Result<Result<bool, Link>, Stop>
    ensures { Gives (W.seen world.old) (asks_interface name.now) (W.seen world.new) result }
{
    match world.look(name) {
        Ok(Some(class)) => Ok(Ok(is_interface(class))),
        Ok(None) => match name.copy() {
            Ok(name) => Ok(Err(Link::NotFound(name))),
            Err(_) => Err(Stop::Memory),
        },
        Err(WorldStop::Broken) => match name.copy() {
            Ok(name) => Ok(Err(Link::Broken(name))),
            Err(_) => Err(Stop::Memory),
        },
        Err(WorldStop::Failed) => Err(Stop::Failed),
        Err(WorldStop::Memory) => Err(Stop::Memory),
    }
}

/// Whether a class is an interface (JVMS 4.1).
fn is_interface(class: &Summary) -> bool
    ensures { result ≡ is_interface class.now }
{
    class.access / 0x0200 % 2 == 1
}

/// The names of a class and its superclasses.
fn superclasses<W: World>(
    alloc: Global,
    world: &mut W,
    name: &Text,
) -> Result<Result<Items<Text>, Link>, Stop>
    ensures { Gives (W.seen world.old) (superclasses name.now) (W.seen world.new) result }
{
    let Ok(first) = name.copy() else {
        return Err(Stop::Memory);
    };
    let none = Items::new(alloc);
    match chain(alloc, world, none.as_slice(), first) {
        Ok(Ending::Went(classes)) => match names_of(alloc, classes.as_slice()) {
            Ok(names) => Ok(Ok(names)),
            Err(_) => Err(Stop::Memory),
        },
        Ok(Ending::Bad(bad)) => Ok(Err(bad)),
        Ok(Ending::Met(_)) => Ok(Ok(none)),
        Err(why) => Err(why),
    }
}

/// The first of these names on the way up from a class.
fn first_above<W: World>(
    alloc: Global,
    world: &mut W,
    names: &[Text],
    name: &Text,
) -> Result<Result<Text, Link>, Stop>
    ensures { Gives (W.seen world.old) (first_above names.now name.now)
        (W.seen world.new) result }
{
    let Ok(first) = name.copy() else {
        return Err(Stop::Memory);
    };
    match chain(alloc, world, names, first) {
        Ok(Ending::Went(_)) => object_found(alloc),
        Ok(Ending::Bad(bad)) => Ok(Err(bad)),
        Ok(Ending::Met(name)) => Ok(Ok(name)),
        Err(why) => Err(why),
    }
}
