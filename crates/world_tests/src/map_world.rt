ghost use Rattle.std.specs.Prelude.{◌≡◌, IfOk};
ghost use Rattle.je_desc.specs.Fit.{IsFit, IsFitName};

use je_base::Text;
use je_desc::{Summary, is_class_name};
use je_world::{MapWorld, World, WorldStop};
use sqlite_items::Items;
use std::test::Fail;

/// A name.
pub fn name_of(rt: &HostRuntime, bytes: &[u8]) -> Result<Text, Fail>
    ensures { IfOk result (λ name. name ≡ bytes.now) }
{
    Ok(Text::from_bytes(rt.alloc(), bytes)?.ok_or("a text")?)
}

/// A class without interfaces and members.
pub fn class_of(
    rt: &HostRuntime,
    bytes: &[u8],
    access: u16,
    above: Option<&[u8]>,
) -> Result<Summary, Fail>
    ensures { IfOk result IsFit }
{
    let name = fit_name(rt, bytes)?;
    let super_name = match above {
        Some(above) => Some(fit_name(rt, above)?),
        None => None,
    };
    Ok(Summary {
        name,
        super_name,
        interfaces: Items::new(rt.alloc()),
        access,
        fields: Items::new(rt.alloc()),
        methods: Items::new(rt.alloc()),
    })
}

/// A name of a class.
fn fit_name(rt: &HostRuntime, bytes: &[u8]) -> Result<Text, Fail>
    ensures { IfOk result IsFitName }
{
    let name = name_of(rt, bytes)?;
    if !is_class_name(name.bytes()) || name.bytes().len() > 65535 {
        return Err("a name of a class".into());
    }
    Ok(name)
}

/// What a look answers: the access flags of the class that it finds.
fn look_at(world: &mut MapWorld, name: &Text) -> Result<Option<u16>, WorldStop> {
    match world.look(name) {
        Ok(None) => Ok(None),
        Ok(Some(class)) => Ok(Some(class.access)),
        Err(why) => Err(why),
    }
}

/// Looks at names in order.
fn looks(
    rt: &HostRuntime,
    world: &mut MapWorld,
    table: &[(&[u8], Result<Option<u16>, WorldStop>)],
) -> Result<(), Fail> {
    for (bytes, want) in table {
        let name = name_of(rt, bytes)?;
        if look_at(world, &name) != *want {
            return Err("another answer was wanted".into());
        }
    }
    Ok(())
}

/// Puts a class of these access flags, or breaks its name.
fn tell(
    rt: &HostRuntime,
    world: &mut MapWorld,
    bytes: &[u8],
    access: Option<u16>,
) -> Result<(), Fail> {
    match access {
        Some(access) => world.add(class_of(rt, bytes, access, None)?)?,
        None => world.break_name(name_of(rt, bytes)?)?,
    }
    Ok(())
}

#[test]
fn looks_answer_what_was_told(rt: HostRuntime) -> Result<(), Fail> {
    let mut world = MapWorld::new(rt.alloc());
    tell(&rt, &mut world, b"X", Some(1))?;
    tell(&rt, &mut world, b"Y", None)?;
    world.fail_at(4)?;
    let table: [(&[u8], Result<Option<u16>, WorldStop>); 5] = [
        (b"X", Ok(Some(1))),
        (b"Z", Ok(None)),
        (b"Y", Err(WorldStop::Broken)),
        (b"X", Err(WorldStop::Failed)),
        (b"X", Ok(Some(1))),
    ];
    looks(&rt, &mut world, &table)
}

#[test]
fn the_last_that_is_told_counts(rt: HostRuntime) -> Result<(), Fail> {
    let mut world = MapWorld::new(rt.alloc());
    for access in [Some(1), None, Some(2)] {
        tell(&rt, &mut world, b"X", access)?;
        tell(&rt, &mut world, b"Y", access)?;
    }
    tell(&rt, &mut world, b"Y", None)?;
    world.fail_at(3)?;
    world.fail_at(2)?;
    let table: [(&[u8], Result<Option<u16>, WorldStop>); 5] = [
        (b"X", Ok(Some(2))),
        (b"X", Err(WorldStop::Failed)),
        (b"Z", Err(WorldStop::Failed)),
        (b"Y", Err(WorldStop::Broken)),
        (b"X", Ok(Some(2))),
    ];
    looks(&rt, &mut world, &table)
}
