//! A world in memory, which fails where it is told to.

ghost use Rattle.std.specs.Prelude.{◌≡◌, ◌≤◌, [], ◌∷◌, ◌++◌, Some, None, Ok, Err, IfOk, IfSome};
ghost use Rattle.std.specs.Prelude.{OnOk, OnErr};
ghost use Rattle.std.specs.FinMap.{get, insert};
ghost use Rattle.je_base.specs.Count.{raised};
ghost use Rattle.je_desc.specs.Fit.{IsFit};
ghost use Rattle.je_world.specs.MapWorld.{no_world, seen_of, known_by};
ghost use Rattle.je_world.specs.MapWorld.{AfterLook, FailsAsTold, LooksAsTold};
ghost use Rattle.je_world.specs.World.{known_of, listed, stop_after};

use crate::entry::{Entry, last_of};
use crate::stop::{Stop, WorldStop};
use crate::world::World;
use je_base::{Memory, Text};
use je_desc::Summary;
use std::alloc::Global;
use std::marker::Model;

/// Classes in memory. It tells everything, and a look fails exactly where its number was given to
/// `fail_at`.
#[derive(Debug, Drop)]
pub struct MapWorld {
    entries: Vec<Entry>,
    asked: Vec<Text>,
    failing: Vec<u64>,
    looks: u64,
    faults: u64,
    stop: Option<Stop>,
}

impl Model for MapWorld {
    ghost use Rattle.std.specs.FinMap.{empty};
    ghost use Rattle.std.specs.List.{AllByRecursion};
    ghost use Rattle.je_world.specs.Entry.{known_after, IsFitEntry};
    ghost use Rattle.je_world.specs.MapWorld.{WorldState, coded_world};

    ghost Value = { WorldState };

    ghost coded = { coded_world };

    ghost view = { λ w. record {
      contents = known_after empty w.entries.items;
      asked = w.asked.items;
      failing = w.failing.items;
      looks = w.looks;
      faults = w.faults;
      stop = w.stop;
    } };

    ghost invariant = { λ w. AllByRecursion IsFitEntry w.entries.items };
}

impl MapWorld {
    /// No classes, no looks and no faults.
    pub fn new(alloc: Global) -> MapWorld
        ensures { result ≡ no_world }
    {
        MapWorld {
            entries: Vec::new(alloc),
            asked: Vec::new(alloc),
            failing: Vec::new(alloc),
            looks: 0,
            faults: 0,
            stop: None,
        }
    }

    /// Puts a class under its name, in place of what was told of that name before.
    ///
    /// # Errors
    ///
    /// `Memory` where memory runs out.
    pub fn add(&mut self, class: Summary) -> Result<(), Memory>
        requires { IsFit class }
        ensures ok { OnOk result (self.new
            ≡ record self.old { contents = insert self.old.contents class.name (Some class) }) }
        ensures err { OnErr result (self.new ≡ self.old) }
    {
        self.entries.push(Entry::Class(class))?;
        Ok(())
    }

    /// Makes what lies under a name broken, in place of what was told of that name before.
    ///
    /// # Errors
    ///
    /// `Memory` where memory runs out.
    pub fn break_name(&mut self, name: Text) -> Result<(), Memory>
        ensures ok { OnOk result (self.new
            ≡ record self.old { contents = insert self.old.contents name None }) }
        ensures err { OnErr result (self.new ≡ self.old) }
    {
        self.entries.push(Entry::Broken(name))?;
        Ok(())
    }

    /// Makes the look of this number fail. Looks are numbered from 1.
    ///
    /// # Errors
    ///
    /// `Memory` where memory runs out.
    pub fn fail_at(&mut self, look: u64) -> Result<(), Memory>
        ensures ok { OnOk result (self.new
            ≡ record self.old { failing = self.old.failing ++ look ∷ [] }) }
        ensures err { OnErr result (self.new ≡ self.old) }
    {
        self.failing.push(look)?;
        Ok(())
    }

    /// Counts a look and lists its name unless it stands there.
    fn ask(&mut self, name: &Text) -> Result<(), Stop>
        ensures fails { FailsAsTold self.old result }
        ensures after { AfterLook self.old name.now result self.new }
        ensures faults { self.old.faults ≤ self.new.faults }
    {
        let fails = self.failing.contains(&raised(self.looks));
        self.looks = raised(self.looks);
        match self.list(name) {
            Err(_) => {
                self.halt(Stop::Memory);
                Err(Stop::Memory)
            }
            Ok(()) if fails => {
                self.faults = raised(self.faults);
                self.halt(Stop::Failed);
                Err(Stop::Failed)
            }
            Ok(()) => Ok(()),
        }
    }

    /// Lists a name unless it stands there.
    fn list(&mut self, name: &Text) -> Result<(), Memory>
        ensures ok { OnOk result (self.new
            ≡ record self.old { asked = listed name.now self.old.asked }) }
        ensures err { OnErr result (self.new ≡ self.old) }
    {
        if !self.asked.contains(name) {
            self.asked.push(name.copy()?)?;
        }
        Ok(())
    }

    /// What was told of a name.
    fn known(&self, name: &Text) -> Result<Option<&Summary>, WorldStop>
        ensures known { known_of (λ class. class.now) result
            ≡ Ok (known_by (get self.now.contents name.now)) }
        ensures named { IfOk result (λ found. IfSome found (λ class. class.now.name ≡ name.now)) }
        ensures fit { IfOk result (λ found. IfSome found (λ class. IsFit class.now)) }
    {
        match last_of(&self.entries, name) {
            None => Ok(None),
            Some(Entry::Class(class)) => Ok(Some(class)),
            Some(Entry::Broken(_)) => Err(WorldStop::Broken),
        }
    }

    /// Keeps the first stop.
    fn halt(&mut self, why: Stop)
        ensures { self.new ≡ record self.old { stop = stop_after self.old.stop (Err why) } }
    {
        if self.stop.is_none() {
            self.stop = Some(why);
        }
    }
}

impl World for MapWorld {
    ghost seen = { seen_of };

    ghost look_gives = { LooksAsTold };

    fn look(&mut self, name: &Text) -> Result<Option<&Summary>, WorldStop> {
        match self.ask(name) {
            Ok(()) => self.known(name),
            Err(Stop::Failed) => Err(WorldStop::Failed),
            Err(Stop::Memory) => Err(WorldStop::Memory),
        }
    }
}

/// One more, or the last value where the count stands there.
fn raised(count: u64) -> u64
    ensures { result ≡ raised count }
{
    count.saturating_add(1)
}
