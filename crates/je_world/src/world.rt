//! A world of classes that are found by name.

ghost use Rattle.std.specs.Prelude.{◌≡◌, ⊤, IfOk, IfSome};
ghost use types.Logic.{sem};
ghost use Rattle.std.specs.Io.BufRead.{Rests};
ghost use Rattle.je_desc.specs.Fit.{IsFit};
ghost use Rattle.je_world.specs.Question.{Name};
ghost use Rattle.je_world.specs.Seen.{Seen};
ghost use Rattle.je_world.specs.World.{Answer, Looks, known_of};

use crate::stop::WorldStop;
use je_base::Text;
use je_desc::Summary;

/// Classes that are found by their names in internal form (JVMS 4.2.1).
pub trait World {
    /// What the world has shown: what lies under each name and the names that were asked, where it
    /// tells them; the first failure; and how many faults there were.
    ghost seen: { Self → Seen };

    /// What this world says beside that of each look: of the name, the world before it, what it
    /// answers, and the world after it.
    ghost look_gives: { Name → Self → Answer → Self → Type 0 } = { λ _ _ _ _. ⊤ };

    /// Looks at the class of this name, or answers `None` where there is none.
    ///
    /// # Errors
    ///
    /// `WorldStop::Broken` where what lies there is not that class, `WorldStop::Failed` where the
    /// outside failed, with a fault on record, and `WorldStop::Memory` where memory runs out.
    fn look(&mut self, name: &Text) -> Result<Option<&Summary>, WorldStop>
        // A summary is that of the name, and fit.
        ensures named { IfOk result (λ found. IfSome found (λ class. class.now.name ≡ name.now)) }
        ensures fit { IfOk result (λ found. IfSome found (λ class. IsFit class.now)) }

        // What the world has shown once the summary is given back.
        ensures* after_borrow { sem 𝓛 (Rests Self.row self.entry (λ new.
            Looks name.now (seen self.old) (known_of (λ class. class.now) result) (seen new)
            × look_gives name.now self.old (known_of (λ class. class.now) result) new)) };
}
