//! Laws of what is reached.

ghost use Rattle.std.specs.Prelude.{◌≡◌, ℕ};
ghost use Rattle.je_shape.specs.Least.{Method, Assignment};
ghost use Rattle.je_keep.specs.MethodCode.{AreFaultless};
ghost use Rattle.je_calls.specs.Chosen.{is_reached};

use je_shape::one_least;

/// By whatever faultless shapes of a method it is the same that is reached.
pub fn reached_is_one()
    ensures { (m : Method) (x y : Assignment) → AreFaultless m x → AreFaultless m y
        → (at : ℕ) → is_reached (x at) ≡ is_reached (y at) }
{
    // The law that the proof stands on.
    one_least();
}
