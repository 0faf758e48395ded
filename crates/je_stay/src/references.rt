//! Laws of references whose places are known.

ghost use Rattle.std.specs.Prelude.{◌≡◌, ℕ, List, length, Option, Some, IsTrue, IsSome, slice_get};
ghost use Rattle.je_machine.specs.Value.{Kind};
ghost use Rattle.je_machine.specs.Classes.{Classes};
ghost use Rattle.je_machine.specs.Operation.{Operation, Handler};
ghost use Rattle.je_machine.specs.Step.{Goes, iterate_all};
ghost use Rattle.je_machine.specs.Machine.{State};
ghost use Rattle.je_shape.specs.Shape.{Shape, Nothing, Has};
ghost use Rattle.je_shape.specs.Least.{Assignment};
ghost use Rattle.je_fit.specs.Fits.{fits_known};
ghost use Rattle.je_splice.specs.Reference.{Reference, take_reference, reference_step};
ghost use Rattle.je_splice.specs.Layout.{Item};
ghost use Rattle.je_splice.specs.Laid.{Fragment, reference_of, FitsItem, Fits};
ghost use Rattle.je_stay.specs.Keeping.{MayComeTo, IsShaped, ItemsKeep};
ghost use Rattle.je_stay.specs.Visits.{Visits};

/// Where what is done at each place keeps to what is known of the places, so does the run of a
/// reference, whatever the other classes and the outside are, and at every bound.
pub fn references_keep()
    // From a state that fits, the next one fits.
    ensures kept { (kind : Option (Option Kind)) (x : Assignment) (r : Reference) →
        IsShaped kind x r → (classes : Classes) (bound left : ℕ) (s t : State) →
        IsTrue (fits_known (x s.place) s.frame) → take_reference r classes bound s ≡ Goes left t
        → IsTrue (fits_known (x t.place) t.frame) }
    // Each state that is reached fits,
    ensures reached { (kind : Option (Option Kind)) (x : Assignment) (r : Reference) →
        IsShaped kind x r → (classes : Classes) (count bound left : ℕ) (s t : State) →
        IsTrue (fits_known (x s.place) s.frame)
        → Visits (reference_step r classes) count bound s left t
        → IsTrue (fits_known (x t.place) t.frame) }
    // is at a place where something is done,
    ensures done { (kind : Option (Option Kind)) (x : Assignment) (r : Reference) →
        IsShaped kind x r → (classes : Classes) (count bound left : ℕ) (s t : State) →
        IsTrue (fits_known (x s.place) s.frame)
        → Visits (reference_step r classes) count bound s left t → IsSome (r.doing t.place) }
    // and not at one of which nothing is known,
    ensures known { (kind : Option (Option Kind)) (x : Assignment) (r : Reference) →
        IsShaped kind x r → (classes : Classes) (count bound left : ℕ) (s t : State) →
        IsTrue (fits_known (x s.place) s.frame)
        → Visits (reference_step r classes) count bound s left t → x t.place ≡ Nothing → ⊥ }
    // and is as deep as the shape there.
    ensures depth { (kind : Option (Option Kind)) (x : Assignment) (r : Reference) →
        IsShaped kind x r → (classes : Classes) (count bound left : ℕ) (s t : State)
        (shape : Shape) → IsTrue (fits_known (x s.place) s.frame)
        → Visits (reference_step r classes) count bound s left t → x t.place ≡ Has shape
        → length t.frame.stack ≡ length shape.stack }
    // If the run ends, it is as the method may.
    ensures ends { (kind : Option (Option Kind)) (x : Assignment) (r : Reference) →
        IsShaped kind x r → (classes : Classes) (bound : ℕ) (s : State) →
        IsTrue (fits_known (x s.place) s.frame)
        → MayComeTo kind (iterate_all (reference_step r classes) bound s) }
    // So does one whose places are items in a row that do.
    ensures items { (kind : Option (Option Kind)) (x : Assignment) (parameters : List Kind)
        (items : List (Item Operation Fragment)) (handlers : List Handler) →
        ItemsKeep kind x items handlers → IsShaped kind x (reference_of parameters items handlers) }
    // Where its places are items in a row whose blocks do what is meant with each frame that fits,
    // each premise of the law of laid programs is met.
    ensures laid { (kind : Option (Option Kind)) (x : Assignment) (limit : ℕ)
        (parameters : List Kind) (items : List (Item Operation Fragment))
        (handlers : List Handler) → IsShaped kind x (reference_of parameters items handlers)
        → ((place : ℕ) (item : Item Operation Fragment) → slice_get items place ≡ Some item
        → FitsItem limit (fits_known (x place)) item)
        → Fits limit (λ place. fits_known (x place)) parameters items handlers }
{}
