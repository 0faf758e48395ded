//! Laws of marks that come of a choice for each index.

ghost use Rattle.std.specs.Prelude.{◌≡◌, ℕ, List, [], Option, Bool};
ghost use Rattle.std.specs.List.{AllByRecursion, AllZip};
ghost use Rattle.je_consts.specs.declared.place.Place.{Place};
ghost use Rattle.je_machine.specs.Operation.{Handler};
ghost use Rattle.je_splice.specs.Laid.{Fragment};
ghost use Rattle.je_splice.specs.Marks.{Marks};
ghost use Rattle.je_splice.specs.Put.{StandsInstead, replacements, chosen_at, marks_of};
ghost use Rattle.je_splice.specs.Resolved.{CodePiece, IsInstead, IsPlacedAs};

/// What is chosen for indexes stands in the place of their instructions, and nothing else is put.
pub fn choices_are_marks<X, Y>()
    ensures stands { (choices : List (Option Y)) →
        AllByRecursion StandsInstead (replacements 0 choices) }
    ensures instead { (target_of : Handler → ℕ) (goes_on : Y → Bool) (choices : List (Option Y))
        (i : ℕ) →
        let n : Marks Y Handler = marks_of target_of goes_on (replacements 0 choices) [] in
        n.instead i ≡ chosen_at choices i }
    // Choices of pieces and of fragments that are alike are placed alike.
    ensures placed { (consts : List Place) (piece_of : X → CodePiece) (fragment_of : Y → Fragment)
        (completes : X → Bool) (goes_on : Y → Bool) (xs : List (Option X)) (ys : List (Option Y)) →
        AllZip (IsInstead consts piece_of fragment_of completes goes_on) xs ys
        → AllZip (IsPlacedAs consts piece_of fragment_of completes goes_on) (replacements 0 xs)
        (replacements 0 ys) }
{}
