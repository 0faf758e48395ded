//! Names that a pool has already.

ghost use Rattle.std.specs.Prelude.{◌≡◌, ℕ, List, Option, None};
ghost use Rattle.std.specs.List.{AllByRecursion};
ghost use Rattle.je_consts.specs.declared.fault.PoolStop.{PoolStop};
ghost use Rattle.je_consts.specs.declared.place.Place.{Place};
ghost use Rattle.je_code.specs.Written.{HasText, AddsTexts};

/// No add of texts that the pool has is refused, and none changes it.
pub fn texts_there()
    ensures none { (texts : List (List ℕ)) (old new : List Place) (refusal : Option PoolStop) →
        AllByRecursion (HasText old) texts → AddsTexts texts old refusal new → refusal ≡ None }
    ensures same { (texts : List (List ℕ)) (old new : List Place) (refusal : Option PoolStop) →
        AllByRecursion (HasText old) texts → AddsTexts texts old refusal new → new ≡ old }
{}
