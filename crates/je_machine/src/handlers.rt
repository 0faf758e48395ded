//! Laws of exception tables, over all heaps and exceptions.

ghost use Rattle.std.specs.Prelude.{◌≡◌, ℕ, List, ◌++◌, filter, find, option_map};
ghost use Rattle.std.specs.Option.{option_or};
ghost use Rattle.je_machine.specs.Value.{Value};
ghost use Rattle.je_machine.specs.Heap.{Heap};
ghost use Rattle.je_machine.specs.Classes.{Classes};
ghost use Rattle.je_machine.specs.Operation.{Handler};
ghost use Rattle.je_machine.specs.Machine.{catcher, covers, catches};

/// Where a throw goes depends only on the entries that cover its place, in their order (JVMS 2.10).
pub fn ways_of_throws()
    // It goes to the first of these whose class fits.
    ensures first { (handlers : List Handler) (classes : Classes) (place : ℕ) (heap : Heap)
        (reference : Value) →
        catcher handlers classes place heap reference
        ≡ option_map (λ (h : Handler). h.target)
        (find (λ (h : Handler). catches classes heap reference h.catch_class)
        (filter (covers place) handlers)) }
    ensures alike { (handlers others : List Handler) (classes : Classes) (place at : ℕ) →
        filter (covers place) handlers ≡ filter (covers at) others →
        (heap : Heap) (reference : Value)
        → catcher handlers classes place heap reference ≡ catcher others classes at heap reference }
    // Entries behind others get what those do not.
    ensures joined { (first rest : List Handler) (classes : Classes) (place : ℕ) (heap : Heap)
        (reference : Value) →
        catcher (first ++ rest) classes place heap reference
        ≡ option_or (catcher first classes place heap reference)
        (catcher rest classes place heap reference) }
{}
