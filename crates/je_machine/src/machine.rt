//! Laws of the machine, over all programs.

ghost use Rattle.std.specs.Prelude.{◌≡◌, ℕ, ◌-◌, ◌≤◌, IsSome, Bool, IsTrue};
ghost use Rattle.je_machine.specs.Classes.{Classes};
ghost use Rattle.je_machine.specs.Operation.{Program};
ghost use Rattle.je_machine.specs.Step.{Step, iterate_all};
ghost use Rattle.je_machine.specs.Machine.{State, machine_step};
ghost use Rattle.je_machine.specs.IndexMap.{MovesProgram, moved_state};
ghost use Rattle.je_machine.specs.Simulation.{Pairs, Simulates};
ghost use Rattle.je_machine.specs.View.{IsViewPrefix, IsSteady, AgreeingRuns, view_of, with_more};

/// The machine's step is one of those that the laws on longer bounds speak of.
pub fn machine_runs()
    ensures steady { (p : Program) (classes : Classes) → IsSteady (machine_step p classes) }
    ensures extends { (p : Program) (classes : Classes) (s : State) (m n : ℕ) → m ≤ n → IsViewPrefix
        (view_of (iterate_all (machine_step p classes) m s))
        (view_of (iterate_all (machine_step p classes) n s)) }
    ensures ended { (p : Program) (classes : Classes) (s : State) (m n : ℕ) → m ≤ n
        → IsSome (iterate_all (machine_step p classes) m s).ending
        → iterate_all (machine_step p classes) n s
        ≡ with_more (n - m) (iterate_all (machine_step p classes) m s) }
    // Where the machine follows each step of another run over its states, both show the same.
    ensures agrees { (p : Program) (classes : Classes) (pairs : Pairs State State State)
        (old : Step State) →
        Simulates pairs old (machine_step p classes) → (s : State) → AgreeingRuns
        (λ k. iterate_all old k (pairs.old s))
        (λ m. iterate_all (machine_step p classes) m (pairs.new s)) }
{}

/// A program whose instructions stand at other places comes to the same, at each bound. The places
/// are a set that is closed under what instructions and the entries at them lead to.
pub fn moved_programs()
    ensures { (to : ℕ → ℕ) (inside : ℕ → Bool) (old new : Program) →
        MovesProgram to inside old new →
        (classes : Classes) (s : State) → IsTrue (inside s.place) → (n : ℕ) →
        iterate_all (machine_step new classes) n (moved_state to s)
        ≡ iterate_all (machine_step old classes) n s }
{}
