//! Laws of runs, over all steps and all types of states.

ghost use Rattle.std.specs.Prelude.{◌≡◌, ℕ, ◌+◌, ◌-◌, ◌≤◌, List, ◌++◌, Some, None, IsSome};
ghost use Rattle.je_machine.specs.Value.{Value};
ghost use Rattle.je_machine.specs.Outside.{Event, Outside};
ghost use Rattle.je_machine.specs.Step.{Step, Ending, Outcome, Takes, Chain, ComesTo, iterate_all};
ghost use Rattle.je_machine.specs.Simulation.{Pairs, Simulates};
ghost use Rattle.je_machine.specs.View.{View, IsViewPrefix, BeginsEvents, IsSteady, Follows};
ghost use Rattle.je_machine.specs.View.{AgreeingRuns, view_of, with_more};
ghost use Rattle.je_machine.specs.Sample.{outcome};

/// Beginning a view is a partial order.
pub fn views_begin_views()
    ensures reflexive { (v : View) → IsViewPrefix v v }
    ensures transitive { (u v w : View) → IsViewPrefix u v → IsViewPrefix v w → IsViewPrefix u w }
    ensures antisymmetric { (v w : View) → IsViewPrefix v w → IsViewPrefix w v → v ≡ w }
{}

/// What a view shows, and what it is for one to begin another.
pub fn views_show()
    // The events, and once the run has ended how, and the heap; not the local variables, nor the
    // answers that are left.
    ensures going { (left : ℕ) (locals : List Value) (o : Outside) →
        view_of (outcome None left locals o)
        ≡ record { events = o.events; end = None } }
    ensures ended { (ending : Ending) (left : ℕ) (locals : List Value) (o : Outside) →
        view_of (outcome (Some ending) left locals o)
        ≡ record { events = o.events; end = Some (ending, o.heap) } }
    ensures events { (v w : View) → IsViewPrefix v w
        → (more : List Event) × (w.events ≡ v.events ++ more) }
    ensures stays { (v w : View) → IsViewPrefix v w → IsSome v.end → w ≡ v }
    // Runs that agree end alike, with the same events and heap.
    ensures alike { (old new : ℕ → Outcome) → AgreeingRuns old new → (n : ℕ)
        → IsSome (view_of (old n)).end → (m : ℕ) × (view_of (new m) ≡ view_of (old n)) }
    ensures no_more { (old new : ℕ → Outcome) → AgreeingRuns old new → (n : ℕ)
        → IsSome (view_of (new n)).end → (m : ℕ) × (view_of (old m) ≡ view_of (new n)) }
    // Each shows the events of the other, and may show more.
    ensures shown { (old new : ℕ → Outcome) → AgreeingRuns old new → (n : ℕ)
        → (m : ℕ) × BeginsEvents (old n).outside (new m).outside }
    ensures shown_back { (old new : ℕ → Outcome) → AgreeingRuns old new → (n : ℕ)
        → (m : ℕ) × BeginsEvents (new n).outside (old m).outside }
{}

/// A longer bound only extends what a run shows, and what has ended stays as it is.
pub fn longer_bounds<S>()
    ensures extends { (step : Step S) → IsSteady step → (s : S) (m n : ℕ) → m ≤ n
        → IsViewPrefix (view_of (iterate_all step m s)) (view_of (iterate_all step n s)) }
    ensures ended { (step : Step S) → IsSteady step → (s : S) (m n : ℕ) → m ≤ n
        → IsSome (iterate_all step m s).ending
        → iterate_all step n s ≡ with_more (n - m) (iterate_all step m s) }
{}

/// A run that follows another with a lag that is bounded shows the same, and no more.
pub fn agreement<S>()
    ensures { (step : Step S) → IsSteady step → (s : S) (old : ℕ → Outcome) (lag : ℕ)
        → ((n : ℕ) → Follows old (λ m. iterate_all step m s) lag n)
        → AgreeingRuns old (λ m. iterate_all step m s) }
{}

/// A run that follows each step of another, and falls behind by a bounded lag alone, shows the
/// same and no more. Which states are paired is any type `I` with two maps to states.
pub fn simulation<I, S, U>()
    ensures follows { (pairs : Pairs I S U) (old : Step S) (new : Step U) →
        Simulates pairs old new → (i : I) (n : ℕ) →
        Follows (λ k. iterate_all old k (pairs.old i)) (λ m. iterate_all new m (pairs.new i))
        (pairs.lag i) n }
    ensures agrees { (pairs : Pairs I S U) (old : Step S) (new : Step U) → Simulates pairs old new →
        IsSteady new → (i : I) →
        AgreeingRuns (λ k. iterate_all old k (pairs.old i)) (λ m. iterate_all new m (pairs.new i)) }
{}

/// Stretches of a run: one step, several in a row, and what they come to.
pub fn stretches<S>()
    ensures nothing { (step : Step S) (s : S) → ComesTo step s s }
    ensures joined { (step : Step S) (s t u : S) → ComesTo step s t → ComesTo step t u →
        ComesTo step s u }
    ensures one { (step : Step S) (s t : S) → Takes step s t → ComesTo step s t }
    // The bound of a stretch of so many steps is that much more.
    ensures runs { (step : Step S) (count : ℕ) (s t : S) → Chain step count s t → (n : ℕ)
        → iterate_all step (n + count) s ≡ iterate_all step n t }
    ensures chains_joined { (step : Step S) (m n : ℕ) (s t u : S) →
        Chain step m s t → Chain step n t u → Chain step (m + n) s u }
    ensures comes { (step : Step S) (count : ℕ) (s t : S) → Chain step count s t →
        ComesTo step s t }
    // What a stretch comes to, the run shows.
    ensures shows { (step : Step S) (s t : S) → ComesTo step s t → (n : ℕ)
        → (m : ℕ) × (n ≤ m) × (view_of (iterate_all step m s) ≡ view_of (iterate_all step n t)) }
{}
