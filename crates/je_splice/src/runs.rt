//! Laws of runs that do what a reference does.

ghost use Rattle.std.specs.Prelude.{ℕ, suc, List, [], Bool, IsTrue};
ghost use Rattle.je_machine.specs.Value.{Value};
ghost use Rattle.je_machine.specs.Classes.{Classes};
ghost use Rattle.je_machine.specs.Outside.{Outside};
ghost use Rattle.je_machine.specs.Operation.{Program};
ghost use Rattle.je_machine.specs.Step.{iterate_all};
ghost use Rattle.je_machine.specs.Machine.{state_at, machine_step};
ghost use Rattle.je_machine.specs.View.{AgreeingRuns};
ghost use Rattle.je_machine.specs.Frame.{Frame, frame_of};
ghost use Rattle.je_splice.specs.Comes.{Body, Does};
ghost use Rattle.je_splice.specs.Reference.{Reference, body_of};
ghost use Rattle.je_splice.specs.Embeds.{Embeds};

/// A program that does what a body does shows what the body shows, and no more.
pub fn does_agree()
    ensures { (q : Program) (classes : Classes) (limit most far : ℕ) (fine : List Value → Bool)
        (body : Body) →
        Does q classes limit most far fine body →
        (locals : List Value) (outside : Outside) → IsTrue (fine locals) → AgreeingRuns
        (λ n. body n locals outside)
        (λ n. iterate_all (machine_step q classes) n
        (state_at 0 (frame_of [] locals) outside)) }
{}

/// A program that has at each place what a reference does there does what the reference does.
pub fn embeds()
    ensures { (r : Reference) (q : Program) (to : ℕ → ℕ) (limit : ℕ) (ok : ℕ → Frame → Bool)
        (rank : ℕ → ℕ) (most : ℕ) →
        Embeds r q to limit ok rank most → (classes : Classes) →
        Does q classes limit most (suc most) (λ locals. ok 0 (frame_of [] locals))
        (body_of r classes) }
{}
