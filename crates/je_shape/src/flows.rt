//! Laws of the flow of shapes: where a shape above goes on, one below does, to what is below.

ghost use Rattle.std.specs.Prelude.{◌≡◌, ℕ, List, Option};
ghost use Rattle.je_machine.specs.Operation.{Operation};
ghost use Rattle.je_shape.specs.Shape.{Shape, ShapeBelow, Known, KnownBelow};
ghost use Rattle.je_shape.specs.Flow.{flow};
ghost use Rattle.je_shape.specs.Serves.{ServesOperation};
ghost use Rattle.je_shape.specs.Least.{Method, Assignment, Agrees, Arrives, Serves, Passes};

/// The flow through an instruction is monotone (JVMS 4.10.1.9).
pub fn flow_is_monotone()
    // An instruction that a shape serves is served by each below it.
    ensures serves { (operations : List Operation) (at : ℕ) (o : Operation) (s t : Shape) →
        ShapeBelow s t → ServesOperation operations at o t → ServesOperation operations at o s }
    // What it leaves is then below what the other leaves.
    ensures flows { (own : List ℕ) (operations : List Operation) (at : ℕ) (o : Operation)
        (s t : Shape) → ServesOperation operations at o t → ShapeBelow s t
        → ShapeBelow (flow own at o s) (flow own at o t) }
    ensures returns { (m : Method) (at : ℕ) (o : Operation) (s t : Shape) → ShapeBelow s t
        → Serves m at o t → Serves m at o s }
    // What an assignment takes from an index, it takes from what is below.
    ensures passes { (m : Method) (x : Assignment) (at : ℕ) (o : Operation) (s t : Known)
        → KnownBelow s t → Passes m x at o t → Passes m x at o s }
{}

/// What comes to an index, with a frame or without (JVMS 4.7.4), is monotone.
pub fn arrivals_are_monotone()
    ensures agrees { (s t frame : Shape) → ShapeBelow s t → Agrees t frame → Agrees s frame }
    ensures before { (frame : Option Shape) (s t there : Known) → KnownBelow s t
        → Arrives frame t there → Arrives frame s there }
    ensures after { (frame : Option Shape) (s there more : Known) → KnownBelow there more
        → Arrives frame s there → Arrives frame s more }
{}
