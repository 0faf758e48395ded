//! Small cases of the flow, of what serves and of the least shapes, computed.

ghost use Rattle.std.specs.Prelude.{◌≡◌, ℕ, List, [], ◌∷◌, map, Some, None, codes};
ghost use Rattle.je_machine.specs.Value.{IntKind, LongKind, ReferenceKind};
ghost use Rattle.je_machine.specs.Action.{References, LoadElement, New};
ghost use Rattle.je_machine.specs.Operation.{Operation, Handler, Do, Nop, Drop, Copy, Swap, Load};
ghost use Rattle.je_machine.specs.Operation.{Store, Return};
ghost use Rattle.je_shape.specs.Slot.{Slot, Top, Is, Reference, UninitThis, Uninit};
ghost use Rattle.je_shape.specs.Shape.{Shape, Nothing, Has};
ghost use Rattle.je_shape.specs.Flow.{shape_of, flow, component_name};
ghost use Rattle.je_shape.specs.Serves.{ServesOperation};
ghost use Rattle.je_shape.specs.Least.{caught, IsLeast, IsFirstFault, IsClosed, Assignment};
ghost use Rattle.je_shape.specs.Sample.{int, long, object, act, initialise, get_int, put_int};
ghost use Rattle.je_shape.specs.Sample.{plain_method};

/// What instructions leave (JVMS 6.5).
pub fn flows_are_computed()
    // A long is one item of two places.
    ensures longs { (own : List ℕ) (at : ℕ) →
        flow own at (Do (Copy 2 0)) (shape_of (long ∷ []) [])
        ≡ shape_of (long ∷ long ∷ []) [] }
    ensures under_longs { (own : List ℕ) (at : ℕ) →
        flow own at (Do (Copy 1 2)) (shape_of (int ∷ long ∷ []) [])
        ≡ shape_of (int ∷ long ∷ int ∷ []) [] }
    // An element of an array is of the component of each name, and of null it is null.
    ensures components { map component_name (codes "[[I" ∷ codes "[Ljava/lang/String;"
        ∷ codes "[I" ∷ codes "A" ∷ []) ≡ codes "[I" ∷ codes "java/lang/String"
        ∷ codes "java/lang/Object" ∷ codes "java/lang/Object" ∷ [] }
    ensures elements { (own : List ℕ) (at : ℕ) →
        flow own at (act (LoadElement References))
        (shape_of (int ∷ Reference (codes "[[I" ∷ codes "[Ljava/lang/String;" ∷ []) ∷ []) [])
        ≡ shape_of (Reference (codes "[I" ∷ codes "java/lang/String" ∷ []) ∷ []) [] }
    ensures null_elements { (own : List ℕ) (at : ℕ) →
        flow own at (act (LoadElement References)) (shape_of (int ∷ Reference [] ∷ []) [])
        ≡ shape_of (Reference [] ∷ []) [] }
    // A long takes two local variables, and loses both where one is written.
    ensures stored { (own : List ℕ) (at : ℕ) →
        flow own at (Store LongKind 1) (shape_of (long ∷ []) (int ∷ int ∷ int ∷ []))
        ≡ shape_of [] (int ∷ long ∷ Top ∷ []) }
    ensures cut { (own : List ℕ) (at : ℕ) →
        flow own at (Store IntKind 2) (shape_of (int ∷ []) (int ∷ long ∷ Top ∷ []))
        ≡ shape_of [] (int ∷ Top ∷ int ∷ []) }
    ensures padded { (own : List ℕ) (at : ℕ) →
        flow own at (Store IntKind 2) (shape_of (int ∷ []) [])
        ≡ shape_of [] (Top ∷ Top ∷ int ∷ []) }
    // What the same `new` made before is no longer in a local variable.
    ensures made { (own : List ℕ) →
        flow own 3 (act (New (codes "B"))) (shape_of [] (Is (Uninit 3) ∷ Is (Uninit 2) ∷ []))
        ≡ shape_of (Is (Uninit 3) ∷ []) (Top ∷ Is (Uninit 2) ∷ []) }
    // A constructor is called on each copy, and on no other object.
    ensures constructed { (own : List ℕ) (at : ℕ) →
        flow own at (initialise (codes "B"))
        (shape_of (int ∷ Is (Uninit 3) ∷ Is (Uninit 3) ∷ [])
        (Is (Uninit 3) ∷ Is (Uninit 2) ∷ Is UninitThis ∷ []))
        ≡ shape_of (object (codes "B") ∷ [])
        (object (codes "B") ∷ Is (Uninit 2) ∷ Is UninitThis ∷ []) }
    // `this` is of its own class, whichever class's constructor it calls.
    ensures this { (own : List ℕ) (at : ℕ) →
        flow own at (initialise (codes "B")) (shape_of (int ∷ Is UninitThis ∷ [])
        (Is UninitThis ∷ []))
        ≡ shape_of [] (object own ∷ []) }
    // A handler has what it catches on the stack.
    ensures handled { (stack locals : List Slot) (start end target : ℕ) →
        caught (record { start = start; end = end; target = target; catch_class = None })
        (shape_of stack locals)
        ≡ shape_of (object (codes "java/lang/Throwable") ∷ []) locals }
{}

/// Which shapes serve (JVMS 4.10.1.9), and which do not.
pub fn serving_is_computed()
    // There is an item, and no part of one.
    ensures no_item { (operations : List Operation) (at : ℕ) (locals : List Slot) →
        ServesOperation operations at (Do (Drop 1)) (shape_of [] locals) → ⊥ }
    ensures half { (operations : List Operation) (at : ℕ) (locals : List Slot) →
        ServesOperation operations at (Do (Drop 1)) (shape_of (long ∷ []) locals) → ⊥ }
    ensures both { (operations : List Operation) (at : ℕ) (locals : List Slot) →
        ServesOperation operations at (Do (Drop 2)) (shape_of (long ∷ []) locals) }
    ensures two { (operations : List Operation) (at : ℕ) (locals : List Slot) →
        ServesOperation operations at (Do (Drop 2)) (shape_of (int ∷ int ∷ []) locals) }
    // The second place of a long is not loaded.
    ensures second { (operations : List Operation) (at : ℕ) →
        ServesOperation operations at (Load LongKind 1) (shape_of [] (long ∷ Top ∷ [])) → ⊥ }
    // Before its constructor `this` is moved, and its fields are written; they are not read.
    ensures moved { (operations : List Operation) (at : ℕ) →
        ServesOperation operations at (Load ReferenceKind 0) (shape_of [] (Is UninitThis ∷ [])) }
    ensures written { (operations : List Operation) (at : ℕ) (class : List ℕ) →
        ServesOperation operations at (put_int class) (shape_of (int ∷ Is UninitThis ∷ []) []) }
    ensures not_written { (operations : List Operation) (at new : ℕ) (class : List ℕ) →
        ServesOperation operations at (put_int class) (shape_of (int ∷ Is (Uninit new) ∷ []) [])
        → ⊥ }
    ensures not_read { (operations : List Operation) (at : ℕ) (class : List ℕ) →
        ServesOperation operations at (get_int class) (shape_of (Is UninitThis ∷ []) []) → ⊥ }
    ensures not_returned { (operations : List Operation) (at : ℕ) →
        ServesOperation operations at (Return (Some ReferenceKind))
        (shape_of (Is UninitThis ∷ []) []) → ⊥ }
    // A constructor is called once, and on what was made as an object of its class.
    ensures once { (operations : List Operation) (at : ℕ) (class : List ℕ) →
        ServesOperation operations at (initialise class) (shape_of (int ∷ object class ∷ []) [])
        → ⊥ }
    ensures made_as { (operations : List Operation) (at : ℕ) (class : List ℕ) →
        ServesOperation (act (New class) ∷ operations) at (initialise class)
        (shape_of (int ∷ Is (Uninit 0) ∷ []) []) }
    ensures not_made { (operations : List Operation) (at : ℕ) (class : List ℕ) →
        ServesOperation (Do Nop ∷ operations) at (initialise class)
        (shape_of (int ∷ Is (Uninit 0) ∷ []) []) → ⊥ }
    // A `new` wants none of its own objects on the stack.
    ensures again { (operations : List Operation) (at : ℕ) (class : List ℕ) →
        ServesOperation operations at (act (New class)) (shape_of (Is (Uninit at) ∷ []) []) → ⊥ }
{}
