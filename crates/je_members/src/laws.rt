//! Laws of the questions, over all maps, and small cases that are computed.

ghost use Rattle.std.specs.Prelude.{◌≡◌, true, false, List, [], ◌∷◌, Ok, Err, Option, Contains};
ghost use Rattle.je_desc.specs.FieldType.{Base, Object, Array, Int, Long};
ghost use Rattle.je_world.specs.declared.link.Link.{Link};
ghost use Rattle.je_world.specs.declared.link.Link.TheVariants.{NotFound, Broken, Cycle};
ghost use Rattle.je_world.specs.Sample.{object, a, b, c, d, e, f, g, i, j, k, p, q};
ghost use Rattle.je_world.specs.Sample.{missing, broken};
ghost use Rattle.je_world.specs.Question.{Name, Map, answer_by, names_by};
ghost use Rattle.je_world.specs.Walk.{IsWalk};
ghost use Rattle.je_members.specs.OnWalk.{answered, come_to, meets_one};
ghost use Rattle.je_members.specs.Subtype.{subtype, assignable};
ghost use Rattle.je_members.specs.Common.{common_super, first_above, superclasses};
ghost use Rattle.je_members.specs.Sample.{asked_of, face, cloneable, serializable};
ghost use Rattle.je_members.specs.Sample.{ints, array_of};

/// A class is a subtype exactly of what its walk comes to; of another name it is none, or what is
/// bad on the walk is the answer.
pub fn subtypes_follow_walks()
    ensures { (map : Map) (sub sup : Name) (names : List Name) (end : Option Link) →
        IsWalk map sub names end → answer_by map (subtype sub sup)
        ≡ answered (meets_one sup (come_to names end)) end }
{}

/// A question looks at names of the walks of its classes, and at no others.
pub fn questions_stay_on_walks()
    ensures subtype { (map : Map) (sub sup : Name) (names : List Name) (end : Option Link) →
        IsWalk map sub names end → (x : Name) → Contains (names_by map (subtype sub sup)) x
        → Contains (come_to names end) x }
    ensures assignable { (map : Map) (sub sup : Name) (names : List Name) (end : Option Link) →
        IsWalk map sub names end → (x : Name)
        → Contains (names_by map (assignable (Object sub) (Object sup))) x
        → Contains (come_to names end) x }
    ensures superclasses { (map : Map) (name : Name) (names : List Name) (end : Option Link) →
        IsWalk map name names end → (x : Name) → Contains (names_by map (superclasses name)) x
        → Contains (come_to names end) x }
    ensures first_above { (map : Map) (sought : List Name) (name : Name) (names : List Name)
        (end : Option Link) → IsWalk map name names end → (x : Name)
        → Contains (names_by map (first_above sought name)) x → Contains (come_to names end) x }
{}

/// Subtypes, with the names that are looked at (JLS 4.10.2).
pub fn small_subtypes()
    ensures itself { asked_of (subtype missing missing) ≡ ([], Ok true) }
    ensures superclass { asked_of (subtype b a) ≡ (b ∷ [], Ok true) }
    ensures interface { asked_of (subtype a k) ≡ (a ∷ object ∷ i ∷ [], Ok true) }
    ensures not_below { asked_of (subtype i j) ≡ (i ∷ object ∷ k ∷ [], Ok false) }
    ensures before_what_is_bad { asked_of (subtype f broken) ≡ (f ∷ [], Ok true) }
    ensures missing_above { asked_of (subtype g i)
        ≡ (g ∷ missing ∷ [], Err (NotFound missing)) }
    ensures broken_above { asked_of (subtype f k) ≡ (f ∷ broken ∷ [], Err (Broken broken)) }
    ensures ring { asked_of (subtype c a) ≡ (c ∷ d ∷ [], Err (Cycle c)) }
{}

/// Which type takes the values of which (JLS 5.2, 4.10.3).
pub fn small_assignments()
    ensures same_base { asked_of (assignable (Base Int) (Base Int)) ≡ ([], Ok true) }
    ensures other_base { asked_of (assignable (Base Int) (Base Long)) ≡ ([], Ok false) }
    ensures array_to_object { asked_of (assignable ints (Object object)) ≡ ([], Ok true) }
    ensures array_to_cloneable { asked_of (assignable ints (Object cloneable)) ≡ ([], Ok true) }
    ensures array_to_serializable { asked_of (assignable ints (Object serializable))
        ≡ ([], Ok true) }
    ensures array_to_class { asked_of (assignable ints (Object a)) ≡ ([], Ok false) }
    ensures class_to_array { asked_of (assignable (Object a) ints) ≡ ([], Ok false) }
    ensures by_components { asked_of (assignable (array_of b) (array_of a))
        ≡ (b ∷ [], Ok true) }
    ensures array_to_objects { asked_of (assignable (Array ints) (array_of object))
        ≡ ([], Ok true) }
    ensures base_to_objects { asked_of (assignable ints (array_of object)) ≡ ([], Ok false) }
{}

/// Common superclasses, with the names that are looked at.
pub fn small_common_supers()
    ensures itself { asked_of (common_super (Object missing) (Object missing))
        ≡ ([], Ok (Object missing)) }
    ensures superclass { asked_of (common_super (Object b) (Object a))
        ≡ (b ∷ a ∷ a ∷ object ∷ b ∷ [], Ok (Object a)) }
    ensures from_below { asked_of (common_super (Object a) (Object b))
        ≡ (a ∷ b ∷ b ∷ a ∷ object ∷ [], Ok (Object a)) }
    ensures arrays { asked_of (common_super (array_of b) (array_of a))
        ≡ (b ∷ a ∷ a ∷ object ∷ b ∷ [], Ok (array_of a)) }
    ensures arrays_of_base { asked_of (common_super ints (Array (Base Long)))
        ≡ ([], Ok (Object object)) }
    ensures arrays_of_arrays { asked_of (common_super (Array ints) (Array (Array (Base Long))))
        ≡ ([], Ok (array_of object)) }
    ensures interface { asked_of (common_super (Object face) (Object missing))
        ≡ (face ∷ [], Ok (Object object)) }
    ensures second_interface { asked_of (common_super (Object a) (Object face))
        ≡ (a ∷ face ∷ [], Ok (Object object)) }
    ensures array_and_class { asked_of (common_super ints (Object a)) ≡ ([], Ok (Object object)) }
    ensures missing_above { asked_of (common_super (Object a) (Object g))
        ≡ (a ∷ g ∷ g ∷ missing ∷ [], Err (NotFound missing)) }
{}
