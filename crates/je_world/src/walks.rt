//! Laws of the walks of a class, over all maps.

ghost use Rattle.std.specs.Prelude.{◌≡◌, [], ◌∷◌, List, Option};
ghost use Rattle.je_world.specs.declared.link.Link.{Link};
ghost use Rattle.je_world.specs.declared.link.Link.TheVariants.{NotFound, Broken, Cycle};
ghost use Rattle.je_world.specs.Question.{Name, Map};
ghost use Rattle.je_world.specs.Walk.{IsWalk, IsFieldWalk};
ghost use Rattle.je_world.specs.Sample.{object, a, b, c, d, e, f, g, i, j, k, p, q};
ghost use Rattle.je_world.specs.Sample.{missing, broken};
ghost use Rattle.je_world.specs.Sample.{samples, lies_in, walked, field_walked, along};
ghost use Rattle.je_world.specs.Sample.{seeking, looking};
ghost use Rattle.je_world.specs.Search.{Search, asked_by, search_over, at_end, walk, field_walk};
ghost use Rattle.je_world.specs.Search.{Bad, Decided};

/// Each name has one walk and one field walk.
pub fn each_name_has_one_walk()
    ensures walk { (map : Map) (name : Name) →
        (names : List Name) × (end : Option Link) × IsWalk map name names end }
    ensures one { (map : Map) (name : Name) (a b : List Name) (x y : Option Link) →
        IsWalk map name a x → IsWalk map name b y → (a ≡ b) × (x ≡ y) }
    ensures field_walk { (map : Map) (name : Name) →
        (names : List Name) × (end : Option Link) × IsFieldWalk map name names end }
    ensures one_field_walk { (map : Map) (name : Name) (a b : List Name) (x y : Option Link) →
        IsFieldWalk map name a x → IsFieldWalk map name b y → (a ≡ b) × (x ≡ y) }
{}

/// A search looks at the names of the walk in order, up to the first that decides it, and at no
/// others.
pub fn searches_follow_walks<A>()
    ensures walk { (s : Search A) (map : Map) (name : Name) (names : List Name)
        (end : Option Link) → IsWalk map name names end
        → asked_by map (walk s name) ≡ search_over s map names (at_end s end names) }
    ensures field_walk { (s : Search A) (map : Map) (name : Name) (names : List Name)
        (end : Option Link) (walk : IsFieldWalk map name names end) →
        asked_by map (field_walk s name) ≡ search_over s map walk.gone (at_end s end walk.gone) }
{}

/// Walks over a few classes, as JVMS 5.4.3.3 has them.
pub fn small_walks()
    ensures top { walked object ≡ along (object ∷ []) }
    ensures diamond { walked a ≡ along (a ∷ object ∷ i ∷ k ∷ j ∷ []) }
    ensures repeats { walked b ≡ along (b ∷ a ∷ object ∷ j ∷ k ∷ i ∷ []) }
    ensures interface { walked i ≡ along (i ∷ object ∷ k ∷ []) }
    ensures classes_in_a_ring { walked c ≡ (c ∷ d ∷ [], Bad (Cycle c)) }
    ensures interfaces_in_a_ring { walked e ≡ (e ∷ object ∷ p ∷ q ∷ [], Bad (Cycle p)) }
    ensures broken_above { walked f ≡ (f ∷ broken ∷ [], Bad (Broken broken)) }
    ensures missing_above { walked g ≡ (g ∷ missing ∷ [], Bad (NotFound missing)) }
    ensures missing { walked missing ≡ (missing ∷ [], Bad (NotFound missing)) }
{}

/// Field walks over the same classes, as JVMS 5.4.3.2 has them.
pub fn small_field_walks()
    ensures top { field_walked object ≡ along (object ∷ []) }
    ensures diamond { field_walked a ≡ along (a ∷ i ∷ k ∷ j ∷ object ∷ []) }
    ensures repeats { field_walked b ≡ along (b ∷ j ∷ k ∷ a ∷ i ∷ object ∷ []) }
    ensures interface { field_walked i ≡ along (i ∷ k ∷ object ∷ []) }
    ensures classes_in_a_ring { field_walked c ≡ (c ∷ d ∷ [], Bad (Cycle c)) }
    ensures interfaces_in_a_ring { field_walked e ≡ (e ∷ p ∷ q ∷ [], Bad (Cycle p)) }
    ensures broken_above { field_walked f ≡ (f ∷ i ∷ k ∷ broken ∷ [], Bad (Broken broken)) }
    ensures missing_above { field_walked g ≡ (g ∷ missing ∷ [], Bad (NotFound missing)) }
{}

/// Searches that are decided before the walk meets what is bad.
pub fn small_searches()
    ensures met { asked_by (lies_in samples) (walk (seeking broken) f)
        ≡ (f ∷ [], Decided broken) }
    ensures seen { asked_by (lies_in samples) (field_walk (looking k) f)
        ≡ (f ∷ i ∷ k ∷ [], Decided k) }
    ensures at_once { asked_by (lies_in samples) (walk (seeking missing) missing)
        ≡ ([], Decided missing) }
    ensures ring { asked_by (lies_in samples) (walk (seeking d) c) ≡ (c ∷ [], Decided d) }
    ensures in_order { asked_by (lies_in samples) (field_walk (seeking object) b)
        ≡ (b ∷ j ∷ k ∷ a ∷ i ∷ [], Decided object) }
{}
