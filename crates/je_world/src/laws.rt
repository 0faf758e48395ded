//! Laws of what is left of a world, over all worlds and questions.

ghost use Rattle.std.specs.Prelude.{Ok, Err};
ghost use Rattle.je_world.specs.declared.stop.Stop.{Stop};
ghost use Rattle.je_world.specs.declared.stop.Stop.TheVariants.{Memory};
ghost use Rattle.je_world.specs.Question.{Name, Known, Question, Answered, Look, and_then};
ghost use Rattle.je_world.specs.Seen.{Seen, Left, Leads, Breaks};
ghost use Rattle.je_world.specs.World.{Answer, Looks};

/// What every call leaves of a world is left after no call, after one and another, and by a look.
pub fn what_is_left_composes()
    ensures none { (old : Seen) → Left old old }
    ensures both { (old now new : Seen) → Left old now → Left now new → Left old new }
    ensures look { (name : Name) (old : Seen) (answer : Answer) (new : Seen) →
        Looks name old answer new → Left old new }
{}

/// A question that is put to a world is asked step by step: what is left of it after a call is
/// asked on, and what comes of its answer.
pub fn questions_compose<A, B>()
    ensures none { (old : Seen) (q : Question A) → Leads old q old q }
    ensures on { (old now new : Seen) (q mid rest : Question A) →
        Leads old q now mid → Leads now mid new rest → Leads old q new rest }
    ensures inside { (old new : Seen) (q rest : Question A) (k : A → Question B) →
        Leads old q new rest → Leads old (and_then q k) new (and_then rest k) }
    ensures behind { (old now new : Seen) (q : Question A) (a : A) (k : A → Question B)
        (rest : Question B) → Leads old q now (Answered a) → Leads now (k a) new rest
        → Leads old (and_then q k) new rest }
    ensures look { (name : Name) (old new : Seen) (go : Known → Question A) (known : Known) →
        Looks name old (Ok known) new → Leads old (Look name go) new (go known) }
{}

/// A question that is given up in a step is given up as a whole, with the cause of that step.
pub fn broken_questions_compose<A, B>()
    ensures on { (old now new : Seen) (q mid : Question A) (why : Stop) →
        Leads old q now mid → Breaks now mid new why → Breaks old q new why }
    ensures inside { (old new : Seen) (q : Question A) (k : A → Question B) (why : Stop) →
        Breaks old q new why → Breaks old (and_then q k) new why }
    ensures behind { (old now new : Seen) (q : Question A) (a : A) (k : A → Question B)
        (why : Stop) → Leads old q now (Answered a) → Breaks now (k a) new why
        → Breaks old (and_then q k) new why }
    ensures memory { (old new : Seen) (q rest : Question A) →
        Leads old q new rest → Breaks old q new Memory }
    ensures look { (name : Name) (old new : Seen) (go : Known → Question A) (why : Stop) →
        Looks name old (Err why) new → Breaks old (Look name go) new why }
{}
