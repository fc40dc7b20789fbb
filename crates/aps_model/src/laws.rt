//! What the definitions of merit, of the greatest candidate and of inheritance say, in words that share nothing with them.
ghost use Rattle.std.specs.Prelude.{◌≡◌, ◌≢◌, ◌↔◌, ℕ, not, List, [], Option, Some, None, slice_index_or};
ghost use Rattle.aps_model.specs.declared.merit.Contender.{Contender};
ghost use Rattle.aps_model.specs.declared.merit.Merit.{Merit};
ghost use Rattle.aps_model.specs.declared.merit.PartFacts.{PartFacts};
ghost use Rattle.aps_model.specs.declared.shape.Free.{Free};
ghost use Rattle.aps_model.specs.Inherit.{Inheritance, IsMade, HasClientsValues, inherited, top_at, triple_of};
ghost use Rattle.aps_model.specs.Merit.{is_greater};
ghost use Rattle.aps_model.specs.Pick.{IsGreatestCandidate, candidates, greatest};
ghost use Rattle.aps_model.specs.SchedulerState.{Triple, no_facts};

/// The greatest candidate is a candidate that every candidate with another stamp is less than, under either policy
/// of free time; whoever is so has its stamp; and there is none exactly where there is no candidate.
pub fn greatest_is_greatest()
    ensures found { (free : Free) (parts : List PartFacts) (cs : List Contender) (best : Contender)
        → greatest free parts cs ≡ Some best
        → IsGreatestCandidate free parts cs best }
    ensures only { (free : Free) (parts : List PartFacts) (cs : List Contender) (best other : Contender)
        → greatest free parts cs ≡ Some best
        → IsGreatestCandidate free parts cs other
        → other.stamp ≡ best.stamp }
    ensures none { (free : Free) (parts : List PartFacts) (cs : List Contender)
        → (greatest free parts cs ≡ None) ↔ (candidates parts cs ≡ []) }
{}

/// A server has its client's partition and mark, and the greatest of its client's priority and of the priorities that
/// wait at the channel of its triple. Whoever serves nobody has its own values.
pub fn servers_have_their_clients_values()
    ensures server { (i : Inheritance) (x : ℕ) (t : Triple)
        → IsMade i.triples
        → triple_of i.triples x ≡ Some t
        → HasClientsValues (top_at i.tops t.channel) (inherited i x) (inherited i t.client) }
    ensures others { (i : Inheritance) (x : ℕ) → triple_of i.triples x ≡ None → inherited i x ≡ slice_index_or i.own x no_facts }
{}

/// Of two merits with distinct stamps exactly one is greater, under either policy of free time.
pub fn distinct_stamps_decide()
    ensures { (free : Free) (a b : Merit) → a.stamp ≢ b.stamp → is_greater free b a ≡ not (is_greater free a b) }
{}
