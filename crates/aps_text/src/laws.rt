//! Laws of journals. Each function states one, and does nothing.
ghost use Rattle.std.specs.Prelude.{◌≡◌, ◌↔◌, ℕ, List, Some, None, IsTrue};
ghost use Rattle.aps_model.specs.declared.entry.Entry.{Entry};
ghost use Rattle.aps_model.specs.Journal.{IsJournal};
ghost use Rattle.aps_text.specs.Place.{Place};
ghost use Rattle.aps_text.specs.Refusal.{BeginsJournal, IsFirstBad};
ghost use Rattle.aps_text.specs.Whole.{begins_journal, first_bad_place};

/// A text is the journal of one list of entries at most, and a list has one journal at most.
pub fn one_to_one()
    ensures list { (es fs : List Entry) (bytes : List ℕ) → IsJournal es bytes → IsJournal fs bytes → es ≡ fs }
    ensures text { (es : List Entry) (bytes others : List ℕ) → IsJournal es bytes → IsJournal es others → bytes ≡ others }
{}

/// The computed test holds of exactly the bytes that some journal begins with.
pub fn beginnings_compute()
    ensures { (bytes : List ℕ) → IsTrue (begins_journal bytes) ↔ BeginsJournal bytes }
{}

/// A text is bad first at one place at most. The computed place is that one, and there is none
/// exactly where the text is a journal.
pub fn bad_places_compute()
    ensures one { (bytes : List ℕ) (p q : Place) → IsFirstBad bytes p → IsFirstBad bytes q → p ≡ q }
    ensures place { (bytes : List ℕ) (p : Place) → (first_bad_place bytes ≡ Some p) ↔ IsFirstBad bytes p }
    ensures none { (bytes : List ℕ) → (first_bad_place bytes ≡ None) ↔ ((es : List Entry) × IsJournal es bytes) }
{}
