//! Laws of what tables show of the last event: at an opening it may have reached them or not. Each
//! is a function without a parameter whose contract is the law; it does nothing.

ghost use Rattle.std.specs.Prelude.{◌≡◌, ◌⊎◌, ◌∷◌};
ghost use Rattle.office_words.specs.Tables.{Tables};
ghost use Rattle.office_policy.specs.History.{Event, History};
ghost use Rattle.office_policy.specs.Lawful.{IsLawfulHistory};
ghost use Rattle.office_policy.specs.TablesOf.{tables_of};
ghost use Rattle.office_policy.specs.ShowsEvent.{Shows};

/// The tables of a lawful history show its last event.
pub fn the_last_event_is_shown()
    ensures { (h : History) (e : Event) → IsLawfulHistory (e ∷ h) → Shows (tables_of (e ∷ h)) e }
{}

/// Where the tables show an event that may happen next, they stay what they are when it happens:
/// a user has that row already, a voter has that vote, a team that baseline. What changes a revision
/// is never shown before it happens.
pub fn what_is_shown_before_changes_nothing()
    ensures { (h : History) (e : Event) → IsLawfulHistory (e ∷ h) → Shows (tables_of h) e
        → tables_of (e ∷ h) ≡ tables_of h }
{}

/// So of tables that are those before the last event or those after it, one sees by the event alone
/// which they are.
pub fn the_tables_show_whether_the_last_event_happened()
    ensures shown { (h : History) (e : Event) (t : Tables) → IsLawfulHistory (e ∷ h)
        → (t ≡ tables_of h) ⊎ (t ≡ tables_of (e ∷ h)) → Shows t e → t ≡ tables_of (e ∷ h) }
    ensures hidden { (h : History) (e : Event) (t : Tables) → IsLawfulHistory (e ∷ h)
        → (t ≡ tables_of h) ⊎ (t ≡ tables_of (e ∷ h)) → (Shows t e → ⊥) → t ≡ tables_of h }
{}
