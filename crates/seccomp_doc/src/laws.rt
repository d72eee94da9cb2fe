//! What the definitions promise by themselves.

ghost use Rattle.std.specs.Prelude.{◌≡◌, ℕ, List, true, false, Contains};
ghost use Rattle.std.specs.List.{list_any};
ghost use Rattle.seccomp_doc.specs.Filter.{EntryValue, FilterValue};
ghost use Rattle.seccomp_doc.specs.Lawful.{IsLawfulFilter};
ghost use Rattle.seccomp_doc.specs.Meaning.{is_match, meaning};

/// The meaning of a lawful filter doesn't depend on the order of its entries: it is the action of
/// whichever entry matches, and the default where none does.
pub fn meaning_is_well_defined()
    ensures matched { (f : FilterValue) → IsLawfulFilter f → (name words : List ℕ)
        → (e : EntryValue)
        → Contains f.entries e → is_match name words e ≡ true → meaning f name words ≡ e.action }
    ensures unmatched { (f : FilterValue) → (name words : List ℕ)
        → list_any (is_match name words) f.entries ≡ false → meaning f name words ≡ f.default }
{}
