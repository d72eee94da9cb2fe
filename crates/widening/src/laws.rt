//! What holds of findings, apart from any call.

ghost use Rattle.std.specs.Prelude.{◌≡◌, ◌∷◌, [], false, IfSome};
ghost use Rattle.std.specs.Cmp.Lexicographic.{slice_cmp};
ghost use Rattle.std.specs.List.Sorted.{IsStrictlySortedBy};
ghost use Rattle.std.specs.Ordering.{nat_cmp};
ghost use Rattle.profile_text.specs.Profile.{closed_profile};
ghost use Rattle.profile_text.specs.Reads.{HasKnownCaps};
ghost use Rattle.profile_text.specs.declared.profile.Profile.{Profile};
ghost use Rattle.seccomp_doc.specs.Lawful.{IsLawfulFilter};
ghost use Rattle.widening.specs.declared.finding.Finding.TheVariants.{AnyArch, Arch, Flag};
ghost use Rattle.widening.specs.Examples.{listing, spec_allow, x86, x86_64};
ghost use Rattle.widening.specs.Findings.{between_filters, called, findings_of, is_wider};
ghost use Rattle.widening.specs.Permits.{IsNoWider};

/// Where nothing is found, the new profile permits no more than its baseline: each of its five
/// capability sets is within the baseline's, and for every call and all arguments its action is no
/// more permissive.
pub fn no_finding_permits_no_more()
    ensures list { (base new : Profile) → HasKnownCaps new.caps → findings_of base new ≡ []
        → IsNoWider base new }
    ensures test { (base new : Profile) → HasKnownCaps new.caps → is_wider base new ≡ false
        → IsNoWider base new }
{}

/// Nothing is found between a profile and itself.
pub fn nothing_is_found_against_itself()
    ensures { (p : Profile) → IfSome p.filter IsLawfulFilter → findings_of p p ≡ [] }
{}

/// The names of the calls that are found stand once each, in byte order.
pub fn calls_are_found_in_byte_order()
    ensures { (base new : Profile)
        → IsStrictlySortedBy (slice_cmp nat_cmp) (called (findings_of base new)) }
{}

/// The closed profile permits no more than any other: it has no capability, and nothing is stricter
/// than what it does with each call.
pub fn the_closed_profile_permits_no_more_than_any()
    ensures { (base : Profile) → IsNoWider base closed_profile }
{}

/// An architecture or a flag that the baseline doesn't list is found; so is a filter that lists no
/// architecture, which stands for any, where the baseline lists some.
pub fn examples_of_what_filters_list()
    ensures any { between_filters (listing (x86_64 ∷ []) []) (listing [] []) ≡ AnyArch ∷ [] }
    ensures one_more { between_filters (listing (x86_64 ∷ []) []) (listing (x86_64 ∷ x86 ∷ []) [])
        ≡ Arch x86 ∷ [] }
    ensures another { between_filters (listing (x86_64 ∷ []) []) (listing (x86 ∷ []) [])
        ≡ Arch x86 ∷ [] }
    ensures of_any { between_filters (listing [] []) (listing (x86 ∷ []) []) ≡ Arch x86 ∷ [] }
    ensures one_less { between_filters (listing (x86_64 ∷ x86 ∷ []) []) (listing (x86 ∷ []) [])
        ≡ [] }
    ensures still_any { between_filters (listing [] []) (listing [] []) ≡ [] }
    ensures flag { between_filters (listing [] []) (listing [] (spec_allow ∷ []))
        ≡ Flag spec_allow ∷ [] }
    ensures no_flag { between_filters (listing [] (spec_allow ∷ [])) (listing [] []) ≡ [] }
{}
