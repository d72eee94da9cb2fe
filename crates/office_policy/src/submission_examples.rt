//! Worked examples of submissions, whatever the document reads as: each proved by computing.

ghost use Rattle.std.specs.Prelude.{◌≡◌, ◌≢◌, ◌∷◌, Ok, Some, ℕ, List, Vec};
ghost use Rattle.std.specs.declared.alloc.Global.{Global};
ghost use Rattle.profile_text.specs.FaultText.{fault_text_of};
ghost use Rattle.profile_text.specs.Text.{text_of};
ghost use Rattle.profile_text.specs.declared.fault.DocFault.{DocFault};
ghost use Rattle.profile_text.specs.declared.profile.Profile.{Profile};
ghost use Rattle.review_policy.specs.declared.ask.Ask.TheVariants as ask;
ghost use Rattle.review_policy.specs.declared.denial.Rule.TheVariants as rule;
ghost use Rattle.office_policy.specs.History.{submitted};
ghost use Rattle.office_policy.specs.Verdict.{denied};
ghost use Rattle.office_policy.specs.Examples.{ann, ben, web, unknown_profile, office, issues};
ghost use Rattle.office_policy.specs.Examples.{withdraws, refused, decision, told};
ghost use Rattle.office_policy.specs.Submitting.{ReadsAs, FailsToRead, submits_text, submitted_as};
ghost use Rattle.office_policy.specs.Submitting.{with_revisions};

/// The text of the open revision isn't submitted again, whoever submitted it; that of an issued,
/// closed or withdrawn one is.
pub fn examples_of_submissions()
    ensures first { (d : Vec ℕ Global) (p : Profile) → ReadsAs d p
        → told office ann (ask.Submit web d)
        ≡ submitted_as 1 ann p }
    ensures next { (d : Vec ℕ Global) (p : Profile) (old : List ℕ) → ReadsAs d p → text_of p ≢ old
        → told (submitted ann web old ∷ office) ben (ask.Submit web d)
        ≡ submitted_as 2 ben p }
    ensures open { (d : Vec ℕ Global) (p : Profile) → ReadsAs d p
        → decision (submits_text p ∷ office) ann (ask.Submit web d) ≡ refused 5 rule.SameAsOpen }
    ensures open_of_another_author { (d : Vec ℕ Global) (p : Profile) → ReadsAs d p
        → decision (submits_text p ∷ office) ben (ask.Submit web d) ≡ refused 5 rule.SameAsOpen }
    ensures of_another_profile { (d : Vec ℕ Global) (p : Profile) → ReadsAs d p
        → decision (submits_text p ∷ office) ann (ask.Submit unknown_profile d) ≡ Ok tt }
    ensures issued { (d : Vec ℕ Global) (p : Profile) → ReadsAs d p
        → decision (issues 1 ∷ submits_text p ∷ office) ann (ask.Submit web d) ≡ Ok tt }
    ensures closed { (d : Vec ℕ Global) (p : Profile) (new : List ℕ) → ReadsAs d p → text_of p ≢ new
        → decision (submitted ann web new ∷ submits_text p ∷ office) ann (ask.Submit web d)
        ≡ Ok tt }
    ensures withdrawn { (d : Vec ℕ Global) (p : Profile) → ReadsAs d p
        → decision (withdraws 1 ∷ submits_text p ∷ office) ann (ask.Submit web d) ≡ Ok tt }
    ensures no_document { (d : Vec ℕ Global) (fault : DocFault) → FailsToRead d fault
        → told office ann (ask.Submit web d)
        ≡ denied (record { number = 4; rule = rule.Document }) (Some (fault_text_of fault)) }
{}

/// A profile has at most 9,999 revisions; where the text is that of the open one, this is named
/// first.
pub fn examples_of_full_profiles()
    ensures last { (d : Vec ℕ Global) (p : Profile) (old : List ℕ) → ReadsAs d p → text_of p ≢ old
        → decision (with_revisions 9998 old) ann (ask.Submit web d) ≡ Ok tt }
    ensures full { (d : Vec ℕ Global) (p : Profile) (old : List ℕ) → ReadsAs d p → text_of p ≢ old
        → decision (with_revisions 9999 old) ann (ask.Submit web d) ≡ refused 6 rule.RevisionsFull }
    ensures full_of_withdrawn { (d : Vec ℕ Global) (p : Profile) → ReadsAs d p
        → decision (withdraws 9999 ∷ with_revisions 9999 (text_of p)) ann (ask.Submit web d)
        ≡ refused 6 rule.RevisionsFull }
    ensures same_before_full { (d : Vec ℕ Global) (p : Profile) → ReadsAs d p
        → decision (with_revisions 9999 (text_of p)) ann (ask.Submit web d)
        ≡ refused 5 rule.SameAsOpen }
{}
