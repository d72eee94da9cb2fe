//! By whom, of what and how often an issue was approved, and what is given out of it.

ghost use Rattle.std.specs.Prelude.{◌≡◌, ◌≢◌, [], ◌∷◌, List, None, Option, Some, Vec, ℕ, false};
ghost use Rattle.std.specs.declared.alloc.Global.{Global};
ghost use Rattle.profile_text.specs.Digest.{digest_of};
ghost use Rattle.profile_text.specs.Profile.{closed_profile};
ghost use Rattle.profile_text.specs.Reading.{reading_of};
ghost use Rattle.profile_text.specs.Text.{text_of};
ghost use Rattle.profile_text.specs.declared.fault.DocFault.{DocFault};
ghost use Rattle.profile_text.specs.declared.profile.Profile.{Profile};
ghost use Rattle.review_policy.specs.declared.ask.Ask.TheVariants as ask;
ghost use Rattle.review_policy.specs.declared.denial.Need.TheVariants.{One, TwoWithSecurity};
ghost use Rattle.office_policy.specs.Documents.{document_of};
ghost use Rattle.office_policy.specs.Duty.{AreEnough, AreOfTheText, AreOthers, IsDigestOf, IsFetched};
ghost use Rattle.office_policy.specs.Duty.{IsPlainRevision, IsSubmission, IsTextOf, NamesTheText};
ghost use Rattle.office_policy.specs.Duty.{ReadsBack};
ghost use Rattle.office_policy.specs.Examples.{adopts_first, ann, baseline_withdrawn, ben};
ghost use Rattle.office_policy.specs.Examples.{both_approve, caps_of, first_issued, has_roles, iss};
ghost use Rattle.office_policy.specs.Examples.{listed, office, one_submitted, ray, rev};
ghost use Rattle.office_policy.specs.Examples.{second_issued, submits, text, web, with_caps};
ghost use Rattle.office_policy.specs.History.{Event, submitted, voted};
ghost use Rattle.office_policy.specs.LawExamples.{author_approves_text, names_text};
ghost use Rattle.office_policy.specs.LawExamples.{one_approves_text, reviewers_approve_text};
ghost use Rattle.office_policy.specs.LawExamples.{text_approved};
ghost use Rattle.office_policy.specs.Need.{need_at};

/// Others approve: not one who was no reviewer at the vote, not an author of the profile, and no
/// author issues it.
pub fn examples_of_approvals_by_others()
    ensures others { AreOthers text_approved iss web 1 }
    ensures no_reviewer_then { AreOthers (has_roles rev 4 (3 ∷ []) ∷ names_text rev
        ∷ has_roles rev 0 (3 ∷ []) ∷ one_submitted) iss web 1 → ⊥ }
    ensures author { AreOthers author_approves_text iss web 1 → ⊥ }
    ensures author_issues { AreOthers text_approved ann web 1 → ⊥ }
{}

/// A vote names the text where it approves it by its digest, behind the submission and no other one.
pub fn examples_of_votes_that_name_the_text()
    ensures named { NamesTheText text_approved web 1 (record { author = ann; text = text }) rev }
    ensures no_vote { NamesTheText text_approved web 1 (record { author = ann; text = text }) ray
        → ⊥ }
    ensures rejects { NamesTheText (voted rev web 1 (digest_of text) false ∷ one_submitted) web 1
        (record { author = ann; text = text }) rev → ⊥ }
    ensures other_digest { NamesTheText both_approve web 1 (record { author = ann; text = text })
        rev → ⊥ }
    ensures other_submission { NamesTheText text_approved web 1
        (record { author = ben; text = text }) rev → ⊥ }
    ensures submitted_since { NamesTheText (submits ben ∷ names_text rev ∷ one_submitted) web 1
        (record { author = ann; text = text }) rev → ⊥ }
{}

/// All approvals are of the text of a revision, where that is there and each names it.
pub fn examples_of_approvals_of_the_text()
    ensures each { AreOfTheText text_approved web 1 }
    ensures no_revision { AreOfTheText office web 1 → ⊥ }
    ensures other_digest { AreOfTheText both_approve web 1 → ⊥ }
{}

/// Two are enough, one of them with security; where one is needed that one. One isn't where two are
/// needed, nor are two of whom none has security.
pub fn examples_of_enough_approvals()
    ensures two { AreEnough text_approved web 1 }
    ensures one { need_at one_approves_text web 1 ≡ One → AreEnough one_approves_text web 1 }
    ensures none { AreEnough one_submitted web 1 → ⊥ }
    ensures too_few { need_at one_approves_text web 1 ≡ TwoWithSecurity
        → AreEnough one_approves_text web 1 → ⊥ }
    ensures none_secure { need_at reviewers_approve_text web 1 ≡ TwoWithSecurity
        → AreEnough reviewers_approve_text web 1 → ⊥ }
{}

/// A revision is plain where its document permits nothing. It isn't where it has a listed capability,
/// though the baseline has it too, or one that the baseline lacks, and where there is none.
pub fn examples_of_plain_revisions()
    ensures closed { (bytes : List ℕ) → document_of bytes ≡ closed_profile
        → IsPlainRevision (submitted ann web bytes ∷ office) web 1 }
    ensures has_listed { (bytes : List ℕ)
        → document_of bytes ≡ with_caps (caps_of listed listed listed)
        → IsPlainRevision (adopts_first bytes) web 1 → ⊥ }
    ensures wider { (bytes : List ℕ) → document_of bytes ≡ with_caps (caps_of 1 0 0)
        → IsPlainRevision (submitted ann web bytes ∷ office) web 1 → ⊥ }
    ensures no_revision { IsPlainRevision office web 1 → ⊥ }
{}

/// A text is that of a revision with its own digest, where the revision carried it.
pub fn examples_of_texts_of_revisions()
    ensures carried { IsTextOf one_submitted web 1 (digest_of text) text }
    ensures other_text { IsTextOf one_submitted web 1 (digest_of (2 ∷ [])) (2 ∷ []) → ⊥ }
    ensures other_revision { IsTextOf one_submitted web 2 (digest_of text) text → ⊥ }
    ensures no_digest { IsTextOf one_submitted web 1 [] text → ⊥ }
{}

/// A digest is that of a revision where the revision's text has it.
pub fn examples_of_digests_of_revisions()
    ensures carried { IsDigestOf one_submitted web 1 (digest_of text) }
    ensures no_digest { IsDigestOf one_submitted web 1 [] → ⊥ }
    ensures no_revision { (digest : List ℕ) → IsDigestOf office web 1 digest → ⊥ }
{}

/// A document that reads becomes the next revision by its canonical text, and its digest is given: not
/// with another number or digest, where it doesn't read, and not where nothing happens.
pub fn examples_of_submissions()
    ensures first { (document : Vec ℕ Global) (p : Profile) → reading_of document.items ≡ Ok p
        → IsSubmission office ann (ask.Submit web document) (digest_of (text_of p)) 1
        (Some (submitted ann web (text_of p))) }
    ensures other_number { (document : Vec ℕ Global) (digest : List ℕ) (e : Option Event)
        → IsSubmission office ann (ask.Submit web document) digest 2 e → ⊥ }
    ensures no_digest { (document : Vec ℕ Global) (n : ℕ) (e : Option Event)
        → IsSubmission office ann (ask.Submit web document) [] n e → ⊥ }
    ensures unread { (document : Vec ℕ Global) (fault : DocFault) (digest : List ℕ) (n : ℕ)
        (e : Option Event) → reading_of document.items ≡ Err fault
        → IsSubmission office ann (ask.Submit web document) digest n e → ⊥ }
    ensures nothing_happens { (document : Vec ℕ Global) (digest : List ℕ) (n : ℕ)
        → IsSubmission office ann (ask.Submit web document) digest n None → ⊥ }
    ensures not_asked { (digest : List ℕ) (n : ℕ) (e : Option Event)
        → IsSubmission office ann ask.Me digest n e → ⊥ }
{}

/// The text that is issued now is fetched; not another one, nor one that was never issued, is withdrawn
/// or is replaced.
pub fn examples_of_fetched_texts()
    ensures issued { IsFetched first_issued web 1 (digest_of text) text }
    ensures other_text { IsFetched first_issued web 1 (digest_of (2 ∷ [])) (2 ∷ []) → ⊥ }
    ensures not_issued { IsFetched both_approve web 1 (digest_of text) text → ⊥ }
    ensures withdrawn { IsFetched baseline_withdrawn web 1 (digest_of text) text → ⊥ }
    ensures replaced { IsFetched second_issued web 1 (digest_of text) text → ⊥ }
{}

/// A text reads back where it reads, and is the canonical text of what it reads as.
pub fn examples_of_texts_that_read_back()
    ensures none { ReadsBack office }
    ensures canonical { (bytes : List ℕ) → reading_of bytes ≡ Ok (document_of bytes)
        → text_of (document_of bytes) ≡ bytes → ReadsBack (submitted ann web bytes ∷ office) }
    ensures unread { (bytes : List ℕ) (fault : DocFault) → reading_of bytes ≡ Err fault
        → ReadsBack (submitted ann web bytes ∷ office) → ⊥ }
    ensures not_canonical { (bytes : List ℕ) → text_of (document_of bytes) ≢ bytes
        → ReadsBack (submitted ann web bytes ∷ office) → ⊥ }
{}
