//! What laws say of numbers, callers, revisions and lists, each of them also by what it excludes.

ghost use Rattle.std.specs.Prelude.{◌≡◌, ◌<◌, [], ◌∷◌, List, None, Option, Some, ℕ, codes};
ghost use Rattle.std.specs.Prelude.{false, true};
ghost use Rattle.profile_text.specs.Digest.{digest_of};
ghost use Rattle.review_policy.specs.Rules.{is_issued};
ghost use Rattle.review_policy.specs.declared.act.ProfileView.TheVariants as views;
ghost use Rattle.review_policy.specs.declared.act.RevisionView.TheVariants.{Sheet};
ghost use Rattle.review_policy.specs.declared.answer.Answer.TheVariants.{Done};
ghost use Rattle.review_policy.specs.declared.answer.Reply.TheVariants as reply;
ghost use Rattle.review_policy.specs.declared.ask.Ask.TheVariants as ask;
ghost use Rattle.review_policy.specs.declared.denial.Denial.{Denial};
ghost use Rattle.office_words.specs.declared.name.ProfileName.{ProfileName};
ghost use Rattle.office_words.specs.declared.revision.State.TheVariants.{Closed, Open};
ghost use Rattle.office_policy.specs.Asked.{IsSeen, TellsCaller};
ghost use Rattle.office_policy.specs.Duty.{without_text};
ghost use Rattle.office_policy.specs.Examples.{ann, ben, blue, both_submitted, desk, issues};
ghost use Rattle.office_policy.specs.Examples.{listed_as, one_submitted, second_issued, sue, text};
ghost use Rattle.office_policy.specs.Examples.{web};
ghost use Rattle.office_policy.specs.Headline.{GivesOutApproved};
ghost use Rattle.office_policy.specs.History.{History};
ghost use Rattle.office_policy.specs.LawExamples.{sue_shows};
ghost use Rattle.office_policy.specs.Laws.{ListsAll, OneIssued, listed_names};
ghost use Rattle.office_policy.specs.Listing.{listing_of};
ghost use Rattle.office_policy.specs.Revisions.{revision_count, revision_of, state_in};
ghost use Rattle.office_policy.specs.Verdict.{accepted, denied};
ghost use Rattle.example_tests.specs.Examples.{approved};

/// At most one revision is issued: of two that are, the numbers are one.
pub fn examples_of_one_issued_revision()
    ensures one { OneIssued second_issued web }
    ensures two { (h : History) (p : ProfileName) → OneIssued h p
        → is_issued (state_in (revision_of h p 1)) ≡ true
        → is_issued (state_in (revision_of h p 2)) ≡ true → ⊥ }
{}

/// What is given out, or told as issued, has the number of the revision that was approved.
pub fn examples_of_numbers_that_are_given_out()
    ensures fetched { (token : List ℕ) → GivesOutApproved (issues 1 ∷ approved)
        (record { token = token; ask = ask.SeeProfile views.Fetch web })
        (Done (reply.Fetched (digest_of text) text 2)) → ⊥ }
    ensures told { (token : List ℕ) → GivesOutApproved (issues 1 ∷ approved)
        (record { token = token; ask = ask.SeeProfile views.Issued web })
        (Done (reply.IssuedNow (digest_of text) 2)) → ⊥ }
    ensures without_its_text { (digest bytes : List ℕ)
        → without_text (accepted (reply.Fetched digest bytes 3) None)
        ≡ accepted (reply.IssuedNow digest 3) None }
    ensures denied { (d : Denial) (told : Option (List ℕ))
        → without_text (denied d told) ≡ denied d told }
{}

/// The user who shows the token is told with the roles of now: not with those of before, nor is
/// another user, or one who isn't enrolled.
pub fn examples_of_callers_who_are_told()
    ensures own { (token : List ℕ) → TellsCaller (sue_shows 8 token)
        (record { token = token; ask = ask.Me }) (reply.Me sue desk 8) }
    ensures former_roles { (token : List ℕ) → TellsCaller (sue_shows 8 token)
        (record { token = token; ask = ask.Me }) (reply.Me sue desk 12) → ⊥ }
    ensures other_team { (token : List ℕ) → TellsCaller (sue_shows 8 token)
        (record { token = token; ask = ask.Me }) (reply.Me sue blue 8) → ⊥ }
    ensures other_user { (token : List ℕ) → TellsCaller (sue_shows 8 token)
        (record { token = token; ask = ask.Me }) (reply.Me ann blue 2) → ⊥ }
    ensures nobody { (token : List ℕ) → TellsCaller (sue_shows 8 token)
        (record { token = token; ask = ask.Me }) (reply.Me (codes "nobody") desk 8) → ⊥ }
    ensures nothing { (token : List ℕ) → TellsCaller (sue_shows 8 token)
        (record { token = token; ask = ask.Me }) reply.Nothing → ⊥ }
{}

/// All revisions of a profile are seen, or all below a number, and whether there are more; a sheet is
/// seen of the revision that was asked for.
pub fn examples_of_revisions_that_are_seen()
    ensures all { IsSeen both_submitted (ask.Revisions web None)
        (reply.Revisions (listed_as 2 Open ann ∷ listed_as 1 Closed ben ∷ []) false) }
    ensures below { IsSeen both_submitted (ask.Revisions web (Some 2))
        (reply.Revisions (listed_as 1 Closed ben ∷ []) false) }
    ensures left_out { IsSeen both_submitted (ask.Revisions web None)
        (reply.Revisions (listed_as 2 Open ann ∷ []) false) → ⊥ }
    ensures not_below { IsSeen both_submitted (ask.Revisions web (Some 2))
        (reply.Revisions (listed_as 2 Open ann ∷ listed_as 1 Closed ben ∷ []) false) → ⊥ }
    ensures none_more { IsSeen both_submitted (ask.Revisions web None)
        (reply.Revisions (listed_as 2 Open ann ∷ listed_as 1 Closed ben ∷ []) true) → ⊥ }
    ensures nothing { IsSeen both_submitted (ask.Revisions web None) reply.Nothing → ⊥ }
    ensures no_sheet { IsSeen one_submitted (ask.SeeRevision Sheet web 1) reply.Nothing → ⊥ }
{}

/// Where all profiles of a team are listed, none that has a revision is left out, and none without one
/// stands there.
pub fn examples_of_lists_of_all()
    ensures all { ListsAll one_submitted blue }
    ensures left_out { (h : History) → ListsAll h blue → 0 < revision_count h web
        → listing_of h blue ≡ [] → ⊥ }
    ensures without_revision { (h : History) → ListsAll h blue → revision_count h web ≡ 0
        → listed_names (listing_of h blue) ≡ codes "web" ∷ [] → ⊥ }
{}
