//! Worked examples of what is told of callers, of the revisions of a profile, and of the issued one,
//! each proved by computing.

ghost use Rattle.std.specs.Prelude.{◌≡◌, ◌∷◌, [], Ok, Some, None, codes, true, false, replicate};
ghost use Rattle.profile_text.specs.Digest.{digest_of};
ghost use Rattle.review_policy.specs.declared.act.ProfileView.TheVariants as views;
ghost use Rattle.review_policy.specs.declared.ask.Ask.TheVariants as ask;
ghost use Rattle.review_policy.specs.declared.answer.Reply.TheVariants as reply;
ghost use Rattle.review_policy.specs.declared.denial.Rule.TheVariants as rule;
ghost use Rattle.office_words.specs.declared.revision.State.TheVariants.{Open, Closed, Issued};
ghost use Rattle.office_words.specs.declared.revision.State.TheVariants.{Replaced, Withdrawn};
ghost use Rattle.office_policy.specs.History.{submitted};
ghost use Rattle.office_policy.specs.Newest.{newest_told};
ghost use Rattle.office_policy.specs.Verdict.{accepted};
ghost use Rattle.office_policy.specs.Examples.{blue, desk, root, ann, ben, rev, iss, rob, web};
ghost use Rattle.office_policy.specs.Examples.{blue_machine, red_machine, unknown_profile, office};
ghost use Rattle.office_policy.specs.Examples.{text, has_roles, enrols_rob};
ghost use Rattle.office_policy.specs.Examples.{one_submitted, both_submitted, second_issued};
ghost use Rattle.office_policy.specs.Examples.{second_withdrawn, held_when_issued};
ghost use Rattle.office_policy.specs.Examples.{refused, decision, told, open_row, listed_as};

/// Every user is told the own name, team and present roles, and nobody else is told anything.
pub fn examples_of_callers_told()
    ensures registrar { told office root ask.Me ≡ accepted (reply.Me root desk 1) None }
    ensures machine { told office blue_machine ask.Me
        ≡ accepted (reply.Me blue_machine blue 32) None }
    ensures of_several_roles { told office ben ask.Me ≡ accepted (reply.Me ben blue 6) None }
    ensures without_roles { told (has_roles rev 0 (3 ∷ []) ∷ office) rev ask.Me
        ≡ accepted (reply.Me rev desk 0) None }
    ensures stranger { decision office (codes "nobody") ask.Me ≡ refused 1 rule.CallerUnknown }
{}

/// The revisions of a profile are told with their present states and who handed each in, the newest
/// first; before a number, those that are older.
pub fn examples_of_revisions_told()
    ensures newest_first { told both_submitted rev (ask.Revisions web None)
        ≡ accepted (reply.Revisions (listed_as 2 Open ann ∷ listed_as 1 Closed ben ∷ []) false)
        None }
    ensures states { told second_issued ann (ask.Revisions web None)
        ≡ accepted (reply.Revisions (listed_as 2 Issued ann ∷ listed_as 1 Replaced ann ∷ []) false)
        None }
    ensures withdrawn { told second_withdrawn iss (ask.Revisions web None)
        ≡ accepted
        (reply.Revisions (listed_as 2 Withdrawn ann ∷ listed_as 1 Replaced ann ∷ []) false) None }
    ensures before { told both_submitted ann (ask.Revisions web (Some 2))
        ≡ accepted (reply.Revisions (listed_as 1 Closed ben ∷ []) false) None }
    ensures none_before { told both_submitted ann (ask.Revisions web (Some 1))
        ≡ accepted (reply.Revisions [] false) None }
    ensures all_before { told both_submitted ann (ask.Revisions web (Some 9999))
        ≡ told both_submitted ann (ask.Revisions web None) }
    ensures of_that_profile { told (submitted ben unknown_profile text ∷ one_submitted) ben
        (ask.Revisions web None)
        ≡ accepted (reply.Revisions (listed_as 1 Open ann ∷ []) false) None }
    ensures while_held { told held_when_issued ann (ask.Revisions web None)
        ≡ accepted (reply.Revisions (listed_as 1 Issued ann ∷ []) false) None }
{}

/// At most 100 revisions are told, the newest, and whether there are older ones.
pub fn examples_of_long_lists()
    ensures all { newest_told (replicate 100 (open_row 7 text))
        ≡ reply.Revisions (replicate 100 (listed_as 7 Open ann)) false }
    ensures more { newest_told (replicate 101 (open_row 7 text))
        ≡ reply.Revisions (replicate 100 (listed_as 7 Open ann)) true }
    ensures oldest_left { newest_told (open_row 8 text ∷ replicate 100 (open_row 7 text))
        ≡ reply.Revisions (listed_as 8 Open ann ∷ replicate 99 (listed_as 7 Open ann)) true }
{}

/// Those who list the profiles of a team see the revisions of each that has one.
pub fn examples_of_revisions_refused()
    ensures stranger { decision one_submitted (codes "nobody") (ask.Revisions web None)
        ≡ refused 1 rule.CallerUnknown }
    ensures no_role { decision one_submitted blue_machine (ask.Revisions unknown_profile None)
        ≡ refused 2 rule.RoleMissing }
    ensures other_team { decision (enrols_rob 2 ∷ one_submitted) rob
        (ask.Revisions unknown_profile None) ≡ refused 3 rule.OtherTeam }
    ensures no_profile { decision one_submitted ann (ask.Revisions unknown_profile (Some 1))
        ≡ refused 4 rule.NoProfile }
    ensures of_other_team { decision (enrols_rob 4 ∷ one_submitted) rob (ask.Revisions web None)
        ≡ Ok tt }
{}

/// Machines of the team are told which revision a fetch would give, and are refused as it would be.
pub fn examples_of_the_issued_told()
    ensures newest { told second_issued blue_machine (ask.SeeProfile views.Issued web)
        ≡ accepted (reply.IssuedNow (digest_of text) 2) None }
    ensures stranger { decision second_issued (codes "nobody") (ask.SeeProfile views.Issued web)
        ≡ refused 1 rule.CallerUnknown }
    ensures no_machine { decision second_issued ann (ask.SeeProfile views.Issued web) ≡ refused 2 rule.RoleMissing }
    ensures other_team { decision second_withdrawn red_machine (ask.SeeProfile views.Issued web)
        ≡ refused 3 rule.OtherTeam }
    ensures withdrawn { decision second_withdrawn blue_machine (ask.SeeProfile views.Issued web)
        ≡ refused 4 rule.NothingIssued }
    ensures held { decision held_when_issued blue_machine (ask.SeeProfile views.Issued web) ≡ refused 5 rule.Held }
{}
