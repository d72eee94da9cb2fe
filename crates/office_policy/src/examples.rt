//! Worked examples of the definitions, each proved by computing: they pin what looking back says.

ghost use Rattle.std.specs.Prelude.{◌≡◌, ◌∷◌, [], Ok, Some, None, codes, true, false, List, ℕ};
ghost use Rattle.profile_text.specs.Digest.{digest_of};
ghost use Rattle.profile_text.specs.Profile.{closed_profile, no_caps};
ghost use Rattle.review_policy.specs.declared.act.ProfileAct.TheVariants.{Hold, Release};
ghost use Rattle.review_policy.specs.declared.act.ProfileView.TheVariants.{Fetch};
ghost use Rattle.review_policy.specs.declared.act.RevisionAct.TheVariants.{Adopt, Withdraw};
ghost use Rattle.review_policy.specs.declared.act.RevisionView.TheVariants.{Sheet, Show};
ghost use Rattle.review_policy.specs.declared.ask.Ask.TheVariants as ask;
ghost use Rattle.review_policy.specs.declared.answer.Reply.TheVariants as reply;
ghost use Rattle.review_policy.specs.declared.denial.Need.TheVariants.{One, TwoWithSecurity};
ghost use Rattle.review_policy.specs.declared.denial.Rule.TheVariants as rule;
ghost use Rattle.office_words.specs.declared.revision.State.TheVariants.{Open, Closed, Issued};
ghost use Rattle.office_words.specs.declared.revision.State.TheVariants.{Replaced, Withdrawn};
ghost use Rattle.office_policy.specs.History.{enrolled, submitted, issued, withdrawn, adopted};
ghost use Rattle.office_policy.specs.History.{on_profile};
ghost use Rattle.office_policy.specs.Users.{user_of, user_showing};
ghost use Rattle.office_policy.specs.Revisions.{state_of, last_revision, issued_revision};
ghost use Rattle.office_policy.specs.Revisions.{number_of};
ghost use Rattle.office_policy.specs.Votes.{voters_of, kept_vote_of, standing_votes, approvals};
ghost use Rattle.office_policy.specs.Votes.{secure_approvals, rejections};
ghost use Rattle.office_policy.specs.Documents.{document_of};
ghost use Rattle.office_policy.specs.Baseline.{adopted_revision, baseline_of, listed_of};
ghost use Rattle.office_policy.specs.Need.{need_against, need_at};
ghost use Rattle.office_policy.specs.Sheets.{sheet_of};
ghost use Rattle.office_policy.specs.Listing.{listing_of};
ghost use Rattle.office_policy.specs.Verdict.{accepted};
ghost use Rattle.office_policy.specs.Examples.{blue, red, desk, root, ann, ben, rev, ray, sue, iss};
ghost use Rattle.office_policy.specs.Examples.{blue_machine, red_machine, web, unknown_profile};
ghost use Rattle.office_policy.specs.Examples.{listed, office, text};
ghost use Rattle.office_policy.specs.Examples.{submits, approves, rejects, issues, withdraws};
ghost use Rattle.office_policy.specs.Examples.{adopts, holds, has_roles, founding, rob, enrols_rob};
ghost use Rattle.office_policy.specs.Examples.{one_submitted, both_submitted, with_trusted_ann};
ghost use Rattle.office_policy.specs.Examples.{reviewers_approve, adopts_first, both_approve};
ghost use Rattle.office_policy.specs.Examples.{first_issued, second_approved, baseline_withdrawn};
ghost use Rattle.office_policy.specs.Examples.{second_issued, second_withdrawn, held_when_issued};
ghost use Rattle.office_policy.specs.Examples.{approved_while_held, released_then, issued_then};
ghost use Rattle.office_policy.specs.Examples.{refused, decision, told, approving, submitting_none};
ghost use Rattle.office_policy.specs.Examples.{issue_by, issue, vote_naming, open_row};
ghost use Rattle.office_policy.specs.Examples.{after_an_adoption, caps_of, with_effective};
ghost use Rattle.office_policy.specs.Examples.{with_ambient, with_caps, need_of_same, reads};
ghost use Rattle.office_policy.specs.Examples.{reads_and_writes};

/// A revision that was closed by a later one isn't issued, and its votes are no votes on the later
/// one; a name that votes again has one vote; a rejection is asked for before approvals.
pub fn examples_of_votes()
    ensures closed_revision { issue (submits ann ∷ approves rev 1 ∷ one_submitted) TwoWithSecurity 1
        ≡ refused 5 rule.NotOpen }
    ensures votes_are_not_carried_over { issue (submits ann ∷ approves rev 1 ∷ one_submitted) One 2
        ≡ refused 7 (rule.ApprovalsShort 0 One) }
    ensures one_of_two { issue (approves sue 1 ∷ one_submitted) TwoWithSecurity 1
        ≡ refused 7 (rule.ApprovalsShort 1 TwoWithSecurity) }
    ensures two_without_security { issue reviewers_approve TwoWithSecurity 1
        ≡ refused 8 rule.SecurityMissing }
    ensures two_with_security { issue both_approve TwoWithSecurity 1 ≡ Ok tt }
    ensures rejected { issue (rejects rev 1 ∷ one_submitted) One 1 ≡ refused 6 rule.Rejected }
    ensures rejected_by_one { issue (rejects ray 1 ∷ both_approve) TwoWithSecurity 1
        ≡ refused 6 rule.Rejected }
    ensures approved_after_all { issue (approves rev 1 ∷ rejects rev 1 ∷ one_submitted) One 1
        ≡ Ok tt }
    ensures one_vote_a_name { voters_of (approves rev 1 ∷ rejects rev 1 ∷ one_submitted) web 1
        ≡ rev ∷ [] }
    ensures names { approvals both_approve web 1 ≡ rev ∷ sue ∷ [] }
    ensures secure_names { secure_approvals both_approve web 1 ≡ sue ∷ [] }
    ensures rejecting_names { rejections (rejects ray 1 ∷ both_approve) web 1 ≡ ray ∷ [] }
{}

/// A vote names the digest of the revision's text, is by no author of the profile, and is on the
/// open revision.
pub fn examples_of_voters()
    ensures digest { (bytes : List ℕ) → last_revision (submitted ann web bytes ∷ office) web
        ≡ Some (open_row 1 bytes) }
    ensures same_bytes { vote_naming (9 ∷ []) ≡ Ok tt }
    ensures other_bytes { vote_naming (8 ∷ []) ≡ refused 6 rule.OtherBytes }
    ensures other_length { vote_naming (9 ∷ 9 ∷ []) ≡ refused 6 rule.OtherBytes }
    ensures earlier_author { decision both_submitted ben (approving 2)
        ≡ refused 4 rule.AuthorVotes }
    ensures author_of_the_closed { decision both_submitted ben (approving 1)
        ≡ refused 4 rule.AuthorVotes }
    ensures closed_revision { decision both_submitted rev (approving 1) ≡ refused 5 rule.NotOpen }
    ensures no_revision { decision both_submitted rev (approving 3) ≡ refused 3 rule.NoRevision }
    ensures number_zero { decision one_submitted rev (approving 0) ≡ refused 3 rule.NoRevision }
    ensures no_reviewer { decision one_submitted iss (approving 1) ≡ refused 2 rule.RoleMissing }
    ensures stranger { decision one_submitted (codes "nobody") (approving 1)
        ≡ refused 1 rule.CallerUnknown }
{}

/// A vote counts while its voter is a reviewer, and has security where its voter held security at
/// the vote and holds it now.
pub fn examples_of_lapsed_votes()
    ensures security_was_lost { issue (has_roles sue 4 (5 ∷ []) ∷ both_approve) TwoWithSecurity 1
        ≡ refused 8 rule.SecurityMissing }
    ensures security_came_back { issue
        (has_roles sue 12 (5 ∷ []) ∷ has_roles sue 4 (5 ∷ []) ∷ both_approve) TwoWithSecurity 1
        ≡ Ok tt }
    ensures no_reviewer_now { issue (has_roles rev 0 (3 ∷ []) ∷ both_approve) TwoWithSecurity 1
        ≡ refused 7 (rule.ApprovalsShort 1 TwoWithSecurity) }
    ensures reviewer_again { issue
        (has_roles rev 4 (3 ∷ []) ∷ has_roles rev 0 (3 ∷ []) ∷ both_approve) TwoWithSecurity 1
        ≡ Ok tt }
    ensures security_after_the_vote { issue
        (has_roles rev 12 (3 ∷ []) ∷ reviewers_approve) TwoWithSecurity 1
        ≡ refused 8 rule.SecurityMissing }
    ensures security_without_reviewer { secure_approvals
        (has_roles sue 8 (5 ∷ []) ∷ both_approve) web 1 ≡ [] }
    ensures lapsed_rejection { issue
        (has_roles ray 0 (4 ∷ []) ∷ rejects ray 1 ∷ both_approve) TwoWithSecurity 1 ≡ Ok tt }
    ensures kept { kept_vote_of (has_roles sue 0 (5 ∷ []) ∷ both_approve) web 1 sue
        ≡ Some (record { approves = true; security = true }) }
    ensures lapsed_row { standing_votes (has_roles rev 0 (3 ∷ []) ∷ both_approve) web 1
        ≡ record { voter = rev; approve = true; security = false; counts = false }
        ∷ record { voter = sue; approve = true; security = true; counts = true }
        ∷ [] }
{}

/// A revision is open until a later one is submitted or it is issued; what was issued is replaced
/// by a later issue, and what was replaced doesn't come back.
pub fn examples_of_issues()
    ensures open { state_of one_submitted web 1 ≡ Open }
    ensures closed { state_of (submits ann ∷ one_submitted) web 1 ≡ Closed }
    ensures issued { state_of first_issued web 1 ≡ Issued }
    ensures issued_and_resubmitted { state_of second_approved web 1 ≡ Issued }
    ensures replaced { state_of second_issued web 1 ≡ Replaced }
    ensures replaced_for_good { state_of second_withdrawn web 1 ≡ Replaced }
    ensures issued_again { state_of (issues 1 ∷ first_issued) web 1 ≡ Replaced }
    ensures other_profile { state_of (issued iss unknown_profile 1 ∷ first_issued) web 1 ≡ Issued }
    ensures no_issuer { issue_by rev both_approve TwoWithSecurity 1 ≡ refused 2 rule.RoleMissing }
    ensures no_revision { issue both_approve One 2 ≡ refused 3 rule.NoRevision }
    ensures author_issues { issue_by ann (approves rev 1 ∷ submits ann ∷ with_trusted_ann) One 1
        ≡ refused 4 rule.AuthorIssues }
    ensures not_open { issue first_issued One 1 ≡ refused 5 rule.NotOpen }
{}

/// Machines of the team fetch the issued revision, as it was submitted.
pub fn examples_of_fetches()
    ensures newest { told second_issued blue_machine (ask.SeeProfile Fetch web)
        ≡ accepted (reply.Fetched (digest_of text) text 2) None }
    ensures text { (bytes : List ℕ)
        → told (issues 1 ∷ submitted ann web bytes ∷ office) blue_machine (ask.SeeProfile Fetch web)
        ≡ accepted (reply.Fetched (digest_of bytes) bytes 1) None }
    ensures closed_is_issued_still { number_of (issued_revision second_approved web) ≡ 1 }
    ensures replaced_does_not_come_back { decision second_withdrawn blue_machine (ask.SeeProfile Fetch web)
        ≡ refused 4 rule.NothingIssued }
    ensures other_team { decision second_withdrawn red_machine (ask.SeeProfile Fetch web)
        ≡ refused 3 rule.OtherTeam }
    ensures other_team_of_nothing { decision second_withdrawn red_machine
        (ask.SeeProfile Fetch unknown_profile) ≡ refused 3 rule.OtherTeam }
    ensures no_machine { decision second_issued ann (ask.SeeProfile Fetch web) ≡ refused 2 rule.RoleMissing }
    ensures open_is_not_fetched { decision one_submitted blue_machine (ask.SeeProfile Fetch web)
        ≡ refused 4 rule.NothingIssued }
{}

/// An author of the team or security takes back a revision that is open or issued.
pub fn examples_of_withdrawals()
    ensures by_security { told first_issued sue (ask.ActOnRevision Withdraw web 1)
        ≡ accepted reply.Nothing (Some (withdrawn sue web 1)) }
    ensures by_another_author { told first_issued ben (ask.ActOnRevision Withdraw web 1)
        ≡ accepted reply.Nothing (Some (withdrawn ben web 1)) }
    ensures of_the_open { told one_submitted ann (ask.ActOnRevision Withdraw web 1)
        ≡ accepted reply.Nothing (Some (withdrawn ann web 1)) }
    ensures twice { decision (withdraws 1 ∷ first_issued) sue (ask.ActOnRevision Withdraw web 1)
        ≡ refused 5 rule.NotStanding }
    ensures of_the_closed { decision (submits ann ∷ one_submitted) sue (ask.ActOnRevision Withdraw web 1)
        ≡ refused 5 rule.NotStanding }
    ensures of_the_replaced { decision second_issued sue (ask.ActOnRevision Withdraw web 1)
        ≡ refused 5 rule.NotStanding }
    ensures other_team { decision (enrols_rob 2 ∷ first_issued) rob (ask.ActOnRevision Withdraw web 1)
        ≡ refused 3 rule.OtherTeam }
    ensures no_revision { decision first_issued sue (ask.ActOnRevision Withdraw web 2)
        ≡ refused 4 rule.NoRevision }
    ensures no_role { decision first_issued rev (ask.ActOnRevision Withdraw web 1) ≡ refused 2 rule.RoleMissing }
    ensures state { state_of (withdraws 1 ∷ first_issued) web 1 ≡ Withdrawn }
    ensures of_the_withdrawn { state_of
        (withdraws 2 ∷ submits ann ∷ withdraws 1 ∷ first_issued) web 1 ≡ Withdrawn }
{}

/// Security that is no author adopts an issued revision; a team's revisions are compared with what
/// it adopted last, unless that was withdrawn.
pub fn examples_of_adoption()
    ensures adopted { told first_issued sue (ask.ActOnRevision Adopt web 1)
        ≡ accepted reply.Nothing (Some (adopted sue web 1)) }
    ensures not_issued { decision both_approve sue (ask.ActOnRevision Adopt web 1) ≡ refused 5 rule.NotIssued }
    ensures author_adopts { decision (submits ann ∷ with_trusted_ann) ann (ask.ActOnRevision Adopt web 1)
        ≡ refused 4 rule.AuthorAdopts }
    ensures no_revision { decision first_issued sue (ask.ActOnRevision Adopt web 2) ≡ refused 3 rule.NoRevision }
    ensures no_security { decision first_issued rev (ask.ActOnRevision Adopt web 1) ≡ refused 2 rule.RoleMissing }
    ensures nothing_adopted { baseline_of first_issued blue ≡ closed_profile }
    ensures adopted_document { (bytes : List ℕ) → baseline_of (adopts_first bytes) blue
        ≡ document_of bytes }
    ensures replaced_document { (bytes : List ℕ)
        → baseline_of (issues 2 ∷ submits ann ∷ adopts_first bytes) blue
        ≡ document_of bytes }
    ensures of_another_team { baseline_of second_approved red ≡ closed_profile }
    ensures last_adopted { (bytes : List ℕ)
        → baseline_of (adopts 2 ∷ issues 2 ∷ submitted ann web bytes ∷ adopts 1 ∷ first_issued) blue
        ≡ document_of bytes }
    ensures withdrawn_gives_no_earlier { baseline_of
        (withdraws 2 ∷ adopts 2 ∷ issues 2 ∷ submits ann ∷ adopts 1 ∷ first_issued) blue
        ≡ closed_profile }
{}

/// The need is that against the baseline of the moment.
pub fn examples_of_the_need()
    ensures against_the_adopted { (old new : List ℕ)
        → need_at (submitted ann web new ∷ adopts_first old) web 2
        ≡ need_against listed (document_of old) (document_of new) }
    ensures against_the_closed { (old new : List ℕ)
        → need_at (withdraws 1 ∷ submitted ann web new ∷ adopts_first old) web 2
        ≡ need_against listed closed_profile (document_of new) }
    ensures against_what_is_adopted_later { (old new : List ℕ)
        → need_at
        (adopts 1 ∷ issues 1 ∷ submitted ann web new ∷ submitted ann web old ∷ office) web 2
        ≡ need_against listed (document_of old) (document_of new) }
    ensures listed_at_the_founding { listed_of second_withdrawn ≡ 2097152 }
    ensures one_is_short { issue second_approved TwoWithSecurity 2
        ≡ refused 7 (rule.ApprovalsShort 1 TwoWithSecurity) }
    ensures one_is_enough { issue second_approved One 2 ≡ Ok tt }
{}

/// A profile that is wider than the baseline, or holds a listed capability in any of its five sets,
/// needs two approvals.
#[tactic(auto, unfolding(widening::specs::Findings::findings_of, widening::specs::Findings::gained))]
pub fn examples_of_wider_profiles()
    ensures no_filter { need_against 0 closed_profile (with_caps no_caps) ≡ TwoWithSecurity }
    ensures nothing_more { need_against listed closed_profile closed_profile ≡ One }
    ensures against_no_filter { need_of_same no_caps ≡ One }
    ensures one_capability_more { need_against 0 (with_caps no_caps) (with_caps (caps_of 0 0 1))
        ≡ TwoWithSecurity }
    ensures one_capability_less { need_against 0 (with_caps (caps_of 0 0 1)) (with_caps no_caps)
        ≡ One }
    ensures unlisted { need_of_same (caps_of 0 0 1) ≡ One }
    ensures bounding { need_of_same (caps_of 0 0 listed) ≡ TwoWithSecurity }
    ensures inheritable { need_of_same (caps_of 0 listed 0) ≡ TwoWithSecurity }
    ensures permitted { need_of_same (caps_of listed 0 0) ≡ TwoWithSecurity }
    ensures effective { need_of_same (with_effective listed) ≡ TwoWithSecurity }
    ensures ambient { need_of_same (with_ambient listed) ≡ TwoWithSecurity }
    ensures fewer_calls { need_against 0 reads_and_writes reads ≡ One }
    ensures more_calls { need_against 0 reads reads_and_writes ≡ TwoWithSecurity }
{}

/// A held profile is neither issued nor fetched until it is released; it is shown, listed and
/// reviewed as before.
pub fn examples_of_holds()
    ensures held { told (issues 1 ∷ approves rev 1 ∷ one_submitted) sue (ask.ActOnProfile Hold web)
        ≡ accepted reply.Nothing (Some (on_profile sue Hold web)) }
    ensures held_already { decision held_when_issued sue (ask.ActOnProfile Hold web)
        ≡ refused 4 rule.AlreadyHeld }
    ensures shown { told held_when_issued rev (ask.SeeRevision Show web 1)
        ≡ accepted (reply.Shown (digest_of text) text Issued) None }
    ensures not_fetched { decision held_when_issued blue_machine (ask.SeeProfile Fetch web)
        ≡ refused 5 rule.Held }
    ensures not_issued { issue approved_while_held TwoWithSecurity 2 ≡ refused 9 rule.Held }
    ensures short_before_held { issue (submits ann ∷ held_when_issued) One 2
        ≡ refused 7 (rule.ApprovalsShort 0 One) }
    ensures no_security { decision approved_while_held rev (ask.ActOnProfile Hold web)
        ≡ refused 2 rule.RoleMissing }
    ensures no_profile { decision approved_while_held sue (ask.ActOnProfile Hold unknown_profile)
        ≡ refused 3 rule.NoProfile }
    ensures released { told approved_while_held sue (ask.ActOnProfile Release web)
        ≡ accepted reply.Nothing (Some (on_profile sue Release web)) }
    ensures issued_when_released { issue released_then TwoWithSecurity 2 ≡ Ok tt }
    ensures fetched_when_released { told issued_then blue_machine (ask.SeeProfile Fetch web)
        ≡ accepted (reply.Fetched (digest_of text) text 2) None }
    ensures not_held { decision issued_then sue (ask.ActOnProfile Release web) ≡ refused 4 rule.NotHeld }
    ensures nothing_issued_before_held { decision (holds ∷ one_submitted) blue_machine
        (ask.SeeProfile Fetch web) ≡ refused 4 rule.NothingIssued }
{}

/// Security releases a profile that has a revision and is held.
pub fn examples_of_releases()
    ensures stranger { decision held_when_issued (codes "nobody") (ask.ActOnProfile Release web)
        ≡ refused 1 rule.CallerUnknown }
    ensures no_security { decision held_when_issued rev (ask.ActOnProfile Release web)
        ≡ refused 2 rule.RoleMissing }
    ensures no_profile { decision held_when_issued sue (ask.ActOnProfile Release unknown_profile)
        ≡ refused 3 rule.NoProfile }
    ensures never_held { decision first_issued sue (ask.ActOnProfile Release web) ≡ refused 4 rule.NotHeld }
    ensures of_other_team { decision (enrols_rob 8 ∷ held_when_issued) rob (ask.ActOnProfile Release web)
        ≡ Ok tt }
{}

/// The founding enrols one user, who is registrar and no more.
pub fn examples_of_foundings()
    ensures first_user { user_of founding root
        ≡ Some (record { name = root; team = desk; roles = 1; digest = 0 ∷ [] }) }
    ensures nobody_else { user_of founding ann ≡ None }
    ensures shown { user_showing founding (0 ∷ []) ≡ user_of founding root }
    ensures enrols { decision founding root (ask.Enrol ann blue 2 (1 ∷ [])) ≡ Ok tt }
    ensures holds_nothing { decision founding root (ask.ActOnProfile Hold web) ≡ refused 2 rule.RoleMissing }
    ensures listed_then { listed_of founding ≡ 2097152 }
{}

/// A registrar enrols; a name keeps its team, and a token is of one user.
pub fn examples_of_enrolments()
    ensures enrolled_anew { told office root (ask.Enrol ann blue 0 (1 ∷ []))
        ≡ accepted reply.Nothing (Some (enrolled root ann blue 0 (1 ∷ []))) }
    ensures own_row { decision office root (ask.Enrol root desk 63 (0 ∷ []))
        ≡ refused 3 rule.OwnRow }
    ensures team_fixed { decision office root (ask.Enrol ann red 2 (1 ∷ []))
        ≡ refused 4 rule.TeamFixed }
    ensures token_taken { decision office root (ask.Enrol (codes "new") blue 2 (2 ∷ []))
        ≡ refused 5 rule.TokenTaken }
    ensures callers_token_taken { decision office root (ask.Enrol (codes "new") blue 2 (0 ∷ []))
        ≡ refused 5 rule.TokenTaken }
    ensures given_up_token { decision (enrolled root ann blue 2 (11 ∷ []) ∷ office) root
        (ask.Enrol (codes "new") blue 2 (1 ∷ [])) ≡ Ok tt }
    ensures no_registrar { decision office sue (ask.Enrol ann blue 0 (1 ∷ []))
        ≡ refused 2 rule.RoleMissing }
    ensures roles_are_replaced { user_of (enrolled root ben blue 2 (2 ∷ []) ∷ office) ben
        ≡ Some (record { name = ben; team = blue; roles = 2; digest = 2 ∷ [] }) }
    ensures role_before_document { submitting_none
        (enrolled root ann blue 0 (1 ∷ []) ∷ office) blue ≡ refused 2 rule.RoleMissing }
    ensures team_before_document { submitting_none office red ≡ refused 3 rule.OtherTeam }
    ensures no_document { submitting_none office blue ≡ refused 4 rule.Document }
{}

/// Authors of the team, and reviewers, security and issuers of any, are shown a revision that is
/// there, and its sheet.
pub fn examples_of_shows()
    ensures to_an_author { told first_issued ann (ask.SeeRevision Show web 1)
        ≡ accepted (reply.Shown (digest_of text) text Issued) None }
    ensures stranger { decision first_issued (codes "nobody") (ask.SeeRevision Show web 1)
        ≡ refused 1 rule.CallerUnknown }
    ensures no_reader { decision first_issued root (ask.SeeRevision Show web 1) ≡ refused 2 rule.RoleMissing }
    ensures other_team { decision (enrols_rob 2 ∷ first_issued) rob (ask.SeeRevision Show web 1)
        ≡ refused 3 rule.OtherTeam }
    ensures other_team_of_nothing { decision (enrols_rob 2 ∷ office) rob (ask.SeeRevision Show web 1)
        ≡ refused 3 rule.OtherTeam }
    ensures reviewer_of_another_team { decision (enrols_rob 6 ∷ first_issued) rob (ask.SeeRevision Show web 1)
        ≡ Ok tt }
    ensures machine_that_is_author { decision (enrols_rob 34 ∷ first_issued) rob (ask.SeeRevision Show web 1)
        ≡ refused 3 rule.OtherTeam }
    ensures no_revision { decision first_issued rev (ask.SeeRevision Show web 2) ≡ refused 4 rule.NoRevision }
    ensures number_zero { decision first_issued rev (ask.SeeRevision Show web 0) ≡ refused 4 rule.NoRevision }
    ensures no_profile { decision first_issued rev (ask.SeeRevision Show unknown_profile 1)
        ≡ refused 4 rule.NoRevision }
    ensures sheet_of_no_revision { decision first_issued rev (ask.SeeRevision Sheet web 2)
        ≡ refused 4 rule.NoRevision }
    ensures sheet_of_another_team { decision (enrols_rob 2 ∷ first_issued) rob (ask.SeeRevision Sheet web 2)
        ≡ refused 3 rule.OtherTeam }
{}

/// A team's profiles are listed with their last revision's number and state, and the number that is
/// issued now, or 0.
pub fn examples_of_listings()
    ensures nothing { told office sue (ask.List blue) ≡ accepted (reply.Listed []) None }
    ensures resubmitted { listing_of (submits ann ∷ one_submitted) blue
        ≡ record { profile = codes "web"; issued = 0; revisions = 2; state = Open } ∷ [] }
    ensures after_an_issue { listing_of first_issued blue
        ≡ record { profile = codes "web"; issued = 1; revisions = 1; state = Issued } ∷ [] }
    ensures issued_before_the_last { listing_of second_approved blue
        ≡ record { profile = codes "web"; issued = 1; revisions = 2; state = Open } ∷ [] }
    ensures after_a_withdrawal { listing_of second_withdrawn blue
        ≡ record { profile = codes "web"; issued = 0; revisions = 2; state = Withdrawn } ∷ [] }
    ensures in_order { listing_of (submitted ann unknown_profile text ∷ one_submitted) blue
        ≡ record { profile = codes "none"; issued = 0; revisions = 1; state = Open }
        ∷ record { profile = codes "web"; issued = 0; revisions = 1; state = Open } ∷ [] }
    ensures of_another_team { listing_of first_issued red ≡ [] }
    ensures no_reader { decision first_issued blue_machine (ask.List blue)
        ≡ refused 2 rule.RoleMissing }
    ensures stranger { decision first_issued (codes "nobody") (ask.List blue)
        ≡ refused 1 rule.CallerUnknown }
    ensures no_registrar { decision first_issued root (ask.List blue) ≡ refused 2 rule.RoleMissing }
    ensures other_team { decision (enrols_rob 2 ∷ first_issued) rob (ask.List blue)
        ≡ refused 3 rule.OtherTeam }
    ensures own_team { told (enrols_rob 2 ∷ first_issued) rob (ask.List red)
        ≡ accepted (reply.Listed []) None }
    ensures team_of_nobody { told first_issued sue (ask.List (codes "green"))
        ≡ accepted (reply.Listed []) None }
    ensures no_machine_shows { decision first_issued blue_machine (ask.SeeRevision Show web 1)
        ≡ refused 2 rule.RoleMissing }
{}

/// A sheet shows a revision beside the baseline of the moment, with each standing vote.
pub fn examples_of_sheets()
    ensures without_a_baseline { (bytes : List ℕ)
        → sheet_of (submitted ann web bytes ∷ office) web (open_row 1 bytes)
        ≡ record {
          team = blue;
          profile = codes "web";
          number = 1;
          state = Open;
          digest = digest_of bytes;
          baseline = None;
          base = closed_profile;
          shown = document_of bytes;
          listed = 2097152;
          votes = [];
        } }
    ensures with_a_baseline { (old new : List ℕ)
        → sheet_of (after_an_adoption old new) web (open_row 2 new)
        ≡ record {
          team = blue;
          profile = codes "web";
          number = 2;
          state = Open;
          digest = digest_of new;
          baseline = Some (codes "web", 1);
          base = document_of old;
          shown = document_of new;
          listed = 2097152;
          votes =
              record { voter = rev; approve = false; security = false; counts = false }
              ∷ record { voter = sue; approve = true; security = true; counts = true }
              ∷ [];
        } }
    ensures with_a_withdrawn_baseline { adopted_revision baseline_withdrawn blue ≡ None }
{}
