//! Worked examples of definitions that laws alone cite, each proved by computing.

ghost use Rattle.std.specs.Prelude.{◌≡◌, ◌↔◌, [], ◌∷◌, ◌++◌, true, false, map, replicate, codes};
ghost use Rattle.std.specs.Prelude.{Option, Some, List, ℕ, Vec};
ghost use Rattle.std.specs.declared.alloc.Global.{Global};
ghost use Rattle.profile_text.specs.Digest.{digest_of};
ghost use Rattle.review_policy.specs.declared.act.Effect.TheVariants as effects;
ghost use Rattle.review_policy.specs.declared.act.RevisionAct.TheVariants.{Issue, Withdraw};
ghost use Rattle.review_policy.specs.declared.act.RevisionView.TheVariants.{Show};
ghost use Rattle.review_policy.specs.Acts.{effect_of, has_effect};
ghost use Rattle.review_policy.specs.FirstRefusal.{IsFirstRefusal};
ghost use Rattle.review_policy.specs.declared.act.ProfileAct.TheVariants.{Hold};
ghost use Rattle.review_policy.specs.declared.ask.Ask.TheVariants as ask;
ghost use Rattle.review_policy.specs.declared.ask.Request.{Request};
ghost use Rattle.review_policy.specs.declared.answer.Answer.TheVariants.{Done, Denied, Fault};
ghost use Rattle.office_words.specs.declared.fault.Fault.TheVariants as faults;
ghost use Rattle.office_words.specs.declared.fault.Fault.{Fault as FaultWord};
ghost use Rattle.review_policy.specs.declared.answer.Reply.{Reply};
ghost use Rattle.review_policy.specs.declared.answer.Reply.TheVariants as reply;
ghost use Rattle.review_policy.specs.declared.denial.Denial.{Denial};
ghost use Rattle.review_policy.specs.declared.denial.Need.TheVariants.{TwoWithSecurity};
ghost use Rattle.review_policy.specs.declared.denial.Rule.TheVariants as rules;
ghost use Rattle.office_words.specs.declared.revision.State.TheVariants as states;
ghost use Rattle.widening.specs.Permits.{HoldsNoMore};
ghost use Rattle.office_policy.specs.Asked.{IsSeen};
ghost use Rattle.office_policy.specs.Callers.{IsForCaller};
ghost use Rattle.office_policy.specs.Handled.{only_reads};
ghost use Rattle.office_policy.specs.Headline.{IsApproved};
ghost use Rattle.office_policy.specs.History.{Event, History, founded, enrolled, voted, issued};
ghost use Rattle.office_policy.specs.History.{on_profile};
ghost use Rattle.office_policy.specs.Lawful.{IsAllowed};
ghost use Rattle.office_policy.specs.Laws.{KeepsTeams};
ghost use Rattle.office_policy.specs.Need.{need_at};
ghost use Rattle.office_policy.specs.ShowsEvent.{Shows};
ghost use Rattle.office_policy.specs.TablesOf.{tables_of};
ghost use Rattle.office_policy.specs.Verdict.{verdict, accepted, denied};
ghost use Rattle.office_policy.specs.Runs.{IsAnswer, history_after, with_event};
ghost use Rattle.office_policy.specs.Teams.{concerns, team_of};
ghost use Rattle.office_policy.specs.Duty.{LacksTwo};
ghost use Rattle.office_policy.specs.Examples.{blue, red, desk, root, ann, ben, rev, ray, sue, web};
ghost use Rattle.office_policy.specs.Examples.{iss, listed, office, founding, enrols_rob, has_roles};
ghost use Rattle.office_policy.specs.Examples.{text, caps_of, with_effective, with_ambient};
ghost use Rattle.office_policy.specs.Examples.{submits, approves, rejects, issues, withdraws};
ghost use Rattle.office_policy.specs.Examples.{adopts, holds, releases};
ghost use Rattle.office_policy.specs.Examples.{one_submitted, both_submitted, both_approve};
ghost use Rattle.office_policy.specs.Examples.{reviewers_approve};
ghost use Rattle.office_policy.specs.Examples.{first_issued, second_approved, baseline_withdrawn};
ghost use Rattle.office_policy.specs.Examples.{held_when_issued, released_then};
ghost use Rattle.office_policy.specs.LawExamples.{each_event, each_shape, text_approved};
ghost use Rattle.office_policy.specs.LawExamples.{one_approves_text};
ghost use Rattle.office_policy.specs.LawExamples.{reviewers_approve_text, author_approves_text};
ghost use Rattle.office_policy.specs.LawExamples.{sue_shows, asks_hold, open_profile};
ghost use Rattle.no_memory.specs.Witness.{witness};

/// Of the ten shapes of requests five only read: to see a revision, the profiles of a team, what is
/// issued of a profile, who one is, and the revisions of a profile.
pub fn examples_of_what_only_reads()
    ensures { (document : Vec ℕ Global) → map only_reads (each_shape document)
        ≡ replicate 4 false ++ replicate 3 true ++ false ∷ replicate 2 true }
{}

/// The founding and the enrolments concern each team; whatever else happens, the team of its
/// profile alone.
pub fn examples_of_what_concerns_a_team()
    ensures own_team { map (concerns blue) (each_event web) ≡ replicate 9 true }
    ensures other_team { map (concerns red) (each_event web) ≡ true ∷ true ∷ replicate 7 false }
    ensures asked { (document : Vec ℕ Global) → map team_of (each_shape document)
        ≡ replicate 8 blue ++ [] ∷ blue ∷ [] }
{}

/// An issue issues its revision, and doesn't withdraw it; a withdrawal does.
pub fn examples_of_effects()
    ensures issue { has_effect Issue effects.Issues ≡ true }
    ensures no_withdrawal { has_effect Issue effects.Withdraws ≡ false }
    ensures withdrawal { effect_of Withdraw ≡ effects.Withdraws }
{}

/// What a user of then may ask is allowed, whatever token the user shows. What is in the name of
/// nobody, or of an author who votes, and a second founding are not.
pub fn examples_of_allowed_events()
    ensures enrolment { IsAllowed founding (enrolled root ann blue 2 (replicate 32 1)) }
    ensures hold { IsAllowed one_submitted holds }
    ensures nobody { IsAllowed one_submitted (issued (codes "nobody") web 1) → ⊥ }
    ensures author { IsAllowed both_submitted (voted ben web 2 (9 ∷ []) true) → ⊥ }
    ensures second_founding { IsAllowed office (founded root desk (0 ∷ []) listed) → ⊥ }
{}

/// The tables show what has happened, of each kind; a vote that is cast again changes nothing in
/// them.
pub fn examples_of_shown_events()
    ensures founding { Shows (tables_of founding) (founded root desk (0 ∷ []) listed) }
    ensures enrolment { Shows (tables_of (enrols_rob 2 ∷ office)) (enrols_rob 2) }
    ensures submission { Shows (tables_of one_submitted) (submits ann) }
    ensures vote { Shows (tables_of (approves sue 1 ∷ one_submitted)) (approves sue 1) }
    ensures vote_again { tables_of (approves sue 1 ∷ approves sue 1 ∷ one_submitted)
        ≡ tables_of (approves sue 1 ∷ one_submitted) }
    ensures issue { Shows (tables_of first_issued) (issues 1) }
    ensures withdrawal { Shows (tables_of baseline_withdrawn) (withdraws 1) }
    ensures adoption { Shows (tables_of second_approved) (adopts 1) }
    ensures hold { Shows (tables_of held_when_issued) holds }
    ensures release { Shows (tables_of released_then) releases }
{}

/// They don't show what hasn't happened: other roles, a text by another author or one that is
/// no longer open, another vote, or one cast with a security that the voter has lost.
pub fn examples_of_events_that_are_not_shown()
    ensures founding { Shows (tables_of []) (founded root desk (0 ∷ []) listed) → ⊥ }
    ensures other_roles { Shows (tables_of (enrols_rob 2 ∷ office)) (enrols_rob 4) → ⊥ }
    ensures other_author { Shows (tables_of one_submitted) (submits ben) → ⊥ }
    ensures not_open { Shows (tables_of first_issued) (submits ann) → ⊥ }
    ensures other_vote { Shows (tables_of (approves sue 1 ∷ one_submitted)) (rejects sue 1) → ⊥ }
    ensures security_lost { Shows
        (tables_of (has_roles sue 4 (5 ∷ []) ∷ approves sue 1 ∷ one_submitted)) (approves sue 1)
        → ⊥ }
    ensures not_issued { Shows (tables_of both_approve) (issues 1) → ⊥ }
    ensures not_withdrawn { Shows (tables_of second_approved) (withdraws 1) → ⊥ }
    ensures not_adopted { Shows (tables_of first_issued) (adopts 1) → ⊥ }
    ensures not_held { Shows (tables_of first_issued) holds → ⊥ }
    ensures not_released { Shows (tables_of held_when_issued) releases → ⊥ }
{}

/// Two approvals, one of them with security, are lacking where there are fewer than two or none has
/// security.
pub fn examples_of_lacking_approvals()
    ensures none { LacksTwo one_submitted web 1 }
    ensures one_with_security { LacksTwo (approves sue 1 ∷ one_submitted) web 1 }
    ensures one_approves_twice { LacksTwo (approves sue 1 ∷ approves sue 1 ∷ one_submitted) web 1 }
    ensures one_of_two_rejects { LacksTwo (rejects rev 1 ∷ approves sue 1 ∷ one_submitted) web 1 }
    ensures none_secure { LacksTwo (approves ray 1 ∷ approves rev 1 ∷ one_submitted) web 1 }
    ensures two_with_security { LacksTwo both_approve web 1 → ⊥ }
{}

/// A text is approved by two, one of them with security. It isn't by nobody, by one or by two
/// without security where two are needed and one of them with it, by votes that named another
/// digest, by an author or where an author issues it, nor is another text or another revision.
pub fn examples_of_approved_texts()
    ensures approved { IsApproved text_approved iss web 1 text }
    ensures none { IsApproved one_submitted iss web 1 text → ⊥ }
    ensures too_few { need_at one_approves_text web 1 ≡ TwoWithSecurity
        → IsApproved one_approves_text iss web 1 text → ⊥ }
    ensures none_secure { need_at reviewers_approve_text web 1 ≡ TwoWithSecurity
        → IsApproved reviewers_approve_text iss web 1 text → ⊥ }
    ensures other_digest { IsApproved reviewers_approve iss web 1 text → ⊥ }
    ensures author { IsApproved author_approves_text iss web 1 text → ⊥ }
    ensures author_issues { IsApproved text_approved ann web 1 text → ⊥ }
    ensures other_text { IsApproved text_approved iss web 1 (2 ∷ []) → ⊥ }
    ensures other_revision { IsApproved text_approved iss web 2 text → ⊥ }
{}

/// A request is carried out for the user who shows the token and holds a role for it; not for one
/// without such a role, for one who shows another token, or for one who didn't ask.
pub fn examples_of_callers()
    ensures security { (token : List ℕ) → IsForCaller (sue_shows 8 token) (asks_hold token)
        (Some (on_profile sue Hold web)) }
    ensures other_role { (token : List ℕ) → IsForCaller (sue_shows 4 token) (asks_hold token)
        (Some (on_profile sue Hold web)) → ⊥ }
    ensures other_token { (token : List ℕ) → IsForCaller office (asks_hold token)
        (Some (on_profile sue Hold web)) → ⊥ }
    ensures other_caller { (token : List ℕ) → IsForCaller (sue_shows 8 token) (asks_hold token)
        (Some (on_profile ann Hold web)) → ⊥ }
{}

/// What is seen is all that there is of the team, and the revision as it stands.
pub fn examples_of_what_is_seen()
    ensures listed { IsSeen one_submitted (ask.List blue) (reply.Listed (open_profile ∷ [])) }
    ensures not_listed { IsSeen one_submitted (ask.List blue) (reply.Listed []) → ⊥ }
    ensures other_team { IsSeen one_submitted (ask.List red) (reply.Listed []) }
    ensures other_profiles { IsSeen one_submitted (ask.List red)
        (reply.Listed (open_profile ∷ [])) → ⊥ }
    ensures revision { IsSeen one_submitted (ask.SeeRevision Show web 1)
        (reply.Shown (digest_of text) text states.Open) }
    ensures other_state { IsSeen one_submitted (ask.SeeRevision Show web 1)
        (reply.Shown (digest_of text) text states.Issued) → ⊥ }
    ensures no_revision { (told : Reply) → IsSeen one_submitted (ask.SeeRevision Show web 2) told → ⊥ }
{}

/// A user's team stays the same where something else happens, and doesn't where the user is enrolled
/// with another.
pub fn examples_of_kept_teams()
    ensures kept { KeepsTeams office (on_profile sue Hold web) }
    ensures other_roles { KeepsTeams founding (enrolled root root desk 3 (0 ∷ [])) }
    ensures other_team { KeepsTeams office (enrolled root ann red 2 (1 ∷ [])) → ⊥ }
{}

/// The first rule that refuses is named with its place; not one behind it, nor by another place.
pub fn examples_of_first_refusals()
    ensures second { IsFirstRefusal 1
        ((rules.CallerUnknown, false) ∷ (rules.RoleMissing, true) ∷ (rules.OtherTeam, true) ∷ [])
        (record { number = 2; rule = rules.RoleMissing }) }
    ensures behind_it { IsFirstRefusal 1
        ((rules.CallerUnknown, true) ∷ (rules.RoleMissing, true) ∷ [])
        (record { number = 2; rule = rules.RoleMissing }) → ⊥ }
    ensures other_place { IsFirstRefusal 1 ((rules.CallerUnknown, true) ∷ [])
        (record { number = 2; rule = rules.CallerUnknown }) → ⊥ }
{}

/// A state holds no more than another only where it doesn't in each of the five sets.
pub fn examples_of_states_that_hold_more()
    ensures same { HoldsNoMore (with_ambient 4) (with_ambient 4) }
    ensures effective { HoldsNoMore (caps_of 4 0 0) (with_effective 4) → ⊥ }
    ensures permitted { HoldsNoMore (caps_of 0 4 4) (caps_of 4 4 4) → ⊥ }
    ensures inheritable { HoldsNoMore (caps_of 4 0 4) (caps_of 4 4 4) → ⊥ }
    ensures bounding { HoldsNoMore (caps_of 4 4 0) (caps_of 4 4 4) → ⊥ }
    ensures ambient { HoldsNoMore (caps_of 4 4 0) (with_ambient 4) → ⊥ }
{}

/// An answer that is no fault is the verdict's, and what is done happens; a fault of memory, of the
/// disk or of room on it may stand in its place, and nothing happens then; that the tables aren't
/// an office's is no answer.
pub fn answers_tell_the_verdict()
    ensures done { (h : History) (r : Request) (reply : Reply)
        → IsAnswer h r (Done reply) ↔ ((e : Option Event) × (verdict h r ≡ accepted reply e)) }
    ensures denied { (h : History) (r : Request) (d : Denial) (f : Option (List ℕ))
        → IsAnswer h r (Denied d f) ↔ (verdict h r ≡ denied d f) }
    ensures memory { (h : History) (r : Request) → IsAnswer h r (Fault (faults.NoMemory witness)) }
    ensures disk { (h : History) (r : Request) → IsAnswer h r (Fault faults.Disk) }
    ensures full { (h : History) (r : Request) → IsAnswer h r (Fault faults.Full) }
    ensures no_office { (h : History) (r : Request) → IsAnswer h r (Fault faults.NotAnOffice) → ⊥ }
    ensures after_done { (h : History) (r : Request) (reply : Reply) (e : Option Event)
        → verdict h r ≡ accepted reply e → history_after h r (Done reply) ≡ with_event e h }
    ensures after_denied { (h : History) (r : Request) (d : Denial) (f : Option (List ℕ))
        → verdict h r ≡ denied d f → history_after h r (Denied d f) ≡ h }
    ensures after_a_fault { (h : History) (r : Request) (fault : FaultWord)
        → history_after h r (Fault fault) ≡ h }
{}
