//! Separation of duty, as laws of histories. Each is a function without a parameter whose contract
//! is the law; it does nothing.

ghost use Rattle.std.specs.Prelude.{◌≡◌, ◌∷◌, false, List, ℕ, Option, filter};
ghost use Rattle.profile_text.specs.Digest.{digest_of};
ghost use Rattle.review_policy.specs.declared.act.ProfileView.TheVariants.{Fetch};
ghost use Rattle.review_policy.specs.declared.act.ProfileView.TheVariants as views;
ghost use Rattle.review_policy.specs.declared.act.RevisionAct.TheVariants.{Issue};
ghost use Rattle.review_policy.specs.declared.act.RevisionView.TheVariants.{Show};
ghost use Rattle.review_policy.specs.declared.ask.Ask.TheVariants as ask;
ghost use Rattle.office_words.specs.declared.name.ProfileName.{ProfileName};
ghost use Rattle.review_policy.specs.declared.ask.Request.{Request};
ghost use Rattle.review_policy.specs.declared.answer.Reply.{Reply};
ghost use Rattle.review_policy.specs.declared.answer.Reply.TheVariants as reply;
ghost use Rattle.office_words.specs.declared.revision.State.{State};
ghost use Rattle.office_policy.specs.History.{Event, History, issued};
ghost use Rattle.office_policy.specs.Users.{user_showing, name_of};
ghost use Rattle.office_policy.specs.Holds.{is_held};
ghost use Rattle.office_policy.specs.Verdict.{verdict, accepted};
ghost use Rattle.office_policy.specs.Lawful.{IsLawfulHistory};
ghost use Rattle.office_policy.specs.Teams.{concerns, team_of};
ghost use Rattle.office_policy.specs.Duty.{IsSubmission, AreOthers, AreOfTheText, AreEnough};
ghost use Rattle.office_policy.specs.Duty.{LacksTwo, IsPlainRevision, IsTextOf, IsDigestOf};
ghost use Rattle.office_policy.specs.Duty.{IsFetched, ReadsBack, without_text};
ghost use Rattle.office_policy.specs.Headline.{IsOfApproved, WasApproved};

/// What is submitted is known by the digest of the text that happens, the canonical text of the
/// document that was handed in, and by the next number of its profile; it is of the caller.
pub fn what_is_submitted_is_told()
    ensures { (h : History) (r : Request) (digest : List ℕ) (n : ℕ) (e : Option Event)
        → verdict h r ≡ accepted (reply.Submitted digest n) e
        → IsSubmission h (name_of (user_showing h (digest_of r.token))) r.ask digest n e }
{}

/// What is shown is the text that the submission of that number carried.
pub fn what_is_shown_was_submitted()
    ensures { (h : History) (r : Request) (p : ProfileName) (n : ℕ) (digest text : List ℕ)
        (state : State) (e : Option Event) → r.ask ≡ ask.SeeRevision Show p n
        → verdict h r ≡ accepted (reply.Shown digest text state) e → IsTextOf h p n digest text }
{}

/// What is fetched is the text that the submission of that number carried; it was issued, and is
/// issued now.
pub fn what_is_fetched_was_issued()
    ensures { (h : History) (r : Request) (p : ProfileName) (n : ℕ) (digest text : List ℕ)
        (e : Option Event) → r.ask ≡ ask.SeeProfile Fetch p
        → verdict h r ≡ accepted (reply.Fetched digest text n) e → IsFetched h p n digest text }
{}

/// What is told of the issued revision is what a fetch comes to on the same history, without the
/// text: the digest of what would be fetched and its number, or the rule that would refuse it.
pub fn what_is_issued_now_is_what_is_fetched()
    ensures { (h : History) (token : List ℕ) (p : ProfileName)
        → verdict h (record { token = token; ask = ask.SeeProfile views.Issued p })
        ≡ without_text (verdict h (record { token = token; ask = ask.SeeProfile Fetch p })) }
{}

/// What is issued is known by the digest of the text that the submission of that number carried.
pub fn what_is_issued_was_submitted()
    ensures { (h : History) (r : Request) (p : ProfileName) (n : ℕ) (digest : List ℕ)
        (e : Option Event) → r.ask ≡ ask.ActOnRevision Issue p n
        → verdict h r ≡ accepted (reply.Issued digest) e → IsDigestOf h p n digest }
{}

/// Nothing of a held profile is issued or fetched.
pub fn nothing_is_given_out_while_it_is_held()
    ensures issued { (h : History) (r : Request) (p : ProfileName) (n : ℕ) (reply : Reply)
        (e : Option Event) → r.ask ≡ ask.ActOnRevision Issue p n → verdict h r ≡ accepted reply e
        → is_held h p ≡ false }
    ensures fetched { (h : History) (r : Request) (p : ProfileName) (reply : Reply)
        (e : Option Event) → r.ask ≡ ask.SeeProfile Fetch p → verdict h r ≡ accepted reply e
        → is_held h p ≡ false }
{}

/// Each text of a lawful history reads back as the document whose canonical text it is.
pub fn texts_read_back()
    ensures { (h : History) → IsLawfulHistory h → ReadsBack h }
{}

/// Each approval of an issued revision named the digest of exactly the issued text, after its
/// submission, and nothing of the profile was submitted since.
pub fn approvals_are_of_the_issued_text()
    ensures { (h : History) (issuer : List ℕ) (p : ProfileName) (n : ℕ)
        → IsLawfulHistory (issued issuer p n ∷ h) → AreOfTheText h p n }
{}

/// The approvals of an issued revision are of distinct names, each a reviewer at the vote and at
/// the issue, none an author of the profile. The issuer is no author of it either.
pub fn approvals_are_by_others()
    ensures { (h : History) (issuer : List ℕ) (p : ProfileName) (n : ℕ)
        → IsLawfulHistory (issued issuer p n ∷ h) → AreOthers h issuer p n }
{}

/// An issued revision has the approvals that its need asks for at the issue. Where it has fewer
/// than two, or none with security, it holds no listed capability and permits no more than the
/// baseline.
pub fn issues_have_the_approvals_that_they_need()
    ensures enough { (h : History) (issuer : List ℕ) (p : ProfileName) (n : ℕ)
        → IsLawfulHistory (issued issuer p n ∷ h) → AreEnough h p n }
    ensures plain { (h : History) (issuer : List ℕ) (p : ProfileName) (n : ℕ)
        → IsLawfulHistory (issued issuer p n ∷ h) → LacksTwo h p n → IsPlainRevision h p n }
{}

/// What is issued was approved: on the events before it the approvals are of distinct names, none
/// an author of the profile, each for exactly the text whose digest is given, as many and as secure
/// as it needs there.
pub fn what_is_issued_is_approved()
    ensures { (h : History) (r : Request) (digest : List ℕ) (e : Option Event)
        → IsLawfulHistory h → verdict h r ≡ accepted (reply.Issued digest) e
        → IsOfApproved h r digest }
{}

/// What is fetched was approved: it was issued before, and on the events before that issue the
/// approvals are of distinct names, none an author of the profile, each for exactly the fetched
/// text, as many and as secure as it needed there.
pub fn what_is_fetched_was_approved()
    ensures { (h : History) (r : Request) (digest text : List ℕ) (n : ℕ) (e : Option Event)
        → IsLawfulHistory h → verdict h r ≡ accepted (reply.Fetched digest text n) e
        → WasApproved h r.ask digest text n }
{}

/// A request has the same verdict on two histories that have the same events that concern the team
/// that it names, in the same order: what happens to the profiles of other teams changes nothing.
pub fn teams_are_apart()
    ensures { (h k : History) (r : Request) → filter (concerns (team_of r.ask)) h
        ≡ filter (concerns (team_of r.ask)) k → verdict h r ≡ verdict k r }
{}
