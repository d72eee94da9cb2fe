//! Who may ask what, as tables of single roles and as laws of every user. Each is a function
//! without a parameter whose contract is the law; it does nothing.

ghost use Rattle.std.specs.Prelude.{◌≡◌, ℕ, true, Vec, Option, Some, None, map, is_ok};
ghost use Rattle.std.specs.declared.alloc.Global.{Global};
ghost use Rattle.profile_text.specs.Digest.{digest_of};
ghost use Rattle.review_policy.specs.declared.ask.Ask.{Ask};
ghost use Rattle.review_policy.specs.declared.ask.Ask.TheVariants.{Me};
ghost use Rattle.review_policy.specs.declared.ask.Request.{Request};
ghost use Rattle.review_policy.specs.declared.answer.Reply.{Reply};
ghost use Rattle.review_policy.specs.declared.denial.Rule.TheVariants.{CallerUnknown};
ghost use Rattle.office_words.specs.declared.row.UserRow.{UserRow};
ghost use Rattle.office_policy.specs.History.{Event, History};
ghost use Rattle.office_policy.specs.Verdict.{verdict, accepted};
ghost use Rattle.office_policy.specs.Lawful.{IsAllowed};
ghost use Rattle.office_policy.specs.Callers.{IsForCaller, may_ask, caller_of};
ghost use Rattle.office_policy.specs.Asked.{IsAsked, IsSeen, TellsCaller};
ghost use Rattle.office_policy.specs.Users.{name_of, user_showing};
ghost use Rattle.office_policy.specs.Examples.{blue, red, refused};
ghost use Rattle.office_policy.specs.CallerTable.{decided, decided_for_each, each_kind};
ghost use Rattle.office_policy.specs.CallerTable.{of_own_team, of_other_team};

/// What the rules of caller, role and team decide where a user of the named team holds one role and
/// no other: for each kind of request and each role, whatever has happened.
pub fn who_may_ask()
    ensures { (h : History) (document : Vec ℕ Global)
        → map (decided_for_each h blue) (each_kind document) ≡ of_own_team }
{}

/// The same where the user is of another team.
pub fn who_may_ask_of_other_teams()
    ensures { (h : History) (document : Vec ℕ Global)
        → map (decided_for_each h red) (each_kind document) ≡ of_other_team }
{}

/// Those rules let just those users through who may ask, whatever roles they hold, and nobody who
/// is no user.
pub fn callers_may_ask_by_role_and_team()
    ensures users { (h : History) (user : UserRow) (a : Ask) → is_ok (decided h (Some user) a)
        ≡ may_ask user a }
    ensures strangers { (h : History) (a : Ask) → decided h None a ≡ refused 1 CallerUnknown }
{}

/// What is accepted is carried out for the user whose present digest is that of the whole token
/// that was shown, who may ask it; and what happens then is of that user.
pub fn what_is_accepted_was_allowed()
    ensures { (h : History) (r : Request) (reply : Reply) (e : Option Event) → verdict h r
        ≡ accepted reply e → IsForCaller h r e }
{}

/// What is allowed to a user has the name of that user, who may ask it.
pub fn what_is_allowed_is_of_its_caller()
    ensures caller { (h : History) (e : Event) (is : IsAllowed h e) → caller_of e
        ≡ Some is.caller.name }
    ensures may { (h : History) (e : Event) (is : IsAllowed h e) → may_ask is.caller is.ask
        ≡ true }
{}

/// What happens where a request is carried out is just what was asked, by its caller: an enrolment
/// with these roles and this digest; a vote on this revision, by this digest, that approves or
/// rejects as it was cast; an act on this revision. Where something is only looked at, nothing
/// happens.
pub fn what_happens_was_asked()
    ensures { (h : History) (r : Request) (reply : Reply) (e : Option Event) → verdict h r
        ≡ accepted reply e → IsAsked (name_of (user_showing h (digest_of r.token))) r.ask e }
{}

/// Who asks who that is, is told: the name, the team and the roles that the user has now whose
/// present digest is that of the whole token that was shown.
pub fn callers_are_told_who_they_are()
    ensures { (h : History) (r : Request) (reply : Reply) (e : Option Event) → r.ask ≡ Me
        → verdict h r ≡ accepted reply e → TellsCaller h r reply }
{}

/// What is shown is the revision that was asked for, a sheet is of just that one, what is listed is
/// the profiles of the team, and the revisions are the newest of the profile.
pub fn what_is_seen_was_asked()
    ensures { (h : History) (r : Request) (reply : Reply) (e : Option Event) → verdict h r
        ≡ accepted reply e → IsSeen h r.ask reply }
{}
