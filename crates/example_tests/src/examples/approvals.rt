//! What an answer gives out, and when that was approved.

ghost use Rattle.std.specs.Prelude.{◌≡◌, [], ◌∷◌, ℕ, List};
ghost use Rattle.profile_text.specs.Digest.{digest_of};
ghost use Rattle.review_policy.specs.declared.act.ProfileView.TheVariants.{Fetch};
ghost use Rattle.review_policy.specs.declared.act.ProfileView.TheVariants as views;
ghost use Rattle.review_policy.specs.declared.act.RevisionAct.TheVariants.{Issue};
ghost use Rattle.review_policy.specs.declared.ask.Ask.TheVariants as ask;
ghost use Rattle.review_policy.specs.declared.ask.Request.{Request};
ghost use Rattle.review_policy.specs.declared.answer.Answer.TheVariants.{Done};
ghost use Rattle.review_policy.specs.declared.answer.Reply.TheVariants as reply;
ghost use Rattle.office_policy.specs.Examples.{ann, iss, issues, submits, text, web};
ghost use Rattle.office_policy.specs.Headline.{GivesOutApproved};
ghost use Rattle.office_policy.specs.Users.{name_of, user_showing};
ghost use Rattle.example_tests.specs.Examples.{approved, founding};

/// The text that is fetched, and that of which the digest is issued or told, was approved, by its
/// digest and enough.
pub fn examples_of_what_is_given_out()
    ensures fetched { (token : List ℕ)
        → GivesOutApproved (issues 1 ∷ approved) (record { token = token; ask = ask.SeeProfile Fetch web })
        (Done (reply.Fetched (digest_of text) text 1)) }
    ensures issued { (token : List ℕ) → name_of (user_showing approved (digest_of token)) ≡ iss
        → GivesOutApproved approved (record { token = token; ask = ask.ActOnRevision Issue web 1 })
        (Done (reply.Issued (digest_of text))) }
    ensures issued_now { (token : List ℕ)
        → GivesOutApproved (issues 1 ∷ approved) (record { token = token; ask = ask.SeeProfile views.Issued web })
        (Done (reply.IssuedNow (digest_of text) 1)) }
    ensures issued_now_of_nothing { (r : Request) (digest : List ℕ) (n : ℕ)
        → GivesOutApproved founding r (Done (reply.IssuedNow digest n)) → ⊥ }
    ensures issued_now_unasked { (token digest : List ℕ) (n : ℕ) → GivesOutApproved
        (issues 1 ∷ approved) (record { token = token; ask = ask.SeeProfile Fetch web })
        (Done (reply.IssuedNow digest n)) → ⊥ }
    ensures issued_by_its_author { (token : List ℕ)
        → name_of (user_showing approved (digest_of token)) ≡ ann
        → GivesOutApproved approved (record { token = token; ask = ask.ActOnRevision Issue web 1 })
        (Done (reply.Issued (digest_of text))) → ⊥ }
    ensures issued_of_nothing { (r : Request) (digest : List ℕ)
        → GivesOutApproved founding r (Done (reply.Issued digest)) → ⊥ }
    ensures fetched_of_nothing { (r : Request) (digest bytes : List ℕ) (n : ℕ)
        → GivesOutApproved founding r (Done (reply.Fetched digest bytes n)) → ⊥ }
    ensures unapproved { (r : Request) (digest bytes : List ℕ) (n : ℕ)
        → GivesOutApproved (issues 1 ∷ submits ann ∷ []) r (Done (reply.Fetched digest bytes n))
        → ⊥ }
    ensures other_text { (token : List ℕ) → GivesOutApproved (issues 1 ∷ approved)
        (record { token = token; ask = ask.SeeProfile Fetch web })
        (Done (reply.Fetched (digest_of text) (2 ∷ []) 1)) → ⊥ }
    ensures not_asked { (token digest bytes : List ℕ) (n : ℕ) → GivesOutApproved
        (issues 1 ∷ approved) (record { token = token; ask = ask.Me })
        (Done (reply.Fetched digest bytes n)) → ⊥ }
{}
