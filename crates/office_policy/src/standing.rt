//! Laws of standing votes. Each is a function without a parameter whose contract is the law; it
//! does nothing.

ghost use Rattle.std.specs.Prelude.{◌≡◌, AllPairs, List, ℕ};
ghost use Rattle.std.specs.declared.cmp.Ordering.TheVariants.{Less};
ghost use Rattle.office_words.specs.declared.name.ProfileName.{ProfileName};
ghost use Rattle.office_words.specs.declared.revision.VoteRow.{VoteRow};
ghost use Rattle.office_words.specs.Lists.{name_cmp, AreStanding};
ghost use Rattle.office_policy.specs.History.{History};
ghost use Rattle.office_policy.specs.Votes.{standing_votes};
ghost use Rattle.office_policy.specs.TablesOf.{tables_of};

/// The standing votes of the tables of a history are those of looking back over it.
pub fn the_tables_have_the_standing_votes()
    ensures { (h : History) (p : ProfileName) (n : ℕ) (rows : List VoteRow)
        → AreStanding (tables_of h) p n rows → rows ≡ standing_votes h p n }
{}

/// Looking back over a history gives the standing votes by voter, each voter once.
pub fn standing_votes_are_by_voter()
    ensures { (h : History) (p : ProfileName) (n : ℕ)
        → AllPairs (λ (a b : VoteRow). name_cmp a.voter b.voter ≡ Less) (standing_votes h p n) }
{}
