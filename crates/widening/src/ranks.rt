//! What the ranks of a name's entries show without a look at their comparisons, and which entries
//! must imply another.

ghost use Rattle.std.specs.Prelude.{◌≡◌, ◌&&◌, ◌∷◌, ◌++◌, [], ℕ, List, ◌≤◌, nat_le};
ghost use Rattle.std.specs.List.{list_all};
ghost use Rattle.seccomp_doc.specs.declared.action.Action.{Action as ActionValue};
ghost use Rattle.seccomp_doc.specs.Filter.{EntryValue};
ghost use Rattle.widening.specs.Calls.{Rules, is_at_most_possible, is_covered, is_default_covered};
ghost use Rattle.widening.specs.Calls.{permits_no_more};
ghost use Rattle.widening.specs.Ranks.{AreRanksOf, do_imply, is_in, rules_with};

use seccomp_doc::{Action, Entry};

// The greatest rank, that of a call that is allowed.
const GREATEST: u8 = 6;

// No rank.
const NONE: Span = Span { first: 0, end: 0 };

// The ranks from the first up to the end, which isn't among them.
#[derive(Clone, Copy)]
pub(crate) struct Span {
    first: u8,
    end: u8,
}

impl Span {
    // Whether the rank of the entry is among them.
    pub(crate) fn has(self, entry: &Entry) -> bool
        ensures { result ≡ is_in self entry.now }
    {
        let rank = entry.action().rank();
        self.first <= rank && rank < self.end
    }
}

// The ranks of what a filter may do with the calls of a name: of its default, the least and the
// greatest of the entries, and whether one of them compares no argument.
#[derive(Clone, Copy)]
pub(crate) struct Ranks {
    default: u8,
    least: u8,
    greatest: u8,
    has_plain: bool,
}

impl Ranks {
    // Those of a name that no entry has.
    pub(crate) fn of_default(default: Action) -> Ranks
        ensures { AreRanksOf result (rules_with default []) }
    {
        Ranks {
            default: default.rank(),
            least: GREATEST,
            greatest: 0,
            has_plain: false,
        }
    }

    // Those with one entry more.
    pub(crate) fn with(self, entry: &Entry) -> Ranks
        ensures { (default : ActionValue) (entries : List EntryValue) →
            AreRanksOf self (rules_with default entries)
            → AreRanksOf result (rules_with default (entries ++ entry.now ∷ [])) }
    {
        let rank = entry.action().rank();
        Ranks {
            default: self.default,
            least: if rank < self.least { rank } else { self.least },
            greatest: if self.greatest < rank {
                rank
            } else {
                self.greatest
            },
            has_plain: self.has_plain || entry.args().is_empty(),
        }
    }

    // The least rank that a call may have.
    #[tactic(auto, using(crate::proofs::RankFacts::possible_plain, crate::proofs::RankFacts::possible_entries, crate::proofs::RankFacts::possible_default))]
    fn least_possible(self) -> u8
        ensures { (rules : Rules) → AreRanksOf self rules →
            (rank : ℕ) → rank ≤ 6 → nat_le rank result ≡ is_at_most_possible rank rules }
    {
        if self.has_plain || self.least < self.default {
            self.least
        } else {
            self.default
        }
    }
}

// The ranks of the entries that must imply one of the other rules', so that new rules permit no
// more than a baseline's: of the new entries, and of the baseline's. Without a span the new rules
// permit more, whatever the entries compare.
#[derive(Clone, Copy)]
pub(crate) struct Asked {
    pub(crate) of_new: Option<Span>,
    pub(crate) of_base: Option<Span>,
}

impl Asked {
    // What is asked of rules with these ranks.
    pub(crate) fn between(base: Ranks, new: Ranks) -> Asked
        ensures { (b n : Rules) → AreRanksOf base b → AreRanksOf new n →
            permits_no_more b n
            ≡ (do_imply result.of_new n.entries b.entries
            && do_imply result.of_base b.entries n.entries) }
    {
        Asked {
            of_new: asked_of_new(base, new),
            of_base: asked_of_base(base, new),
        }
    }
}

// The ranks of the new entries that must imply one of the baseline's, so that each permits no more.
// Without a span one permits more, whatever it compares.
fn asked_of_new(base: Ranks, new: Ranks) -> Option<Span>
    ensures { (b n : Rules) → AreRanksOf base b → AreRanksOf new n →
        list_all (is_covered b) n.entries ≡ do_imply result n.entries b.entries }
{
    let possible = base.least_possible();
    if new.greatest <= possible {
        return Some(NONE);
    }
    if base.least < new.greatest {
        return None;
    }
    Some(Span {
        first: possible + 1,
        end: 7,
    })
}

// The ranks of the baseline's entries that must imply a new one, so that the new default permits no
// more. Without a span it permits more, whatever they compare.
fn asked_of_base(base: Ranks, new: Ranks) -> Option<Span>
    ensures { (b n : Rules) → AreRanksOf base b → AreRanksOf new n →
        is_default_covered b n ≡ do_imply result b.entries n.entries }
{
    let possible = base.least_possible();
    if new.has_plain || new.default <= possible {
        return Some(NONE);
    }
    if base.default < new.default {
        return None;
    }
    Some(Span {
        first: 0,
        end: new.default,
    })
}
