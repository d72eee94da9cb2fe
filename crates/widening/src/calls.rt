//! The calls of one name in two filters, by the entries as they stand.

ghost use Rattle.std.specs.Prelude.{◌≡◌, ◌∷◌, ◌++◌, ◌||◌, [], List, Some, filter, not};
ghost use Rattle.std.specs.List.{list_any};
ghost use Rattle.seccomp_doc.specs.declared.action.Action.{Action as ActionValue};
ghost use Rattle.seccomp_doc.specs.Filter.{EntryValue};
ghost use Rattle.seccomp_doc.specs.Meaning.{has_name};
ghost use Rattle.implication.specs.Implication.{entry_implies};
ghost use Rattle.widening.specs.Calls.{keeps_to, rules_of};
ghost use Rattle.widening.specs.Ranks.{AreRanksOf, do_imply, is_in, rules_with};

use crate::ranks::{Asked, Ranks, Span};
use implication::entry_implies;
use seccomp_doc::{Entry, Filter};

// Whether the new filter permits no call of this name more than the baseline.
pub(crate) fn keeps_to(base: &Filter, new: &Filter, name: &str) -> bool
    ensures { result ≡ keeps_to base.now new.now name.now }
{
    let Asked { of_new, of_base } = Asked::between(ranks_of(base, name), ranks_of(new, name));
    do_imply(of_new, new, base, name) && do_imply(of_base, base, new, name)
}

// The ranks of what a filter may do with the calls of this name.
fn ranks_of(filter: &Filter, name: &str) -> Ranks
    ensures { AreRanksOf result (rules_of name.now filter.now) }
{
    let mut ranks = Ranks::of_default(filter.default_action());
    for entry in filter.entries() {
        ranks = with_named(ranks, entry, name);
    }
    ranks
}

// The ranks with one entry more, where it has the name.
fn with_named(ranks: Ranks, entry: &Entry, name: &str) -> Ranks
    ensures { (default : ActionValue) (entries : List EntryValue) →
        AreRanksOf ranks (rules_with default (filter (has_name name.now) entries)) →
        AreRanksOf result
        (rules_with default (filter (has_name name.now) (entries ++ entry.now ∷ []))) }
{
    if entry.has_name(name) {
        ranks.with(entry)
    } else {
        ranks
    }
}

// Whether each of a filter's entries of this name that are asked implies one of the other's.
fn do_imply(asked: Option<Span>, filter: &Filter, other: &Filter, name: &str) -> bool
    ensures { result ≡ do_imply asked
        (rules_of name.now filter.now).entries (rules_of name.now other.now).entries }
{
    match asked {
        None => false,
        Some(span) => all_imply(span, filter.entries(), other.entries(), name),
    }
}

// Whether each of the entries of this name whose rank is in the span implies one of the others.
fn all_imply(span: Span, entries: &[Entry], others: &[Entry], name: &str) -> bool
    ensures { result ≡ do_imply (Some span)
        (filter (has_name name.now) entries.now) (filter (has_name name.now) others.now) }
{
    entries
        .iter()
        .filter(|entry| entry.has_name(name))
        .all(|entry| does_imply(span, entry, others, name))
}

// Whether an entry's rank isn't in the span, or it implies one of the others.
fn does_imply(span: Span, entry: &Entry, others: &[Entry], name: &str) -> bool
    ensures { result
        ≡ (not (is_in span entry.now)
        || list_any (entry_implies entry.now) (filter (has_name name.now) others.now)) }
{
    !span.has(entry) || implies_some(entry, others, name)
}

// Whether an entry implies an entry of this name.
fn implies_some(entry: &Entry, entries: &[Entry], name: &str) -> bool
    ensures { result ≡ list_any (entry_implies entry.now) (filter (has_name name.now) entries.now) }
{
    entries
        .iter()
        .filter(|other| other.has_name(name))
        .any(|other| entry_implies(entry, other))
}
