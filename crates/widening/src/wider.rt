//! The test of a profile against its baseline.

ghost use Rattle.std.specs.Prelude.{◌≡◌, ◌&&◌, ◌||◌, not, nat_lt};
ghost use Rattle.std.specs.Bool.{OnFalse};
ghost use Rattle.std.specs.List.{list_any};
ghost use Rattle.seccomp_doc.specs.Action.{rank_of};
ghost use Rattle.seccomp_doc.specs.Meaning.{has_name};
ghost use Rattle.widening.specs.Calls.{entry_names, is_permitted_more};
ghost use Rattle.widening.specs.Findings.{between_filters, call_findings, filter_findings};
ghost use Rattle.widening.specs.Findings.{is_emptied, is_found, is_wider};
ghost use Rattle.widening.specs.Permits.{IsNoWider};
ghost use Rattle.widening.specs.Texts.{adds_a_text, lists};

use crate::calls::keeps_to;
use crate::caps::gains_a_cap;
use crate::text_lists::{adds_a_text, is_emptied, lists};
use profile_text::Profile;
use seccomp_doc::{CallName, Entry, Filter};

/// Whether there is a finding: whether the new profile permits, or may permit, more than the
/// baseline.
///
/// It takes no memory, and looks at all entries for each name: with as many names as a filter can
/// have that takes seconds. `findings` groups the entries by name first, and is the call for
/// documents of others.
#[tactic(auto, using(crate::proofs::FoundFacts::found_in_all, crate::proofs::Permitted::no_wider_by_parts))]
pub fn is_wider(base: &Profile, new: &Profile) -> bool
    ensures told { result ≡ is_wider base.now new.now }

    // Where it is false, no capability and no call with whatever arguments is permitted more.
    ensures no_wider { OnFalse result (IsNoWider base.now new.now) }
{
    gains_a_cap(&base.caps, &new.caps) || are_filters_wider(&base.filter, &new.filter)
}

// Whether there is a finding between the filters, where there are any.
fn are_filters_wider(base: &Option<Filter>, new: &Option<Filter>) -> bool
    ensures { result ≡ is_found (filter_findings base.now new.now) }
{
    match (base, new) {
        (None, _) => false,
        (Some(_), None) => true,
        (Some(base), Some(new)) => is_filter_wider(base, new),
    }
}

// Whether there is a finding between two filters.
#[tactic(auto, using(crate::proofs::FoundFacts::found_between))]
fn is_filter_wider(base: &Filter, new: &Filter) -> bool
    ensures { result ≡ is_found (between_filters base.now new.now) }
{
    is_setting_wider(base, new) || gains_a_call(base, new)
}

// Whether there is a finding among what two filters say besides their entries.
fn is_setting_wider(base: &Filter, new: &Filter) -> bool
    ensures { result ≡ (((is_emptied base.now.architectures new.now.architectures
        || adds_a_text base.now.architectures new.now.architectures)
        || adds_a_text base.now.flags new.now.flags)
        || nat_lt (rank_of base.now.default) (rank_of new.now.default)) }
{
    is_emptied(base.architectures(), new.architectures())
        || adds_a_text(base.architectures(), new.architectures())
        || adds_a_text(base.flags(), new.flags())
        || base.default_action().rank() < new.default_action().rank()
}

// Whether the new filter may permit a call of some name more.
#[tactic(auto, using(crate::proofs::FoundFacts::found_calls))]
fn gains_a_call(base: &Filter, new: &Filter) -> bool
    ensures { result ≡ is_found (call_findings base.now new.now) }
{
    gains_a_call_of(base, new, base.entries()) || gains_a_call_of(base, new, new.entries())
}

// The same of the names of these entries.
fn gains_a_call_of(base: &Filter, new: &Filter, entries: &[Entry]) -> bool
    ensures { result ≡ list_any (is_permitted_more base.now new.now) (entry_names entries.now) }
{
    for i in 0..entries.len() {
        if gains_a_new_call(base, new, &entries[..i], entries[i].names()) {
            return true;
        }
    }
    false
}

// The same of those of these names that no earlier entry has.
fn gains_a_new_call(base: &Filter, new: &Filter, earlier: &[Entry], names: &[CallName]) -> bool
    ensures { result ≡ list_any (λ name. not (list_any (has_name name) earlier.now)
        && is_permitted_more base.now new.now name) names.now }
{
    for i in 0..names.len() {
        if is_new_and_more(base, new, earlier, &names[..i], names[i].as_str()) {
            return true;
        }
    }
    false
}

// Whether a call of this name may be permitted more, where it is none of these names and no earlier
// entry has it.
fn is_new_and_more(
    base: &Filter,
    new: &Filter,
    earlier: &[Entry],
    names: &[CallName],
    name: &str,
) -> bool
    ensures { result
        ≡ (not (lists names.now name.now) && (not (list_any (has_name name.now) earlier.now)
        && is_permitted_more base.now new.now name.now)) }
{
    !lists(names, name) && (!is_named(earlier, name) && !keeps_to(base, new, name))
}

// Whether an entry has the name.
fn is_named(entries: &[Entry], name: &str) -> bool
    ensures { result ≡ list_any (has_name name.now) entries.now }
{
    entries.iter().any(|entry| entry.has_name(name))
}
