//! What the rules ask of a revision: its state.

ghost use Rattle.std.specs.Prelude.{◌≡◌};
ghost use Rattle.office_policy.specs.Revisions.{state_in};
ghost use Rattle.office_judging.specs.Summarized.{as_asked};

use office_store::Summary;
use office_words::{RevisionRow, State};

// The state of a revision that is there.
pub(crate) fn state_in(revision: &Option<RevisionRow>) -> Option<State>
    ensures { result ≡ state_in revision.now }
{
    match revision {
        Some(row) => Some(row.state),
        None => None,
    }
}

/// The state of a revision that is there, by what is known of it without its text.
pub fn state_of(found: &Option<Summary>) -> Option<State>
    ensures { result ≡ state_in (as_asked found.now) }
{
    match found {
        Some(summary) => Some(summary.state),
        None => None,
    }
}
