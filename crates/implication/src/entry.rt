//! Implication between entries.

ghost use Rattle.std.specs.Prelude.{◌≡◌, ◌==◌, ◌&&◌, IsTrue};
ghost use Rattle.std.specs.List.{list_all, list_any};
ghost use Rattle.implication.specs.Implication.{AdmitsAllOf, entry_implies, implies};

use crate::compare::implies;
use seccomp_doc::{Compare, Entry};

/// Whether an entry implies the other: each comparison of the other is implied by one of its own of
/// the same argument. Their names and actions aren't looked at. All entries imply one without
/// comparisons.
///
/// It takes no memory. Comparisons are taken one by one: an entry that admits nothing because of
/// one argument still needs a comparison for each argument that the other compares.
pub fn entry_implies(entry: &Entry, other: &Entry) -> bool
    ensures value { result ≡ entry_implies entry.now other.now }

    // Where it is true, the other admits all that the entry admits.
    ensures sound { IsTrue result → AdmitsAllOf other.now entry.now }
{
    all_implied(other.args(), entry.args())
}

// Whether each comparison is implied by one of the others that is of the same argument.
fn all_implied(args: &[Compare], others: &[Compare]) -> bool
    ensures { result
        ≡ list_all (λ d. list_any (λ c. c.index == d.index && implies c d) others.now) args.now }
{
    args.iter().all(|arg| some_implies(others, *arg))
}

// Whether a comparison is implied by one of these that is of the same argument.
fn some_implies(args: &[Compare], compare: Compare) -> bool
    ensures { result ≡ list_any (λ c. c.index == compare.index && implies c compare) args.now }
{
    args.iter()
        .any(|arg| arg.index == compare.index && implies(*arg, compare))
}
