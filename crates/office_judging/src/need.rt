//! Documents of canonical texts, and how many approvals they need.

ghost use Rattle.std.specs.Prelude.{◌≡◌, IfOk};
ghost use Rattle.office_policy.specs.Documents.{document_of};
ghost use Rattle.office_policy.specs.Need.{need_against};

use cap_sets::Caps;
use office_words::Text;
use profile_text::{DocFault, Profile, read_stored};
use review_policy::{Need, need};
use std::alloc::{AllocError, Global};
use widening::findings;

// The document of a canonical text. Each text that was handed in reads; the closed profile stands
// for any other.
pub(crate) fn document(alloc: Global, body: &Text) -> Result<Profile, AllocError>
    ensures { IfOk result (λ profile. profile ≡ document_of body.now) }
{
    match read_stored(alloc, body.as_str().as_bytes()) {
        Ok(profile) => Ok(profile),
        Err(DocFault::NoMemory(witness)) => Err(witness.into()),
        Err(_) => Ok(Profile::closed(alloc)),
    }
}

// How many approvals a document needs against another.
pub(crate) fn need_against(
    alloc: Global,
    listed: Caps,
    base: &Profile,
    shown: &Profile,
) -> Result<Need, AllocError>
    ensures { IfOk result (λ need. need ≡ need_against listed base.now shown.now) }
{
    let found = findings(alloc, base, shown)?;
    Ok(need(!found.is_empty(), shown.holds_listed(listed)))
}
