//! The walk over the members of an object.

ghost use Rattle.json_tree.specs.View.{members_view, view};
ghost use Rattle.profile_text.specs.Reading.{GivesAs, unless_faulty};
ghost use Rattle.profile_text.specs.Shape.{below, members_faults, members_over, row_faults};
ghost use Rattle.profile_text.specs.Shape.{row_named};

use crate::fault::DocFault;
use json_tree::Tree;
use std::alloc::Global;

/// What the members of an object of one kind give, one after another.
pub(crate) trait FromMembers: Drop {
    ghost use Rattle.std.specs.Prelude.{ℕ, List};
    ghost use Rattle.serde_json.specs.Data.{Data};
    ghost use Rattle.profile_text.specs.Shape.{Row};

    /// What tells an object of this kind from the others of a document.
    type At: Copy;

    /// What contracts see of what was found.
    ghost Seen: { Type 0 };

    /// What was found, as contracts see it.
    ghost seen: { Self → Seen };

    /// The path of the object.
    ghost path: { Self.At → List ℕ };

    /// The members that the object may have.
    ghost rows: { List Row };

    /// What was found, with one member more.
    ghost with_member: { List ℕ → Data → Seen → Seen };

    /// Takes up one member more.
    fn take_member(
        &mut self,
        alloc: Global,
        at: Self::At,
        name: &str,
        value: &Tree<'_>,
    ) -> Result<(), DocFault>
        ensures { GivesAs (λ taken. seen self.new) result (unless_faulty
            (row_faults (row_named rows name.now) (below (path at) name.now) (view value.now))
            (with_member name.now (view value.now) (seen self.old))) };
}

/// What the members give beside what was found, or their first fault.
pub(crate) fn with_members<F: FromMembers>(
    alloc: Global,
    at: F::At,
    start: F,
    members: &[(&str, Tree<'_>)],
) -> Result<F, DocFault>
    ensures { GivesAs F.seen result (unless_faulty
        (members_faults F.rows (F.path at) (members_view members.now))
        (members_over F.with_member (F.seen start) (members_view members.now))) }
{
    let mut found = start;
    for (name, value) in members {
        found.take_member(alloc, at, name, value)?;
    }
    Ok(found)
}
