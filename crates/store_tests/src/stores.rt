//! What stores in memory answer.

use crate::transcript::carry_out;
use sqlite::Connection;
use std::alloc::Global;
use std::process::Abort;
use std::test::Fail;

// Carries transcripts out, each in an empty store.
fn carry_out_all(rt: &impl Abort, alloc: Global, transcripts: &str) -> Result<(), Fail> {
    for transcript in transcripts.split("\n\n") {
        let conn = Connection::open_in_memory(alloc)?;
        carry_out(rt, alloc, conn, transcript)?;
    }
    Ok(())
}

const FOUNDINGS: &str = "\
# An office is founded once.
> found
Ok(())
> check_office
Ok(2097152)
> listed
Ok(2097152)
> found
Err(already-founded)

# It is founded with its first user.
> found
Ok(())
> user_by_name - - root
root ops 1 1
> user_by_token - - - 0 1
root ops 1 1

# It is founded where no table of an office is, whatever the case of its name.
> sql CREATE TABLE Holds (name TEXT) STRICT
> found
Err(already-founded)

# It is founded where no other table is.
> sql CREATE TABLE notes (name TEXT) STRICT
> found
Err(not-an-office)

# An empty store is no office.
> check_office
Err(not-an-office)

# Nor is one without a table,
> found
Ok(())
> sql DROP TABLE holds
> check_office
Err(not-an-office)

# with another table,
> found
Ok(())
> sql DROP TABLE votes; CREATE TABLE votes (team TEXT, profile TEXT, number INTEGER, voter TEXT, approve INTEGER) STRICT
> check_office
Err(not-an-office)

# without the row of the office,
> found
Ok(())
> sql DELETE FROM office
> check_office
Err(not-an-office)

# with one of another schema,
> found
Ok(())
> sql UPDATE office SET schema = 3
> check_office
Err(not-an-office)

# under another key,
> found
Ok(())
> sql UPDATE office SET key = 2
> check_office
Err(not-an-office)

# or with a capability listed that there isn't.
> found
Ok(())
> sql UPDATE office SET listed = 2199023255552
> check_office
Err(not-an-office)

# One of schema 1 is old, with the table of held profiles or without it, and one of schema 2 lacks what isn't there.
> found
Ok(())
> sql DROP INDEX revisions_by_author
> check_office
Err(no-index)
> sql DROP TABLE holds
> check_office
Err(not-an-office)
> sql UPDATE office SET schema = 1
> check_office
Err(old-schema)
> sql DROP TABLE votes
> check_office
Err(not-an-office)

# A number below 0 lists none.
> found
Ok(())
> sql UPDATE office SET listed = -1
> check_office
Err(not-an-office)
";

#[test]
fn an_office_is_founded_once_in_an_empty_store(rt: HostRuntime) -> Result<(), Fail> {
    carry_out_all(&rt, rt.alloc(), FOUNDINGS)
}

const ROWS: &str = "\
# A user is put and found by name.
> found
Ok(())
> user_by_name - - ann
Ok(None)
> put_user blue - ann 2 7
Ok(())
> put_user blue - ann 6 8
Ok(())
> user_by_name - - ann
ann blue 6 8

# A user is found by the last token.
> found
Ok(())
> put_user blue - ann 2 7
Ok(())
> put_user blue - ann 6 8
Ok(())
> user_by_token - - - 0 7
Ok(None)
> user_by_token - - - 0 8
ann blue 6 8

# A token of another user is refused.
> found
Ok(())
> put_user blue - ann 2 7
Ok(())
> put_user blue - eve 4 7
Err(disk)
> user_by_name - - eve
Ok(None)

# A revision is open until the next closes it.
> found
Ok(())
> last blue web
Ok(None)
> add_revision blue web ann
Ok(1)
> add_revision blue web ann
Ok(2)
> revision blue web - 1
1 ann closed {} 7
> last blue web
2 ann open {} 7

# A revision is issued, replaced and withdrawn.
> found
Ok(())
> add_revision blue web ann
Ok(1)
> add_revision blue web ann
Ok(2)
> set_issued blue web - 2
Ok(())
> add_revision blue web ann
Ok(3)
> set_issued blue web - 3
Ok(())
> revision blue web - 2
2 ann replaced {} 7
> issued blue web
3 ann issued {} 7
> set_withdrawn blue web - 3
Ok(())
> issued blue web
Ok(None)
> revision blue web - 4
Ok(None)

# A baseline is replaced.
> found
Ok(())
> baseline blue
Ok(None)
> put_baseline blue web - 1
Ok(())
> put_baseline blue web - 2
Ok(())
> baseline blue
baseline web 2

# A hold is released.
> found
Ok(())
> put_hold blue web
Ok(())
> held blue web
Ok(true)
> delete_hold blue web
Ok(())
> held blue web
Ok(false)

# A profile has a revision once one was added.
> found
Ok(())
> has_revision blue web
Ok(false)
> add_revision blue web ann
Ok(1)
> has_revision blue web
Ok(true)
> has_revision blue api
Ok(false)
";

#[test]
fn rows_are_written_and_read(rt: HostRuntime) -> Result<(), Fail> {
    carry_out_all(&rt, rt.alloc(), ROWS)
}

const LISTS: &str = "\
# The authors of a profile stand once, by name.
> found
Ok(())
> add_revision blue web zoe
Ok(1)
> add_revision blue web ann
Ok(2)
> add_revision blue web zoe
Ok(3)
> authors blue web
authors ann zoe

# An author is one of a profile.
> found
Ok(())
> add_revision blue web zoe
Ok(1)
> add_revision blue web ann
Ok(2)
> add_revision blue web zoe
Ok(3)
> is_author blue web zoe
Ok(true)
> is_author blue api zoe
Ok(false)

# The revisions of a team stand by profile and number.
> found
Ok(())
> add_revision blue web ann
Ok(1)
> add_revision red web eve
Ok(1)
> add_revision blue web ann
Ok(2)
> add_revision blue api ann
Ok(1)
> revisions_of blue
revisions api/1/open web/1/closed web/2/open

# A vote counts by the present roles of its voter. Sue approves the first revision, with security, after she rejected it, and ray
# rejects it. Then they are enrolled anew, and of the roles of sue security is taken, then review, and of ray all.
> found
Ok(())
> put_vote blue web sue 1 reject
Ok(())
> put_vote blue web sue 1 approve-security
Ok(())
> put_vote blue web ray 1 reject
Ok(())
> put_user blue - ray 4 2
Ok(())
> tally blue web - 1
tally 0 0 1
> put_user blue - sue 12 3
Ok(())
> tally blue web - 1
tally 1 1 1
> put_user blue - sue 4 3
Ok(())
> tally blue web - 1
tally 1 0 1
> put_user blue - sue 8 3
Ok(())
> tally blue web - 1
tally 0 0 1
> put_user blue - ray 0 2
Ok(())
> tally blue web - 1
tally 0 0 0
> put_user blue - sue 12 3
Ok(())
> tally blue web - 1
tally 1 1 0
> standing blue web - 1
votes ray/false/false/false sue/true/true/true

# A vote's columns are 0 or 1.
> found
Ok(())
> put_vote blue web sue 1 approve
Ok(())
> sql UPDATE votes SET approve = 2
> standing blue web - 1
Err(not-an-office)
> tally blue web - 1
Err(not-an-office)
> sql UPDATE votes SET approve = 1, security = -1
> standing blue web - 1
Err(not-an-office)
> sql UPDATE votes SET security = 0
> standing blue web - 1
votes sue/true/false/false
";

#[test]
fn lists_and_votes_are_read(rt: HostRuntime) -> Result<(), Fail> {
    carry_out_all(&rt, rt.alloc(), LISTS)
}
