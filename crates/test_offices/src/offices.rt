//! Foundings.

ghost use Rattle.std.specs.Prelude.{IfOk, IfErr};
ghost use Rattle.sqlite.specs.Held.{state};
ghost use Rattle.office_store.specs.Shown.{IsIdle};

use cap_sets::Caps;
use office_founding::FoundingFault;
use office_words::{Word, digest_from_hex};
use review_office::Office;
use sqlite::{Alter, Connection, MemStore};
use std::alloc::Global;
use std::test::Fail;

// The SHA-256 of abc, the token of root.
const DIGEST: &str = "ba7816bf8f01cfea414140de5dae2223b00361a396177a9cb410ff61f20015ad";

/// What a founding answers.
pub type Founded<S> = Result<Office<S>, (FoundingFault, Connection<S>)>;

// Whom an office is founded with, and what it lists.
#[derive(Drop)]
struct Founding {
    // The first user.
    name: Word,
    // The team of that user.
    team: Word,
    // The SHA-256 of the token that the user shows.
    digest: [u8; 32],
    // The listed capabilities.
    listed: Caps,
}

// The founding of an office whose first user is root of the team office, with the one listed
// capability CAP_SYS_ADMIN.
fn trial_founding(alloc: Global) -> Result<Founding, Fail> {
    let (Some(digest), Some(listed)) = (digest_from_hex(DIGEST), Caps::from_name("CAP_SYS_ADMIN"))
    else {
        return Err(Fail::from("a founding"));
    };
    Ok(Founding {
        name: Word::new(alloc, "root")?,
        team: Word::new(alloc, "office")?,
        digest,
        listed,
    })
}

/// Founds that office.
pub fn found_office<S: Alter + Drop>(alloc: Global, conn: Connection<S>) -> Result<Founded<S>, Fail>
    requires { IsIdle (state S.Store conn) }
    ensures { IfOk result (λ founded. IfErr founded (λ refusal. IsIdle (state S.Store refusal.1))) }
{
    let founding = trial_founding(alloc)?;
    Ok(Office::found(
        conn,
        &founding.name,
        &founding.team,
        &founding.digest,
        founding.listed,
    ))
}

/// An office in memory in which root may enrol users, by the token abc.
pub fn trial_office(alloc: Global) -> Result<Office<MemStore>, Fail> {
    match found_office(alloc, Connection::open_in_memory(alloc)?)? {
        Ok(office) => Ok(office),
        Err((fault, _)) => Err(Fail::from(fault)),
    }
}
