//! Whether an office is the one of a journal.

ghost use Rattle.std.specs.Prelude.{◌≡◌, ◌↔◌, ℕ, List, IfErr, IfOk, IsTrue};
ghost use Rattle.sqlite.specs.Held.{Held, state};
ghost use Rattle.sqlite.specs.State.{HasCleanDisk};
ghost use Rattle.sqlite.specs.Steps.{IsEmpty};
ghost use Rattle.office_store.specs.Shown.{IsIdle};
ghost use Rattle.journal.specs.SealsAt.{IsSealAsked};
ghost use Rattle.journal_verification.specs.KeptSeals.{HaveSeal, line_of};
ghost use Rattle.journal_verification.specs.Looked.{HasLooked};
ghost use Rattle.journal_verification.specs.Verified.{IsUnverified, IsUnverifiedOver};
ghost use Rattle.journal_verification.specs.Verified.{IsVerified};

use crate::compare::compare;
use journal_faults::{Difference, Unverified};
use journal_office::rebuild;
use memory_database::open_in_memory;
use office_words::Fault;
use sealed_log::Seal;
use sqlite::{Alter, Connection};
use std::alloc::Global;
use std::io::BufRead;

/// What is known of an office that is the one of its journal.
#[derive(Drop)]
pub struct Verified {
    /// The number of its events.
    pub events: u64,
    /// The seal of the last line of the journal, which names the whole of it.
    pub seal: Seal,
    /// The number of the lines of the journal.
    pub lines: u64,
}

/// The seal that a line of a journal had.
#[derive(Clone, Copy, Drop)]
pub struct KeptSeal {
    /// The number of the line, from 1.
    pub line: u64,
    pub seal: Seal,
}

// The line of which the seal is asked for.
fn line_of(kept: Option<KeptSeal>) -> Option<u64>
    ensures { result ≡ line_of kept }
{
    match kept {
        Some(kept) => Some(kept.line),
        None => None,
    }
}

// Whether that seal is the one that was kept.
fn is_kept(kept: Option<KeptSeal>, at: Option<Seal>) -> bool
    ensures { (bodies : List (List ℕ)) → IsSealAsked (line_of kept) bodies at
        → IsTrue result ↔ HaveSeal kept bodies }
{
    match (kept, at) {
        (None, _) => true,
        (Some(kept), Some(seal)) => kept.seal == seal,
        (Some(_), None) => false,
    }
}

// As `verify`, where the office is built anew over this connection, to a store that has nothing yet and
// returns what is written to it.
fn verify_over<S: Alter + Drop, T: Alter, R: BufRead + Drop>(
    alloc: Global,
    conn: Connection<S>,
    journal: R,
    office: &mut Connection<T>,
    kept: Option<KeptSeal>,
    mark: u32,
) -> Result<Verified, Unverified>
    requires clean { (x : Held S) → HasCleanDisk (state S.Store x) }
    requires new { IsIdle (state S.Store conn) }
    requires empty { IsEmpty (state S.Store conn) }
    requires idle { IsIdle (state T.Store office.old) }
    ensures looked { HasLooked (state T.Store office.old) (state T.Store office.new) }
    ensures verified { HasCleanDisk (state T.Store office.new) → IfOk result
        (IsVerified (R.remaining journal) T.Store kept mark office.new) }
    ensures unverified { HasCleanDisk (state T.Store office.new) → IfErr result
        (IsUnverifiedOver (R.remaining journal) T.Store S.Store kept mark office.old office.new) }
{
    match rebuild(alloc, conn, journal, line_of(kept)) {
        Ok(rebuilt) => {
            if !is_kept(kept, rebuilt.at) {
                return Err(Unverified::OtherSeal);
            }
            let events = rebuilt.events;
            let seal = rebuilt.seal;
            let lines = rebuilt.lines;
            let mut built = rebuilt.office.into_connection();
            match compare(alloc, &mut built, office) {
                Ok(None) => {
                    if lines < mark as u64 {
                        Err(Unverified::Differs(Difference::Line))
                    } else {
                        Ok(Verified {
                            events,
                            seal,
                            lines,
                        })
                    }
                }
                Ok(Some(difference)) => Err(Unverified::Differs(difference)),
                Err(fault) => Err(Unverified::Fault(fault)),
            }
        }
        Err((refused, _)) => Err(Unverified::Refused(refused)),
    }
}

/// Whether an office, whose tables have this mark, is the one of a journal: that has the seal that was
/// kept, where one was; built anew from it in memory and compared with it table by table, the office's
/// tables are the same; and the mark isn't above the number of the lines. The number of its events, the
/// seal of the journal and the number of its lines. Nothing of the office is changed.
///
/// # Errors
///
/// `Refused` with the first line by which no office is built anew, and why; else `OtherSeal`; else
/// `Differs` with the first row that one of the two has and the other hasn't, or has otherwise, or
/// with the mark; else the fault.
pub fn verify<T: Alter, R: BufRead + Drop>(
    alloc: Global,
    journal: R,
    office: &mut Connection<T>,
    kept: Option<KeptSeal>,
    mark: u32,
) -> Result<Verified, Unverified>
    requires { IsIdle (state T.Store office.old) }
    ensures looked { HasLooked (state T.Store office.old) (state T.Store office.new) }
    ensures verified { HasCleanDisk (state T.Store office.new) → IfOk result
        (IsVerified (R.remaining journal) T.Store kept mark office.new) }
    ensures unverified { HasCleanDisk (state T.Store office.new) → IfErr result
        (IsUnverified (R.remaining journal) T.Store kept mark office.old office.new) }
{
    let conn = match open_in_memory(alloc) {
        Ok(conn) => conn,
        Err(refused) => return Err(Unverified::Fault(Fault::NoMemory(refused.into()))),
    };
    verify_over(alloc, conn, journal, office, kept, mark)
}
