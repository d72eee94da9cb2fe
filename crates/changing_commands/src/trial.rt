//! The trial desk.

ghost use Rattle.std.specs.Prelude.{◌≡◌, IfErr, IfOk, OnOk};
ghost use Rattle.sqlite.specs.Held.{Held, state};
ghost use Rattle.desk_lines.specs.Notes.{AreNotes};
ghost use Rattle.memory_database.specs.MemoryStore.{over_memory};
ghost use Rattle.office_store.specs.Shown.{IsIdle};
ghost use Rattle.review_office.specs.Meant.{meaning_over};
ghost use Rattle.changing_commands.specs.Foundings.{IsFoundedAs, IsFoundedBy};
ghost use Rattle.changing_commands.specs.Lines.{HasAnswered, HasStopped};
ghost use Rattle.changing_commands.specs.Served.{MayNote};
ghost use Rattle.changing_commands.specs.Trials.{trial_founding, IsTrial};
ghost use Rattle.streams.specs.CallsLeft.{HasCallsLeft, HasFaultsLeft};
ghost use Rattle.no_memory.specs.Witness.{witness};

use crate::founding::{Founding, founding_of};
use crate::init::found_in;
use crate::lines::{DeskEnded, answer_lines};
use command_host::{CommandFault, FoundingWordsFault};
use memory_database::{MemoryStore, open_in_memory, want_of_memory};
use office_founding::FoundingFault;
use review_office::Office;
use sqlite::{Alter, Connection};
use std::alloc::Global;
use std::io::{Read, Write};
use streams::Counted;

// The SHA-256 of the token abc.
const DIGEST: &str = "ba7816bf8f01cfea414140de5dae2223b00361a396177a9cb410ff61f20015ad";

// The founding of the office that the trial desk begins with: its first user is root of the team
// office, a registrar with the token abc, and its one listed capability is CAP_SYS_ADMIN.
#[tactic(auto, unfolding(crate::specs::Trials::trial_founding))]
fn trial_founding(alloc: Global) -> Result<Founding, FoundingWordsFault>
    ensures founding { IfOk result (λ founding. trial_founding ≡ Ok founding) }
    ensures memory { IfErr result (λ why. why ≡ FoundingWordsFault.NoMemory witness) }
{
    founding_of(alloc, "root", "office", DIGEST, &["CAP_SYS_ADMIN"])
}

// The office of a founding over a connection to an empty store, which is let go of where there is none.
fn found_over<S: Alter + Drop>(
    conn: Connection<S>,
    founding: &Founding,
) -> Result<Office<S>, FoundingFault>
    requires { IsIdle (state S.Store conn) }
    ensures { IfOk result (IsFoundedBy S.Store founding.now) }
{
    match found_in(conn, founding) {
        Ok(office) => Ok(office),
        Err((failed, _)) => Err(failed),
    }
}

// The office of that founding, in memory.
fn trial_office(alloc: Global) -> Result<Office<MemoryStore>, CommandFault>
    ensures founded { IfOk result (IsFoundedAs over_memory trial_founding) }
    ensures fault { IfErr result (λ fault. fault ≡ CommandFault.NoMemory witness) }
{
    let founding = match trial_founding(alloc) {
        Ok(founding) => founding,
        Err(FoundingWordsFault::NoMemory(witness)) => return Err(CommandFault::NoMemory(witness)),
        Err(_) => unreachable!(),
    };
    let conn = match open_in_memory(alloc) {
        Ok(conn) => conn,
        Err(refused) => return Err(CommandFault::NoMemory(refused.into())),
    };
    match found_over(conn, &founding) {
        Ok(office) => Ok(office),
        Err(failed) => Err(CommandFault::NoMemory(want_of_memory(failed))),
    }
}

// Answers the lines of a reader at an office, which is let go of.
fn answer_over<S: Alter + Drop, R: Read, W: Write, E: Write>(
    mut office: Office<S>,
    alloc: Global,
    input: &mut Counted<R>,
    output: &mut Counted<W>,
    errors: &mut Counted<E>,
) -> DeskEnded
    requires reads { HasCallsLeft input.old }
    requires writes { HasFaultsLeft output.old }
    ensures answered { OnOk result.ended ((left : Held S) × HasAnswered W.contents E.contents
        (meaning_over S.Store) (R.remaining input.old.inner) output.old output.new
        errors.old errors.new result.witness office left) }
    ensures stopped { IfErr result.ended (λ why. (left : Held S) × HasStopped W.contents E.contents
        (meaning_over S.Store) (R.remaining input.old.inner) (R.remaining input.new.inner)
        output.old output.new errors.old errors.new result.witness why office left) }
    ensures noted { AreNotes E.contents errors.old errors.new }
{
    answer_lines(&mut office, alloc, input, output, errors)
}

/// Answers the lines of a reader at the trial desk, and notes those that are no requests.
pub fn serve_trial<R: Read, W: Write, E: Write>(
    alloc: Global,
    input: &mut Counted<R>,
    output: &mut Counted<W>,
    errors: &mut Counted<E>,
) -> DeskEnded
    requires reads { HasCallsLeft input.old }
    requires writes { HasFaultsLeft output.old }
    ensures tried { IsTrial W.contents E.contents
        (R.remaining input.old.inner) (R.remaining input.new.inner)
        output.old output.new errors.old errors.new result.witness result.ended }
    ensures noted { MayNote (AreNotes E.contents) errors.old errors.new }
{
    match trial_office(alloc) {
        Ok(office) => answer_over(office, alloc, input, output, errors),
        Err(fault) => DeskEnded::unbegun(fault),
    }
}
