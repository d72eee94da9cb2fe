//! A journal is begun.

ghost use Rattle.std.specs.Prelude.{◌≡◌, [], ◌∷◌, true, IfErr, IfOk, IsTrue};
ghost use Rattle.std.specs.Prelude.{OnOk, string_bytes};
ghost use Rattle.sealed_log.specs.Faults.{IsLater};
ghost use Rattle.sealed_log.specs.Log.{bodies_of};
ghost use Rattle.sealed_log.specs.Sealed.{IsBody};
ghost use Rattle.office_policy.specs.EventForms.{HasForms};
ghost use Rattle.changing_commands.specs.Foundings.{founding_event};
ghost use Rattle.changing_commands.specs.Journals.{line_of, IsBegunBy, IsUnbegun};
ghost use Rattle.no_memory.specs.Witness.{witness};

use crate::founding::Founding;
use command_host::{CommandFault, Journals, fault_of};
use journal::{Line, text};
use office_policy::{Event, founding_forms};
use sealed_log::{LogFault, Nothing, SealedLog};
use sqlite_disk::Disk;
use std::alloc::{AllocError, Global};

// A founding has the forms of an event.
fn read_forms(founding: &Founding)
    ensures { HasForms (founding_event founding.now) }
{
    founding_forms(
        &founding.name,
        &founding.team,
        &founding.digest,
        founding.listed,
    );
}

// The text of a founding.
fn founding_text(alloc: Global, founding: &Founding) -> Result<String, AllocError>
    ensures { IfOk result (λ text. string_bytes text ≡ line_of founding.now) }
{
    let event = Event::Founded {
        user: founding.name.clone()?,
        team: founding.team.clone()?,
        digest: founding.digest,
        listed: founding.listed,
    };
    text(alloc, &Line::Event(event))
}

/// The line of a founding in a journal, which is made before any file is.
///
/// # Errors
///
/// `NoMemory`.
pub(crate) fn founding_line(alloc: Global, founding: &Founding) -> Result<String, CommandFault>
    ensures line { IfOk result (λ line. string_bytes line ≡ line_of founding.now) }
    ensures memory { IfErr result (λ why. why ≡ CommandFault.NoMemory witness) }
{
    match founding_text(alloc, founding) {
        Ok(line) => Ok(line),
        Err(refused) => Err(CommandFault::NoMemory(refused.into())),
    }
}

// Puts a body into a log in which nothing is sealed.
fn put_first<D: Disk>(alloc: Global, log: &mut SealedLog<D>, body: &[u8]) -> Result<(), LogFault>
    requires { IsBody body.now }
    ensures opened { OnOk result (log.new.is_open ≡ true) }
    ensures clean { IsTrue (D.is_clean log.new.disk) → IsTrue (D.is_clean log.old.disk) }
    ensures counts { IsLater D.Disk log.old.disk log.new.disk }
    ensures has { OnOk result (IsTrue (D.is_clean log.new.disk)
        → bodies_of D.Disk log.new ≡ body.now ∷ []) }
{
    let found = log.read(alloc, &mut Nothing)?;
    if found.at() > 0 {
        return Err(LogFault::Disk);
    }
    log.open_at(&found)?;
    log.put(alloc, body)?;
    Ok(())
}

/// Begins a journal at a path by the line of a founding, which a crash then leaves.
///
/// # Errors
///
/// `JournalThere` where something is at the path, and `Busy` where another command has it open by
/// then: that is left as it is. `Journal` where no file can be made, `NoMemory` where there was none
/// for that, and `Journal` where it can't be written: it is removed then.
pub(crate) fn begin_journal<J: Journals>(
    journals: &J,
    alloc: Global,
    path: &str,
    founding: &Founding,
    line: &str,
) -> Result<SealedLog<J::File>, CommandFault>
    requires { line.now ≡ line_of founding.now }
    ensures begun { IfOk result (IsBegunBy J.File.Disk (J.creates journals.now path.now)
        founding.now) }
    ensures unbegun { IfErr result (IsUnbegun J.File.Disk (J.creates journals.now path.now)
        (J.removes journals.now path.now)) }
{
    read_forms(founding);
    let file = match journals.create(path) {
        Ok(file) => file,
        Err(why) => return Err(fault_of(why)),
    };
    let mut log = SealedLog::new(file);
    match put_first(alloc, &mut log, line.as_bytes()) {
        Ok(()) => Ok(log),
        Err(_) => {
            // That it wasn't written is reported, and not whether it was removed.
            let _ = journals.remove(path, log.into_disk());
            Err(CommandFault::Journal)
        }
    }
}
