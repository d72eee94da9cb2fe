//! What a crash leaves of a journal, apart from any call. Each is a function without a parameter
//! whose contract is the law; it does nothing.

ghost use Rattle.std.specs.Prelude.{All, IsTrue, List, ℕ};
ghost use Rattle.sqlite.specs.Held.{Held};
ghost use Rattle.sealed_log.specs.Log.{bodies_of};
ghost use Rattle.sealed_log.specs.Sealed.{IsBody, sealed_text};
ghost use Rattle.sealed_log.specs.declared.log.SealedLog.{SealedLog};
ghost use Rattle.sealed_log.specs.Told.{told};
ghost use Rattle.office_policy.specs.History.{History};
ghost use Rattle.journal.specs.Begun.{IsLeftOf};
ghost use Rattle.journal.specs.Journal.{IsJournalOf, Says};
ghost use Rattle.journal.specs.Journals.{BeginsWith};
ghost use Rattle.journal.specs.declared.journaled.Journaled.{Journaled};
ghost use Rattle.journal_office.specs.Left.{HasOwn};
ghost use Rattle.journal_office.specs.Mending.{TellsOf};
ghost use Rattle.journal_office.specs.Opening.{IsReopened};

use sqlite::Alter;
use sqlite_disk::Disk;

/// The journal of a history tells just that. What a crash may leave of it with a begun line tells it, or
/// it and one event more that the policy allows then, where no line is sealed there but the one that
/// was being written.
pub fn what_a_crash_left_tells_the_history()
    ensures journal { (h : History) (file : List ℕ) → IsJournalOf file h → Says (told file) h }
    ensures begun { (h : History) (file : List ℕ) (left : IsLeftOf h file) → HasOwn h file left
        → TellsOf h (told file) }
{}

/// A journal that is opened again begins with all the lines that stood in its file, as far as they are
/// sealed there one behind the other.
pub fn an_opened_journal_begins_with_its_lines<S: Alter, D: Disk>()
    ensures { (mark : ℕ) (old : Held S) (log : SealedLog D D.Disk)
        (x : Journaled (Held S) (SealedLog D D.Disk)) (bodies : List (List ℕ)) → All IsBody bodies
        → BeginsWith (sealed_text bodies) (D.seen log.disk)
        → IsReopened S.Store D.Disk mark old log x → IsTrue (D.is_clean x.journal.disk)
        → BeginsWith bodies (bodies_of D.Disk x.journal) }
{}
