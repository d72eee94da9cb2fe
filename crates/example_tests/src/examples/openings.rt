//! What a crash left of a journal, and an office that is opened again with it.

ghost use Rattle.std.specs.Prelude.{◌≡◌, [], ◌∷◌, ℕ, true, false};
ghost use Rattle.sqlite.specs.Held.{Held};
ghost use Rattle.sealed_log.specs.declared.log.SealedLog.{SealedLog};
ghost use Rattle.journal.specs.Lines.{happened, strike, text_of};
ghost use Rattle.journal.specs.declared.journaled.Journaled.{Journaled};
ghost use Rattle.journal_office.specs.Mending.{IsMended, SaysOther};
ghost use Rattle.journal_office.specs.Opening.{IsHandedBack, IsReopened};
ghost use Rattle.journal_faults.specs.declared.not_reopened.NotReopened.{NotReopened};
ghost use Rattle.journal_faults.specs.declared.not_reopened.NotReopened.TheVariants as whys;
ghost use Rattle.office_words.specs.declared.fault.Fault.TheVariants as faults;
ghost use Rattle.example_tests.specs.Examples.{IsAfter, enrols, founds, founding};
ghost use Rattle.example_tests.specs.JournalExamples.{first_line, first_lines, HasBodies, HasMet};
ghost use Rattle.example_tests.specs.JournalExamples.{IsCleanOffice, IsUnclean, MayLeaveNothing};
ghost use Rattle.example_tests.specs.JournalExamples.{ShowsFounding, one, with_log};
ghost use Rattle.no_memory.specs.Witness.{witness};

use sqlite::Alter;
use sqlite_disk::Disk;

/// A mended journal has the lines of one, and at most the line that strikes out the last.
pub fn examples_of_mended_journals()
    ensures whole { IsMended first_line first_line }
    ensures struck { IsMended first_line (text_of (happened (founds 5)) ∷ text_of strike ∷ []) }
    ensures missing { IsMended first_line [] → ⊥ }
    ensures carried_out { IsMended first_line first_lines → ⊥ }
    ensures no_journal { IsMended (text_of strike ∷ []) (text_of strike ∷ []) → ⊥ }
{}

/// A journal is another's where the mark is above its lines, or where the tables show neither its
/// writers nor those without the last event; not where a crash may have left it so.
pub fn examples_of_journals_of_others()
    ensures mark_above { SaysOther 2 founding first_line }
    ensures other_founding { SaysOther 1 (founds 6 ∷ []) first_line }
    ensures own { SaysOther 1 founding first_line → ⊥ }
    ensures one_more { SaysOther 1 founding
        (text_of (happened (founds 5)) ∷ text_of (happened enrols) ∷ []) → ⊥ }
{}

/// An office is opened again with its own journal, and goes on behind the last line of it: not with
/// another's, or under a mark above its lines; not where the last line is taken for that of an
/// event, or lines are missing; not while the journal is shut or has an event that didn't happen.
pub fn examples_of_reopened_offices<S: Alter, D: Disk>()
    ensures own { (old : Held S) (log : SealedLog D D.Disk) → ShowsFounding S.Store old
        → HasBodies D.Disk log first_line
        → IsReopened S.Store D.Disk 1 old log (with_log old log false) }
    ensures mark_above { (old : Held S) (log : SealedLog D D.Disk)
        (x : Journaled (Held S) (SealedLog D D.Disk)) → HasBodies D.Disk log first_line
        → HasBodies D.Disk x.journal first_line → IsReopened S.Store D.Disk 2 old log x → ⊥ }
    ensures other_office { (old : Held S) (log : SealedLog D D.Disk)
        (x : Journaled (Held S) (SealedLog D D.Disk)) → HasBodies D.Disk log first_line
        → IsCleanOffice S.Store (founds 6 ∷ []) old → IsCleanOffice S.Store (founds 6 ∷ []) x.office
        → HasBodies D.Disk x.journal first_line → IsReopened S.Store D.Disk 1 old log x → ⊥ }
    ensures unsettled { (old : Held S) (log : SealedLog D D.Disk)
        → IsCleanOffice S.Store founding old → HasBodies D.Disk log first_lines
        → IsReopened S.Store D.Disk 1 old log (with_log old log false) → ⊥ }
    ensures missing { (old : Held S) (log : SealedLog D D.Disk)
        (x : Journaled (Held S) (SealedLog D D.Disk)) → HasBodies D.Disk log first_lines
        → HasBodies D.Disk x.journal first_line → IsReopened S.Store D.Disk 1 old log x → ⊥ }
    ensures shut { (old : Held S) (log : SealedLog D D.Disk)
        (x : Journaled (Held S) (SealedLog D D.Disk)) → x.journal.is_open ≡ false
        → IsReopened S.Store D.Disk 1 old log x → ⊥ }
    ensures stray { (old : Held S) (log : SealedLog D D.Disk)
        (x : Journaled (Held S) (SealedLog D D.Disk)) → x.has_stray ≡ true
        → IsReopened S.Store D.Disk 1 old log x → ⊥ }
{}

/// An office and a journal are handed back as they were, with why: not where a fault is forgotten,
/// or was met by no call; not for a file that is the journal; not another's that was written to.
pub fn examples_of_what_is_handed_back<S: Alter, D: Disk>()
    ensures no_memory { (old : Held S) (log : SealedLog D D.Disk)
        → IsHandedBack S.Store D.Disk 1 old log (whys.NoMemory witness) old log }
    ensures unsealed { (old : Held S) (log : SealedLog D D.Disk) → HasBodies D.Disk log []
        → IsHandedBack S.Store D.Disk 1 old log whys.Unsealed old log }
    ensures mark_above { (old : Held S) (log : SealedLog D D.Disk) → HasBodies D.Disk log first_line
        → IsHandedBack S.Store D.Disk 2 old log whys.OtherJournal old log }
    ensures forgotten { (old office : Held S) (log after : SealedLog D D.Disk) (why : NotReopened)
        → IsAfter S.Store old true 4 → IsAfter S.Store office true 3
        → IsHandedBack S.Store D.Disk 1 old log why office after → ⊥ }
    ensures clean_again { (old office : Held S) (log after : SealedLog D D.Disk) (why : NotReopened)
        → IsUnclean D.Disk log → HasBodies D.Disk after first_line
        → IsHandedBack S.Store D.Disk 1 old log why office after → ⊥ }
    ensures sealed { (old office : Held S) (log after : SealedLog D D.Disk)
        → HasBodies D.Disk log (one ∷ []) → HasBodies D.Disk after (one ∷ [])
        → IsHandedBack S.Store D.Disk 1 old log whys.Unsealed office after → ⊥ }
    ensures not_changed { (old office : Held S) (log after : SealedLog D D.Disk) (at : ℕ)
        → HasBodies D.Disk log first_line → HasBodies D.Disk after first_line
        → IsHandedBack S.Store D.Disk 1 old log (whys.Changed at) office after → ⊥ }
    ensures no_lines { (old office : Held S) (log after : SealedLog D D.Disk)
        → HasBodies D.Disk log [] → HasBodies D.Disk after []
        → IsHandedBack S.Store D.Disk 1 old log whys.NotALine office after → ⊥ }
    ensures own { (old office : Held S) (log after : SealedLog D D.Disk)
        → IsCleanOffice S.Store founding old → IsCleanOffice S.Store founding office
        → HasBodies D.Disk log first_line → HasBodies D.Disk after first_line
        → IsHandedBack S.Store D.Disk 1 old log whys.OtherJournal office after → ⊥ }
    ensures written { (old office : Held S) (log after : SealedLog D D.Disk)
        → HasBodies D.Disk log first_line → HasBodies D.Disk after first_lines
        → IsHandedBack S.Store D.Disk 2 old log whys.OtherJournal office after → ⊥ }
    ensures no_cause { (old office : Held S) (log after : SealedLog D D.Disk)
        → IsCleanOffice S.Store founding old → IsCleanOffice S.Store founding office
        → IsAfter S.Store old true 3 → IsAfter S.Store office true 3
        → IsHandedBack S.Store D.Disk 1 old log (whys.Office faults.Full) office after → ⊥ }
    ensures no_call { (old office : Held S) (log after : SealedLog D D.Disk)
        → HasBodies D.Disk log first_line → HasBodies D.Disk after first_line
        → HasMet D.Disk log 3 → HasMet D.Disk after 3
        → IsHandedBack S.Store D.Disk 1 old log whys.Log office after → ⊥ }
    ensures lost { (old office : Held S) (log after : SealedLog D D.Disk) (why : NotReopened)
        → HasBodies D.Disk log first_line → MayLeaveNothing D.Disk after
        → IsHandedBack S.Store D.Disk 1 old log why office after → ⊥ }
{}
