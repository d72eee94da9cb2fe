//! An office of schema 1 that was migrated is the office of its history. The function is a law, and
//! does nothing.

ghost use Rattle.std.specs.Prelude.{Ok};
ghost use Rattle.sqlite.specs.Held.{Held, state};
ghost use Rattle.sqlite.specs.State.{HasCleanDisk};
ghost use Rattle.office_founding.specs.Migration.{IsMigration, ShowsOld};
ghost use Rattle.office_founding.specs.declared.fault.MigrationFault.{MigrationFault};
ghost use Rattle.office_policy.specs.Handled.{Stands};
ghost use Rattle.office_policy.specs.History.{History};
ghost use Rattle.office_policy.specs.Lawful.{IsLawfulHistory};
ghost use Rattle.office_policy.specs.TablesOf.{tables_of};
ghost use Rattle.review_office.specs.Meant.{meaning_over};
ghost use Rattle.review_office.specs.Opened.{Answers, AnswersAll, IsMigrated, IsOver};

use crate::office::Office;
use sqlite::Alter;

/// Where a store showed, under schema 1, the tables of a lawful history, the office over what
/// `migrate` left of it stands, and is of that history: it answers each request, and each list of
/// them, as the history has it, which is the answer that it was. `migrate` and [`Office::over`]
/// ensure the premises.
pub fn a_migrated_office_is_of_its_history<S: Alter>(office: &Office<S>)
    ensures reached { (h : History) (old migrated : Held S) → IsLawfulHistory h
        → ShowsOld (state S.Store old) (tables_of h)
        → IsMigration {E = MigrationFault} (state S.Store old) (state S.Store migrated) (Ok (tt {0}))
        → IsOver S.Store migrated office.now → IsMigrated S.Store h office.now }
    ensures stands { (h : History) → IsMigrated S.Store h office.now
        → HasCleanDisk (state S.Store office.now) → Stands (meaning_over S.Store) h office.now }
    ensures answers { (h : History) → IsMigrated S.Store h office.now
        → Answers S.Store h office.now }
    ensures answers_all { (h : History) → IsMigrated S.Store h office.now
        → AnswersAll S.Store h office.now }
{}
