//! An office is opened again with its journal.

ghost use Rattle.std.specs.Prelude.{IfOk, IfErr};
ghost use Rattle.journal_office.specs.Opening.{IsHandedBack, IsReopened};

use crate::mending::mend;
use journal::Journaled;
use journal_faults::NotReopened;
use review_office::Office;
use sealed_log::SealedLog;
use sqlite::Alter;
use sqlite_disk::Disk;
use std::alloc::Global;

/// An office with its journal in a sealed log; or why not, and both.
pub type Reopened<S, D> = Result<
    Journaled<Office<S>, SealedLog<D>>,
    (NotReopened, Office<S>, SealedLog<D>),
>;

/// Opens an office again, whose tables have this mark, with the journal that a crash left of it, which
/// is mended first, as `mend` has it.
///
/// # Errors
///
/// Those of `mend`. The office is handed back, with nothing of it changed, and the log, as `mend`
/// left it.
pub fn reopen<S: Alter + Drop, D: Disk + Drop>(
    alloc: Global,
    office: Office<S>,
    log: SealedLog<D>,
    mark: u32,
) -> Reopened<S, D>
    ensures opened { IfOk result (λ x. IsReopened S.Store D.Disk mark office log x) }
    ensures back { IfErr result (λ refusal.
        IsHandedBack S.Store D.Disk mark office log refusal.0 refusal.1 refusal.2) }
{
    let mut office = office;
    let mut log = log;
    match mend(alloc, &mut office, &mut log, mark) {
        Ok(is_settled) => Ok(Journaled::new(office, log, is_settled)),
        Err(why) => Err((why, office, log)),
    }
}
