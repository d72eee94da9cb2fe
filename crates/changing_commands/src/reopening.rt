//! An office that one command left in files is the one that the next command serves. The functions
//! are laws, and do nothing.

ghost use Rattle.std.specs.Prelude.{ℕ, List};
ghost use Rattle.changing_commands.specs.Hosts.{DeskIsLeft, ExchangesAreLeft, FoundingIsLeft};
ghost use Rattle.changing_commands.specs.Hosts.{MigrationIsLeft, RebuildingIsLeft};
ghost use Rattle.changing_commands.specs.KeptHosts.{KeptDeskIsLeft, KeptExchangesAreLeft};
ghost use Rattle.changing_commands.specs.KeptHosts.{KeptFoundingIsLeft, MarkingIsLeft};

use command_host::{Journals, PassFiles};
use sqlite::{Connection, FileStore};
use sqlite_disk::Disk;

/// What `init` founds and closes is left in its files, and where files hold the office of a lawful
/// history, `desk` and `serve` leave it with the events of what they carried out: as the files read
/// now, and after a crash. Where files hold the tables of a history under schema 1, `migrate`
/// leaves its office.
pub fn a_closed_office_is_left_in_its_files<D: Disk + Drop>(_conn: &Connection<FileStore<D>>)
    ensures founding { FoundingIsLeft D.Disk }
    ensures desk { DeskIsLeft D.Disk }
    ensures exchanges { ExchangesAreLeft D.Disk }
    ensures migration { MigrationIsLeft D.Disk }
{}

/// Where files hold the office of a lawful history, and the file of its journal was what a crash may
/// leave of that, `desk` and `serve` with this journal leave both of one history, with the events of
/// what they carried out: the office as its files read now, and after a crash; and the journal,
/// unless a fault has shut it, with just this history. It is the one before, or that and one event
/// more, which changes none of its tables. So `verify --mark` leaves both, and `init` with a journal
/// those that it begins. A mark that is set is never above the lines of the journal.
pub fn a_kept_office_is_left_with_its_journal<D: Disk + Drop, J: Journals>(
    _conn: &Connection<FileStore<D>>,
    _journals: &J,
)
    ensures desk { (journals : J) (path : List ℕ)
        → KeptDeskIsLeft D.Disk J.File.Disk (J.opens journals path) }
    ensures exchanges { (journals : J) (path : List ℕ)
        → KeptExchangesAreLeft D.Disk J.File.Disk (J.opens journals path) }
    ensures marking { (journals : J) (path : List ℕ)
        → MarkingIsLeft D.Disk J.File.Disk (J.opens journals path) }
    ensures founding { (journals : J) (path : List ℕ)
        → KeptFoundingIsLeft D.Disk J.File.Disk (J.creates journals path) }
{}

/// What `rebuild` builds of a journal and closes is left in its files: the office of the history that
/// the journal is of, as the files read now, and after a crash.
pub fn a_rebuilt_office_is_left_in_its_files<D: Disk + Drop, F: PassFiles>(
    _conn: &Connection<FileStore<D>>,
    _files: &F,
)
    ensures { (files : F) (path : List ℕ)
        → RebuildingIsLeft D.Disk (F.opens files path) F.File.remaining }
{}
