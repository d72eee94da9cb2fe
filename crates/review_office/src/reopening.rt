//! An office that was closed, or that a crash left, and is opened again is one of its history. Each
//! function here is a law, and does nothing.

ghost use Rattle.std.specs.Prelude.{IsTrue};
ghost use Rattle.sqlite_wal.specs.Files.{outcomes};
ghost use Rattle.sqlite_wal.specs.Recovery.{Image};
ghost use Rattle.sqlite.specs.Closing.{IsCopied};
ghost use Rattle.sqlite.specs.Files.{file_state, image_of, IsOpened};
ghost use Rattle.sqlite.specs.Start.{FindsIn};
ghost use Rattle.sqlite.specs.State.{HasCleanDisk};
ghost use Rattle.office_founding.specs.Reopening.{HoldsOffice};
ghost use Rattle.office_store.specs.Shown.{IsIdle};
ghost use Rattle.office_policy.specs.History.{History};
ghost use Rattle.office_policy.specs.Lawful.{IsLawfulHistory};
ghost use Rattle.office_policy.specs.TablesOf.{tables_of};
ghost use Rattle.review_office.specs.Offices.{IsOffice};

use sqlite::{Connection, FileStore, Files};
use sqlite_disk::Disk;

/// A connection that has opened files with the tables of a history is an office of that history.
/// `Connection::open_from` ensures the premises on it. `Office::over` then takes it.
pub fn opened_files_of_a_history_are_its_office<D: Disk + Drop>(opened: &Connection<FileStore<D>>)
    ensures { (h : History) (image : Image) → IsLawfulHistory h → HoldsOffice image (tables_of h)
        → FindsIn image (file_state opened.now) → IsOpened opened.now
        → IsIdle (file_state opened.now) → IsOffice h (file_state opened.now) }
{}

/// The files of an office that was closed have the tables of its history, as they read now and
/// after a crash. `Connection::close_files` ensures `IsCopied` of the files that it gives back.
pub fn files_of_a_closed_office_have_its_history<D: Disk + Drop>(
    closed: &Connection<FileStore<D>>,
    files: &Files<D>,
)
    ensures now { (h : History) → IsOffice h (file_state closed.now)
        → HasCleanDisk (file_state closed.now) → IsTrue (file_state closed.now).is_open
        → IsCopied closed.now files.now
        → HoldsOffice (image_of D.Disk files.now) (tables_of h) }
    ensures crash { (h : History) → IsOffice h (file_state closed.now)
        → HasCleanDisk (file_state closed.now) → IsTrue (file_state closed.now).is_open
        → IsCopied closed.now files.now
        → (left : Image) → outcomes D.Disk files.now.log files.now.db left
        → HoldsOffice left (tables_of h) }
{}
